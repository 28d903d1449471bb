// Courses and plans on an evening, and what a request to one and its response are.
#![tactic(auto)]

pub mod planning;
pub mod request;
mod run;

// The program's answers, as the text of one line each.
#![tactic(auto)]

pub mod reply;
pub mod text;

// The course of a book: its bays in the order in which they are passed, and the forecast of visits.
#![tactic(auto)]

pub mod bound;
pub mod course;
mod fill;
mod forecast;
pub mod line;
pub mod start;
pub mod step;

// Books: the trait that everything above is written over, and the price of a plan over any book.
#![tactic(auto)]

pub mod book;
pub mod plan;

// The checked walk over the bytes of a book.
#![tactic(auto)]

mod counts;
mod pieces;
mod places;
mod walk;

pub use places::{Index, Places};
pub use walk::index;

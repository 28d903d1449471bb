// Books that are read from bytes in the house layout, and answered from a copy of those bytes.
#![tactic(auto)]

mod book;
mod copy;
mod kept;
mod tables;
mod told;

pub use book::HouseBook;
pub use copy::read;

// Layers over any book, each a book again: quiet hours, suspensions and pins.
#![tactic(auto)]

pub mod pins;
pub mod quiet;
pub mod stands;
pub mod suspensions;

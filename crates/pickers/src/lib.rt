// Pickers: which of the remaining bays is passed next.
#![tactic(auto)]

pub mod order;
pub mod picker;
pub mod question;

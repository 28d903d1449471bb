// An evening's pins and suspensions, with trials that are kept or dropped by their tickets.
#![tactic(auto)]

pub mod evening;
pub mod marks;
pub mod opened;
pub mod rack;
pub mod ticket;
pub mod trial;

// The search of a book for its cheapest plan below a ceiling: bays are folded where few neighbours let them, else branched.
#![tactic(auto)]

pub mod answer;
mod back;
mod choices;
mod decide;
mod floor;
mod moves;
mod near;
mod places;
pub mod plan;
mod pricing;
mod settle;
mod start;
mod state;
mod table;
mod terms;
mod visit;

// Price kinds: the trait with its laws, and the two kinds that an inn uses, cents and waits.
#![tactic(auto)]

pub mod amount;
pub mod cents;
pub mod counted;
pub mod price;
pub mod stored;
pub mod upto;
pub mod waits;

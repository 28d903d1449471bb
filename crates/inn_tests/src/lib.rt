// Tests over the small inn.
#![tactic(auto)]

#[cfg(test)]
mod inn;
#[cfg(test)]
mod piles;
#[cfg(test)]
mod plans;
#[cfg(test)]
mod reading;

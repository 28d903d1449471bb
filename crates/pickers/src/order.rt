// An order of the bays, made from a list of numbers, and picking by one.
ghost use Rattle.std.specs.Prelude.{◌≡◌, ◌^◌, ◌<◌, true, false, MatchResult};
ghost use Rattle.pickers.specs.Gathered.{mask_in};
ghost use Rattle.pickers.specs.Orders.{permutes, last_in, Last};
ghost use Rattle.refusals.specs.Numbers.{number_of};
ghost use Rattle.std.specs.List.{range_with_len};
ghost use Rattle.pickers.specs.Perms.{order_last};

use crate::picker::Picker;
use crate::question::Question;
use bays::{first, has, with};
use refusals::Refusal;
use std::array;

// Each number from 0 to 23 once.
#[derive(Clone, Copy)]
pub struct Order {
    pub(crate) bays: [u8; 24],
    ghost each: { permutes bays ≡ true },
}

// The numbers below 24 in a list, as a set.
fn gathered(list: &[u8; 24]) -> u32
    ensures { result ≡ mask_in list.now }
{
    // One step a number: a `filter` before the `fold` took twice as long.
    list.iter().fold(
        0,
        |seen, &bay| if bay < 24 { with(seen, bay) } else { seen },
    )
}

impl Order {
    // The order that a list gives; refused unless it has each number from 0 to 23 once. A function and no `TryFrom`: `new` is its
    // public name.
    pub fn new(list: &[u8]) -> Result<Order, Refusal>
        ensures { MatchResult result (λ o. (permutes list.now ≡ true) × (o.bays ≡ list.now)) (λ e. (permutes list.now ≡ false) × (number_of e ≡ 14)) }
    {
        let Ok(bays) = <[u8; 24]>::try_from(list) else {
            return Err(Refusal::NoOrder);
        };
        if gathered(&bays) == first(24) {
            Ok(Order { bays })
        } else {
            Err(Refusal::NoOrder)
        }
    }

    // The order from 0 to 23. `as` loses none of an index below 24, and no `From` narrows one.
    pub fn rising() -> Order
        ensures { result.bays ≡ range_with_len 0 24 }
    {
        Order {
            bays: array::from_fn(|bay| bay as u8),
        }
    }
}

// Takes the last bay of the order that remains.
impl Picker for Order {
    ghost answer = { λ o q. last_in q.remaining o.bays 0 };

    ghost remains = { λ o q p h. (order_last o.bays o.each q.remaining p h).remains };

    fn pick(&self, question: &Question) -> u8
        ensures is { result ≡ last_in question.now.remaining self.now.bays 0 }
        ensures last { 0 < question.now.remaining → question.now.remaining < 2 ^ 24 → Last question.now.remaining self.now.bays result }
    {
        self.bays
            .iter()
            .rev()
            .copied()
            .find(|&bay| has(question.remaining, bay))
            // Where none remains, any number may be answered.
            .unwrap_or(0)
    }
}

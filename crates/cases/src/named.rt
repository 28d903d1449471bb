// Pickers by their names.
ghost use Rattle.cases.specs.Named.{answer_of, answer_remains};

use crate::fault::Fault;
use crate::numbers::numbers;
use fewest::Fewest;
use pickers::order::Order;
use pickers::picker::Picker;
use pickers::question::Question;
use std::alloc::Global;

#[derive(Clone, Copy)]
pub enum Named {
    Order(Order),
    Fewest,
}

impl Picker for Named {
    ghost answer = { answer_of };

    ghost remains = { answer_remains };

    fn pick(&self, question: &Question) -> u8 {
        match self {
            Named::Order(order) => order.pick(question),
            Named::Fewest => Fewest.pick(question),
        }
    }
}

// The order of a list.
fn order(heap: Global, list: &str) -> Result<Order, Fault> {
    let list = numbers(heap, list)?;
    Ok(Order::new(list.as_slice())?)
}

impl Named {
    // The order from 0 to 23 for what is no other name. One name is tested, so there is no table of them.
    pub(crate) fn parse(heap: Global, name: &str) -> Result<Named, Fault> {
        if name == "fewest" {
            return Ok(Named::Fewest);
        }
        match name.strip_prefix("order:") {
            Some(list) => Ok(Named::Order(order(heap, list)?)),
            None => Ok(Named::Order(Order::rising())),
        }
    }
}

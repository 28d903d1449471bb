// Plans that cases ask for.
use crate::fault::Fault;
use crate::named::Named;
use books::book::Book;
use prices::price::Price;
use prices::upto::Upto;
use replies::reply::{Sought, plan_by};
use std::alloc::Global;
use std::num::ParseIntError;

pub(crate) fn sought(
    k: &str,
    cells: &str,
    limit: &str,
    ceiling: &str,
) -> Result<Sought, ParseIntError> {
    Ok(Sought {
        k: k.parse::<i64>()?,
        cells: cells.parse::<usize>()?,
        limit: limit.parse::<u32>()?,
        ceiling: ceiling.parse::<u32>()?,
    })
}

// The plan by the picker of that name, in so many plan bytes.
pub(crate) fn plan_named<const TOP: u32, B: Book<Cost = Upto<TOP>>>(
    heap: Global,
    book: &B,
    name: &str,
    sought: Sought,
    room: usize,
) -> Result<String, Fault>
where
    Upto<TOP>: Price<Offer = u32>,
{
    let picker = Named::parse(heap, name)?;
    let mut bytes = [0; 24];
    let bytes = &mut bytes[..room.min(24)];
    Ok(plan_by(heap, book, &picker, sought, bytes)?)
}

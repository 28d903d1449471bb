// Answers to lines, over the pile of an evening: pins over suspensions over the book, perhaps over its quiet hours.
use crate::case::{Case, Hours};
use crate::courses::{Asked, course_named};
use crate::fault::Fault;
use crate::plans::{plan_named, sought};
use books::book::Book;
use prices::price::Price;
use prices::upto::Upto;
use refusals::Refusal;
use std::alloc::Global;
use trials::evening::Evening;

// The number of a bay, a choice or a rule.
fn number(text: &str) -> Result<u32, Refusal> {
    text.parse::<u32>().map_err(|_| Refusal::UnknownNumber)
}

fn over<const TOP: u32, B: Book<Cost = Upto<TOP>>>(
    heap: Global,
    evening: &mut Evening<B>,
    fields: &[&str],
) -> Result<String, Fault>
where
    Upto<TOP>: Price<Offer = u32>,
{
    match fields {
        ["P", bay, choice] => evening.pin(number(bay)?, number(choice)?)?,
        ["U", bay] => evening.unpin(number(bay)?)?,
        ["S", rule] => evening.suspend(number(rule)?)?,
        ["R", rule] => evening.resume(number(rule)?)?,
        ["L", picker, k, cells, limit, ceiling, bytes] => {
            let sought = sought(k, cells, limit, ceiling)?;
            return plan_named(
                heap,
                evening.pile(),
                picker,
                sought,
                bytes.parse::<usize>()?,
            );
        }
        ["C", picker, k, cells, lines] => {
            let asked = Asked::parse(k, cells, lines)?;
            return course_named(heap, evening.pile(), picker, asked);
        }
        _ => return Err(Fault::Unread),
    }
    Ok(String::from_str(heap, "done")?)
}

impl<const TOP: u32, B: Book<Cost = Upto<TOP>>> Hours<B>
where
    Upto<TOP>: Price<Offer = u32>,
{
    pub(crate) fn answer(&mut self, heap: Global, fields: &[&str]) -> Result<String, Fault> {
        match self {
            Hours::Open(evening) => over(heap, evening, fields),
            Hours::Quiet(evening) => over(heap, evening, fields),
        }
    }
}

// Answers a line over a case, or opens the one that the line gives. Of a refused book the refusal is left; of an `E` line that is
// unread, nothing.
pub(crate) fn answer(
    heap: Global,
    case: &mut Option<Result<Case, Refusal>>,
    fields: &[&str],
) -> Result<String, Fault> {
    if let ["E", mark, _, hex, quiet] = fields {
        *case = None;
        return match Case::open(heap, mark, hex, quiet) {
            Ok(opened) => {
                *case = Some(Ok(opened));
                Ok(String::from_str(heap, "done")?)
            }
            Err(Fault::Refused(refusal)) => {
                *case = Some(Err(refusal));
                Err(Fault::Refused(refusal))
            }
            Err(fault) => Err(fault),
        };
    }
    match case {
        Some(Ok(Case::Cents(opened))) => opened.answer(heap, fields),
        Some(Ok(Case::Waits(opened))) => opened.answer(heap, fields),
        Some(Err(_)) => Err(Fault::Closed),
        None => Err(Fault::Unread),
    }
}

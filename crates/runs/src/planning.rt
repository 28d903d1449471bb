// Courses and plans on an evening: of its pins over its suspensions over the book below.
ghost use Rattle.std.specs.Prelude.{◌≡◌, length};
ghost use Rattle.runs.specs.Planning.{Coursed, Sought};
ghost use Rattle.trials.specs.Follows.{EachSheet, pile_book};
ghost use Rattle.trials.specs.Sheet.{sheet_book};

use books::book::Book;
use course::line::Line;
use layers::pins::Pins;
use layers::suspensions::Suspensions;
use pickers::picker::Picker;
use prices::price::Price;
use refusals::Refusal;
use search::answer::Planned;
use trials::evening::Evening;

// The course of the evening in so many cells, a line for each bay, with its forecast.
pub fn course<P: Price, B: Book<Cost = P>, K: Picker>(
    evening: &Evening<B>,
    picker: &K,
    k: i64,
    cells: usize,
    lines: &mut [Line],
) -> Result<u64, Refusal>
    ensures pile { Coursed (pile_book P.ops B.meaning evening.now.book) (K.answer picker.now) k cells lines.old lines.new result }
    ensures sheet { EachSheet B.meaning evening.now (λ g s. Coursed (sheet_book P.ops g s) (K.answer picker.now) k cells lines.old lines.new result) }
{
    course::course::course(evening.pile(), picker, k, cells, lines)
}

// The cheapest plan of the evening below the offered ceiling, within the limit of visits. What it is sought with stands
// side by side, as in the search's own call.
pub fn plan<P: Price, B: Book<Cost = P>, K: Picker>(
    evening: &Evening<B>,
    picker: &K,
    k: i64,
    limit: u32,
    ceiling: P::Offer,
    scratch: &mut [P],
    bytes: &mut [u8],
) -> Planned<P>
    ensures pile { Sought P.ops (pile_book P.ops B.meaning evening.now.book) (K.answer picker.now) k limit (length scratch.old) (P.accepts ceiling) bytes.old bytes.new result }
    ensures sheet { EachSheet B.meaning evening.now (λ g s. Sought P.ops (sheet_book P.ops g s) (K.answer picker.now) k limit (length scratch.old) (P.accepts ceiling) bytes.old bytes.new result) }
{
    search::plan::plan(evening.pile(), picker, k, limit, ceiling, scratch, bytes)
}

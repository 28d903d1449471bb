// The course of a book and its forecast, as one call.
ghost use Rattle.std.specs.Prelude.{◌≡◌, map, length, MatchResult};
ghost use Rattle.course.specs.Replies.{reply, after, lines_of, Tells};
ghost use Rattle.course.specs.Written.{written};
ghost use Rattle.refusals.specs.Numbers.{number_of};

use crate::bound::Bound;
use crate::fill::{Left, fill};
use crate::forecast::forecast;
use crate::line::Line;
use crate::start::{start, tries};
use bays::first;
use books::book::Book;
use pickers::picker::Picker;
use refusals::Refusal;

// Writes a line for each bay, in passing order.
fn write_lines<B: Book, K: Picker>(book: &B, picker: &K, k: i8, cells: usize, lines: &mut [Line])
    requires { length lines.old ≡ (B.meaning book.now).bays }
    ensures { lines.new ≡ map written (lines_of (B.meaning book.now) (K.answer picker.now) k cells) }
{
    let left = Left {
        masks: start(book),
        remaining: first(lines.len()),
        unused: cells,
    };
    fill(picker, &tries(book), k, left, lines);
}

// Lists the bays in passing order, one line for each, and answers the forecast. Later lines stay. Refused, k outside -1
// to 4 or fewer lines than bays, all lines stay.
pub fn course<B: Book, K: Picker>(
    book: &B,
    picker: &K,
    k: i64,
    cells: usize,
    lines: &mut [Line],
) -> Result<u64, Refusal>
    ensures answers { result ≡ reply (B.meaning book.now) (K.answer picker.now) k cells (length lines.old) }
    ensures writes { lines.new ≡ after (B.meaning book.now) (K.answer picker.now) k cells lines.old }
    ensures tells { MatchResult result (λ n. Tells (B.meaning book.now) lines.new n) (λ e. (number_of e ≡ 10) × (lines.new ≡ lines.old)) }
{
    let k = Bound::try_from(k)?.k();
    let bays = book.bays();
    if lines.len() < bays {
        return Err(Refusal::BadSetting);
    }
    let lines = &mut lines[..bays];
    write_lines(book, picker, k, cells, lines);
    Ok(forecast(lines))
}

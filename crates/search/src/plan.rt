// The search of a book, as one call.
ghost use Rattle.std.specs.Prelude.{◌≡◌, ℕ, ◌≤◌, true, false, length, MatchResult, slice_index};
ghost use Rattle.course.specs.Views.{answers_of};
ghost use Rattle.model.specs.Course.{course_in, forecast};
ghost use Rattle.model.specs.Search.{Sofar};
ghost use Rattle.model.specs.Searched.{search_in};
ghost use Rattle.search.specs.Promise.{Promise};
ghost use Rattle.search.specs.Start.{Ends, outcome_of, bytes_of, taken, allowed, answered, reply, bytes_after};
ghost use Rattle.refusals.specs.declared.Refusal.TheVariants.{BadSetting};

use crate::answer::{Ended, Planned};
use crate::start::{blank_lines, start_force};
use crate::state::{AtLimit, Given, Left, Search};
use bays::first;
use books::book::Book;
use course::bound::Bound;
use course::start::tries;
use pickers::picker::Picker;
use prices::price::Price;
use refusals::Refusal;

// The whole search, under settings that are taken.
fn run<P: Price, B: Book<Cost = P>, K: Picker>(
    book: &B,
    picker: &K,
    k: Bound,
    limit: u32,
    ceiling: P,
    scratch: &mut [P],
) -> Ended<P>
    ensures { Ends result (search_in P.ops (B.meaning book.now) (answers_of (K.answer picker.now)) k.k limit (length scratch.old) ceiling) }
{
    let bays = book.bays();
    let force = start_force(bays, book.rules());
    let mut search = Search {
        choices: tries(book),
        lines: blank_lines(),
        depth: 0,
        best: ceiling,
        plan: None,
        count: 0,
        limit,
        k,
    };
    let left = Left {
        remaining: first(bays),
        force: &force,
        used: 0,
    };
    let visited = search.visit(&Given { book, picker }, &left, scratch);
    search.end(visited)
}

// The answer of a search that has ended. Only a plan that was found is written, one byte for each bay.
fn told<P: Price>(end: Ended<P>, bays: usize, bytes: &mut [u8]) -> Planned<P>
    requires few { bays ≤ 24 }
    requires room { bays ≤ length bytes.old }
    ensures answers { (s : Sofar P) → Ends end s → result ≡ outcome_of s }
    ensures bytes { (s : Sofar P) (i : ℕ) → Ends end s → slice_index bytes.new i ≡ bytes_of s bays bytes.old i }
{
    let visits = end.visits;
    match end.best {
        Err(AtLimit) => Planned::Stopped { visits },
        Ok(None) => Planned::NoPlan { visits },
        Ok(Some(best)) => {
            bytes[..bays].copy_from_slice(&best.plan[..bays]);
            Planned::Found {
                price: best.price,
                visits,
            }
        }
    }
}

// k, if the settings are taken: k from -1 to 4, some visit allowed, and a byte for each bay.
fn settings(k: i64, limit: u32, bays: usize, room: usize) -> Result<Bound, Refusal>
    ensures { MatchResult result (λ b. (taken k limit bays room ≡ true) × (b.k ≡ k)) (λ e. (taken k limit bays room ≡ false) × (e ≡ BadSetting)) }
{
    if limit == 0 || room < bays {
        return Err(Refusal::BadSetting);
    }
    Bound::try_from(k)
}

// The search under settings and a ceiling that are taken, or why it is refused. Its parameters are those of `plan`.
fn searched<P: Price, B: Book<Cost = P>, K: Picker>(
    book: &B,
    picker: &K,
    k: i64,
    limit: u32,
    ceiling: P::Offer,
    scratch: &mut [P],
    bytes: &mut [u8],
) -> Result<Planned<P>, Refusal>
    ensures answers { answered result ≡ reply P.ops (B.meaning book.now) (K.answer picker.now) k limit (length scratch.old) (length bytes.old) (P.accepts ceiling) }
    ensures bytes { (i : ℕ) → slice_index bytes.new i ≡ bytes_after P.ops (B.meaning book.now) (K.answer picker.now) k limit (length scratch.old) (length bytes.old) (P.accepts ceiling) bytes.old i }
{
    let bays = book.bays();
    let k = settings(k, limit, bays, bytes.len())?;
    let ceiling = P::accept(ceiling).ok_or(Refusal::BadCell)?;
    Ok(told(run(book, picker, k, limit, ceiling, scratch), bays, bytes))
}

// Searches a book for its cheapest plan below the offered ceiling, with at most so many visits. A plan that is found is
// written, one byte for each bay, and later bytes stay; in every other case all bytes stay. Refused are k outside -1 to 4,
// a limit of 0, fewer bytes than bays, and then a ceiling that is no price. What the scratch cells hold afterwards is
// left free. Its parameters stand side by side, as the call was asked for.
pub fn plan<P: Price, B: Book<Cost = P>, K: Picker>(
    book: &B,
    picker: &K,
    k: i64,
    limit: u32,
    ceiling: P::Offer,
    scratch: &mut [P],
    bytes: &mut [u8],
) -> Planned<P>
    ensures answers { result ≡ reply P.ops (B.meaning book.now) (K.answer picker.now) k limit (length scratch.old) (length bytes.old) (P.accepts ceiling) }
    ensures bytes { (i : ℕ) → slice_index bytes.new i ≡ bytes_after P.ops (B.meaning book.now) (K.answer picker.now) k limit (length scratch.old) (length bytes.old) (P.accepts ceiling) bytes.old i }
    ensures promise { Promise P.ops (B.meaning book.now) (allowed (B.meaning book.now) k limit (length bytes.old)) (P.accepts ceiling) (forecast (course_in (B.meaning book.now) (answers_of (K.answer picker.now)) k (length scratch.old))) limit bytes.new result }
{
    match searched(book, picker, k, limit, ceiling, scratch, bytes) {
        Ok(planned) => planned,
        Err(refusal) => Planned::Refused(refusal),
    }
}

// Which bay is next, and whether it is folded.
ghost use Rattle.std.specs.Prelude.{◌^◌, ◌<◌, ◌≤◌, length};
ghost use Rattle.course.specs.Views.{answers_of};
ghost use Rattle.search.specs.Force.{Fits};
ghost use Rattle.search.specs.Decisions.{Decides};

use crate::state::{Given, Left, Search};
use bays::neighbours_of;
use books::book::Book;
use course::step::step;
use pickers::picker::Picker;
use prices::price::Price;

// The bay to pass next, and the table of its fold; none where it is branched.
#[derive(Clone, Copy)]
pub(crate) struct Decision {
    pub(crate) bay: u8,
    pub(crate) table: Option<Table>,
}

// The bays that a table is over, and how many cells it has.
#[derive(Clone, Copy)]
pub(crate) struct Table {
    pub(crate) near: u32,
    pub(crate) size: usize,
}

// The step that the course takes, with the bays that its table is over.
pub(crate) fn decide_step<P: Price, B: Book<Cost = P>, K: Picker>(
    search: &Search<P>,
    given: &Given<B, K>,
    left: &Left,
    scratch: &[P],
) -> Decision
    requires fits { Fits (B.meaning given.now.book.now) search.now.choices }
    requires some { 0 < left.now.remaining }
    requires small { left.now.remaining < 2 ^ 24 }
    requires room { left.now.used ≤ length scratch.now }
    ensures { Decides P.ops (B.meaning given.now.book.now) (answers_of (K.answer given.now.picker.now)) search.now left.now scratch.now result }
{
    let nears = search
        .terms(given.book, scratch)
        .nears(left.force, left.remaining);
    let next = step(
        given.picker,
        &search.choices,
        search.k.k(),
        nears,
        left.remaining,
        scratch.len() - left.used,
    );
    let near = neighbours_of(&nears, next.bay);
    Decision {
        bay: next.bay,
        table: next.table.map(|size| Table { near, size }),
    }
}

// The terms of a search, by number: own prices by bay from 0, rules from 24, and the tables of the lines from 88. They stay
// numbers, and no enum of the three kinds, since the flags of the terms in force are indexed by them: an enum between would be one
// match more.
ghost use Rattle.std.specs.Prelude.{◌≡◌, length};
ghost use Rattle.search.specs.Force.{scope_mask, Fits, Sound, Sound_prop};

use crate::state::{Line, Passed, Search};
use books::book::Book;
use prices::price::Price;

// What the terms are read from: a book, its choices, and the lines with their tables' cells.
#[derive(Drop)]
pub(crate) struct Terms<'a, B: Book> {
    pub(crate) book: &'a B,
    pub(crate) choices: &'a [u8; 24],
    pub(crate) lines: &'a [Line; 24],
    pub(crate) cells: &'a [B::Cost],
    // The lengths of arrays, which are not known of those behind a reference.
    ghost wide: { length choices.now ≡ 24 },
    ghost long: { length lines.now ≡ 24 },
    ghost fits: { Fits (B.meaning book.now) choices.now },
    ghost sound: { Sound choices.now lines.now } by { Sound_prop choices.now lines.now },
}

impl<'a, B: Book> Terms<'a, B> {
    // The bays of a term; none for a number beyond the terms.
    pub(crate) fn scope(&self, number: usize) -> u32
        ensures { result ≡ scope_mask (B.meaning self.now.book.now) self.now.lines.now number }
    {
        match number {
            0..24 => 1 << number,
            24..88 => self.book.scope(number - 24),
            88..112 => match self.lines[number - 88].passed {
                Passed::Branched { .. } => 0,
                Passed::Folded { table, .. } => table.near,
            },
            _ => 0,
        }
    }
}

impl<P: Price> Search<P> {
    // The terms of a search of a book.
    pub(crate) fn terms<'a, B: Book<Cost = P>>(
        &'a self,
        book: &'a B,
        cells: &'a [P],
    ) -> Terms<'a, B>
        requires { Fits (B.meaning book.now) self.now.choices }
        ensures book { result.book.now ≡ book.now }
        ensures choices { result.choices.now ≡ self.now.choices }
        ensures lines { result.lines.now ≡ self.now.lines }
        ensures cells { result.cells.now ≡ cells.now }
    {
        Terms {
            book,
            choices: &self.choices,
            lines: &self.lines,
            cells,
        }
    }
}

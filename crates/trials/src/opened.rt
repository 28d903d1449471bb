// An evening as it is opened, and what can be read of one. `as` loses none: at most four trials are open, and a `usize` has room
// for 32 bits.
ghost use Rattle.std.specs.Prelude.{◌≡◌, []};
ghost use Rattle.trials.specs.Changes.{pin_at, off_at, below_of, depth_of};
ghost use Rattle.trials.specs.Follows.{EachSheet, Follows, pile_book};
ghost use Rattle.trials.specs.Sheet.{Ground, ground, Sheet, pin_of, off_of, openings, sheet_book};

use crate::evening::Evening;
use arrayvec::ArrayVec;
use books::book::Book;
use layers::pins::Pins;
use layers::suspensions::Suspensions;
use prices::price::Price;

impl<B: Book> Evening<B> {
    // No bay is pinned, no rule suspended and no trial open.
    pub fn new(number: u32, book: B) -> Evening<B>
        ensures sheet { Follows B.meaning (ground number (B.meaning book)) result [] }
        ensures below { below_of result ≡ book }
    {
        Evening {
            number,
            book: Pins::new(Suspensions::new(book)),
            saved: ArrayVec::new(),
        }
    }

    // The number that the evening was opened under.
    pub fn number(&self) -> u32
        ensures is { result ≡ self.now.number }
        ensures sheet { EachSheet B.meaning self.now (λ g s. result ≡ g.number) }
    {
        self.number
    }

    pub fn open_trials(&self) -> u8
        ensures is { result ≡ depth_of self.now }
        ensures sheet { EachSheet B.meaning self.now (λ g s. result ≡ openings s) }
    {
        self.saved.len() as u8
    }

    // The choice that a bay is pinned to.
    pub fn pin_of(&self, bay: u32) -> Option<u8>
        ensures is { result ≡ pin_at self.now bay }
        ensures sheet { EachSheet B.meaning self.now (λ g s. result ≡ pin_of s bay) }
    {
        self.book.pin_of(bay as usize)
    }

    pub fn is_suspended(&self, rule: u32) -> bool
        ensures is { result ≡ off_at self.now rule }
        ensures sheet { EachSheet B.meaning self.now (λ g s. result ≡ off_of s rule) }
    {
        self.book.below.is_suspended(rule as usize)
    }

    // The book that plans are made of: pins over suspensions over the book below.
    #[tactic(auto, using(crate::proofs::Closes::pile_is))]
    pub fn pile(&self) -> &Pins<Suspensions<B>>
        ensures is { result.now ≡ self.now.book }
        ensures sheet { EachSheet B.meaning self.now (λ g s. pile_book B.Cost.ops B.meaning result.now ≡ sheet_book B.Cost.ops g s) }
    {
        &self.book
    }
}

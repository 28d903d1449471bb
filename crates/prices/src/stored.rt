// Price kinds that a book can hold: the letters of the book's mark, the largest cell, and the price that a cell writes.
ghost use Rattle.std.specs.Prelude.{◌≡◌, ℕ, ◌^◌, ◌<◌, refl};
ghost use Rattle.prices.specs.Amounts.{capped as capped_at};
ghost use Rattle.prices.specs.Cells.{CellLaws};
ghost use Rattle.prices.specs.Kept.{capped_order};
ghost use Rattle.std.proofs.Common.{rules};

use crate::counted::Counted;
use crate::price::Price;
use crate::upto::Upto;

pub trait Stored: Price {
    // The mark as a number of three bytes, the high byte first. It stands in `Counted` too: a kind that counts no amount can be
    // stored as well, and callers name the mark by either trait, which one trait above both would take from them.
    ghost letters: { ℕ };

    ghost top: { ℕ };

    ghost cell: { ℕ → Self };

    fn mark() -> u32
        ensures { result ≡ letters };

    fn limit() -> u32
        ensures { result ≡ top };

    fn from_cell(number: u32) -> Self
        ensures { result ≡ cell number };

    ghost three: { letters < 256 ^ 3 };

    ghost four: { top < 256 ^ 4 };

    ghost stored: { CellLaws Self.Price.ops top cell };
}

impl<const TOP: u32> Stored for Upto<TOP>
where
    Upto<TOP>: Counted,
{
    ghost letters = { ⟦<Upto<TOP> as Counted>⟧.letters };

    ghost top = { TOP };

    ghost cell = { capped_at TOP };

    ghost three = { ⟦<Upto<TOP> as Counted>⟧.three };

    ghost four = { Prim.search rules };

    ghost stored = { record { lowest = refl; highest = refl; ordered = capped_order TOP } };

    fn mark() -> u32 {
        <Self as Counted>::mark()
    }

    fn limit() -> u32 {
        TOP
    }

    fn from_cell(number: u32) -> Upto<TOP> {
        Upto::capped(number)
    }
}

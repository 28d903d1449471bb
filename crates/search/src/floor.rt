// The floor of a visit: what the terms in force cost at least, whatever the bays left choose.
ghost use Rattle.std.specs.Prelude.{◌≡◌, ◌+◌, ◌-◌, ◌≤◌, length};
ghost use Rattle.search.specs.Force.{lowest_from, floor_from};
ghost use Rattle.search.specs.Places.{byte_of, Open};
ghost use Rattle.search.specs.Visit.{State, set_in};

use crate::pricing::Pricing;
use crate::state::{Left, Search};
use bays::has;
use books::book::Book;
use prices::price::Price;

impl<'a, B: Book> Pricing<'a, B> {
    // The least price of a term over the choices of the bays left, from a bay on. It calls itself for the later bays, since
    // each choice of a bay is tried with every choice of those.
    fn lowest(&self, number: usize, left: u32, bay: u8) -> B::Cost
        requires upto { bay ≤ 24 }
        requires opened { Open self.now.terms.now.choices.now left }
        ensures { result ≡ lowest_from B.Cost.ops (B.meaning self.now.terms.now.book.now) self.now.terms.now.choices.now self.now.terms.now.lines.now self.now.terms.now.cells.now number left bay (byte_of self.now.plan) }
    {
        if bay >= 24 {
            return self.value(number);
        }
        if !has(left, bay) || !has(self.terms.scope(number), bay) {
            return self.lowest(number, left, bay + 1);
        }
        let mut best = self.with_choice(bay, 0).lowest(number, left, bay + 1);
        // A choice is the value tried, and not an index.
        for choice in 1..self.terms.choices[usize::from(bay)] {
            let price = self.with_choice(bay, choice).lowest(number, left, bay + 1);
            if !best.at_most(price) {
                best = price;
            }
        }
        best
    }

    // The floor: the least prices of the terms in force, combined.
    pub(crate) fn floor(&self, force: &[bool; 112], left: u32) -> B::Cost
        requires { Open self.now.terms.now.choices.now left }
        ensures { result ≡ floor_from B.Cost.ops (B.meaning self.now.terms.now.book.now) self.now.terms.now.choices.now self.now.terms.now.lines.now self.now.terms.now.cells.now force.now left (byte_of self.now.plan) 0 }
    {
        let mut total = B::Cost::free();
        for (number, on) in force.iter().enumerate().rev() {
            if *on {
                total = self.lowest(number, left, 0).combine(total);
            }
        }
        total
    }
}

impl<P: Price> Search<P> {
    // The floor of a visit, under the choices that its lines set.
    pub(crate) fn floor<B: Book<Cost = P>>(&self, book: &B, left: &Left, scratch: &[P]) -> P
        requires ok { State (B.meaning book.now) self.now self.now.depth left.now (length scratch.now) }
        ensures { result ≡ floor_from P.ops (B.meaning book.now) self.now.choices self.now.lines scratch.now left.now.force.now left.now.remaining (set_in self.now.lines self.now.depth) 0 }
    {
        let terms = self.terms(book, scratch);
        let pricing = Pricing {
            terms: &terms,
            plan: self.choices_set(),
        };
        pricing.floor(left.force, left.remaining)
    }
}

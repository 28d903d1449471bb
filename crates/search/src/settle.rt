// What the terms that touch a bay come to, at each of its choices and at the best of them.
ghost use Rattle.std.specs.Prelude.{◌≡◌, ◌<◌, slice_index};
ghost use Rattle.model.specs.Terms.{least, least_at};
ghost use Rattle.search.specs.Force.{charge_from, trial};
ghost use Rattle.search.specs.Places.{byte_of};

use crate::pricing::Pricing;
use bays::has;
use books::book::Book;
use prices::price::Price;

// The least price over the choices of a bay, and the first choice that has it.
#[derive(Clone, Copy)]
pub(crate) struct Settled<P> {
    pub(crate) price: P,
    pub(crate) choice: u8,
}

impl<'a, B: Book> Pricing<'a, B> {
    // What the terms in force that touch a bay cost.
    fn charge(&self, force: &[bool; 112], bay: u8) -> B::Cost
        ensures { result ≡ charge_from B.Cost.ops (B.meaning self.now.terms.now.book.now) self.now.terms.now.choices.now self.now.terms.now.lines.now self.now.terms.now.cells.now force.now bay (byte_of self.now.plan) 0 }
    {
        let mut total = B::Cost::free();
        for (number, on) in force.iter().enumerate().rev() {
            if *on && has(self.terms.scope(number), bay) {
                total = self.value(number).combine(total);
            }
        }
        total
    }

    // The least over the choices of a bay of what its terms cost, and the first choice that has it. The loop of `lowest` is
    // like this one, but calls its own function and keeps no choice: so each has its own.
    pub(crate) fn settle(&self, force: &[bool; 112], bay: u8) -> Settled<B::Cost>
        requires some { 0 < slice_index self.now.terms.now.choices.now bay }
        ensures price { result.price ≡ least B.Cost.ops (slice_index self.now.terms.now.choices.now bay) (trial B.Cost.ops (B.meaning self.now.terms.now.book.now) self.now.terms.now.choices.now self.now.terms.now.lines.now self.now.terms.now.cells.now force.now bay (byte_of self.now.plan)) }
        ensures choice { result.choice ≡ least_at B.Cost.ops (slice_index self.now.terms.now.choices.now bay) (trial B.Cost.ops (B.meaning self.now.terms.now.book.now) self.now.terms.now.choices.now self.now.terms.now.lines.now self.now.terms.now.cells.now force.now bay (byte_of self.now.plan)) }
    {
        let mut best = Settled {
            price: self.with_choice(bay, 0).charge(force, bay),
            choice: 0,
        };
        // A choice is the value tried, and not an index.
        for choice in 1..self.terms.choices[usize::from(bay)] {
            let price = self.with_choice(bay, choice).charge(force, bay);
            if !best.price.at_most(price) {
                best = Settled { price, choice };
            }
        }
        best
    }
}

// The table of a folded bay, written after the cells in use.
ghost use Rattle.std.specs.Prelude.{◌≡◌, ℕ, ◌+◌, ◌-◌, ◌*◌, ◌<◌, ◌≤◌, length, take, slice_index, slice_index_or, slice_set};
ghost use Rattle.model.specs.Lists.{product};
ghost use Rattle.model.specs.Sets.{has};
ghost use Rattle.model.specs.Terms.{least};
ghost use Rattle.search.specs.Force.{Fits, Under, trial};
ghost use Rattle.search.specs.Places.{bays_from, byte_of, decoded as decoded_of, Open, PlanOk, Few};

use crate::decide::Table;
use crate::places::decoded;
use crate::pricing::Pricing;
use crate::state::{Left, Search};
use books::book::Book;
use prices::price::Price;

// Stores a cell at the front of the unused cells.
fn store<P: Price>(tail: &mut [P], cell: P)
    requires { 0 < length tail.old }
    ensures { tail.new ≡ slice_set tail.old 0 cell }
{
    tail[0] = cell;
}

// Writes a new cell: the cells from there on are lent, those before stay.
fn add_cell<P: Price>(scratch: &mut [P], at: usize, cell: P)
    requires { at < length scratch.old }
    ensures { scratch.new ≡ slice_set scratch.old at cell }
{
    store(&mut scratch[at..], cell);
}

impl<P: Price> Search<P> {
    // Writes the table of a bay, over its neighbours, after the used cells, which stay: each cell is the least that the
    // bay's terms cost over its choices. A cell is worked out by reading the scratch, which is lent anew to store it, so
    // the cells are counted.
    pub(crate) fn fill<B: Book<Cost = P>>(
        &self,
        book: &B,
        scratch: &mut [P],
        left: &Left,
        bay: u8,
        table: Table,
        plan: &[u8; 24],
    )
        requires some { 0 < slice_index self.now.choices bay }
        requires few { Few self.now.choices }
        requires fits { Fits (B.meaning book.now) self.now.choices }
        requires legal { PlanOk self.now.choices plan.now }
        requires opened { Open self.now.choices table.near }
        requires short { length (bays_from table.near 0) ≤ 4 }
        requires whole { table.size ≡ product (byte_of self.now.choices) (bays_from table.near 0) }
        requires room { left.now.used + table.size ≤ length scratch.old }
        requires under { Under self.now.lines left.now.force.now left.now.used }
        ensures kept { take left.now.used scratch.new ≡ take left.now.used scratch.old }
        ensures table { (k : ℕ) → k < table.size → slice_index_or scratch.new (left.now.used + k) P.ops.forbidden ≡ least P.ops (slice_index self.now.choices bay) (trial P.ops (B.meaning book.now) self.now.choices self.now.lines scratch.old left.now.force.now bay (byte_of (decoded_of self.now.choices (has table.near) 0 24 k plan.now))) }
    {
        for place in 0..table.size {
            let terms = self.terms(book, scratch);
            let pricing = Pricing {
                terms: &terms,
                plan: decoded(&self.choices, table.near, place, *plan),
            };
            let cell = pricing.settle(left.force, bay).price;
            add_cell(scratch, left.used + place, cell);
        }
    }
}

// A house book: a kept copy of its bytes, as a book of one price kind.
ghost use Rattle.std.specs.Prelude.{◌≡◌};
ghost use Rattle.layout.specs.Kept.{layout_of};
ghost use Rattle.layout.specs.Meant.{meaning_of, priced};
ghost use Rattle.std.proofs.Math.Logic.{∥∥₁_map};
ghost use Rattle.layout.specs.MeantLemmas.{meant_lawful};

use crate::kept::Kept;
use books::book::Book;
use prices::price::Price;
use prices::stored::Stored;
use std::marker::PhantomData;

#[derive(Drop)]
pub struct HouseBook<P> {
    pub(crate) kept: Kept,
    pub(crate) kind: PhantomData<P>,
}

// The price of a cell; forbidden where there is none. A `match`: Rattle does not cover `map_or` and the like with a function
// whose result is a bare type parameter.
fn priced_at<P: Stored>(cell: Option<u32>) -> P
    ensures { result ≡ priced P.ops P.cell cell }
{
    match cell {
        Some(n) => P::from_cell(n),
        None => P::forbidden(),
    }
}

impl<P: Stored> Book for HouseBook<P> {
    type Cost = P;

    ghost meaning = { λ b. meaning_of P.ops P.cell (layout_of b) };

    ghost lawful = { λ b. meant_lawful P.ops P.cell (layout_of b) 4294967295 (∥∥₁_map b.kept.found (λ f. f.fits)) };

    fn bays(&self) -> usize {
        self.kept.bays()
    }

    fn rules(&self) -> usize {
        self.kept.rules()
    }

    fn choices(&self, bay: usize) -> u8 {
        self.kept.choices(bay)
    }

    fn own(&self, bay: usize, choice: u8) -> P {
        priced_at(self.kept.own(bay, choice))
    }

    fn scope(&self, rule: usize) -> u32 {
        self.kept.scope(rule)
    }

    fn price(&self, rule: usize, plan: &[u8]) -> P {
        if self.kept.is_plan(plan) {
            priced_at(self.kept.cell(rule, plan))
        } else {
            P::forbidden()
        }
    }
}

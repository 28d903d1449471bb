// Quiet hours: no bay may take a choice after its last one.
ghost use Rattle.std.specs.Prelude.{◌≡◌};
ghost use Rattle.layers.specs.Layers.{quiet};
ghost use Rattle.std.proofs.Common.{rules};

use books::book::Book;
use prices::price::Price;

#[derive(Drop)]
pub struct QuietHours<B> {
    pub below: B,
    pub last: [u8; 24],
}

// A layer holds the book below by value and is a book again, so each method is written out, also where it only asks below.
impl<B: Book> Book for QuietHours<B> {
    type Cost = B::Cost;

    ghost meaning = { λ q. quiet B.Cost.ops q.last (B.meaning q.below) };

    ghost lawful = { Prim.search rules };

    fn bays(&self) -> usize {
        self.below.bays()
    }

    fn rules(&self) -> usize {
        self.below.rules()
    }

    fn choices(&self, bay: usize) -> u8 {
        self.below.choices(bay)
    }

    fn own(&self, bay: usize, choice: u8) -> B::Cost {
        if self.last.get(bay).is_some_and(|last| *last < choice) {
            B::Cost::forbidden()
        } else {
            self.below.own(bay, choice)
        }
    }

    fn scope(&self, rule: usize) -> u32 {
        self.below.scope(rule)
    }

    fn price(&self, rule: usize, plan: &[u8]) -> B::Cost {
        self.below.price(rule, plan)
    }
}

// Pins: a pinned bay takes no choice but the pinned one.
ghost use Rattle.std.specs.Prelude.{◌≡◌, ℕ, ◌&&◌, if◌then◌else◌, None, nat_eq, nat_lt, slice_index_or};
ghost use Rattle.layers.specs.Layers.{pinned};
ghost use Rattle.std.proofs.Common.{rules};

use books::book::Book;
use prices::price::Price;

#[derive(Drop)]
pub struct Pins<B> {
    pub below: B,
    pub pins: [Option<u8>; 24],
}

impl<B> Pins<B> {
    // No bay is pinned.
    pub fn new(below: B) -> Pins<B>
        ensures below { result.below ≡ below }
        ensures pins { (b : ℕ) → slice_index_or result.pins b None ≡ None }
    {
        Pins {
            below,
            pins: [None; 24],
        }
    }

    // The choice that a bay is pinned to.
    pub fn pin_of(&self, bay: usize) -> Option<u8>
        ensures { result ≡ slice_index_or self.now.pins bay None }
    {
        self.pins.get(bay).copied().flatten()
    }

    // Gives a bay this pin, or none; a bay beyond the 24 has none.
    pub fn set_pin(&mut self, bay: usize, pin: Option<u8>)
        ensures below { self.new.below ≡ self.old.below }
        ensures pins { (b : ℕ) → slice_index_or self.new.pins b None ≡ (if nat_eq bay b && nat_lt bay 24 then pin else slice_index_or self.old.pins b None) }
    {
        // `Suspensions` has the same line over its own array; a shared function would be no shorter. Not `get_mut`: its contract
        // does not say what the pins then are.
        if bay < self.pins.len() {
            self.pins[bay] = pin;
        }
    }
}

// A layer holds the book below by value and is a book again, so each method is written out, also where it only asks below.
impl<B: Book> Book for Pins<B> {
    type Cost = B::Cost;

    ghost meaning = { λ p. pinned B.Cost.ops p.pins (B.meaning p.below) };

    ghost lawful = { Prim.search rules };

    fn bays(&self) -> usize {
        self.below.bays()
    }

    fn rules(&self) -> usize {
        self.below.rules()
    }

    fn choices(&self, bay: usize) -> u8 {
        self.below.choices(bay)
    }

    fn own(&self, bay: usize, choice: u8) -> B::Cost {
        match self.pin_of(bay) {
            Some(pin) if pin != choice => B::Cost::forbidden(),
            _ => self.below.own(bay, choice),
        }
    }

    fn scope(&self, rule: usize) -> u32 {
        self.below.scope(rule)
    }

    fn price(&self, rule: usize, plan: &[u8]) -> B::Cost {
        self.below.price(rule, plan)
    }
}

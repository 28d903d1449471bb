// Suspensions: a suspended rule touches no bay and costs nothing.
ghost use Rattle.std.specs.Prelude.{◌≡◌, ℕ, false, ◌&&◌, if◌then◌else◌, nat_eq, nat_lt, slice_index_or};
ghost use Rattle.layers.specs.Layers.{is_off, suspended};
ghost use Rattle.std.proofs.Common.{rules};

use books::book::Book;
use books::plan::is_plan;
use prices::price::Price;

#[derive(Drop)]
pub struct Suspensions<B> {
    pub below: B,
    pub off: [bool; 64],
}

impl<B> Suspensions<B> {
    // No rule is suspended.
    pub fn new(below: B) -> Suspensions<B>
        ensures below { result.below ≡ below }
        ensures off { (s : ℕ) → slice_index_or result.off s false ≡ false }
    {
        Suspensions {
            below,
            off: [false; 64],
        }
    }

    // Whether a rule is suspended.
    pub fn is_suspended(&self, rule: usize) -> bool
        ensures { result ≡ slice_index_or self.now.off rule false }
    {
        self.off.get(rule).copied().unwrap_or(false)
    }

    // Suspends a rule, or puts it in force again; a number beyond the 64 is no rule.
    pub fn set_suspended(&mut self, rule: usize, on: bool)
        ensures below { self.new.below ≡ self.old.below }
        ensures off { (s : ℕ) → slice_index_or self.new.off s false ≡ (if nat_eq rule s && nat_lt rule 64 then on else slice_index_or self.old.off s false) }
    {
        // `Pins` has the same line over its own array; a shared function would be no shorter. Not `get_mut`: its contract does not
        // say which rules are then off.
        if rule < self.off.len() {
            self.off[rule] = on;
        }
    }
}

impl<B: Book> Suspensions<B> {
    // Whether a rule of the book below is suspended.
    fn is_off(&self, rule: usize) -> bool
        ensures { result ≡ is_off self.now.off (B.meaning self.now.below) rule }
    {
        rule < self.below.rules() && self.is_suspended(rule)
    }
}

// A layer holds the book below by value and is a book again, so each method is written out, also where it only asks below.
impl<B: Book> Book for Suspensions<B> {
    type Cost = B::Cost;

    ghost meaning = { λ s. suspended B.Cost.ops s.off (B.meaning s.below) };

    ghost lawful = { Prim.search rules };

    fn bays(&self) -> usize {
        self.below.bays()
    }

    fn rules(&self) -> usize {
        self.below.rules()
    }

    fn choices(&self, bay: usize) -> u8 {
        self.below.choices(bay)
    }

    fn own(&self, bay: usize, choice: u8) -> B::Cost {
        self.below.own(bay, choice)
    }

    fn scope(&self, rule: usize) -> u32 {
        if self.is_off(rule) {
            0
        } else {
            self.below.scope(rule)
        }
    }

    fn price(&self, rule: usize, plan: &[u8]) -> B::Cost {
        if self.is_off(rule) && is_plan(&self.below, plan) {
            B::Cost::free()
        } else {
            self.below.price(rule, plan)
        }
    }
}

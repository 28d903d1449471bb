// A book of an evening: its bays, their choices and own prices, and its rules. Reading one alters nothing.
ghost use Rattle.std.specs.Prelude.{◌≡◌};
ghost use Rattle.model.specs.Books.{Meaning, BookLaws};

use prices::price::Price;

pub trait Book {
    type Cost: Price;

    ghost meaning: { Self → Meaning Self.Cost };

    fn bays(&self) -> usize
        ensures { result ≡ (meaning self.now).bays };

    fn rules(&self) -> usize
        ensures { result ≡ (meaning self.now).rules };

    // How many choices a bay has; none for a bay that the book lacks.
    fn choices(&self, bay: usize) -> u8
        ensures { result ≡ (meaning self.now).choices bay };

    // The own price of a bay's choice; forbidden where the book lacks it.
    fn own(&self, bay: usize, choice: u8) -> Self::Cost
        ensures { result ≡ (meaning self.now).own bay choice };

    // The bays of a rule, as a set; empty for a rule that the book lacks.
    fn scope(&self, rule: usize) -> u32
        ensures { result ≡ (meaning self.now).scope rule };

    // The price of a rule under a plan, one byte a bay; forbidden where the book lacks the rule or the bytes begin with
    // no plan.
    fn price(&self, rule: usize, plan: &[u8]) -> Self::Cost
        ensures { result ≡ (meaning self.now).price rule plan.now };

    ghost lawful: { (b : Self) → BookLaws Self.Cost.Price.ops (meaning b) };
}

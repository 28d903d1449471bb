// The plan read back from the lines.
ghost use Rattle.std.specs.Prelude.{◌≡◌, ◌-◌, ◌<◌, ◌≤◌};
ghost use Rattle.model.specs.Terms.{read};
ghost use Rattle.search.specs.Places.{byte_of};
ghost use Rattle.search.specs.Visit.{folds_of, BaysOk};

use crate::pricing::Pricing;
use crate::state::Passed;
use books::book::Book;
use prices::price::Price;

impl<'a, B: Book> Pricing<'a, B> {
    // The plan read in reverse order of passing: each folded bay of the first `depth` lines takes the first choice at
    // which its terms combine least.
    pub(crate) fn read_back(&self, depth: usize) -> [u8; 24]
        requires deep { depth ≤ 24 }
        requires bays { BaysOk self.now.terms.now.choices.now self.now.terms.now.lines.now depth }
        ensures { byte_of result ≡ read B.Cost.ops (byte_of self.now.terms.now.choices.now) (folds_of B.Cost.ops (B.meaning self.now.terms.now.book.now) self.now.terms.now.choices.now self.now.terms.now.lines.now self.now.terms.now.cells.now depth) (byte_of self.now.plan) }
    {
        let lines = self.terms.lines;
        let mut plan = self.plan;
        for line in lines[..depth].iter().rev() {
            if let Passed::Folded { force, .. } = &line.passed {
                let pricing = Pricing {
                    terms: self.terms,
                    plan,
                };
                plan[usize::from(line.bay)] = pricing.settle(force, line.bay).choice;
            }
        }
        plan
    }
}

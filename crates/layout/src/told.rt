// What a book tells, read from its copy.
ghost use Rattle.std.specs.Prelude.{◌≡◌, ◌≤◌, true, length, MatchOption};
ghost use Rattle.format.specs.House.{counts_of};
ghost use Rattle.reader.specs.Indexed.{items};
ghost use Rattle.layout.specs.Kept.{held, kept_layout, StandsAt};
ghost use Rattle.layout.specs.Meant.{mask_of, choices_in, own_in, cell_in, nth_rule, planned_in};

use crate::kept::Kept;
use crate::tables::{from_place, mask, nth_price, place};

impl Kept {
    fn body(&self) -> &[u8]
        ensures { result.now ≡ held self.now }
    {
        &self.bytes[..self.len]
    }

    pub(crate) fn bays(&self) -> usize
        ensures { result ≡ length (kept_layout self.now).own }
    {
        self.index.own_at.as_slice().len()
    }

    pub(crate) fn rules(&self) -> usize
        ensures { result ≡ length (kept_layout self.now).rules }
    {
        self.index.rule_at.as_slice().len()
    }

    // The choices of each bay, which stand after the two counts.
    fn counts(&self) -> &[u8]
        ensures { result.now ≡ counts_of (kept_layout self.now) }
    {
        &self.body()[2..2 + self.bays()]
    }

    pub(crate) fn choices(&self, bay: usize) -> u8
        ensures { result ≡ choices_in (kept_layout self.now) bay }
    {
        self.counts().get(bay).copied().unwrap_or(0)
    }

    // The own price of a bay's choice.
    pub(crate) fn own(&self, bay: usize, choice: u8) -> Option<u32>
        ensures { result ≡ own_in (kept_layout self.now) bay choice }
    {
        let row = from_place(self.body(), self.index.own_at.as_slice(), bay)?;
        if choice >= self.choices(bay) {
            return None;
        }
        Some(nth_price(row, usize::from(choice)))
    }

    // The bays of a rule, where they stand, and its prices with all that follows them.
    fn rule(&self, rule: usize) -> Option<(&[u8], &[u8])>
        ensures { MatchOption result (length (items self.now.index.rule_at) ≤ rule) (λ p. StandsAt self.now rule p.0.now p.1.now) }
    {
        let rest = from_place(self.body(), self.index.rule_at.as_slice(), rule)?;
        Some(rest[1..].split_at(usize::from(rest[0])))
    }

    // The bays of a rule as a set. No `map_or`: what `mask` requires would have to be shown once more, of its closure.
    pub(crate) fn scope(&self, rule: usize) -> u32
        ensures { result ≡ mask_of (nth_rule (kept_layout self.now) rule).scope }
    {
        let Some((scope, _)) = self.rule(rule) else {
            return 0;
        };
        mask(scope)
    }

    // Whether the bytes begin with a choice for every bay. Rattle does not cover a call of `books::plan::is_plan` on the book
    // within its own `impl Book`: a method of the block leads back to the function that calls. A loop: every price of a rule asks
    // this, and within one caller `all` over zipped slices took three times as long.
    pub(crate) fn is_plan(&self, plan: &[u8]) -> bool
        ensures { result ≡ planned_in (kept_layout self.now) plan.now }
    {
        let counts = self.counts();
        if plan.len() < counts.len() {
            return false;
        }
        for (bay, n) in counts.iter().enumerate() {
            if plan[bay] >= *n {
                return false;
            }
        }
        true
    }

    // The cell of a rule under a plan.
    pub(crate) fn cell(&self, rule: usize, plan: &[u8]) -> Option<u32>
        requires { planned_in (kept_layout self.now) plan.now ≡ true }
        ensures { result ≡ cell_in (kept_layout self.now) rule plan.now }
    {
        let (scope, table) = self.rule(rule)?;
        Some(nth_price(table, place(self.counts(), scope, plan, 0)))
    }
}

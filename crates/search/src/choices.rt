// The choices that the lines set.
ghost use Rattle.std.specs.Prelude.{◌≡◌, ℕ, ◌<◌, ◌≤◌, false};
ghost use Rattle.search.specs.Force.{line_at};
ghost use Rattle.search.specs.Places.{byte_of};
ghost use Rattle.search.specs.Visit.{set_in};

use crate::state::{Passed, Search};

impl<P: Drop> Search<P> {
    // The choices that the lines set: a branched bay has its line's choice, any other bay its first.
    pub(crate) fn choices_set(&self) -> [u8; 24]
        requires deep { self.now.depth ≤ 24 }
        requires inside { (e : ℕ) → e < self.now.depth → (line_at self.now.lines e).folded ≡ false → (line_at self.now.lines e).bay < 24 }
        ensures { byte_of result ≡ set_in self.now.lines self.now.depth }
    {
        let mut set = [0; 24];
        for line in &self.lines[..self.depth] {
            if let Passed::Branched { choice } = line.passed {
                set[usize::from(line.bay)] = choice;
            }
        }
        set
    }
}

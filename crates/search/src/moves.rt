// The steps on the lines: one more, one less, and the next choice of the newest.
ghost use Rattle.std.specs.Prelude.{◌≡◌, ◌+◌, ◌-◌, ◌<◌, ◌≤◌, true, slice_set};
ghost use Rattle.search.specs.Force.{nth_line, told, LineOk};
ghost use Rattle.search.specs.Visit.{Same, tried};

use crate::state::{Line, Passed, Search};

impl Line {
    fn try_choice(&mut self, choice: u8)
        ensures { self.new ≡ tried self.old choice }
    {
        self.passed = Passed::Branched { choice };
    }
}

impl<P: Drop> Search<P> {
    pub(crate) fn push(&mut self, line: Line)
        requires deep { self.old.depth < 24 }
        requires sound { (told line).folded ≡ true → LineOk self.old.choices (told line) }
        ensures depth { self.new.depth ≡ self.old.depth + 1 }
        ensures lines { self.new.lines ≡ slice_set self.old.lines self.old.depth line }
        ensures same { Same self.old self.new }
    {
        let d = self.depth;
        self.lines[d] = line;
        self.depth = d + 1;
    }

    pub(crate) fn pop(&mut self)
        requires { 0 < self.old.depth }
        ensures depth { self.new.depth + 1 ≡ self.old.depth }
        ensures lines { self.new.lines ≡ self.old.lines }
        ensures same { Same self.old self.new }
    {
        self.depth -= 1;
    }

    // Sets the choice of the newest line, and that only.
    pub(crate) fn advance(&mut self, choice: u8)
        requires open { 0 < self.old.depth }
        requires deep { self.old.depth ≤ 24 }
        ensures depth { self.new.depth ≡ self.old.depth }
        ensures lines { self.new.lines ≡ slice_set self.old.lines (self.old.depth - 1) (tried (nth_line self.old.lines (self.old.depth - 1)) choice) }
        ensures same { Same self.old self.new }
    {
        let d = self.depth - 1;
        self.lines[d].try_choice(choice);
    }
}

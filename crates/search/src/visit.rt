// The visits of a search.
ghost use Rattle.std.specs.Prelude.{◌≡◌, ℕ, ◌+◌, ◌-◌, ◌^◌, ◌<◌, ◌≤◌, true, false, length, take, slice_index, is_err};
ghost use Rattle.course.specs.Views.{answers_of};
ghost use Rattle.model.specs.Course.{drop_bay};
ghost use Rattle.model.specs.Lists.{member, product};
ghost use Rattle.model.specs.Search.{arrived};
ghost use Rattle.model.specs.Sets.{has};
ghost use Rattle.model.specs.Terms.{read};
ghost use Rattle.search.specs.Force.{line_at};
ghost use Rattle.search.specs.Places.{bays_from, byte_of, Open};
ghost use Rattle.search.specs.Visit.{State, Framed, sofar, visited, passing, folding, branching, folds_of, set_in, is_near};

use crate::decide::{Table, decide_step};
use crate::pricing::Pricing;
use crate::state::{AtLimit, Given, Left, Line, Passed, Search};
use bays::without;
use books::book::Book;
use pickers::picker::Picker;
use prices::price::Price;

impl<P: Price> Search<P> {
    // No bay remains: the floor becomes the best, and the plan is read back.
    fn arrive<B: Book<Cost = P>>(&mut self, book: &B, left: &Left, floor: P, scratch: &[P])
        requires ok { State (B.meaning book.now) self.old self.old.depth left.now (length scratch.now) }
        ensures state { sofar self.new false ≡ arrived floor (read P.ops (byte_of self.old.choices) (folds_of P.ops (B.meaning book.now) self.old.choices self.old.lines scratch.now self.old.depth) (set_in self.old.lines self.old.depth)) (sofar self.old false) }
        ensures framed { Framed self.old.depth self.old self.new }
        ensures lines { self.new.lines ≡ self.old.lines }
    {
        let terms = self.terms(book, scratch);
        let pricing = Pricing {
            terms: &terms,
            plan: self.choices_set(),
        };
        let plan = pricing.read_back(self.depth);
        self.best = floor;
        self.plan = Some(plan);
    }

    // One visit; an error where the limit is reached.
    #[cycle(visits)]
    pub(crate) fn visit<B: Book<Cost = P>, K: Picker>(
        &mut self,
        given: &Given<B, K>,
        left: &Left,
        scratch: &mut [P],
    ) -> Result<(), AtLimit>
        requires ok { State (B.meaning given.now.book.now) self.old self.old.depth left.now (length scratch.old) }
        ensures state { (n : ℕ) → length (bays_from left.now.remaining 0) ≤ n → sofar self.new (is_err result) ≡ visited P.ops (B.meaning given.now.book.now) (answers_of (K.answer given.now.picker.now)) self.old left.now scratch.old n (sofar self.old false) }
        ensures framed { Framed self.old.depth self.old self.new }
        ensures cells { take left.now.used scratch.new ≡ take left.now.used scratch.old }
    {
        if self.count == self.limit {
            return Err(AtLimit);
        }
        self.count += 1;
        let floor = self.floor(given.book, left, scratch);
        if self.best.at_most(floor) {
            return Ok(());
        }
        if left.remaining == 0 {
            self.arrive(given.book, left, floor, scratch);
            return Ok(());
        }
        self.pass(given, left, scratch)
    }

    // A bay is picked, and folded or branched.
    #[cycle(visits)]
    fn pass<B: Book<Cost = P>, K: Picker>(
        &mut self,
        given: &Given<B, K>,
        left: &Left,
        scratch: &mut [P],
    ) -> Result<(), AtLimit>
        requires ok { State (B.meaning given.now.book.now) self.old self.old.depth left.now (length scratch.old) }
        requires some { 0 < left.now.remaining }
        ensures state { (n : ℕ) → length (bays_from left.now.remaining 0) ≤ n + 1 → sofar self.new (is_err result) ≡ passing P.ops (B.meaning given.now.book.now) (answers_of (K.answer given.now.picker.now)) self.old left.now scratch.old n (sofar self.old false) }
        ensures framed { Framed self.old.depth self.old self.new }
        ensures cells { take left.now.used scratch.new ≡ take left.now.used scratch.old }
    {
        let next = decide_step(self, given, left, scratch);
        let rest = without(left.remaining, next.bay);
        match next.table {
            Some(table) => self.fold_bay(given, left, rest, scratch, next.bay, table),
            None => {
                let left = Left {
                    remaining: rest,
                    ..*left
                };
                self.branch_bay(given, &left, scratch, next.bay)
            }
        }
    }

    // The bay's terms leave force, and their combination, least over its choices, joins as a table over the neighbours. The bay and
    // its table stand apart from what was decided, since a branched bay has none.
    #[cycle(visits)]
    fn fold_bay<B: Book<Cost = P>, K: Picker>(
        &mut self,
        given: &Given<B, K>,
        left: &Left,
        rest: u32,
        scratch: &mut [P],
        bay: u8,
        table: Table,
    ) -> Result<(), AtLimit>
        requires ok { State (B.meaning given.now.book.now) self.old self.old.depth left.now (length scratch.old) }
        requires remains { member bay (bays_from left.now.remaining 0) ≡ true }
        requires rests { bays_from rest 0 ≡ drop_bay bay (bays_from left.now.remaining 0) }
        requires opened { Open self.old.choices rest }
        requires small { rest < 2 ^ 24 }
        requires nears { (i : ℕ) → has table.near i ≡ is_near (B.meaning given.now.book.now) self.old.lines left.now.force.now left.now.remaining bay i }
        requires short { length (bays_from table.near 0) ≤ 4 }
        requires whole { table.size ≡ product (byte_of self.old.choices) (bays_from table.near 0) }
        requires fits { table.size ≤ length scratch.old - left.now.used }
        ensures state { (n : ℕ) → length (bays_from rest 0) ≤ n → sofar self.new (is_err result) ≡ folding P.ops (B.meaning given.now.book.now) (answers_of (K.answer given.now.picker.now)) self.old rest left.now scratch.old bay table.size n (sofar self.old false) }
        ensures framed { Framed self.old.depth self.old self.new }
        ensures cells { take left.now.used scratch.new ≡ take left.now.used scratch.old }
    {
        let set = self.choices_set();
        self.fill(given.book, scratch, left, bay, table, &set);
        let terms = self.terms(given.book, scratch);
        let after = terms.folded_force(left.force, bay, self.depth);
        self.push(Line {
            bay,
            passed: Passed::Folded {
                force: *left.force,
                table,
                offset: left.used,
            },
        });
        let left = Left {
            remaining: rest,
            force: &after,
            used: left.used + table.size,
        };
        let visited = self.visit(given, &left, scratch);
        self.pop();
        visited
    }

    // The choices of the bay are tried, on a line of its own.
    // That the bay is below 24 is asked here and by `try_choices` alone: all else has it from the bay's choices.
    #[cycle(visits)]
    fn branch_bay<B: Book<Cost = P>, K: Picker>(
        &mut self,
        given: &Given<B, K>,
        left: &Left,
        scratch: &mut [P],
        bay: u8,
    ) -> Result<(), AtLimit>
        requires ok { State (B.meaning given.now.book.now) self.old self.old.depth left.now (length scratch.old) }
        requires deeper { self.old.depth + length (bays_from left.now.remaining 0) < 24 }
        requires inside { bay < 24 }
        ensures state { (n : ℕ) → length (bays_from left.now.remaining 0) ≤ n → sofar self.new (is_err result) ≡ branching P.ops (B.meaning given.now.book.now) (answers_of (K.answer given.now.picker.now)) self.old self.old.depth left.now scratch.old bay (slice_index self.old.choices bay) n (sofar self.old false) }
        ensures framed { Framed self.old.depth self.old self.new }
        ensures cells { take left.now.used scratch.new ≡ take left.now.used scratch.old }
    {
        self.push(Line {
            bay,
            passed: Passed::Branched { choice: 0 },
        });
        let visited = self.try_choices(given, left, scratch, bay);
        self.pop();
        visited
    }

    // The choices of the newest line's bay, in rising order.
    #[cycle(visits)]
    fn try_choices<B: Book<Cost = P>, K: Picker>(
        &mut self,
        given: &Given<B, K>,
        left: &Left,
        scratch: &mut [P],
        bay: u8,
    ) -> Result<(), AtLimit>
        requires ok { State (B.meaning given.now.book.now) self.old (self.old.depth - 1) left.now (length scratch.old) }
        requires opens { 0 < self.old.depth }
        requires newest { (line_at self.old.lines (self.old.depth - 1)).bay ≡ bay }
        requires inside { bay < 24 }
        ensures state { (k : ℕ) → length (bays_from left.now.remaining 0) ≤ k → sofar self.new (is_err result) ≡ branching P.ops (B.meaning given.now.book.now) (answers_of (K.answer given.now.picker.now)) self.old (self.old.depth - 1) left.now scratch.old bay (slice_index self.old.choices bay) k (sofar self.old false) }
        ensures framed { Framed (self.old.depth - 1) self.old self.new }
        ensures newest { (line_at self.new.lines (self.new.depth - 1)).bay ≡ bay }
        ensures cells { take left.now.used scratch.new ≡ take left.now.used scratch.old }
    {
        // A choice is the value tried, and not an index.
        for choice in 0..self.choices[usize::from(bay)] {
            self.advance(choice);
            self.visit(given, left, scratch)?;
        }
        Ok(())
    }
}

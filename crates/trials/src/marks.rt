// Pins and suspensions of an evening. Every number has 32 bits, and is compared whole: no `From` widens one to a `usize`, and
// `as` loses none.
ghost use Rattle.std.specs.Prelude.{◌≡◌, true, false, Some, None, MatchResult};
ghost use Rattle.trials.specs.Changes.{below_of, pin_at, off_at, Repinned, Turned};
ghost use Rattle.trials.specs.Follows.{BySheet, of_mark};
ghost use Rattle.trials.specs.Sheet.{Pin, Unpin, Suspend, Resume, pinning, unpinning, suspending, resuming, turn_of, turning};

use crate::evening::Evening;
use books::book::Book;
use refusals::Refusal;

impl<B: Book> Evening<B> {
    // Holds a bay to a choice, whatever it was pinned to before.
    pub fn pin(&mut self, bay: u32, choice: u32) -> Result<(), Refusal>
        ensures sheet { BySheet B.meaning (Pin bay choice) (of_mark result) self.old self.new }
        ensures answer { of_mark result ≡ pinning (B.meaning (below_of self.old)) bay choice }
        ensures state { MatchResult result (λ _. Repinned self.old bay (Some choice) self.new) (λ _. self.new ≡ self.old) }
    {
        // A bay that the book lacks has no choices.
        if choice >= u32::from(self.book.choices(bay as usize)) {
            return Err(Refusal::UnknownNumber);
        }
        self.book.set_pin(bay as usize, Some(choice as u8));
        Ok(())
    }

    // Lets a pinned bay have any of its choices again.
    pub fn unpin(&mut self, bay: u32) -> Result<(), Refusal>
        ensures sheet { BySheet B.meaning (Unpin bay) (of_mark result) self.old self.new }
        ensures answer { of_mark result ≡ unpinning (B.meaning (below_of self.old)) (pin_at self.old bay) bay }
        ensures state { MatchResult result (λ _. Repinned self.old bay None self.new) (λ _. self.new ≡ self.old) }
    {
        if bay as usize >= self.book.bays() {
            return Err(Refusal::UnknownNumber);
        }
        self.pin_of(bay).ok_or(Refusal::NothingToDo)?;
        self.book.set_pin(bay as usize, None);
        Ok(())
    }

    // Suspends a rule, or puts it in force again: `on` is the value that is written, and picks no branch.
    fn turn(&mut self, rule: u32, on: bool) -> Result<(), Refusal>
        ensures sheet { BySheet B.meaning (turn_of on rule) (of_mark result) self.old self.new }
        ensures answer { of_mark result ≡ turning on (B.meaning (below_of self.old)) (off_at self.old rule) rule }
        ensures state { MatchResult result (λ _. Turned self.old rule on self.new) (λ _. self.new ≡ self.old) }
    {
        if rule as usize >= self.book.rules() {
            return Err(Refusal::UnknownNumber);
        }
        if self.is_suspended(rule) == on {
            return Err(Refusal::NothingToDo);
        }
        self.book.below.set_suspended(rule as usize, on);
        Ok(())
    }

    // Leaves a rule out.
    pub fn suspend(&mut self, rule: u32) -> Result<(), Refusal>
        ensures sheet { BySheet B.meaning (Suspend rule) (of_mark result) self.old self.new }
        ensures answer { of_mark result ≡ suspending (B.meaning (below_of self.old)) (off_at self.old rule) rule }
        ensures state { MatchResult result (λ _. Turned self.old rule true self.new) (λ _. self.new ≡ self.old) }
    {
        self.turn(rule, true)
    }

    // Puts a suspended rule in force again.
    pub fn resume(&mut self, rule: u32) -> Result<(), Refusal>
        ensures sheet { BySheet B.meaning (Resume rule) (of_mark result) self.old self.new }
        ensures answer { of_mark result ≡ resuming (B.meaning (below_of self.old)) (off_at self.old rule) rule }
        ensures state { MatchResult result (λ _. Turned self.old rule false self.new) (λ _. self.new ≡ self.old) }
    {
        self.turn(rule, false)
    }
}

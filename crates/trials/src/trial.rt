// Trials: opened, and then kept or dropped by the ticket.
ghost use Rattle.std.specs.Prelude.{◌≡◌, MatchResult};
ghost use Rattle.trials.specs.Changes.{depth_of, marks_of, with_marks, saved_last, Opened, Closed, HandsBack};
ghost use Rattle.trials.specs.Follows.{BySheet, of_open, of_close};
ghost use Rattle.trials.specs.Sheet.{Open, Keep, Drop, opening, closing, newest};

use crate::evening::{Evening, Marks};
use crate::ticket::{Returned, Ticket};
use books::book::Book;
use refusals::Refusal;

impl Ticket {
    // The end of a ticket: its trial is closed.
    fn spend(self) {
        let Ticket {
            number: _,
            depth: _,
        } = self;
    }

    fn refused(self) -> Returned
        ensures { (result.refusal ≡ Refusal.WrongTicket) × (result.ticket ≡ self) }
    {
        Returned {
            refusal: Refusal::WrongTicket,
            ticket: self,
        }
    }
}

impl<B> Evening<B> {
    fn marks(&self) -> Marks
        ensures { result ≡ marks_of self.now }
    {
        Marks {
            pins: self.book.pins,
            off: self.book.below.off,
        }
    }

    fn set_marks(&mut self, marks: Marks)
        ensures { self.new ≡ with_marks self.old marks }
    {
        let Marks { pins, off } = marks;
        self.book.pins = pins;
        self.book.below.off = off;
    }
}

impl<B: Book> Evening<B> {
    // Whether a ticket is of the newest open trial.
    fn is_newest(&self, ticket: &Ticket) -> bool
        ensures { result ≡ newest self.now.number (depth_of self.now) ticket.now.number ticket.now.depth }
    {
        ticket.number == self.number && ticket.depth == self.open_trials() && ticket.depth > 0
    }

    // Closes the newest trial, and answers the marks that stood when it was opened.
    fn close(&mut self, ticket: Ticket) -> Result<Marks, Returned>
        ensures answer { of_close result ≡ closing self.old.number (depth_of self.old) ticket.number ticket.depth }
        ensures state { MatchResult result (λ saved. (saved ≡ saved_last self.old) × Closed self.old (marks_of self.old) self.new)
            (HandsBack ticket self.old self.new) }
    {
        if !self.is_newest(&ticket) {
            return Err(ticket.refused());
        }
        ticket.spend();
        Ok(self.saved.pop().unwrap())
    }

    // Opens a trial inside those that are open, at most four, and hands out its ticket.
    pub fn open(&mut self) -> Result<Ticket, Refusal>
        ensures sheet { BySheet B.meaning Open (of_open result) self.old self.new }
        ensures answer { of_open result ≡ opening self.old.number (depth_of self.old) }
        ensures state { MatchResult result (λ _. Opened self.old self.new) (λ _. self.new ≡ self.old) }
    {
        if self.saved.is_full() {
            return Err(Refusal::TrialsFull);
        }
        let marks = self.marks();
        self.saved.push(marks);
        Ok(Ticket {
            number: self.number,
            depth: self.open_trials(),
        })
    }

    // Closes the newest trial; its pins and suspensions stay.
    pub fn keep(&mut self, ticket: Ticket) -> Result<(), Returned>
        ensures sheet { BySheet B.meaning (Keep ticket.number ticket.depth) (of_close result) self.old self.new }
        ensures answer { of_close result ≡ closing self.old.number (depth_of self.old) ticket.number ticket.depth }
        ensures state { MatchResult result (λ _. Closed self.old (marks_of self.old) self.new) (HandsBack ticket self.old self.new) }
    {
        self.close(ticket)?;
        Ok(())
    }

    // Closes the newest trial; pins and suspensions are again as they were when it was opened.
    pub fn drop(&mut self, ticket: Ticket) -> Result<(), Returned>
        ensures sheet { BySheet B.meaning (Drop ticket.number ticket.depth) (of_close result) self.old self.new }
        ensures answer { of_close result ≡ closing self.old.number (depth_of self.old) ticket.number ticket.depth }
        ensures state { MatchResult result (λ _. Closed self.old (saved_last self.old) self.new) (HandsBack ticket self.old self.new) }
    {
        let saved = self.close(ticket)?;
        self.set_marks(saved);
        Ok(())
    }
}

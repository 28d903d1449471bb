// The neighbours of the bays that remain, and the terms in force once one is folded.
ghost use Rattle.std.specs.Prelude.{◌≡◌, ℕ, ◌+◌, ◌-◌, ◌<◌, ◌≤◌, slice_index};
ghost use Rattle.model.specs.Sets.{has as has_of};
ghost use Rattle.search.specs.Force.{flag, shares};
ghost use Rattle.search.specs.Visit.{Nears, after};

use crate::terms::Terms;
use bays::{has, without};
use books::book::Book;
use std::array;

impl<'a, B: Book> Terms<'a, B> {
    // The bays that share a term in force with a bay. Only the terms in force are asked for their scopes: a book's may be dear.
    fn touched(&self, force: &[bool; 112], bay: u8) -> u32
        ensures { (i : ℕ) → has_of result i ≡ shares (B.meaning self.now.book.now) self.now.lines.now force.now bay 0 i }
    {
        let mut bays = 0;
        for (number, on) in force.iter().enumerate().rev() {
            if *on {
                let scope = self.scope(number);
                if has(scope, bay) {
                    bays |= scope;
                }
            }
        }
        bays
    }

    // The neighbours of a bay: the other remaining bays that share a term in force with it.
    fn near(&self, force: &[bool; 112], remaining: u32, bay: u8) -> u32
        ensures { Nears (B.meaning self.now.book.now) self.now.lines.now force.now remaining bay result }
    {
        without(self.touched(force, bay) & remaining, bay)
    }

    // The neighbours of each bay.
    pub(crate) fn nears(&self, force: &[bool; 112], remaining: u32) -> [u32; 24]
        ensures { (bay : ℕ) → bay < 24 → Nears (B.meaning self.now.book.now) self.now.lines.now force.now remaining bay (slice_index result bay) }
    {
        // `as`, since an index is a usize, which no `From` narrows; below 24 nothing is lost.
        array::from_fn(|bay| self.near(force, remaining, bay as u8))
    }

    // The terms in force once a bay is folded: those that do not touch it, and its table.
    pub(crate) fn folded_force(&self, force: &[bool; 112], bay: u8, depth: usize) -> [bool; 112]
        requires { depth < 24 }
        ensures { (j : ℕ) → flag result j ≡ after (B.meaning self.now.book.now) self.now.lines.now force.now bay depth j }
    {
        let mut after = array::from_fn(|number| force[number] && !has(self.scope(number), bay));
        after[88 + depth] = true;
        after
    }
}

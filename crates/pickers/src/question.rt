// What a picker is asked.
ghost use Rattle.std.specs.Prelude.{◌≡◌, slice_index};
ghost use Rattle.pickers.specs.Questions.{asked, seen, kept, Canonical};

use bays::{has, neighbours_of, without};
use std::array;

// The bays that remain, the neighbours and choices of each, and k. All is blank at a bay that does not remain, and only
// what remains is a neighbour: nothing tells a picker of the bays that were passed.
#[derive(Clone, Copy)]
pub struct Question {
    pub(crate) remaining: u32,

    // Two arrays and not one of pairs: both are handed over as arrays, and the sets are read as twenty-four masks.
    pub(crate) neighbours: [u32; 24],
    pub(crate) choices: [u8; 24],
    pub(crate) k: i8,
}

fn seen_at(remaining: u32, near: u32, bay: u8) -> u32
    ensures { result ≡ seen remaining near bay }
{
    if has(remaining, bay) {
        without(near & remaining, bay)
    } else {
        0
    }
}

fn kept_at(remaining: u32, choices: u8, bay: u8) -> u8
    ensures { result ≡ kept remaining choices bay }
{
    if has(remaining, bay) { choices } else { 0 }
}

impl Question {
    // Each index is below 24, so `as` loses none, and no `From` narrows one.
    pub fn new(remaining: u32, neighbours: [u32; 24], choices: [u8; 24], k: i8) -> Question
        ensures is { result ≡ asked remaining neighbours choices k }
        ensures canonical { Canonical result }
    {
        Question {
            remaining,
            neighbours: array::from_fn(|bay| seen_at(remaining, neighbours[bay], bay as u8)),
            choices: array::from_fn(|bay| kept_at(remaining, choices[bay], bay as u8)),
            k,
        }
    }

    pub fn remaining(&self) -> u32
        ensures { result ≡ self.now.remaining }
    {
        self.remaining
    }

    // The neighbours of a bay; none for a bay that does not remain.
    pub fn neighbours(&self, bay: u8) -> u32
        ensures { result ≡ slice_index self.now.neighbours bay }
    {
        neighbours_of(&self.neighbours, bay)
    }

    // How many choices a bay has; none for a bay that does not remain.
    pub fn choices(&self, bay: u8) -> u8
        ensures { result ≡ slice_index self.now.choices bay }
    {
        self.choices.get(usize::from(bay)).copied().unwrap_or(0)
    }

    pub fn k(&self) -> i8
        ensures { result ≡ self.now.k }
    {
        self.k
    }
}

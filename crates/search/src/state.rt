// What a search has at any moment: a line for each bay passed, and the best plan so far.
ghost use Rattle.std.specs.Prelude.{◌≡◌, ◌≤◌, length};
ghost use Rattle.search.specs.Force.{Sound, Sound_prop};

use crate::decide::Table;
use course::bound::Bound;

// A bay passed.
#[derive(Clone, Copy)]
pub(crate) struct Line {
    pub(crate) bay: u8,
    pub(crate) passed: Passed,
}

// How a bay was passed: the choice being tried, or the terms in force before its fold, its table, and where that begins.
#[derive(Clone, Copy)]
pub(crate) enum Passed {
    Branched {
        choice: u8,
    },
    Folded {
        force: [bool; 112],
        table: Table,
        offset: usize,
    },
}

#[derive(Drop)]
pub(crate) struct Search<P> {
    pub(crate) choices: [u8; 24],
    // An array with its depth beside it, whose newest line is lent and changed through `&mut self`: that form is asked for.
    // So what takes the newest line asks for a depth above 0.
    pub(crate) lines: [Line; 24],
    pub(crate) depth: usize,
    // The ceiling until a plan is found, and then that plan's price, as in the model's state: so it stands beside `plan`,
    // and not in it.
    pub(crate) best: P,
    pub(crate) plan: Option<[u8; 24]>,
    pub(crate) count: u32,
    pub(crate) limit: u32,
    pub(crate) k: Bound,
    ghost within: { count ≤ limit },
    // An array's length, which its type tells, is not known of a field read through a reference: so it is said here.
    ghost long: { length lines ≡ 24 },
    ghost wide: { length choices ≡ 24 },
    ghost sound: { Sound choices lines } by { Sound_prop choices lines },
}

// The visit limit is reached, and a further visit was to be made.
#[derive(Clone, Copy, Debug)]
pub(crate) struct AtLimit;

// What a search goes by: a book, and who picks the bays.
#[derive(Drop)]
pub(crate) struct Given<'a, B, K> {
    pub(crate) book: &'a B,
    pub(crate) picker: &'a K,
}

// What is left to a visit: the bays that remain, the terms in force, and how many cells are used.
#[derive(Clone, Copy)]
pub(crate) struct Left<'a> {
    pub(crate) remaining: u32,
    pub(crate) force: &'a [bool; 112],
    pub(crate) used: usize,
}

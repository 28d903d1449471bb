// What a search starts from.
ghost use Rattle.std.specs.Prelude.{◌≡◌, ℕ, ◌<◌, false, List};
ghost use Rattle.search.specs.Force.{flag, Sound};
ghost use Rattle.search.specs.Start.{starts};

use crate::state::{Line, Passed};
use std::array;

// Whether a term is in force at the start.
fn starts_at(bays: usize, rules: usize, number: usize) -> bool
    ensures { result ≡ starts bays rules number }
{
    match number {
        0..24 => number < bays,
        24..88 => number - 24 < rules,
        _ => false,
    }
}

// All own prices and rules.
pub(crate) fn start_force(bays: usize, rules: usize) -> [bool; 112]
    ensures { (j : ℕ) → j < 112 → flag result j ≡ starts bays rules j }
{
    array::from_fn(|number| starts_at(bays, rules, number))
}

// Lines that no bay has been passed on. An array has no empty places, and the line table is one: so each holds some line.
pub(crate) fn blank_lines() -> [Line; 24]
    ensures { (cs : List ℕ) → Sound cs result }
{
    let line = Line {
        bay: 0,
        passed: Passed::Branched { choice: 0 },
    };
    [line; 24]
}

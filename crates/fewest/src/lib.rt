// The picker by fewest neighbours.
#![tactic(auto)]

ghost use Rattle.std.specs.Prelude.{◌≡◌, ℕ, ◌^◌, ◌<◌, ◌≤◌, Bool};
ghost use Rattle.fewest.specs.Leasts.{number, fewer as fewer_of, lighter as lighter_of, least_in, fewest, Compares, Ranks, FewestPicked};
ghost use Rattle.fewest.specs.Minima.{fewest_remains};

use bays::{at_most, has, size};
use pickers::picker::Picker;
use pickers::question::Question;

// Takes the bay with the fewest neighbours if those are at most k, else the least choices divided by neighbours; of equals the
// lowest.
#[derive(Clone, Copy)]
pub struct Fewest;

fn count_of_neighbours(question: &Question, bay: u8) -> u32
    ensures is { result ≡ number question.now bay }
    ensures few { result ≤ 32 }
{
    size(question.neighbours(bay))
}

// Whether bay a has fewer neighbours than bay b.
fn fewer(question: &Question, a: u8, b: u8) -> bool
    ensures { result ≡ fewer_of question.now a b }
{
    count_of_neighbours(question, a) < count_of_neighbours(question, b)
}

// Whether bay a has fewer choices for each neighbour than bay b, compared without dividing. A bay with no neighbours is
// before none.
fn lighter(question: &Question, a: u8, b: u8) -> bool
    ensures { result ≡ lighter_of question.now a b }
{
    let of_a = count_of_neighbours(question, a);
    let of_b = count_of_neighbours(question, b);
    0 < of_a
        && (of_b == 0
            || u32::from(question.choices(a)) * of_b < u32::from(question.choices(b)) * of_a)
}

// The lowest of the remaining bays that none is before.
fn least<F: Fn(u8, u8) -> bool>(question: &Question, before: F) -> Option<u8>
    requires { F.IsAlwaysCallable before }
    ensures { (below : ℕ → ℕ → Bool) → Compares F.Fn before below → Ranks below → result ≡ least_in below question.now.remaining }
{
    (0..24)
        .filter(|&bay| has(question.remaining(), bay))
        .reduce(|best, bay| if before(bay, best) { bay } else { best })
}

impl Picker for Fewest {
    ghost answer = { λ _ q. fewest q };

    ghost remains = { λ p q h k. fewest_remains q h k };

    // 24 where no bay remains.
    fn pick(&self, question: &Question) -> u8
        ensures is { result ≡ fewest question.now }
        ensures picked { 0 < question.now.remaining → question.now.remaining < 2 ^ 24 → FewestPicked question.now result }
    {
        match least(question, |a, b| fewer(question, a, b)) {
            Some(bay) if at_most(question.neighbours(bay), question.k()) => bay,
            _ => least(question, |a, b| lighter(question, a, b)).unwrap_or(24),
        }
    }
}

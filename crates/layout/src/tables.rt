// Single answers from the bytes of a book: a price, the set of a scope's bays, the place of a cell.
ghost use Rattle.std.specs.Prelude.{◌≡◌, ℕ, ◌+◌, ◌-◌, ◌*◌, ◌^◌, ◌<◌, ◌≤◌, drop, length, MatchOption, slice_index};
ghost use Rattle.reader.specs.Places.{price_at};
ghost use Rattle.layout.specs.Meant.{mask_of, place_of};

use bays::with;

// The bytes from one of some places on.
pub(crate) fn from_place<'a>(body: &'a [u8], places: &[usize], n: usize) -> Option<&'a [u8]>
    requires { (i : ℕ) → i < length places.now → slice_index places.now i ≤ length body.now }
    ensures { MatchOption result (length places.now ≤ n) (λ rest. (n < length places.now) × (rest.now ≡ drop (slice_index places.now n) body.now)) }
{
    let at = *places.get(n)?;
    Some(&body[at..])
}

// The price at a place in a row or table: four bytes, the high byte first.
pub(crate) fn nth_price(cells: &[u8], n: usize) -> u32
    requires { 4 * n + 4 ≤ length cells.now }
    ensures { result ≡ price_at cells.now (4 * n) }
{
    let at = 4 * n;
    u32::from_be_bytes(cells[at..at + 4].try_into().unwrap())
}

// The set of the bays of a scope.
pub(crate) fn mask(scope: &[u8]) -> u32
    requires { (i : ℕ) → i < length scope.now → slice_index scope.now i < 24 }
    ensures { result ≡ mask_of scope.now }
{
    scope.iter().rev().fold(0, |set, &bay| with(set, bay))
}

// The place so far times the next bay's choices, plus its choice.
fn next_place(so_far: usize, choices: u8, choice: u8) -> usize
    requires { so_far ≤ 4294967296 }
    ensures { result ≡ so_far * choices + choice }
{
    so_far * usize::from(choices) + usize::from(choice)
}

// The place of a plan's cell among the cells of a rule over these bays. It calls itself for each bay and takes no type
// parameter, since that form is asked for.
pub(crate) fn place(counts: &[u8], scope: &[u8], plan: &[u8], so_far: usize) -> usize
    requires few { length scope.now ≤ 4 }
    requires small { so_far < 256 ^ (4 - length scope.now) }
    requires within { (i : ℕ) → i < length scope.now → slice_index scope.now i < length counts.now }
    requires whole { length counts.now ≤ length plan.now }
    ensures { result ≡ place_of counts.now plan.now so_far scope.now }
{
    match scope {
        [] => so_far,
        [bay, rest @ ..] => {
            let bay = usize::from(*bay);
            place(
                counts,
                rest,
                plan,
                next_place(so_far, counts[bay], plan[bay]),
            )
        }
    }
}

// Sets of bays as numbers of 32 bits, and the neighbour sets of 24 bays. A bay that fits no set is in none. A set is a plain
// number and no type of its own, since neighbour sets are passed and returned by value as twenty-four numbers.
#![tactic(auto)]

ghost use Rattle.std.specs.Prelude.{◌≡◌, ◌-◌, ◌^◌, ◌≤◌, pos, count_ones, int_le, slice_index};
ghost use Rattle.bays.specs.Made.{with_one};
ghost use Rattle.bays.specs.Neighbours.{joined, connected};
ghost use Rattle.model.specs.Sets.{has as has_of, minus, one};

use std::array;

// Whether the bay is in the set.
pub fn has(set: u32, bay: u8) -> bool
    ensures { result ≡ has_of set bay }
{
    bay < 32 && (set >> bay) % 2 == 1
}

// The set of the first so many bays; of more than 32, the set of all that fit.
pub fn first(bays: usize) -> u32
    ensures few { bays ≤ 32 → result ≡ 2 ^ bays - 1 }
    ensures many { 32 ≤ bays → result ≡ 2 ^ 32 - 1 }
{
    if bays < 32 { (1 << bays) - 1 } else { u32::MAX }
}

// The set with the bay as well.
pub fn with(set: u32, bay: u8) -> u32
    ensures { result ≡ with_one set bay }
{
    if bay < 32 { set | 1 << bay } else { set }
}

// The set without the bay.
pub fn without(set: u32, bay: u8) -> u32
    ensures { result ≡ minus set (one bay) }
{
    if bay < 32 { set & !(1 << bay) } else { set }
}

// How many bays are in the set.
pub fn size(set: u32) -> u32
    ensures { result ≡ count_ones set }
{
    set.count_ones()
}

// Whether a set has at most k bays.
pub fn at_most(set: u32, k: i8) -> bool
    ensures { result ≡ int_le (pos (count_ones set)) k }
{
    i64::from(size(set)) <= i64::from(k)
}

// The neighbours of a bay; none for a bay beyond the 24.
pub fn neighbours_of(masks: &[u32; 24], bay: u8) -> u32
    ensures { result ≡ slice_index masks.now bay }
{
    masks.get(usize::from(bay)).copied().unwrap_or(0)
}

// The neighbours of `other`, once those of `bay` are neighbours of one another and `bay` is gone.
fn joined_set(mask: u32, near: u32, bay: u8, other: u8) -> u32
    ensures { result ≡ joined mask near bay other }
{
    if has(near, other) {
        without(without(mask | near, other), bay)
    } else {
        mask
    }
}

// The neighbour sets once `bay` is folded: its neighbours become neighbours of one another, and none has `bay`.
pub fn connect(masks: [u32; 24], bay: u8) -> [u32; 24]
    ensures { result ≡ connected masks bay }
{
    let near = neighbours_of(&masks, bay);

    // Each index is below 24, so `as` loses none, and no `From` narrows one.
    array::from_fn(|other| joined_set(masks[other], near, bay, other as u8))
}

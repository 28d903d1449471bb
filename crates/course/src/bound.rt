// How many neighbours a bay may have to be folded.
ghost use Rattle.std.specs.Prelude.{◌≡◌, true, pos, negsuc, int_le};

use refusals::Refusal;

// The setting k, from -1 to 4; -1 folds no bay. It is held as the number that the interface gives: a step and a question take a
// plain i8, since a narrower parameter would ask more of callers.
#[derive(Clone, Copy, Debug, PartialEq, Eq)]
pub struct Bound {
    k: i8,
    ghost low: { int_le (negsuc 0) k ≡ true },
    ghost high: { int_le k (pos 4) ≡ true },
}

impl Bound {
    pub fn k(self) -> i8
        ensures { result ≡ self.k }
    {
        self.k
    }
}

impl TryFrom<i64> for Bound {
    ghost use Rattle.course.specs.Bounds.{Bounds};

    type Error = Refusal;

    ghost try_from_gives = { Bounds };

    fn try_from(k: i64) -> Result<Bound, Refusal> {
        match i8::try_from(k) {
            Ok(k @ -1..=4) => Ok(Bound { k }),
            _ => Err(Refusal::BadSetting),
        }
    }
}

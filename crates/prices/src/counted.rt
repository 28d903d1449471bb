// What amounts count: how two numbers of them make one, and the mark of a book that holds them.
ghost use Rattle.std.specs.Prelude.{◌≡◌, ℕ, ◌^◌, ◌<◌, min};
ghost use Rattle.prices.specs.Amounts.{Combines};

pub trait Counted: Copy {
    // The number that two numbers make.
    ghost together: { ℕ → ℕ → ℕ };

    ghost combines: { Combines together };

    // The letters of the mark, as a number of three bytes, the high byte first.
    ghost letters: { ℕ };

    ghost three: { letters < 256 ^ 3 };

    // What two numbers make; the largest of 32 bits where that is more.
    fn together(number: u32, other: u32) -> u32
        ensures { result ≡ min (together number other) 4294967295 };

    fn mark() -> u32
        ensures { result ≡ letters };
}

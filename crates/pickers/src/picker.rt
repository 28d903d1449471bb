// Answers one bay of those that remain, from the question alone. Where none remains any number may be answered: it is no
// Option, since nobody asks then.
ghost use Rattle.std.specs.Prelude.{◌≡◌, ℕ, ◌^◌, ◌<◌, true};
ghost use Rattle.model.specs.Sets.{has};
ghost use Rattle.pickers.specs.declared.question.Question.{Question as Asked};

use crate::question::Question;

pub trait Picker {
    ghost answer: { Self → Asked → ℕ };

    fn pick(&self, question: &Question) -> u8
        ensures { result ≡ answer self.now question.now };

    ghost remains: { (p : Self) (q : Asked) → 0 < q.remaining → q.remaining < 2 ^ 24 → has q.remaining (answer p q) ≡ true };
}

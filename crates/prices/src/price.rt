// A price kind: a free price, a forbidden price, a combination and a comparison, with their laws.
ghost use Rattle.std.specs.Prelude.{◌≡◌, Option};
ghost use Rattle.model.specs.Prices.{Ops, PriceLaws, Same};

pub trait Price: Copy {
    ghost ops: { Ops Self };

    // What a price stands for; two prices that are each at most the other stand for the same.
    ghost value: { Type 0 };

    ghost means: { Self → value };

    fn free() -> Self
        ensures { result ≡ ops.free };

    fn forbidden() -> Self
        ensures { result ≡ ops.forbidden };

    fn combine(self, other: Self) -> Self
        ensures { result ≡ ops.combine self other };

    fn at_most(self, other: Self) -> bool
        ensures { result ≡ ops.at_most self other };

    // A raw number, or several, that may be a price.
    type Offer: Copy;

    ghost accepts: { Self.Offer → Option Self };

    // The price that is offered; none where it would be above forbidden.
    fn accept(offer: Self::Offer) -> Option<Self>
        ensures { result ≡ accepts offer };

    ghost lawful: { PriceLaws ops };

    ghost same: { Same ops means };
}

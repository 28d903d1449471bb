// What layers do, as theorems over any book and price kind: only the contracts count, and what the functions answer means nothing.
ghost use Rattle.layers.specs.Piles.{LayersSilent, LayersBar, SuspensionsSilence};

// Where no layer speaks, a plan costs what it costs below.
#[tactic(auto, using(crate::proofs::Piled::layers_silent))]
pub fn layers_silent_stands<P>() -> u8
    ensures { LayersSilent P }
{
    0
}

// A plan that breaks a pin or a quiet hour is forbidden, whatever lies above.
#[tactic(auto, using(crate::proofs::Piled::layers_bar))]
pub fn layers_bar_stands<P>() -> u8
    ensures { LayersBar P }
{
    0
}

// A suspended rule changes no plan's price and makes no neighbours.
#[tactic(auto, using(crate::proofs::Piled::unheard))]
pub fn suspensions_silence_stands<P>() -> u8
    ensures { SuspensionsSilence P }
{
    0
}

//! The law of the grammar, as the contract of a function that does nothing.
ghost use Rattle.ether_filter.specs.Refusals.{TextsMeanOne};

/// A text means exactly one expression, or is refused for exactly one reason, and never both.
pub fn texts_mean_one()
    ensures { TextsMeanOne }
{}

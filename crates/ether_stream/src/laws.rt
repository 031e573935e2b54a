//! The law on runs over copies, as the contract of a function that does nothing.
ghost use Rattle.ether_stream.specs.Composition.{RunsCompose};

/// Copying what the filter `E` selects, and from that copy what `F` selects, makes the same bytes as copying what
/// `(E) and (F)` selects. If both filters are one, the second copy is the first.
///
/// So what [`run`](crate::run::run) makes of a copy that it made needs no other contract.
pub fn runs_compose()
    ensures { RunsCompose }
{}

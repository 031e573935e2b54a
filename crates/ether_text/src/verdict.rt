//! Whether all frames of a run were accepted.
ghost use Rattle.std.specs.Prelude.{◌≡◌};
ghost use Rattle.ether_text.specs.Verdict.{verdict_with};

/// What a run found that has read all its input.
///
/// ```
/// assert_eq!(rt; Verdict::AllAccepted.with(false), Verdict::SomeRefused);
/// ```
#[derive(Clone, Copy, PartialEq, Eq, Debug)]
pub enum Verdict {
    /// Each frame was accepted, or there was no frame.
    AllAccepted,
    /// At least one frame was refused.
    SomeRefused,
}

impl Verdict {
    /// The verdict with a further frame, which was accepted or not.
    pub fn with(self, accepted: bool) -> Verdict
        ensures { result ≡ verdict_with self accepted }
    {
        if accepted { self } else { Verdict::SomeRefused }
    }
}

//! The laws of the definitions. Each is the contract of a function that does nothing: what its clause says holds for
//! every line.
ghost use Rattle.ether_text.specs.Tool.Laws.{LinesAreDecided};

/// Each line names exactly one frame or is bad, and never both.
pub fn lines_are_decided()
    ensures { LinesAreDecided }
{}

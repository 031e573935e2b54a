//! What opens captures by their names.
ghost use Rattle.std.specs.Prelude.{ℕ, List, Option, IfErr, IfOk};

use ether_files::OpenFault;
use ether_text::Source;

/// What opens captures by their names, and can show how far they are read.
///
/// What is proved for all of them holds for one that can't fail, too. So a call that reports that a capture can't be
/// opened has tried it.
pub trait Captures {
    ghost use Rattle.ether_files.specs.declared.open_fault.OpenFault.{OpenFault};

    /// The bytes of a capture.
    type Input: Source + Drop;

    // A capture of this name has these bytes, where they are known.
    ghost has: { Self → (name : List ℕ) → Option (List ℕ) → Type 0 };

    // What holds if a capture can't be opened for this reason.
    ghost can_refuse: { OpenFault → Type 0 };

    /// Opens the capture of a name, at its first byte.
    fn open_named(&self, name: &str) -> Result<Self::Input, OpenFault>
        ensures ok { IfOk result (λ input. has self.now name.now (Self.Input.Source.remaining input)) }
        ensures refused { IfErr result (λ fault. can_refuse fault) };

    /// From here on, shows how far these captures and standard input are read.
    fn show(&self);

    /// Ends the line in which that is shown, if there is one.
    fn end_line(&self);
}

//! What keeps copies by their names.
ghost use Rattle.std.specs.Prelude.{◌≡◌, ℕ, List, Bool, false, Option, IfOk, IfErr, OnOk, OnErr};
ghost use Rattle.ether_files.specs.Copies.{kept_of};

use crate::WriteFault;
use ether_output::Sink;

/// What keeps copies by their names, as files do.
///
/// What is proved for all of them holds for one whose files are known, and for one that can't fail. So a call that
/// reports that a copy can't be written has tried it.
///
/// A copy is begun, written and then finished, broken off or given up. Only then does its file get bytes, all at once. A
/// copy that is finished is its file's. After a fault of what is copied, the file gets what was copied before, if that
/// can't be read again; else it is as it was. So it is said of files that are known; one in a folder where no other file
/// can be made gets the bytes as they are written.
pub trait Copies {
    ghost use Rattle.std.specs.Io.KnownBytes.{IsAtEnd};
    ghost use Rattle.ether_files.specs.declared.write_fault.WriteFault.{WriteFault};

    /// A copy that is being written.
    type Part: Sink + Drop;

    // The bytes of the file of a name, where they are known.
    ghost file: { Self → (name : List ℕ) → Option (List ℕ) };

    // What holds if a file can't get a copy for this reason.
    ghost can_refuse: { WriteFault → Type 0 };

    // Standard input can't be read again, so what was copied of it before a fault is kept.
    ghost keeps_input: { Self → Bool };

    /// Tests that what was copied of standard input before a fault is kept, since it can't be read again.
    fn keeps_input(&self) -> bool
        ensures { result ≡ keeps_input self.now };

    /// Begins a copy of the captures of the names `inputs`; `-` is standard input. The copy has no byte yet.
    fn begin(&mut self, name: &str, inputs: &[&str]) -> Result<Self::Part, WriteFault>
        ensures empty { IfOk result (λ part. IsAtEnd (Self.Part.Sink.contents part)) }
        ensures kept { file self.new name.now ≡ file self.old name.now }
        ensures same { keeps_input self.new ≡ keeps_input self.old }
        ensures refused { IfErr result can_refuse };

    /// Finishes a copy: the file of this name has its bytes.
    fn finish(&mut self, name: &str, part: Self::Part) -> Result<(), WriteFault>
        ensures ok { OnOk result (file self.new name.now ≡ Self.Part.Sink.contents part) }
        ensures kept { OnErr result (file self.new name.now ≡ file self.old name.now) }
        ensures refused { IfErr result can_refuse };

    /// Ends a copy after a fault of what is copied. If what was copied is to be kept, and it has a byte, the file of this
    /// name has it; else the file is as it was.
    fn break_off(&mut self, name: &str, part: Self::Part, is_kept: bool) -> Result<(), WriteFault>
        ensures ok { OnOk result (file self.new name.now
            ≡ kept_of is_kept (Self.Part.Sink.contents part) (file self.old name.now)) }
        ensures kept { OnErr result (file self.new name.now ≡ file self.old name.now) }
        ensures refused { IfErr result can_refuse };

    /// Gives a copy up that could not be written, and returns why, if a fault of writing was the cause. If what was copied
    /// is to be kept, the file of this name has what was written whole; else it is as it was.
    fn give_up(&mut self, name: &str, part: Self::Part, is_kept: bool) -> WriteFault
        ensures kept { is_kept ≡ false → file self.new name.now ≡ file self.old name.now };
}

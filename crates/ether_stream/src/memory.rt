//! Memory that the caller has, and which may grow.
ghost use Rattle.std.specs.Prelude.{◌≡◌, ◌≤◌, ℕ, List, length, take, OnOk, OnErr};
ghost use Rattle.std.specs.Borrow.{sem, Lends, Array, u8};

use crate::NoMemory;

/// Bytes in memory that grows, or refuses to: memory of a heap, or an array of fixed size, which refuses what it has no
/// room for.
pub trait Grow: Drop {
    // All bytes that there are.
    ghost items: { Self → List ℕ };

    // The same memory with these bytes in it.
    ghost with_items: { Self → List ℕ → Self };

    /// All bytes that there are.
    fn bytes(&self) -> &[u8]
        ensures { result.now ≡ items self.now };

    /// All bytes that there are, for writing.
    fn bytes_mut(&mut self) -> &mut [u8]
        ensures* writes_back { sem 𝓛 (Lends Self.row (Array u8 0) self.entry result (with_items self.old)) }
        ensures value { result.now ≡ items self.old };

    /// Makes room for `len` bytes in all. The bytes that are there are unchanged, and those after them unspecified.
    fn grow(&mut self, len: usize) -> Result<(), NoMemory>
        ensures kept { take (length (items self.old)) (items self.new) ≡ items self.old }
        ensures room { OnOk result (len ≤ length (items self.new)) }
        ensures same { OnErr result (items self.new ≡ items self.old) };

    // Bytes that were written are there, and no others.
    ghost is_written: { (memory : Self) (bytes : List ℕ) → length bytes ≡ length (items memory)
        → items (with_items memory bytes) ≡ bytes };
}

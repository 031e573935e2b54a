//! What callers know of the derived traits, of the constant and of what is read back, at each type of `ether_sll2`.
//! These functions are proved and never run.
ghost use Rattle.std.specs.Prelude.{◌≡◌, ◌↔◌, IsTrue, Ok};
ghost use Rattle.ether_sll2.specs.Views.{HasOwnType};

use ether_sll2::{LinuxSll2Error, LinuxSll2Header, LinuxSll2HeaderSlice, LinuxSll2Slice};

/// A clone is `Ok` and equals its source.
pub fn clones()
    ensures linux_sll2_error { let it = ⟦<LinuxSll2Error as Clone>⟧ in
        (a b : _) → it.is_infallible a × (it.is_clone a b → b ≡ a) }
    ensures linux_sll2_header { let it = ⟦<LinuxSll2Header as Clone>⟧ in
        (a b : _) → it.is_infallible a × (it.is_clone a b → b ≡ a) }
    ensures linux_sll2_header_slice { let it = ⟦<LinuxSll2HeaderSlice<'static> as Clone>⟧ in
        (a b : _) → it.is_infallible a × (it.is_clone a b → b ≡ a) }
    ensures linux_sll2_slice { let it = ⟦<LinuxSll2Slice<'static> as Clone>⟧ in
        (a b : _) → it.is_infallible a × (it.is_clone a b → b ≡ a) }
{}

/// `==` is equality.
pub fn equality()
    ensures linux_sll2_error { (a b : _) → IsTrue (⟦<LinuxSll2Error as PartialEq>⟧.eq a b) ↔ (a ≡ b) }
    ensures linux_sll2_header { (a b : _) → IsTrue (⟦<LinuxSll2Header as PartialEq>⟧.eq a b) ↔ (a ≡ b) }
    ensures linux_sll2_header_slice { (a b : _) → IsTrue (⟦<LinuxSll2HeaderSlice<'static> as PartialEq>⟧.eq a b)
        ↔ (a ≡ b) }
    ensures linux_sll2_slice { (a b : _) → IsTrue (⟦<LinuxSll2Slice<'static> as PartialEq>⟧.eq a b) ↔ (a ≡ b) }
{}

pub fn len() -> usize
    ensures { result ≡ 20 }
{
    LinuxSll2Header::LEN
}

pub fn read_back(header: LinuxSll2Header) -> Result<LinuxSll2Header, LinuxSll2Error>
    ensures { (result ≡ Ok header) ↔ HasOwnType header }
{
    LinuxSll2Header::from_bytes(header.to_bytes())
}

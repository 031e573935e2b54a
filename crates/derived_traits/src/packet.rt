//! What callers know of the derived traits and of a constant. These functions are proved and never run.
ghost use Rattle.std.specs.Prelude.{◌≡◌, ◌↔◌, IsTrue};
ghost use Rattle.etherparse.specs.LinkExt.{SameExt};
ghost use Rattle.ether_packet.specs.Packet.{link_exts_cap};

use ether_packet::{BuildError, Difference, PacketExt, PacketSlice, ReplaceError, TagError};

/// A clone is `Ok` and equals its source.
pub fn clones()
    ensures packet_ext { let it = ⟦<PacketExt<'static> as Clone>⟧ in
        (a b : _) → it.is_infallible a × (it.is_clone a b → b ≡ a) }
    ensures build_error { let it = ⟦<BuildError as Clone>⟧ in
        (a b : _) → it.is_infallible a × (it.is_clone a b → b ≡ a) }
    ensures replace_error { let it = ⟦<ReplaceError as Clone>⟧ in
        (a b : _) → it.is_infallible a × (it.is_clone a b → b ≡ a) }
    ensures tag_error { let it = ⟦<TagError as Clone>⟧ in (a b : _) → it.is_infallible a × (it.is_clone a b → b ≡ a) }
{}

/// `==` is equality.
pub fn equality()
    ensures build_error { (a b : _) → IsTrue (⟦<BuildError as PartialEq>⟧.eq a b) ↔ (a ≡ b) }
    ensures replace_error { (a b : _) → IsTrue (⟦<ReplaceError as PartialEq>⟧.eq a b) ↔ (a ≡ b) }
    ensures tag_error { (a b : _) → IsTrue (⟦<TagError as PartialEq>⟧.eq a b) ↔ (a ≡ b) }
    ensures difference { (a b : _) → IsTrue (⟦<Difference as PartialEq>⟧.eq a b) ↔ (a ≡ b) }
    ensures packet_ext { (a b : _) → IsTrue (⟦<PacketExt<'static> as PartialEq>⟧.eq a b)
        ↔ ((a.offset ≡ b.offset) × SameExt a.slice b.slice) }
{}

pub fn greatest_number_of_exts() -> usize
    ensures { result ≡ link_exts_cap }
{
    PacketSlice::LINK_EXTS_CAP
}

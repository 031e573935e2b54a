//! What callers know of the derived traits. These functions are proved and never run.
ghost use Rattle.std.specs.Prelude.{◌≡◌, ◌↔◌, IsTrue};

use ether_content::{EditedPacket, NoRoom, PacketEdit};

/// `==` is equality.
pub fn equality()
    ensures packet_edit { (a b : _) → IsTrue (⟦<PacketEdit as PartialEq>⟧.eq a b) ↔ (a ≡ b) }
    ensures edited_packet { (a b : _) → IsTrue (⟦<EditedPacket as PartialEq>⟧.eq a b) ↔ (a ≡ b) }
    ensures no_room { (a b : _) → IsTrue (⟦<NoRoom as PartialEq>⟧.eq a b) }
{}

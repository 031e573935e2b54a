//! A table for the interfaces of any section.
ghost use Rattle.std.specs.Prelude.{◌≡◌, refl};

use arrayvec::ArrayVec;
use ether_pcap::{CaptureInterface, InterfaceTable};

/// How many interfaces a section of a capture may describe.
pub const MAX_INTERFACES: usize = 65_536;

/// An [`InterfaceTable`] with room for [`MAX_INTERFACES`].
pub trait SectionTable: InterfaceTable {
    // Its room.
    ghost has_room: { Self.InterfaceTable.most ≡ 65536 };
}

impl SectionTable for ArrayVec<CaptureInterface, MAX_INTERFACES> {
    ghost has_room = { refl };
}

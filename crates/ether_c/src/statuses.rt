//! The statuses that calls return to C.
ghost use Rattle.std.specs.Prelude.{◌≡◌};
ghost use Rattle.ether_c.specs.Tags.{tag_error_status};

use ether_packet::TagError;

/// The call did what it was asked for.
pub(crate) const DONE: u32 = 0;

/// No start has the number that was passed. Nothing was written.
pub(crate) const UNKNOWN_START: u32 = 1;

/// The target is too short. It was not written to.
pub(crate) const NO_ROOM: u32 = 2;

/// The text can't be made, or there is none. Nothing was written.
pub(crate) const NO_TEXT: u32 = 3;

/// The frame does not begin with a link's header that can be read.
pub(crate) const NO_LINK: u32 = 5;

/// The header of cooked capture has another hardware type than Ethernet.
pub(crate) const OTHER_LINK: u32 = 6;

/// There is no VLAN tag or SecTag at the index.
pub(crate) const NO_TAG: u32 = 7;

/// A number does not fit its field. Nothing was written.
pub(crate) const BAD_FIELD: u32 = 11;

/// The bytes end within a unit of a capture file.
pub(crate) const SHORT: u32 = 12;

/// The rest of a capture file can't be read.
pub(crate) const BAD_CAPTURE: u32 = 13;

/// The text of a filter is not an expression.
pub(crate) const BAD_FILTER: u32 = 14;

/// The packet type of a header of Linux cooked capture v2 is above 7.
pub(crate) const BAD_PACKET_TYPE: u32 = 15;

/// The frame has no ARP packet.
pub(crate) const NO_ARP: u32 = 16;

/// The header differs from the one in the frame in what it says about what follows it.
pub(crate) const DIFFERS: u32 = 17;

/// The call does not take a unit of this kind.
pub(crate) const BAD_KIND: u32 = 18;

/// There are more VLAN tags and SecTags than a packet may have.
pub(crate) const TOO_MANY_TAGS: u32 = 19;

/// A header follows a SecTag whose payload is encrypted or changed.
pub(crate) const SEALED: u32 = 20;

/// The frame does not leave by the port.
pub(crate) const STAYS: u32 = 21;

/// The text names no format.
pub(crate) const BAD_FORMAT: u32 = 22;

/// The unit of a packet can't be edited, or a copy can't have it.
pub(crate) const UNCOPIED: u32 = 23;

/// The status for a VLAN tag that is not taken off, put in or changed.
pub(crate) fn tag_error(error: &TagError) -> u32
    ensures { result ≡ tag_error_status error.now }
{
    match error {
        TagError::NoRoom => NO_ROOM,
        TagError::Tpid(_) => 4,
        TagError::NoLink => NO_LINK,
        TagError::HardwareType(_) => OTHER_LINK,
        TagError::NoLinkExt(_) => NO_TAG,
        TagError::NoVlan => 8,
        TagError::CutVlan => 9,
        TagError::Unannounced => 10,
    }
}

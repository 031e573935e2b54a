//! What a unit can be if only its first bytes are there.
ghost use Rattle.std.specs.Prelude.{◌≡◌, ◌↔◌, ◌<◌, ◌≤◌, ◌+◌, ℕ, [], ◌∷◌, IsTrue, get_or, length};
ghost use Rattle.etherparse.specs.Bytes.{IsBytes};
ghost use Rattle.etherparse.specs.Kind.{Kind};
ghost use Rattle.etherparse.specs.Kind as kinds;
ghost use Rattle.ether_filter.specs.declared.prospect.Announced.TheVariants.{Nothing};
ghost use Rattle.ether_filter.specs.Prospects.{IsFixed, IsProspect, IsRoomAfter, IsShortTag, IsTagNext, IsTypeAt, BeginsWith, IsCut, front_of, kind_named, Offers};
ghost use Rattle.ether_filter.specs.Later.{OffersTag, CanTag, CanSecTag, CanType, CanRefuse};
ghost use Rattle.etherparse.specs.LinuxSll.{is_supported as is_supported_of};
ghost use Rattle.etherparse.specs.Macsec.{sec_tag_len};

/// The kind of a unit that is not whole.
#[derive(Clone, Copy)]
pub(crate) enum OpenKind {
    Ethernet2,
    LinuxSll,
    Vlan,
    Macsec,
    Arp,
}

/// What may be announced after a unit.
#[derive(Clone, Copy)]
pub(crate) enum Announced {
    /// No ether type.
    Nothing,
    /// Each ether type.
    Any,
    /// Each ether type whose first byte is this one.
    High(u8),
}

/// What can become of a unit, if its bytes go on up to the end of its window.
#[derive(Clone, Copy)]
pub(crate) struct Prospect {
    pub can_be_accepted: bool,
    pub can_be_refused: bool,
    /// What may be announced after it.
    pub next: Announced,
    /// The most bytes that can follow it, if an ether type does.
    pub room: usize,
}

impl Prospect {
    /// It is refused, whatever its bytes are.
    pub(crate) const REFUSED: Prospect = Prospect {
        can_be_accepted: false,
        can_be_refused: true,
        next: Announced::Nothing,
        room: 0,
    };

    /// Whether this ether type may be announced.
    fn offers(self, number: u16) -> bool
        ensures { IsTrue result ↔ Offers self.next number }
    {
        match self.next {
            Announced::Nothing => false,
            Announced::Any => true,
            Announced::High(high) => u16::from(high) == number / 256,
        }
    }

    /// Whether an ether type of a VLAN tag may be announced.
    fn offers_tag(self) -> bool
        ensures { IsTrue result ↔ OffersTag self.next }
    {
        self.offers(0x8100) || self.offers(0x88A8) || self.offers(0x9100)
    }

    /// Whether a VLAN tag can follow.
    pub(crate) fn can_tag(self) -> bool
        ensures { IsTrue result ↔ CanTag self 4 }
    {
        self.offers_tag() && self.room >= 4
    }

    /// Whether two VLAN tags can follow.
    pub(crate) fn can_two_tags(self) -> bool
        ensures { IsTrue result ↔ CanTag self 8 }
    {
        self.offers_tag() && self.room >= 8
    }

    /// Whether a SecTag can follow, at once or after a VLAN tag.
    pub(crate) fn can_sec_tag(self) -> bool
        ensures { IsTrue result ↔ CanSecTag self }
    {
        self.offers(0x88E5) && self.room >= 6 || self.offers_tag() && self.room >= 10
    }

    /// Whether this ether type can be announced, by the unit or after it.
    pub(crate) fn can_type(self, number: u16) -> bool
        ensures { IsTrue result ↔ CanType self number }
    {
        self.offers(number) || self.can_tag()
    }

    /// Whether a unit that is refused can follow.
    pub(crate) fn can_refuse(self) -> bool
        ensures { IsTrue result ↔ CanRefuse self }
    {
        self.offers_tag() || self.offers(0x0806) && self.room < 1028
    }
}

/// What is known of the ether type at a place if at most its first byte is there.
pub(crate) fn type_at(known: &[u8], place: usize) -> Announced
    ensures { IsTypeAt known.now place result }
{
    match known.get(place) {
        Some(high) => Announced::High(*high),
        None => Announced::Any,
    }
}

/// That of a unit of this many bytes, which end in an ether type, and which is refused only if it has no room.
fn of_fixed(known: &[u8], room: usize, len: usize) -> Prospect
    requires least { 2 ≤ len }
    requires few { length known.now < len }
    requires inside { length known.now ≤ room }
    ensures prospect { (kind : Kind) → IsFixed kind len → IsProspect kind known.now room result }
    ensures bytes { IsBytes known.now }
{
    if room < len {
        return Prospect::REFUSED;
    }
    Prospect {
        can_be_accepted: true,
        can_be_refused: false,
        next: type_at(known, len - 2),
        room: room - len,
    }
}

/// That of an Ethernet II header.
pub(crate) fn of_ethernet2(known: &[u8], room: usize) -> Prospect
    requires few { length known.now < 14 }
    requires inside { length known.now ≤ room }
    ensures prospect { IsProspect kinds.Ethernet2 known.now room result }
    ensures bytes { IsBytes known.now }
{
    of_fixed(known, room, 14)
}

/// That of a VLAN tag.
pub(crate) fn of_vlan(known: &[u8], room: usize) -> Prospect
    requires few { length known.now < 4 }
    requires inside { length known.now ≤ room }
    ensures prospect { IsProspect kinds.Vlan known.now room result }
    ensures bytes { IsBytes known.now }
{
    of_fixed(known, room, 4)
}

/// Whether a hardware type is supported.
pub(crate) fn is_supported(hardware: usize) -> bool
    ensures { result ≡ is_supported_of hardware }
{
    hardware == 824 || hardware == 778 || hardware == 803 || hardware == 770 || hardware == 1
}

/// The low byte of a supported hardware type with this high byte, if there is one: of frame relay or of Ethernet.
fn supported_low(high: usize) -> u8
    ensures three { high ≡ 3 → result ≡ 2 }
    ensures other { (high ≡ 3 → ⊥) → result ≡ 1 }
{
    if high == 3 { 2 } else { 1 }
}

/// What is known of the ether type after the header of a cooked capture that can be of this hardware type.
fn type_after_capture(known: &[u8], hardware: usize) -> Announced
    ensures ethernet { hardware ≡ 1 → IsTypeAt known.now 14 result }
    ensures other { (hardware ≡ 1 → ⊥) → result ≡ Nothing }
{
    if hardware == 1 {
        type_at(known, 14)
    } else {
        Announced::Nothing
    }
}

/// What the header of a cooked capture can be if fewer than 16 of its bytes are there.
pub(crate) fn sll_prospect(known: &[u8], room: usize) -> Prospect
    requires few { length known.now < 16 }
    requires inside { length known.now ≤ room }
    ensures { IsProspect kinds.LinuxSll known.now room result }
{
    if room < 16 {
        return Prospect::REFUSED;
    }
    let packet_type = 256 * byte_or(known, 0, 0) + byte_or(known, 1, 0);
    if packet_type > 7 {
        return Prospect::REFUSED;
    }
    let high = byte_or(known, 2, 0);
    let hardware = 256 * high + byte_or(known, 3, supported_low(high));
    if !is_supported(hardware) {
        return Prospect::REFUSED;
    }
    Prospect {
        can_be_accepted: true,
        can_be_refused: known.len() < 4,
        next: type_after_capture(known, hardware),
        room: room - 16,
    }
}

/// Whether E or C is set in the first byte of a SecTag: no ether type can be read after it (IEEE 802.1AE, 9.3).
pub(crate) fn is_modified(first: u8) -> bool
    ensures { (second : ℕ) → second < 256 → IsTrue result
        ↔ (((front_of first second).encrypted ≡ 0) × ((front_of first second).changed ≡ 0) → ⊥) }
{
    first / 4 % 4 != 0
}

/// The length of a SecTag with this first byte.
pub(crate) fn tag_len(first: u8) -> usize
    ensures { (second : ℕ) → second < 256 → result ≡ sec_tag_len (front_of first second) }
{
    let sci = if first / 32 % 2 == 1 { 8 } else { 0 };
    let ether_type = if is_modified(first) { 0 } else { 2 };
    6 + sci + ether_type
}

/// The length of the payload of a SecTag that begins with these two bytes in a window of this length, if it is
/// accepted.
pub(crate) fn room_after(first: u8, second: u8, room: usize) -> Option<usize>
    ensures { IsRoomAfter (front_of first second) room result }
{
    let len = tag_len(first);
    if first >= 128 || room < len {
        return None;
    }
    let short = usize::from(second % 64);
    if short == 0 {
        return Some(room - len);
    }
    let ether_type = if is_modified(first) { 0 } else { 2 };
    if short < ether_type {
        return None;
    }
    let payload = short - ether_type;
    if room < len + payload {
        return None;
    }
    Some(payload)
}

/// What is known of the ether type after a SecTag with this first byte.
fn type_after_tag(known: &[u8], first: u8) -> Announced
    ensures { (second : ℕ) → second < 256 → IsTagNext (front_of first second) known.now result }
{
    if is_modified(first) {
        Announced::Nothing
    } else {
        type_at(known, tag_len(first) - 2)
    }
}

/// What a SecTag can be that begins with these two bytes.
fn of_front(known: &[u8], first: u8, second: u8, room: usize) -> Prospect
    requires inside { length known.now ≤ room }
    requires least { 6 ≤ room }
    requires begins { BeginsWith first second known.now }
    requires few { length known.now < sec_tag_len (front_of first second) }
    ensures { IsProspect kinds.Macsec known.now room result }
{
    match room_after(first, second, room) {
        Some(payload) => Prospect {
            can_be_accepted: true,
            can_be_refused: false,
            next: type_after_tag(known, first),
            room: payload,
        },
        None => Prospect::REFUSED,
    }
}

/// What a SecTag can be if this byte alone is there.
fn of_first(first: u8, room: usize) -> Prospect
    requires { 6 ≤ room }
    ensures { IsProspect kinds.Macsec (first ∷ []) room result }
{
    let len = tag_len(first);
    if first >= 128 || room < len {
        return Prospect::REFUSED;
    }
    if is_modified(first) {
        return Prospect {
            can_be_accepted: true,
            can_be_refused: room < len + 63,
            next: Announced::Nothing,
            room: room - len,
        };
    }
    Prospect {
        can_be_accepted: true,
        can_be_refused: true,
        next: Announced::Any,
        room: room - len,
    }
}

/// What a SecTag can be if none of its bytes is there.
fn of_nothing(room: usize) -> Prospect
    requires { 6 ≤ room }
    ensures { IsProspect kinds.Macsec [] room result }
{
    if room < 8 {
        return Prospect {
            can_be_accepted: true,
            can_be_refused: true,
            next: Announced::Nothing,
            room: 0,
        };
    }
    Prospect {
        can_be_accepted: true,
        can_be_refused: true,
        next: Announced::Any,
        room: room - 8,
    }
}

/// What a SecTag can be if not all bytes of its header are there.
pub(crate) fn tag_prospect(known: &[u8], room: usize) -> Prospect
    requires few { IsShortTag known.now }
    requires inside { length known.now ≤ room }
    ensures { IsProspect kinds.Macsec known.now room result }
{
    if room < 6 {
        return Prospect::REFUSED;
    }
    match known {
        [] => of_nothing(room),
        [first] => of_first(*first, room),
        [first, second, ..] => of_front(known, *first, *second, room),
    }
}

/// A byte of a unit, or what it may be if it is not there.
fn byte_or(known: &[u8], at: usize, other: u8) -> usize
    ensures value { result ≡ get_or known.now at other }
    ensures byte { result < 256 }
{
    match known.get(at) {
        Some(byte) => usize::from(*byte),
        None => usize::from(other),
    }
}

/// What an ARP packet can be if fewer than eight of its bytes are there.
pub(crate) fn arp_prospect(known: &[u8], room: usize) -> Prospect
    requires inside { length known.now ≤ room }
    ensures { IsProspect kinds.Arp known.now room result }
{
    let least = 8 + 2 * byte_or(known, 4, 0) + 2 * byte_or(known, 5, 0);
    let most = 8 + 2 * byte_or(known, 4, 255) + 2 * byte_or(known, 5, 255);
    Prospect {
        can_be_accepted: least <= room,
        can_be_refused: room < most,
        next: Announced::Nothing,
        room: 0,
    }
}

/// What a unit can be if only these of its bytes are there.
pub(crate) fn prospect_of(kind: OpenKind, known: &[u8], room: usize) -> Prospect
    requires few { IsCut kind known.now }
    requires inside { length known.now ≤ room }
    ensures { IsProspect (kind_named kind) known.now room result }
{
    match kind {
        OpenKind::Ethernet2 => of_ethernet2(known, room),
        OpenKind::LinuxSll => sll_prospect(known, room),
        OpenKind::Vlan => of_vlan(known, room),
        OpenKind::Macsec => tag_prospect(known, room),
        OpenKind::Arp => arp_prospect(known, room),
    }
}

//! What can follow the open unit of a packet that was cut short.
ghost use Rattle.std.specs.Prelude.{◌≡◌, ◌↔◌, ◌∷◌, [], ℕ, List, IsTrue, is_some, false, nat_eq};
ghost use Rattle.std.specs.List.{list_any};
ghost use Rattle.etherparse.specs.Header.{Header};
ghost use Rattle.ether_peel.specs.Grammar.Endings.{refusal_of};
ghost use Rattle.ether_peel.specs.Grammar.Expectation.{next_after};
ghost use Rattle.ether_filter.specs.declared.packet.Packet.{Packet};
ghost use Rattle.ether_filter.specs.declared.prospect.OpenKind.{OpenKind};
ghost use Rattle.ether_filter.specs.Primitives.{is_tag, is_sec_tag, vlan_ids, ether_types};
ghost use Rattle.ether_filter.specs.Later.{CanTag, CanSecTag, CanType, CanRefuse, SomeCompletion, HasAfter, IsOpenAs};

use crate::prospect::Prospect;

impl Prospect {
    /// Whether a VLAN tag can follow it.
    pub(crate) fn tag_can_follow(self) -> bool
        ensures condition { IsTrue result ↔ (IsTrue self.can_be_accepted × CanTag self 4) }
        ensures packets { (packet : Packet) (hs : List Header) (kind : OpenKind) (known : List ℕ) (room : ℕ)
            → IsOpenAs packet hs kind known room self
            → IsTrue result ↔ SomeCompletion packet (HasAfter hs (λ unit later e. IsTrue (list_any is_tag later))) }
    {
        self.can_be_accepted && self.can_tag()
    }

    /// Whether two VLAN tags can follow it.
    pub(crate) fn two_tags_can_follow(self) -> bool
        ensures condition { IsTrue result ↔ (IsTrue self.can_be_accepted × CanTag self 8) }
        ensures packets { (packet : Packet) (hs : List Header) (kind : OpenKind) (known : List ℕ) (room : ℕ)
            → IsOpenAs packet hs kind known room self
            → IsTrue result ↔ SomeCompletion packet (HasAfter hs (λ unit later e.
            (n : ℕ) × (m : ℕ) × (ids : List ℕ) × (vlan_ids later ≡ n ∷ m ∷ ids))) }
    {
        self.can_be_accepted && self.can_two_tags()
    }

    /// Whether a SecTag can follow it.
    pub(crate) fn sec_tag_can_follow(self) -> bool
        ensures condition { IsTrue result ↔ (IsTrue self.can_be_accepted × CanSecTag self) }
        ensures packets { (packet : Packet) (hs : List Header) (kind : OpenKind) (known : List ℕ) (room : ℕ)
            → IsOpenAs packet hs kind known room self
            → IsTrue result ↔ SomeCompletion packet (HasAfter hs (λ unit later e. IsTrue (list_any is_sec_tag later))) }
    {
        self.can_be_accepted && self.can_sec_tag()
    }

    /// Whether this ether type can be announced by it or after it.
    pub(crate) fn type_can_follow(self, number: u16) -> bool
        ensures condition { IsTrue result ↔ (IsTrue self.can_be_accepted × CanType self number) }
        ensures packets { (packet : Packet) (hs : List Header) (kind : OpenKind) (known : List ℕ) (room : ℕ)
            → IsOpenAs packet hs kind known room self
            → IsTrue result ↔ SomeCompletion packet (HasAfter hs (λ unit later e.
            IsTrue (list_any (nat_eq number) (ether_types (next_after unit) later)))) }
    {
        self.can_be_accepted && self.can_type(number)
    }

    /// Whether a unit that is refused can follow it.
    pub(crate) fn refusal_can_follow(self) -> bool
        ensures condition { IsTrue result ↔ (IsTrue self.can_be_accepted × CanRefuse self) }
        ensures packets { (packet : Packet) (hs : List Header) (kind : OpenKind) (known : List ℕ) (room : ℕ)
            → IsOpenAs packet hs kind known room self
            → IsTrue result ↔ SomeCompletion packet (HasAfter hs (λ unit later e. IsTrue (is_some (refusal_of e)))) }
    {
        self.can_be_accepted && self.can_refuse()
    }
}

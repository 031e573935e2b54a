//! Puts tags into frames, changes them, and takes them off.
ghost use Rattle.std.specs.Prelude.{◌≡◌, ◌≤◌, List, length, drop, None, IfOk, OnErr};
ghost use Rattle.etherparse.specs.Header.{Header};
ghost use Rattle.etherparse.specs.Vlan.{vlan_view};
ghost use Rattle.ether_peel.specs.Grammar.Stack.{Ending, Walk};
ghost use Rattle.ether_peel.specs.Walker.Start.{start_of};
ghost use Rattle.ether_packet.specs.Front.{link_type, outer_tag};
ghost use Rattle.ether_packet.specs.Setting.{SetsTag};
ghost use Rattle.ether_packet.specs.Popping.{IsPopped};
ghost use Rattle.ether_packet.specs.Pushing.{IsPushed};
ghost use Rattle.ether_switch.specs.BridgeKinds.{tpid_of};
ghost use Rattle.ether_switch.specs.Leaving.{own_tag};

use crate::{Received, Vlan};
use ether_packet::{TagError, pop_vlan, push_vlan, set_vlan_id};
use ether_peel::Start;
use etherparse::{EtherType, SingleVlanHeader};

/// Puts the tag of its VLAN into a frame without a tag, after four free bytes of a buffer. The frame then begins at
/// index 0.
pub(crate) fn tag(frame: &Received, buffer: &mut [u8]) -> Result<(), TagError>
    requires { 4 ≤ length buffer.old }
    ensures ok { IfOk result (λ _. (hs : List Header) (e : Ending)
        → Walk (start_of Start.Ethernet2) (drop 4 buffer.old) hs e
        → IsPushed (start_of Start.Ethernet2) buffer.old hs e (own_tag frame.now) (tpid_of frame.now.kind) buffer.new) }
    ensures untyped { OnErr result ((hs : List Header) (e : Ending)
        → Walk (start_of Start.Ethernet2) (drop 4 buffer.old) hs e → link_type hs ≡ None) }
    ensures kept { OnErr result (buffer.new ≡ buffer.old) }
{
    let tag = SingleVlanHeader {
        pcp: frame.priority,
        drop_eligible_indicator: frame.drop_eligible,
        vlan_id: frame.vlan.id(),
        ether_type: EtherType(0),
    };
    push_vlan(Start::Ethernet2, buffer, tag, frame.kind.tpid())
}

/// Sets the identifier in the tag of a frame, after four bytes of a buffer.
pub(crate) fn rename(vlan: Vlan, buffer: &mut [u8]) -> Result<(), TagError>
    requires { 4 ≤ length buffer.old }
    ensures ok { IfOk result (λ _. (hs : List Header) (e : Ending)
        → Walk (start_of Start.Ethernet2) (drop 4 buffer.old) hs e
        → SetsTag (start_of Start.Ethernet2) (drop 4 buffer.old) hs e 0
        (λ tag. record tag { vid = vlan }) (drop 4 buffer.new)) }
    ensures untagged { OnErr result ((hs : List Header) (e : Ending)
        → Walk (start_of Start.Ethernet2) (drop 4 buffer.old) hs e → outer_tag hs ≡ None) }
    ensures kept { OnErr result (buffer.new ≡ buffer.old) }
{
    let (_, frame) = buffer.split_at_mut(4);
    set_vlan_id(Start::Ethernet2, frame, 0, vlan.id())
}

/// Takes the tag off a frame, after four bytes of a buffer. The frame then begins at index 8.
pub(crate) fn untag(buffer: &mut [u8]) -> Result<SingleVlanHeader, TagError>
    requires { 4 ≤ length buffer.old }
    ensures ok { IfOk result (λ tag. (hs : List Header) (e : Ending)
        → Walk (start_of Start.Ethernet2) (drop 4 buffer.old) hs e
        → IsPopped (start_of Start.Ethernet2) (drop 4 buffer.old) hs e (vlan_view tag) (drop 4 buffer.new)) }
    ensures untagged { OnErr result ((hs : List Header) (e : Ending)
        → Walk (start_of Start.Ethernet2) (drop 4 buffer.old) hs e → outer_tag hs ≡ None) }
    ensures kept { OnErr result (buffer.new ≡ buffer.old) }
{
    let (_, frame) = buffer.split_at_mut(4);
    pop_vlan(Start::Ethernet2, frame)
}

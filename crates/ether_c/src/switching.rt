//! A bridge with VLANs, for callers in C.
ghost use Rattle.std.specs.Prelude.{◌≡◌, List, map, IfSome, IfNone, None, ◌⊎◌};
ghost use Rattle.etherparse.specs.Bytes.{number};
ghost use Rattle.etherparse.specs.Header.{Header};
ghost use Rattle.ether_peel.specs.Grammar.Stack.{Ending, Walk};
ghost use Rattle.ether_peel.specs.Walker.Start.{start_of};
ghost use Rattle.ether_peel.specs.declared.start.Start.TheVariants as starts;
ghost use Rattle.ether_switch.specs.Leaving.{LeavesTagged, LeavesUntagged};
ghost use Rattle.ether_switch.specs.Relaying.{settings_of, Event};
ghost use Rattle.ether_switch.specs.Stations.{sighting_of, without};
ghost use Rattle.ether_switch.specs.Vlans.{row_of};
ghost use Rattle.ether_c.specs.Numbers.{done};
ghost use Rattle.ether_c.specs.Tags.{bad_field};
ghost use Rattle.ether_c.specs.Switching.{bridge_of, config_of, received_of, vlan_numbered, forgotten_numbered, stays, GivesReceived, GivesSent, GivesSighting};

use crate::statuses::{BAD_FIELD, DONE, STAYS};
use crate::{EtherBridge, EtherPort, EtherReceived};
use ether_switch::{Forgotten, Sighting, StationBucket, Vlan, forget};

/// Learns the source of a frame that came in by a port, and writes where the frame goes, or why it is discarded.
#[unsafe(no_mangle)]
pub extern "C" fn etherpeel_switch_receive(
    bridge: &EtherBridge<'_>,
    table: &mut [StationBucket],
    now: u32,
    from: u8,
    port: &EtherPort,
    frame: &[u8],
    received: &mut EtherReceived,
) -> u32
    ensures unfit { (bridge_of bridge.now ≡ None) ⊎ (config_of port.now ≡ None)
        → (result ≡ bad_field) × (table.new ≡ table.old) × (received.new ≡ received.old) }
    ensures given { IfSome (bridge_of bridge.now) (λ b. IfSome (config_of port.now) (λ p.
        (hs : List Header) (e : Ending) → Walk (start_of starts.Ethernet2) frame.now hs e
        → let event : Event = record { settings = settings_of b; now = now; from = from; port = p; hs = hs } in
        GivesReceived event table.old table.new received.new result)) }
{
    let Some(bridge) = bridge.to_bridge() else {
        return BAD_FIELD;
    };
    let Some(port) = port.to_config() else {
        return BAD_FIELD;
    };
    let answer = bridge.receive(table, now, from, &port, frame);
    *received = EtherReceived::of(&answer);
    DONE
}

/// Makes a frame after four free bytes of a buffer ready to leave with the tag of its VLAN, and writes the index at
/// which it then begins.
#[unsafe(no_mangle)]
pub extern "C" fn etherpeel_switch_tagged(
    received: &EtherReceived,
    buffer: &mut [u8],
    at: &mut usize,
) -> u32
    ensures unfit { received_of received.now ≡ None
        → (result ≡ bad_field) × (buffer.new ≡ buffer.old) × (at.new ≡ at.old) }
    ensures given { IfSome (received_of received.now)
        (λ r. GivesSent r.kind (LeavesTagged r) buffer.old buffer.new at.old at.new result) }
{
    match received.to_received() {
        Some(received) => begin(received.make_tagged(buffer), at),
        None => BAD_FIELD,
    }
}

/// Makes a frame after four free bytes of a buffer ready to leave without a tag, and writes the index at which it then
/// begins.
#[unsafe(no_mangle)]
pub extern "C" fn etherpeel_switch_untagged(
    received: &EtherReceived,
    buffer: &mut [u8],
    at: &mut usize,
) -> u32
    ensures unfit { received_of received.now ≡ None
        → (result ≡ bad_field) × (buffer.new ≡ buffer.old) × (at.new ≡ at.old) }
    ensures given { IfSome (received_of received.now)
        (λ r. GivesSent r.kind LeavesUntagged buffer.old buffer.new at.old at.new result) }
{
    match received.to_received() {
        Some(received) => begin(received.make_untagged(buffer), at),
        None => BAD_FIELD,
    }
}

/// Writes the index at which a frame begins, if it was made ready to leave.
fn begin(made: Option<usize>, at: &mut usize) -> u32
    ensures some { IfSome made (λ n. (at.new ≡ n) × (result ≡ done)) }
    ensures none { IfNone made ((at.new ≡ at.old) × (result ≡ stays)) }
{
    match made {
        Some(index) => {
            *at = index;
            DONE
        }
        None => STAYS,
    }
}

/// Writes the last sighting of a station in a VLAN, if the table has it.
#[unsafe(no_mangle)]
pub extern "C" fn etherpeel_switch_find(
    bridge: &EtherBridge<'_>,
    table: &[StationBucket],
    vid: u16,
    address: &[u8; 6],
    sighting: &mut Sighting,
) -> u32
    ensures unfit { (bridge_of bridge.now ≡ None) ⊎ (vlan_numbered vid ≡ None)
        → (result ≡ bad_field) × (sighting.new ≡ sighting.old) }
    ensures given { IfSome (bridge_of bridge.now) (λ b. IfSome (vlan_numbered vid) (λ v.
        GivesSighting (sighting_of b.key (row_of b.vlans.now v) (number address.now) table.now)
        sighting.old sighting.new result)) }
{
    let Some(bridge) = bridge.to_bridge() else {
        return BAD_FIELD;
    };
    let Some(vlan) = vlan_of(vid) else {
        return BAD_FIELD;
    };
    match bridge.sighting(table, vlan, *address) {
        Some(found) => {
            *sighting = found;
            DONE
        }
        None => STAYS,
    }
}

/// The VLAN with this identifier.
fn vlan_of(vid: u16) -> Option<Vlan>
    ensures { result ≡ vlan_numbered vid }
{
    Vlan::try_new(vid).ok()
}

/// Forgets stations, in a table or in the part of it that a VLAN has.
#[unsafe(no_mangle)]
pub extern "C" fn etherpeel_switch_forget(
    table: &mut [StationBucket],
    what: u32,
    port: u8,
    address: &[u8; 6],
) -> u32
    ensures unfit { forgotten_numbered what port address.now ≡ None
        → (result ≡ bad_field) × (table.new ≡ table.old) }
    ensures given { IfSome (forgotten_numbered what port address.now)
        (λ which. (table.new ≡ map (without which) table.old) × (result ≡ done)) }
{
    let which = match what {
        0 => Forgotten::All,
        1 => Forgotten::Port(port),
        2 => Forgotten::Station(*address),
        _ => return BAD_FIELD,
    };
    forget(table, which);
    DONE
}

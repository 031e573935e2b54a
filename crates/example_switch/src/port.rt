//! The ports of the switch, and the VLANs that they carry.
ghost use Rattle.std.specs.Prelude.{◌≡◌, ◌+◌, ◌^◌, ◌<◌, ◌≤◌, ℕ, length, replicate, IfOk, nat_eq, nat_le, nat_lt, ◌&&◌, ◌||◌};
ghost use Rattle.ether_switch.specs.Ports.{has, IsSet};
ghost use Rattle.ether_switch.specs.Stations.{no_sightings};
ghost use Rattle.ether_switch.specs.Vlans.{no_ports, row_of};
ghost use Rattle.example_switch.specs.Configured.{config_of, carries as carries_of, sends_untagged as sends_untagged_of, IsRow};

use ether_switch::{
    AcceptableFrames, PortConfig, PortSet, PortStates, StationBucket, Vlan, VlanConfig,
};
use std::alloc::{AllocError, Global};

/// A port of the switch.
#[derive(Clone, Copy, Debug)]
pub(crate) enum Port {
    /// A port for stations of this VLAN.
    Access(Vlan),
    /// A port to another bridge. It carries all VLANs.
    Trunk,
}

/// The number of buckets that each VLAN has in the table of stations.
const BUCKETS: u32 = 16;

/// The number of buckets in the table of stations.
const ALL_BUCKETS: usize = 4094 * BUCKETS as usize;

impl Port {
    /// Its configuration. An access port also accepts frames with a tag that has only a priority.
    pub(crate) fn config(self) -> PortConfig
        ensures { result ≡ config_of self }
    {
        match self {
            Port::Access(vlan) => PortConfig {
                frame_types: AcceptableFrames::OnlyUntaggedAndPriorityTagged,
                ..PortConfig::access(vlan)
            },
            Port::Trunk => PortConfig::trunk(),
        }
    }

    /// Whether frames of a VLAN leave by it.
    fn carries(self, vid: u16) -> bool
        ensures { result ≡ carries_of vid self }
    {
        match self {
            Port::Access(vlan) => vlan.id().value() == vid,
            Port::Trunk => true,
        }
    }

    /// Whether frames of a VLAN leave by it without a tag.
    fn sends_untagged(self, vid: u16) -> bool
        ensures { result ≡ sends_untagged_of vid self }
    {
        match self {
            Port::Access(vlan) => vlan.id().value() == vid,
            Port::Trunk => false,
        }
    }
}

/// The set of the ports from 1 to `count`.
fn ports_up_to(count: u8) -> PortSet
    ensures { IsSet result (λ p. nat_lt 0 p && nat_le p count) }
{
    let mut set = PortSet::NONE;
    for i in 0..count {
        set.insert(i + 1);
    }
    set
}

/// The states of the ports from 1 to `count`: each learns and forwards.
pub(crate) fn states_of(count: u8) -> PortStates
    ensures learning { IsSet result.learning (λ p. nat_lt 0 p && nat_le p count) }
    ensures forwarding { IsSet result.forwarding (λ p. nat_lt 0 p && nat_le p count) }
    ensures isolated { result.isolated ≡ no_ports }
    ensures mirrors { result.mirrors ≡ no_ports }
{
    let all = ports_up_to(count);
    PortStates {
        learning: all,
        forwarding: all,
        ..PortStates::NONE
    }
}

/// A table without stations.
pub(crate) fn empty_table(alloc: Global) -> Result<Vec<StationBucket>, AllocError>
    ensures { IfOk result (λ table. table.items ≡ replicate ALL_BUCKETS no_sightings) }
{
    let table = vec![in alloc; StationBucket::EMPTY; ALL_BUCKETS]?;
    Ok(table)
}

/// The VLANs of these ports, each at the index of its identifier.
pub(crate) fn vlans_of(alloc: Global, ports: &[Port]) -> Result<Vec<VlanConfig>, AllocError>
    requires { length ports.now < 2 ^ 8 }
    ensures { IfOk result (λ rows. (vid : ℕ) → 1 ≤ vid → vid ≤ 4094
        → IsRow ports.now vid (row_of rows.items vid)) }
{
    let mut rows = vec![in alloc; VlanConfig::NONE]?;
    for vid in 1..4095u16 {
        rows.push(vlan_of(ports, vid))?;
    }
    Ok(rows)
}

/// The VLAN with this identifier.
fn vlan_of(ports: &[Port], vid: u16) -> VlanConfig
    requires ports { length ports.now < 2 ^ 8 }
    requires vid { (1 ≤ vid) × (vid ≤ 4094) }
    ensures { IsRow ports.now vid result }
{
    let mut vlan = VlanConfig {
        first_bucket: (u32::from(vid) - 1) * BUCKETS,
        buckets: BUCKETS,
        ..VlanConfig::NONE
    };
    for i in 0..ports.len() {
        let number = i as u8 + 1;
        insert_if(ports[i].carries(vid), &mut vlan.members, number);
        insert_if(ports[i].sends_untagged(vid), &mut vlan.untagged, number);
    }
    vlan
}

/// Adds a port to a set, if it is one of the set.
fn insert_if(is_in: bool, set: &mut PortSet, number: u8)
    ensures { (p : ℕ) → p < 256 → has set.new p ≡ ((is_in && nat_eq p number) || has set.old p) }
{
    if is_in {
        set.insert(number);
    }
}

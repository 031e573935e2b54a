//! Stations that a bridge forgets.
ghost use Rattle.std.specs.Prelude.{◌≡◌, map};
ghost use Rattle.ether_switch.specs.Stations.{unless_forgotten, without as without_of, is_forgotten};

use crate::arrival::address_of;
use crate::{Sighting, StationBucket};

/// Which stations a table forgets.
#[derive(Clone, Copy, Debug)]
pub enum Forgotten {
    /// All of them.
    All,
    /// Those that were seen last at this port.
    Port(u8),
    /// The station with this address.
    Station([u8; 6]),
}

/// Forgets stations, in a table or in the part of it that a VLAN has.
///
/// Frames to these stations then go to all members of their VLAN, until the stations are seen again. A spanning tree
/// asks for this when the topology changes, and so does a port that goes down or leaves a VLAN.
///
/// ```
/// let mut table = [StationBucket::EMPTY; 8];
/// forget(&mut table, Forgotten::Port(1));
/// ```
pub fn forget(table: &mut [StationBucket], which: Forgotten)
    ensures { table.new ≡ map (without_of which) table.old }
{
    for bucket in table.iter_mut() {
        *bucket = without(bucket, which);
    }
}

/// A bucket without the sightings that are forgotten.
fn without(bucket: &StationBucket, which: Forgotten) -> StationBucket
    ensures { result ≡ without_of which bucket.now }
{
    StationBucket {
        first: unless(bucket.first, which),
        second: unless(bucket.second, which),
        third: unless(bucket.third, which),
        fourth: unless(bucket.fourth, which),
    }
}

/// The sighting, or a free place if it is forgotten.
fn unless(sighting: Sighting, which: Forgotten) -> Sighting
    ensures { result ≡ unless_forgotten which sighting }
{
    let is_forgotten = match which {
        Forgotten::All => true,
        Forgotten::Port(port) => sighting.port == port,
        Forgotten::Station(address) => sighting.address == address_of(address),
    };
    if is_forgotten {
        Sighting::NONE
    } else {
        sighting
    }
}

//! The laws of a bridge. Each is the contract of a function that does nothing.
ghost use Rattle.ether_switch.specs.Laws.{VlansAreIsolated, OnlyTagsChange, VlansAreIsolatedOverLinks, PartsInOrderAreApart, VlansDoNotInterfere, LastSightingsAreFound, FramesFollowStations, PortsAreFair, ForgottenAreNotFound};

/// No frame crosses VLANs: it leaves only by ports of the VLAN in which it came in, copies for mirrors aside. The VLAN
/// is in the port's untagged set, or the frame leaves with a tag that names the VLAN.
pub fn vlans_are_isolated()
    ensures { VlansAreIsolated }
{}

/// A frame leaves as it came, except for the tag: the addresses before the tag and all bytes after it are unchanged.
pub fn only_tags_change()
    ensures { OnlyTagsChange }
{}

/// No frame crosses VLANs on its way through bridges that are joined. A VLAN that one end of a link sends without a tag
/// is the one that the other end gives to frames without a tag. And the frame's first port takes no second tag
/// ([`refuses_second_tag`](crate::PortConfig::refuses_second_tag)) or no tag at all
/// ([`OnlyUntagged`](crate::AcceptableFrames::OnlyUntagged)), or no link carries a VLAN without a tag.
pub fn vlans_are_isolated_over_links()
    ensures { VlansAreIsolatedOverLinks }
{}

/// If the parts of VLANs are in order ([`parts_are_in_order`](crate::parts_are_in_order)), each VLAN has a part that no
/// other VLAN has.
pub fn parts_in_order_are_apart()
    ensures { PartsInOrderAreApart }
{}

/// What is answered in a VLAN depends on the frames of that VLAN alone: after any two histories with the same frames in
/// it, the same frame has the same answer. Premise: the VLAN has a part of the table that no other VLAN has.
pub fn vlans_do_not_interfere()
    ensures { VlansDoNotInterfere }
{}

/// What a table holds of a station is its last sighting in the VLAN.
pub fn last_sightings_are_found()
    ensures { LastSightingsAreFound }
{}

/// A station is known to be at the port at which it was seen last in the VLAN, at most the ageing time ago.
pub fn frames_follow_stations()
    ensures { FramesFollowStations }
{}

/// A sighting that has not aged leaves its place to that of another station only if it is at the same port, or if its
/// port has more sightings in the bucket than the port of the new one. So a port from which many sources come pushes
/// out no station of a port that has fewer.
pub fn ports_are_fair()
    ensures { PortsAreFair }
{}

/// No frame goes by a sighting that was forgotten.
pub fn forgotten_are_not_found()
    ensures { ForgottenAreNotFound }
{}

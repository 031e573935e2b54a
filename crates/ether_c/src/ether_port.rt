//! The configuration of a bridge's port, as a struct of C.
ghost use Rattle.std.specs.Prelude.{◌≡◌};
ghost use Rattle.ether_c.specs.Switching.{config_of, frame_types_numbered};

use ether_switch::{AcceptableFrames, PortConfig, Vlan};
use etherparse::VlanPcp;

/// The configuration of a bridge's port: `etherpeel_port` in C.
#[repr(C)]
#[derive(Clone, Copy)]
pub struct EtherPort {
    /// The VLAN of a frame that comes in without a tag, or with a tag that has only a priority: 1 to 4094.
    pub pvid: u16,
    /// Which frames it accepts: 0 all, 1 those with a tag that names a VLAN, 2 the others, 3 those without a tag.
    pub frame_types: u8,
    /// Whether it discards frames with a second tag of the bridge's kind: 0 if not.
    pub refuses_second_tag: u8,
    /// Whether it discards frames of VLANs that it is not a member of: 0 if not.
    pub ingress_filtering: u8,
    /// The priority of a frame that comes in without a tag: 0 to 7.
    pub default_priority: u8,
}

// as c/etherpeel.h lays it out
const _: () = prove!(size_of::<EtherPort>() == 6);

impl EtherPort {
    /// The configuration of the port, if its numbers fit their fields.
    pub(crate) fn to_config(&self) -> Option<PortConfig>
        ensures { result ≡ config_of self.now }
    {
        let Ok(pvid) = Vlan::try_new(self.pvid) else {
            return None;
        };
        let Ok(default_priority) = VlanPcp::try_new(self.default_priority) else {
            return None;
        };
        let frame_types = frame_types(self.frame_types)?;
        Some(PortConfig {
            pvid,
            frame_types,
            refuses_second_tag: self.refuses_second_tag != 0,
            ingress_filtering: self.ingress_filtering != 0,
            default_priority,
        })
    }
}

/// The frames that a port accepts, by their number.
fn frame_types(number: u8) -> Option<AcceptableFrames>
    ensures { result ≡ frame_types_numbered number }
{
    match number {
        0 => Some(AcceptableFrames::All),
        1 => Some(AcceptableFrames::OnlyVlanTagged),
        2 => Some(AcceptableFrames::OnlyUntaggedAndPriorityTagged),
        3 => Some(AcceptableFrames::OnlyUntagged),
        _ => None,
    }
}

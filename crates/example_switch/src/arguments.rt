//! Reads the arguments, which are ports.
use crate::port::Port;
use ether_switch::Vlan;
use thiserror::Error;

/// Why the program ends before all packets are read.
#[derive(Debug, Drop, Error)]
pub(crate) enum SwitchError {
    /// An argument is not a port.
    #[error("a port is `trunk` or the identifier of a VLAN, 1 to 4094")]
    Argument,
    /// There are more than 255 ports.
    #[error("there are at most 255 ports")]
    Count,
    /// A packet is not an Ethernet frame, or its interface is not a port.
    #[error("a packet is an Ethernet frame of an interface that is a port")]
    Packet,
}

/// The port in an argument.
pub(crate) fn port_of(argument: &str) -> Result<Port, SwitchError> {
    if argument == "trunk" {
        return Ok(Port::Trunk);
    }
    match argument.parse::<u16>() {
        Ok(number) => match Vlan::try_new(number) {
            Ok(vlan) => Ok(Port::Access(vlan)),
            Err(_) => Err(SwitchError::Argument),
        },
        Err(_) => Err(SwitchError::Argument),
    }
}

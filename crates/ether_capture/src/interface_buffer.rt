//! Memory for the interfaces of a section.
ghost use Rattle.std.specs.Prelude.{◌≡◌, ◌≤◌, [], IfOk, refl};
ghost use Rattle.std.specs.Vec.{vec_capacity};

use ether_pcap::{CaptureInterface, InterfaceTable};
use ether_stream::{MAX_INTERFACES, SectionTable};
use std::alloc::{AllocError, Global};

/// Memory for the interfaces of a section: 65,536 at most.
#[derive(Drop)]
pub struct InterfaceBuffer {
    interfaces: Vec<CaptureInterface>,
    ghost room: { 65536 ≤ vec_capacity interfaces },
}

impl InterfaceBuffer {
    /// Memory for 65,536 interfaces, with none in it. Returns [`AllocError`] if it is refused.
    pub fn new(alloc: Global) -> Result<Self, AllocError>
        ensures { IfOk result (λ buffer. buffer.interfaces.items ≡ []) }
    {
        let interfaces = Vec::with_capacity(alloc, MAX_INTERFACES)?;
        Ok(InterfaceBuffer { interfaces })
    }
}

impl InterfaceTable for InterfaceBuffer {
    ghost items = { λ buffer. buffer.interfaces.items };

    ghost most = { 65536 };

    fn interfaces(&self) -> &[CaptureInterface] {
        self.interfaces.as_slice()
    }

    fn add(&mut self, interface: CaptureInterface) -> bool {
        if self.interfaces.len() >= MAX_INTERFACES {
            return false;
        }
        match self.interfaces.push(interface) {
            Ok(()) => true,
            Err(_) => unreachable!(),
        }
    }

    fn remove_all(&mut self) {
        self.interfaces.clear();
    }
}

impl SectionTable for InterfaceBuffer {
    ghost has_room = { refl };
}

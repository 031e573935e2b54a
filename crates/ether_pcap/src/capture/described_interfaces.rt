//! The interfaces of a section, as far as its packets need them.
ghost use Rattle.std.specs.Prelude.{◌≡◌, List, slice_get};
ghost use Rattle.ether_pcap.specs.declared.capture.capture_interface.CaptureInterface.{CaptureInterface};

use crate::capture::capture_interface::CaptureInterface;

/// The interfaces that a section has described so far, wherever a program keeps them.
///
/// [`ReaderState::read`](crate::ReaderState::read) looks interfaces up here.
pub trait DescribedInterfaces {
    // The interfaces, in the order in which they were described.
    ghost items: { Self → List CaptureInterface };

    /// The interface with this number, counted from 0.
    fn interface(&self, number: u32) -> Option<CaptureInterface>
        ensures { result ≡ slice_get (items self.now) number };
}

/// The interfaces of a slice, in its order.
#[derive(Clone, Copy)]
pub struct InterfaceSlice<'a>(pub &'a [CaptureInterface]);

impl DescribedInterfaces for InterfaceSlice<'_> {
    ghost items = { λ s. s.0.now };

    fn interface(&self, number: u32) -> Option<CaptureInterface> {
        self.0.get(number as usize).copied()
    }
}

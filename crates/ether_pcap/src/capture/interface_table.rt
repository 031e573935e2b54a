//! Where a reader of capture files keeps the interfaces of a section.
ghost use Rattle.std.specs.Prelude.{◌≡◌, ◌<◌, ◌≤◌, ℕ, List, [], ◌∷◌, ◌++◌, length, IsTrue, IsFalse};
ghost use Rattle.ether_pcap.specs.declared.capture.capture_interface.CaptureInterface.{CaptureInterface};

use crate::capture::capture_interface::CaptureInterface;
use arrayvec::ArrayVec;

/// Where a [`CaptureReader`](crate::CaptureReader) keeps the interfaces of a section.
///
/// An `ArrayVec<CaptureInterface, N>` holds up to `N` interfaces and allocates no memory. A program that allocates can
/// implement this trait for a table of its own.
pub trait InterfaceTable: Drop {
    // The interfaces, in the order in which they were described.
    ghost items: { Self → List CaptureInterface };

    // How many interfaces there is room for.
    ghost most: { ℕ };

    /// The interfaces, in the order in which they were added.
    fn interfaces(&self) -> &[CaptureInterface]
        ensures { result.now ≡ items self.now };

    /// Appends an interface. If there is no room, appends nothing and returns `false`.
    fn add(&mut self, interface: CaptureInterface) -> bool
        ensures added { IsTrue result → items self.new ≡ items self.old ++ interface ∷ [] }
        ensures room { IsTrue result → length (items self.old) < most }
        ensures full { IsFalse result → most ≤ length (items self.old) }
        ensures same { IsFalse result → items self.new ≡ items self.old };

    /// Removes all interfaces.
    fn remove_all(&mut self)
        ensures { items self.new ≡ [] };
}

impl<const N: usize> InterfaceTable for ArrayVec<CaptureInterface, N> {
    ghost items = { λ table. table.items };

    ghost most = { N };

    fn interfaces(&self) -> &[CaptureInterface] {
        self.as_slice()
    }

    fn add(&mut self, interface: CaptureInterface) -> bool {
        if self.is_full() {
            return false;
        }
        self.push(interface);
        true
    }

    fn remove_all(&mut self) {
        self.clear();
    }
}

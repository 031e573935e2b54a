//! A sink that may keep the rows that are counted.
ghost use Rattle.std.specs.Prelude.{◌≡◌, Bool, false, refl};
ghost use Rattle.ether_capture.specs.Journal.{known_if};

use ether_output::Sink;
use std::io;

/// A sink for the rows that are counted.
///
/// The program's journal keeps none of them. For every journal, also for one that keeps them, it is proved that the
/// counts are those of the rows that it holds.
pub trait Journal: Sink {
    // Whether it is known what it holds.
    ghost is_known: { Bool };

    /// A journal with nothing in it.
    fn start() -> Self
        ensures { Self.Sink.contents result ≡ known_if is_known };
}

impl Journal for io::Sink {
    ghost is_known = { false };

    fn start() -> Self {
        io::sink()
    }
}

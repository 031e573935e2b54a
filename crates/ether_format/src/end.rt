//! How the walk through a packet ends.
ghost use Rattle.std.specs.Prelude.{◌≡◌};
ghost use Rattle.ether_format.specs.JsonBytes.{headers_end};
ghost use Rattle.ether_format.specs.Told.{end_section, is_end_accepted};

use crate::cause::Cause;
use ether_fields::Section;
use ether_peel::RestKind;

/// How the walk through a packet ends.
#[derive(Clone, Copy, Debug)]
pub enum End {
    /// What is left: the offsets of its start and its end, and what it is announced as.
    Rest(usize, usize, RestKind),
    /// A packet whose link type the walk does not know, with its length in bytes.
    Skipped(usize),
    /// A fault: its offset, whether bytes appended to the packet would lie outside the window there, and what is wrong.
    Fault(usize, bool, Cause),
}

impl End {
    /// Whether no header is refused.
    pub(crate) fn is_accepted(&self) -> bool
        ensures { result ≡ is_end_accepted self.now }
    {
        !matches!(self, End::Fault(_, _, _))
    }

    /// The offset of the first byte after the last header that is found.
    pub(crate) fn headers_end(&self) -> usize
        ensures { result ≡ headers_end self.now }
    {
        match self {
            End::Rest(start, _, _) | End::Fault(start, _, _) => *start,
            End::Skipped(_) => 0,
        }
    }

    /// Its section.
    #[inline(always)]
    pub(crate) fn section(&self) -> Section
        ensures { result ≡ end_section self.now }
    {
        match self {
            End::Rest(_, _, _) | End::Skipped(_) => Section::Rest,
            End::Fault(_, _, _) => Section::Fault,
        }
    }
}

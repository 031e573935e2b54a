//! The laws of the definitions, and the main theorem. Each law is the contract of a function that does nothing: what
//! its clause says holds for every list of bytes.
ghost use Rattle.ether_peel.specs.Grammar.Laws.{StacksAreOne};
ghost use Rattle.ether_peel.specs.Grammar.Places.{StacksAreLocal};
ghost use Rattle.ether_peel.specs.Grammar.Cleared.{HeadersGoBack};
ghost use Rattle.ether_peel.specs.Grammar.Cuts.{CutsKeep};
ghost use Rattle.ether_peel.specs.Grammar.Extensions.{ExtensionsKeep};
ghost use Rattle.ether_peel.specs.Walker.Start.{start_of};
ghost use Rattle.ether_peel.specs.Walker.UnitHeader.{UnitsMeanHeaders};
ghost use Rattle.ether_peel.specs.Walker.MainTheorem.{MainTheorem};

use crate::{Peel, Start, Summary, summary, write_back};
use etherparse::err::SliceWriteSpaceError;

/// Each window of each list of bytes has exactly one stack from each expectation.
pub fn stacks_are_one()
    ensures { StacksAreOne }
{}

/// A stack depends only on the bytes of its window, and moves with the window.
pub fn stacks_are_local()
    ensures { StacksAreLocal }
{}

/// The headers of a walk, written back before the rest, give the front of the list, except that the two reserved bits
/// of each SecTag are 0.
pub fn headers_go_back()
    ensures { HeadersGoBack }
{}

/// The headers of a cut are a front of the headers of the whole list. A cut of an accepted list that has all its units
/// is accepted alike; any other one ends in an open refusal at the first unit that it does not have whole.
pub fn cuts_keep()
    ensures { CutsKeep }
{}

/// Appended bytes keep an accepted list accepted, keep a refusal for content or in a closed window, and keep an open
/// refusal until its named length is there.
pub fn extensions_keep()
    ensures { ExtensionsKeep }
{}

/// A view that a walk returns means the header that the walk has there: its bytes have that value.
pub fn units_mean_headers()
    ensures { UnitsMeanHeaders }
{}

/// What the calls of the main theorem find in a list of bytes.
#[derive(Drop)]
pub struct Findings<'a> {
    /// A walk that has read nothing yet.
    pub walk: Peel<'a>,
    /// The result of the walk.
    pub summary: Summary,
    /// Where the walk's last window ends, up to which a target was written.
    pub written: Result<usize, SliceWriteSpaceError>,
}

/// The main theorem: its contract has each clause, by name, for every list and starting point.
///
/// The function makes the calls that the theorem is about: [`Peel::new`], [`summary`], and [`write_back`] to `target`.
/// A user of the program `ether_tool` reads most clauses in its lines:
///
/// | Clause | Of a frame | Its line |
/// |---|---|---|
/// | `walk`, `one`, `begins`, `walker`, `items` | each header, and where it begins | `vlan 14 pcp 5 dei 1 vid 291
/// 0x0800` |
/// | `summary` | the last window, and what is expected there | `rest 18 46 type 0x0800` |
/// | `summary` | its first breach: offset, mark and cause | `fault 14 open length 4 0 slice` |
/// | `written` | the headers, written back | none: a caller of [`write_back`] has them |
/// | `cuts`, `extensions` | a fault that more bytes may mend, and the length that it needs | `open` in the line
/// `fault`, OFFSET and REQUIRED |
pub fn main_theorem<'a>(start: Start, bytes: &'a [u8], target: &mut [u8]) -> Findings<'a>
    ensures { MainTheorem (start_of start) bytes.now target.old target.new result }
{
    Findings {
        walk: Peel::new(start, bytes),
        summary: summary(start, bytes),
        written: write_back(start, bytes, target),
    }
}

//! Finds a VLAN tag or SecTag of a frame by its index.
ghost use Rattle.std.specs.Prelude.{◌≡◌, ◌+◌, ◌≤◌, List, [], ◌∷◌, length, IfOk, IfErr, MatchOption};
ghost use Rattle.etherparse.specs.LinkExt.{ext_header_view};
ghost use Rattle.etherparse.specs.Header.{Header, header_len};
ghost use Rattle.ether_peel.specs.Grammar.Stack.{Ending, Walk};
ghost use Rattle.ether_peel.specs.Walker.Start.{start_of};
ghost use Rattle.ether_peel.specs.Walker.UnitHeader.{unit_header};
ghost use Rattle.ether_packet.specs.Replacing.{ext_count, IsPlacedExt};

use ether_peel::{Peel, PeelUnit, Start};
use etherparse::LinkExtHeader;

/// A VLAN tag or SecTag of a frame, and its offset.
#[derive(Clone, Copy)]
pub(crate) struct PlacedExt {
    pub(crate) at: usize,
    pub(crate) header: LinkExtHeader,
}

/// The VLAN tag or SecTag at an index, counted from the outermost one. The error is the number of VLAN tags and
/// SecTags, if there is none at the index.
pub(crate) fn ext_at(start: Start, frame: &[u8], index: usize) -> Result<PlacedExt, usize>
    ensures ok { IfOk result (λ found. (hs : List Header) (e : Ending)
        → Walk (start_of start) frame.now hs e → IsPlacedExt hs index found) }
    ensures room { IfOk result (λ found. found.at + header_len (ext_header_view found.header) ≤ length frame.now) }
    ensures none { IfErr result (λ count. (hs : List Header) (e : Ending)
        → Walk (start_of start) frame.now hs e → (count ≡ ext_count hs) × (count ≤ index)) }
{
    let mut peel = Peel::new(start, frame);
    let mut count = 0;
    loop {
        let at = peel.offset();
        match peel.next() {
            Some(Ok(unit)) => {
                if let Some(header) = ext_of(&unit) {
                    if count == index {
                        return Ok(PlacedExt { at, header });
                    }
                    count += 1;
                }
            }
            Some(Err(_)) => return Err(count),
            None => return Err(count),
        }
    }
}

/// The VLAN tag or SecTag in a unit, if it has one.
#[inline(always)]
fn ext_of(unit: &PeelUnit<'_>) -> Option<LinkExtHeader>
    ensures { MatchOption result (ext_count (unit_header unit.now ∷ []) ≡ 0)
        (λ header. unit_header unit.now ≡ ext_header_view header) }
{
    match unit {
        PeelUnit::Vlan(tag) => Some(LinkExtHeader::Vlan(tag.to_header())),
        PeelUnit::Macsec(tag) => Some(LinkExtHeader::Macsec(tag.header.to_header())),
        _ => None,
    }
}

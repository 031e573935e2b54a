//! Whether a test of a field holds for a packet.
ghost use Rattle.std.specs.Prelude.{◌≡◌, List};
ghost use Rattle.etherparse.specs.Header.{Header};
ghost use Rattle.ether_peel.specs.Grammar.Stack.{Ending, Walk};
ghost use Rattle.ether_peel.specs.Walker.Start.{start_of};
ghost use Rattle.ether_filter.specs.FieldTests.{answer, field_holds, frame_holds};
ghost use Rattle.ether_filter.specs.FieldsFound.{found_after};
ghost use Rattle.ether_filter.specs.Primitives.{frame_of};

use crate::field_hit::{frame_hit, unit_hit};
use crate::field_test::{FieldTest, Relation};
use crate::packet::Packet;
use ether_peel::{Peel, Start};

/// What the headers of a packet show of a field.
#[derive(Clone, Copy)]
pub(crate) struct FieldFound {
    /// Whether there is a value.
    has_value: bool,
    /// Whether a value is related as the test asks.
    has_hit: bool,
}

impl FieldFound {
    /// What is found with a further header, by whether its value is related.
    fn after(self, hit: Option<bool>) -> FieldFound
        ensures { result ≡ found_after self hit }
    {
        match hit {
            Some(hit) => FieldFound {
                has_value: true,
                has_hit: self.has_hit || hit,
            },
            None => self,
        }
    }

    /// Whether a test with this relation holds.
    fn answer(self, relation: Relation) -> bool
        ensures { result ≡ answer relation self.has_value self.has_hit }
    {
        match relation {
            Relation::Exists => self.has_value,
            Relation::NotEqual => self.has_value && !self.has_hit,
            _ => self.has_hit,
        }
    }
}

/// Whether a test of a field holds for the headers of a frame.
#[inline(never)]
pub(crate) fn matches_field(test: FieldTest, start: Start, frame: &[u8]) -> bool
    ensures { (hs : List Header) (e : Ending) → Walk (start_of start) frame.now hs e
        → result ≡ field_holds test hs }
{
    let mut peel = Peel::new(start, frame);
    let mut found = FieldFound {
        has_value: false,
        has_hit: false,
    };
    loop {
        match peel.next() {
            Some(Ok(unit)) => found = found.after(unit_hit(&test, &unit)),
            Some(Err(_)) => return found.answer(test.relation),
            None => return found.answer(test.relation),
        }
    }
}

/// Whether a test holds of what the capture says of a packet.
#[inline(never)]
pub(crate) fn matches_frame(test: FieldTest, packet: &Packet<'_>) -> bool
    ensures { result ≡ frame_holds test (frame_of packet.now) }
{
    let (has_value, has_hit) = match frame_hit(&test, packet) {
        Some(hit) => (true, hit),
        None => (false, false),
    };
    FieldFound { has_value, has_hit }.answer(test.relation)
}

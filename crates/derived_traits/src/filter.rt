//! What callers know of the derived traits and of a constant. These functions are proved and never run.
ghost use Rattle.std.specs.Prelude.{◌≡◌, ◌↔◌, IsTrue};

use ether_filter::{Decision, Filter, FilterError, FilterErrorKind, Packet, PacketTime};
use ether_peel::Start;

/// `==` is equality.
pub fn equality()
    ensures filter_error { (a b : _) → IsTrue (⟦<FilterError as PartialEq>⟧.eq a b) ↔ (a ≡ b) }
    ensures filter_error_kind { (a b : _) → IsTrue (⟦<FilterErrorKind as PartialEq>⟧.eq a b) ↔ (a ≡ b) }
    ensures packet { (a b : _) → IsTrue (⟦<Packet<'static> as PartialEq>⟧.eq a b)
        ↔ ((a.start ≡ b.start) × (a.frame.now ≡ b.frame.now) × (a.captured_len ≡ b.captured_len)
        × (a.original_len ≡ b.original_len) × (a.time ≡ b.time)) }
    ensures start { (a b : _) → IsTrue (⟦<Start as PartialEq>⟧.eq a b) ↔ (a ≡ b) }
    ensures packet_times { (a b : _) → IsTrue (⟦<Option<PacketTime> as PartialEq>⟧.eq a b) ↔ (a ≡ b) }
    ensures packet_time { (a b : _) → IsTrue (⟦<PacketTime as PartialEq>⟧.eq a b) ↔ (a ≡ b) }
    ensures decision { (a b : _) → IsTrue (⟦<Decision as PartialEq>⟧.eq a b) ↔ (a ≡ b) }
{}

pub fn greatest_number_of_words() -> usize
    ensures { result ≡ 192 }
{
    Filter::MAX_WORDS
}

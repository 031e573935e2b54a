//! What callers know of a constant of `ether_switch`.
ghost use Rattle.std.specs.Prelude.{◌≡◌};

use ether_switch::Bridge;

/// The ageing time that IEEE 802.1Q recommends (8.8.3), in seconds.
pub fn ageing_time() -> u32
    ensures { result ≡ 300 }
{
    Bridge::AGEING_TIME
}

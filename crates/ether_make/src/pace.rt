//! The times of frames at a rate.
ghost use Rattle.std.specs.Prelude.{◌≡◌, ◌+◌, ◌*◌, ◌/◌, ◌^◌, ◌<◌, None, Some, if◌then◌else◌};
ghost use Rattle.ether_make.specs.Templates.{in_capture, later as later_in};

use crate::time_text::Time;

/// A time and so many parts of a second, if a capture can have it.
pub fn later(time: Time, count: u64, rate: u64) -> Option<Time>
    ensures { result ≡ (if in_capture (later_in time count rate) then Some (later_in time count rate) else None) }
{
    let (whole, part) = parts(count, rate);
    let nanoseconds = u64::from(time.nanoseconds) + part;
    let more = u64::from(time.seconds) + nanoseconds / 1_000_000_000;
    match u32::try_from(whole.saturating_add(more)) {
        Ok(seconds) => Some(Time {
            seconds,
            nanoseconds: (nanoseconds % 1_000_000_000) as u32,
        }),
        Err(_) => None,
    }
}

/// The seconds and nanoseconds of so many parts of a second.
fn parts(count: u64, rate: u64) -> (u64, u64)
    ensures sum { result.0 * 10 ^ 9 + result.1 ≡ count * 10 ^ 9 / rate }
    ensures small { result.1 < 10 ^ 9 }
{
    if rate == 0 {
        return (0, 0);
    }
    (count / rate, part(count % rate, rate))
}

/// The nanoseconds of so many parts of a second.
fn part(count: u64, rate: u64) -> u64
    requires { count < rate }
    ensures sum { result ≡ count * 10 ^ 9 / rate }
    ensures small { result < 10 ^ 9 }
{
    match count.checked_mul(1_000_000_000) {
        Some(total) => total / rate,
        None => (u128::from(count) * 1_000_000_000 / u128::from(rate)) as u64,
    }
}

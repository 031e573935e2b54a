//! The line of `--progress`, which shows how far captures are read.
ghost use Rattle.std.specs.Prelude.{◌≡◌};

use std::cell::Cell;
use std::io;
use std::io::{Read, Write};
use std::time::{Clock, Duration};

/// The least number of milliseconds between two changes of the line.
const PAUSE: u64 = 200;

/// One line, which each change overwrites.
#[derive(Drop)]
pub struct Gauge<'a, K, M> {
    clock: &'a K,
    messages: M,
    is_on: Cell<bool>,
    is_shown: Cell<bool>,
}

impl<'a, K: Clock, M: Write + Copy> Gauge<'a, K, M> {
    /// A line that is not shown yet.
    pub fn new(clock: &'a K, messages: M) -> Self
        ensures clock { result.clock.now ≡ clock.now }
        ensures messages { result.messages ≡ messages }
    {
        Gauge {
            clock,
            messages,
            is_on: Cell::new(false),
            is_shown: Cell::new(false),
        }
    }

    /// From here on the line is shown as bytes are read.
    pub fn show(&self) {
        self.is_on.set(true);
    }

    /// Ends the line, if it is shown.
    pub fn end_line(&self) {
        if self.is_shown.get() {
            self.is_shown.set(false);
            let mut messages = self.messages;
            let _ = messages.write_all(b"\n");
        }
    }

    /// Shows how many bytes were read, how many there are, if that is known, and how many thousands were read a second.
    fn tell(&self, read: u64, size: Option<u64>, rate: u64) {
        self.is_shown.set(true);
        let mut messages = self.messages;
        let told = match size {
            Some(size) => write!(messages, "\r{read} of {size} bytes, {rate} kB/s  "),
            None => write!(messages, "\r{read} bytes, {rate} kB/s  "),
        };
        let _ = told;
    }
}

/// A reader, and how many of its bytes were read.
#[derive(Drop)]
pub struct Meter<'a, R, K, M> {
    stream: R,
    gauge: &'a Gauge<'a, K, M>,
    size: Option<u64>,
    read: u64,
    started: Option<Duration>,
    told: Duration,
}

impl<'a, R, K: Clock, M: Write + Copy> Meter<'a, R, K, M> {
    /// A reader, with the number of its bytes, if that is known.
    pub fn new(stream: R, size: Option<u64>, gauge: &'a Gauge<'a, K, M>) -> Self
        ensures stream { result.stream ≡ stream }
        ensures size { result.size ≡ size }
        ensures read { result.read ≡ 0 }
    {
        Meter {
            stream,
            gauge,
            size,
            read: 0,
            started: None,
            told: Duration::ZERO,
        }
    }

    /// Adds the number of bytes that a read returned. Changes the line if the last change is long enough ago, and at
    /// the end.
    fn add(&mut self, count: usize)
        ensures { self.new.stream ≡ self.old.stream }
    {
        let Ok(now) = self.gauge.clock.monotonic() else {
            return;
        };
        let started = self.started.unwrap_or(now);
        self.started = Some(started);
        self.read = self.read.saturating_add(count as u64);
        let since = now.saturating_sub(self.told.max(started));
        if count > 0 && since < Duration::from_millis(PAUSE) {
            return;
        }
        self.told = now;
        let rate = kilobytes_a_second(self.read, now.saturating_sub(started));
        self.gauge.tell(self.read, self.size, rate);
    }
}

/// The rate in thousands of bytes a second.
fn kilobytes_a_second(bytes: u64, time: Duration) -> u64 {
    let milliseconds = u64::try_from(time.as_millis()).unwrap_or(u64::MAX);
    bytes.checked_div(milliseconds).unwrap_or(bytes)
}

impl<R: Read, K: Clock, M: Write + Copy> Read for Meter<'_, R, K, M> {
    ghost remaining = { λ meter. R.Read.remaining meter.stream };

    fn read(&mut self, buf: &mut [u8]) -> io::Result<usize> {
        let count = self.stream.read(buf)?;
        if self.gauge.is_on.get() {
            self.add(count);
        }
        Ok(count)
    }
}

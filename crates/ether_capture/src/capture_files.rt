//! Opens captures in the file system.
ghost use Rattle.std.specs.Prelude.{◌≡◌, ⊤};

use crate::captures::Captures;
use crate::progress_line::{Gauge, Meter};
use ether_files::{OpenFault, OwnOutput};
use std::fs;
use std::fs::OpenFile;
use std::io::Write;
use std::rt::Files;
use std::time::Clock;

/// Captures in files, and what shows how far they are read.
#[derive(Drop)]
pub struct CaptureFiles<'a, H, M> {
    host: &'a H,
    gauge: &'a Gauge<'a, H, M>,
    output: OwnOutput,
}

impl<'a, H, M> CaptureFiles<'a, H, M> {
    /// The captures in all files but the one that is `output`; `gauge` shows how far they are read.
    pub fn new(host: &'a H, gauge: &'a Gauge<'a, H, M>, output: OwnOutput) -> Self
        ensures host { result.host.now ≡ host.now }
        ensures gauge { result.gauge.now ≡ gauge.now }
        ensures output { result.output ≡ output }
    {
        CaptureFiles {
            host,
            gauge,
            output,
        }
    }
}

impl<'a, H: Files + Clock, M: Write + Copy> Captures for CaptureFiles<'a, H, M> {
    type Input = Meter<'a, H::File, H, M>;

    ghost has = { λ _ _ _. ⊤ };

    ghost can_refuse = { λ _. ⊤ };

    fn open_named(&self, name: &str) -> Result<Meter<'a, H::File, H, M>, OpenFault> {
        let file = match fs::open(self.host, name) {
            Ok(file) => file,
            Err(error) => return Err(OpenFault::of(&error)),
        };
        let size = match file.metadata() {
            Ok(metadata) if metadata.is_dir() => return Err(OpenFault::IsADirectory),
            Ok(metadata) if metadata.is_file() => {
                if metadata.len() > 0 && self.output.is(&metadata) {
                    return Err(OpenFault::IsOutput);
                }
                Some(metadata.len())
            }
            _ => None,
        };
        Ok(Meter::new(file, size, self.gauge))
    }

    fn show(&self) {
        self.gauge.show();
    }

    fn end_line(&self) {
        self.gauge.end_line();
    }
}

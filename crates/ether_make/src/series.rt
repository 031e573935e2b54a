//! The frames of a line, written one after another.
ghost use Rattle.std.specs.Prelude.{◌≡◌, ◌+◌, ◌≤◌, IfOk, OnOk, if◌then◌else◌, length, map, take, true};
ghost use Rattle.ether_make.specs.Captures.{Grows};
ghost use Rattle.ether_make.specs.FrameViews.{frame_view, template_view};
ghost use Rattle.ether_make.specs.Lines.{all_linked, is_timely_at, longest};
ghost use Rattle.ether_make.specs.Outputs.{IsBegunAs, finished as finished_in, with_sequence as with_sequence_in};
ghost use Rattle.ether_make.specs.Serial.{IsFinished, IsSeries, after_series, progress_view, sequence_len, series_frames};
ghost use Rattle.ether_make.specs.Templates.{all_drawn, numbered};

use crate::check_sequence::check_sequence;
use crate::frame::{Frame, padded};
use crate::output::{finished, has_sequence, write_frame};
use crate::progress::{Progress, paced, time_at};
use crate::settings::Settings;
use crate::slot::Slot;
use crate::template::{Template, number_ranges};
use crate::time_text::Time;
use rand_xoshiro::SplitMix64;
use std::alloc::AllocError;
use std::io;
use std::io::Write;

/// The frames of a line.
#[derive(Drop, Debug)]
pub struct Series {
    /// The first frame, as it is written.
    pub frame: Frame,
    /// How many bytes it has without its check sequence.
    pub len: usize,
    /// The places of ranges.
    pub slots: Vec<Slot>,
}

/// The frames of an object, which are padded and get their check sequences if that is asked for.
pub fn series_of(settings: &Settings, template: Template) -> Result<Series, AllocError>
    ensures { IfOk result (IsSeries settings.now (template_view template)) }
{
    let frame = padded(template.frame, settings.pad)?;
    let len = frame.bytes.len();
    Ok(Series {
        frame: finished(settings, frame)?,
        len,
        slots: template.found.slots,
    })
}

/// Writes so many frames.
pub fn write_series<W: Write>(
    settings: &Settings,
    series: Series,
    count: u64,
    writer: &mut W,
    progress: &mut Progress,
) -> io::Result<()>
    requires finished { IsFinished settings.now series }
    requires whole { length series.frame.bytes.items ≡ series.len + sequence_len settings.now series.frame.link }
    requires fits { series.len ≤ longest }
    requires timely { is_timely_at settings.now.rate progress.old.pace series.frame.time count ≡ true }
    ensures grows { OnOk result (Grows (IsBegunAs settings.now.form settings.now.fcs) progress.old.link
        (all_linked progress.old.link (series_frames settings.now (progress_view progress.old) count series))
        (map (finished_in settings.now) (series_frames settings.now (progress_view progress.old) count series))
        (W.contents writer.old) (W.contents writer.new)) }
    ensures progress { OnOk result (progress_view progress.new
        ≡ after_series settings.now (progress_view progress.old) count series) }
{
    let Series { frame, len, slots } = series;
    let mut frame = frame;
    let start = frame.time;
    let pace = progress.pace;
    for index in 0..count {
        let time = time_at(settings.rate, pace, start, index);
        renew(
            settings,
            &mut frame,
            len,
            time,
            &slots,
            index,
            &mut progress.generator,
        );
        write_frame(settings, writer, &mut progress.link, &frame)?;
    }
    progress.pace = paced(settings.rate, count, start, pace);
    Ok(())
}

/// Gives a frame its time, the numbers of its ranges and its check sequence.
fn renew(
    settings: &Settings,
    frame: &mut Frame,
    len: usize,
    time: Time,
    slots: &[Slot],
    index: u64,
    generator: &mut SplitMix64,
)
    requires fits { len ≤ longest }
    requires whole { length frame.old.bytes.items ≡ len + sequence_len settings.now frame.old.link }
    ensures renewed { frame_view frame.new ≡ finished_in settings.now (record {
      link = frame.old.link;
      time = time;
      packet = numbered index generator.old slots.now (take len frame.old.bytes.items);
    }) }
    ensures packet { take len frame.new.bytes.items
        ≡ numbered index generator.old slots.now (take len frame.old.bytes.items) }
    ensures len { length frame.new.bytes.items ≡ length frame.old.bytes.items }
    ensures drawn { generator.new ≡ all_drawn slots.now generator.old }
{
    let has_sequence = has_sequence(settings, frame);
    frame.time = time;
    renew_bytes(
        frame.bytes.as_mut_slice(),
        len,
        has_sequence,
        slots,
        index,
        generator,
    );
}

/// Gives a frame the numbers of its ranges and its check sequence.
fn renew_bytes(
    bytes: &mut [u8],
    len: usize,
    has_sequence: bool,
    slots: &[Slot],
    index: u64,
    generator: &mut SplitMix64,
)
    requires fits { len ≤ longest }
    requires len { length bytes.old ≡ len + (if has_sequence then 4 else 0) }
    ensures renewed { bytes.new ≡ with_sequence_in has_sequence (numbered index generator.old slots.now
        (take len bytes.old)) }
    ensures packet { take len bytes.new ≡ numbered index generator.old slots.now (take len bytes.old) }
    ensures len { length bytes.new ≡ length bytes.old }
    ensures drawn { generator.new ≡ all_drawn slots.now generator.old }
{
    let (packet, sequence) = bytes.split_at_mut(len);
    number_ranges(packet, slots, index, generator);
    if has_sequence {
        sequence.copy_from_slice(&check_sequence(packet));
    }
}

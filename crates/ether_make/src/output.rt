//! The output of frames, in the form that is asked for.
ghost use Rattle.std.specs.Prelude.{◌≡◌, ◌∷◌, ◌<◌, ◌+◌, ◌&&◌, if◌then◌else◌, [], nat_eq, ◌^◌, ◌++◌, length, IfOk, OnOk};
ghost use Rattle.ether_make.specs.Captures.{Ends, Grows};
ghost use Rattle.ether_make.specs.CheckSequences.{check_sequence as check_sequence_in};
ghost use Rattle.ether_make.specs.FrameViews.{frame_view};
ghost use Rattle.ether_make.specs.Lines.{linked};
ghost use Rattle.ether_make.specs.Outputs.{IsBegunAs, IsWrittenAs, finished as finished_in};

use crate::check_sequence::check_sequence;
use crate::frame::Frame;
use crate::settings::{Form, Settings};
use crate::{capture, hex_lines};
use std::alloc::AllocError;
use std::io;
use std::io::Write;

/// A frame with its check sequence, if that is asked for and the frame is one of Ethernet.
pub fn finished(settings: &Settings, frame: Frame) -> Result<Frame, AllocError>
    ensures finished { IfOk result (λ f. frame_view f ≡ finished_in settings.now (frame_view frame)) }
    ensures len { IfOk result (λ f. length f.bytes.items
        ≡ length frame.bytes.items + (if settings.now.fcs && nat_eq frame.link 1 then 4 else 0)) }
{
    let has_sequence = has_sequence(settings, &frame);
    let Frame { link, time, bytes } = frame;
    let bytes = if has_sequence {
        with_sequence(bytes)?
    } else {
        bytes
    };
    Ok(Frame { link, time, bytes })
}

/// Whether a frame has a check sequence.
pub fn has_sequence(settings: &Settings, frame: &Frame) -> bool
    ensures { result ≡ (settings.now.fcs && nat_eq frame.now.link 1) }
{
    settings.fcs && frame.link == 1
}

/// Bytes with their check sequence after them.
fn with_sequence(bytes: Vec<u8>) -> Result<Vec<u8>, AllocError>
    ensures bytes { IfOk result (λ v. v.items ≡ bytes.items ++ check_sequence_in bytes.items) }
    ensures len { IfOk result (λ v. length v.items ≡ length bytes.items + 4) }
{
    let sequence = check_sequence(bytes.as_slice());
    let mut checked = bytes;
    checked.extend_from_slice(&sequence)?;
    Ok(checked)
}

/// Writes a frame that is finished after frames with this link type, if there are any. In a
/// capture, a frame is cut after 262,144 bytes.
pub fn write_frame<W: Write>(
    settings: &Settings,
    writer: &mut W,
    link: &mut Option<u16>,
    frame: &Frame,
) -> io::Result<()>
    ensures link { OnOk result (link.new ≡ linked link.old (frame_view frame.now)) }
    ensures grows { OnOk result (length frame.now.bytes.items < 2 ^ 32
        → Grows (IsBegunAs settings.now.form settings.now.fcs) link.old (linked link.old (frame_view frame.now))
        (frame_view frame.now ∷ []) (W.contents writer.old) (W.contents writer.new)) }
{
    match settings.form {
        Form::Capture => capture::write_frame(writer, settings.fcs, link, frame),
        Form::Hex => hex_lines::write_frame(writer, link, frame),
    }
}

/// Writes what is missing at the end.
pub fn write_end<W: Write>(settings: &Settings, writer: &mut W, link: Option<u16>) -> io::Result<()>
    ensures { OnOk result (Ends (IsBegunAs settings.now.form settings.now.fcs)
        (IsWrittenAs settings.now.form settings.now.fcs) link (W.contents writer.old) (W.contents writer.new)) }
{
    match settings.form {
        Form::Capture => capture::write_end(writer, settings.fcs, link),
        Form::Hex => writer.flush(),
    }
}

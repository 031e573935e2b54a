//! Frames as lines of hexadecimal digits.
ghost use Rattle.std.specs.Prelude.{◌≡◌, OnOk};
ghost use Rattle.std.specs.Io.KnownBytes.{Appends};
ghost use Rattle.ether_make.specs.FrameViews.{frame_view};
ghost use Rattle.ether_make.specs.Lines.{linked};
ghost use Rattle.ether_make.specs.Outputs.{hex_line};

use crate::frame::Frame;
use ether_output::digit_pair;
use std::io;
use std::io::Write;

/// Writes a frame as a line, after frames with this link type, if there are any.
pub fn write_frame<W: Write>(
    writer: &mut W,
    link: &mut Option<u16>,
    frame: &Frame,
) -> io::Result<()>
    ensures link { OnOk result (link.new ≡ linked link.old (frame_view frame.now)) }
    ensures line { OnOk result (Appends (W.contents writer.old) (W.contents writer.new)
        (hex_line frame.now.bytes.items)) }
{
    write_line(writer, frame.bytes.as_slice())?;
    match *link {
        None => {
            *link = Some(frame.link);
            Ok(())
        }
        Some(_) => Ok(()),
    }
}

/// Writes bytes as a line.
fn write_line<W: Write>(writer: &mut W, bytes: &[u8]) -> io::Result<()>
    ensures { OnOk result (Appends (W.contents writer.old) (W.contents writer.new) (hex_line bytes.now)) }
{
    for byte in bytes {
        writer.write_all(&digit_pair(*byte))?;
    }
    writer.write_all(b"\n")?;
    Ok(())
}

//! Writes the line of the header of a packet of Linux cooked capture v1 that is not a frame.
ghost use Rattle.std.specs.Prelude.{◌≡◌, ◌++◌, length, codes};
ghost use Rattle.ether_base.specs.Bytes.{number, spelled};
ghost use Rattle.ether_content.specs.ContentViews.{cooked_view};
ghost use Rattle.ether_output.specs.HexText.{hex_text};
ghost use Rattle.ether_text.specs.Lines.{linux_sll_text};
ghost use Rattle.ether_output.specs.OutputBuffer.{Takes};

use ether_content::CookedHeader;
use ether_output::{OutputBuffer, Sink, hex_type, write_number};
use ether_text::hex_long;

/// Writes the line of the header.
#[inline(never)]
pub fn write_linux_sll<W: Sink>(header: &CookedHeader, out: &mut OutputBuffer<'_, W>)
    ensures { Takes W.contents W.can_fail out.old (linux_sll_text 0 (cooked_view header.now) ++ codes "\n") out.new }
{
    write_number(out, b"linux_sll ", 0);
    write_number(out, b" packet ", u64::from(header.packet_type));
    write_number(out, b" hw ", u64::from(header.hardware_type.0));
    write_number(out, b" alen ", u64::from(header.address_len));
    out.append(b" addr ");
    out.append(&address_digits(&header.address));
    out.append(b" ");
    out.append(&hex_type(header.protocol));
    out.append(b"\n");
}

/// The digits of the eight bytes of an address.
fn address_digits(address: &[u8]) -> [u8; 16]
    requires { length address.now ≡ 8 }
    ensures { result ≡ hex_text (spelled 8 (number address.now)) }
{
    let a = address;
    hex_long([a[0], a[1], a[2], a[3], a[4], a[5], a[6], a[7]])
}

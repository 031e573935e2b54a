//! How the walk of packets of a link type starts.
ghost use Rattle.std.specs.Prelude.{◌≡◌};
ghost use Rattle.ether_c.specs.Library.{link_type_start};

/// The number of the start for a link type, 0 if there is none.
#[unsafe(no_mangle)]
pub extern "C" fn etherpeel_start_of_link_type(link_type: u32) -> u32
    ensures { result ≡ link_type_start link_type }
{
    match link_type {
        1 => 1,
        113 => 3,
        _ => 0,
    }
}

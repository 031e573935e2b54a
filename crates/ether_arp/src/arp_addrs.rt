//! The bytes of an address. There are at most 255, since the size of an address is one byte on the wire (RFC 826,
//! "Packet format").
ghost use Rattle.std.specs.Prelude.{◌≡◌, ◌+◌, ◌≤◌, ◌++◌, length};
ghost use Rattle.ether_base.specs.Bytes.{IsBytes};

use arrayvec::ArrayVec;

/// Copies at most 255 bytes into an address.
pub fn address(bytes: &[u8]) -> ArrayVec<u8, 255>
    requires { length bytes.now ≤ 255 }
    ensures items { result.items ≡ bytes.now }
    ensures bytes { IsBytes result.items }
{
    let mut address = ArrayVec::new();
    append(&mut address, bytes);
    address
}

/// Appends bytes to a list that has room for them.
pub fn append<const N: usize>(bytes: &mut ArrayVec<u8, N>, part: &[u8])
    requires { length bytes.old.items + length part.now ≤ N }
    ensures items { bytes.new.items ≡ bytes.old.items ++ part.now }
    ensures len { length bytes.new.items ≡ length bytes.old.items + length part.now }
{
    bytes.try_extend_from_slice(part).unwrap();
}

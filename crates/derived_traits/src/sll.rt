//! What callers know of the derived traits, of the constants, of what is read back and of what is written through a
//! lent header, at each type of `ether_sll`. These functions are proved and never run.
ghost use Rattle.std.specs.Prelude.{◌≡◌, ◌↔◌, IsTrue, MatchOption, Ok};
ghost use Rattle.ether_sll.specs.Link.{ethernet2_header, linux_sll_header, SameLink};
ghost use Rattle.ether_sll.specs.LinuxSll.{HasOwnType};

use ether_base::EtherType;
use ether_base::err::linux_sll::HeaderError;
use ether_sll::{LinkHeader, LinkSlice, LinuxSllHeader, LinuxSllHeaderSlice, LinuxSllSlice};
use ether_tags::Ethernet2Header;

/// A clone is `Ok` and equals its source.
pub fn clones()
    ensures linux_sll_header { let it = ⟦<LinuxSllHeader as Clone>⟧ in
        (a b : _) → it.is_infallible a × (it.is_clone a b → b ≡ a) }
    ensures link_header { let it = ⟦<LinkHeader as Clone>⟧ in
        (a b : _) → it.is_infallible a × (it.is_clone a b → b ≡ a) }
    ensures linux_sll_header_slice { let it = ⟦<LinuxSllHeaderSlice<'static> as Clone>⟧ in
        (a b : _) → it.is_infallible a × (it.is_clone a b → b ≡ a) }
    ensures linux_sll_slice { let it = ⟦<LinuxSllSlice<'static> as Clone>⟧ in
        (a b : _) → it.is_infallible a × (it.is_clone a b → b ≡ a) }
    ensures link_slice { let it = ⟦<LinkSlice<'static> as Clone>⟧ in
        (a b : _) → it.is_infallible a × (it.is_clone a b → b ≡ a) }
{}

/// `==` is equality.
pub fn equality()
    ensures linux_sll_header { (a b : _) → IsTrue (⟦<LinuxSllHeader as PartialEq>⟧.eq a b) ↔ (a ≡ b) }
    ensures link_header { (a b : _) → IsTrue (⟦<LinkHeader as PartialEq>⟧.eq a b) ↔ (a ≡ b) }
    ensures linux_sll_header_slice { (a b : _) → IsTrue (⟦<LinuxSllHeaderSlice<'static> as PartialEq>⟧.eq a b)
        ↔ (a ≡ b) }
    ensures linux_sll_slice { (a b : _) → IsTrue (⟦<LinuxSllSlice<'static> as PartialEq>⟧.eq a b) ↔ (a ≡ b) }
    ensures link_slice { (a b : _) → IsTrue (⟦<LinkSlice<'static> as PartialEq>⟧.eq a b) ↔ SameLink a b }
{}

pub fn len() -> usize
    ensures { result ≡ 16 }
{
    LinuxSllHeader::LEN
}

pub fn read_back(header: LinuxSllHeader) -> Result<LinuxSllHeader, HeaderError>
    ensures { (result ≡ Ok header) ↔ HasOwnType header }
{
    LinuxSllHeader::from_bytes(header.to_bytes())
}

pub fn set_ether_type(link: &mut LinkHeader, ether_type: EtherType)
    ensures { MatchOption (ethernet2_header link.old) (link.new ≡ link.old)
        (λ h. link.new ≡ LinkHeader.Ethernet2 (record h { ether_type = ether_type })) }
{
    if let Some(header) = link.mut_ethernet2() {
        header.ether_type = ether_type;
    }
}

pub fn replace_ethernet2(link: &mut LinkHeader, header: Ethernet2Header)
    ensures { MatchOption (ethernet2_header link.old) (link.new ≡ link.old)
        (λ _. link.new ≡ LinkHeader.Ethernet2 header) }
{
    if let Some(lent) = link.mut_ethernet2() {
        *lent = header;
    }
}

pub fn replace_linux_sll(link: &mut LinkHeader, header: LinuxSllHeader)
    ensures { MatchOption (linux_sll_header link.old) (link.new ≡ link.old)
        (λ _. link.new ≡ LinkHeader.LinuxSll header) }
{
    if let Some(lent) = link.mut_linux_sll() {
        *lent = header;
    }
}

//! The laws on the headers and the edits of a captured packet. Each is the contract of a function that does nothing.
ghost use Rattle.ether_content.specs.Editing.{CutOnce, EditsAreOne, EditsAreSome, EditsGrow, PoppedAfterPushed, SetBack};
ghost use Rattle.ether_content.specs.Headers.{HeadersTakeOne};

/// The headers of any packet take exactly one number of bytes.
pub fn headers_take_one()
    ensures { HeadersTakeOne }
{}

/// An edit makes at most one thing of a packet.
pub fn edits_are_one()
    ensures { EditsAreOne }
{}

/// Each packet is edited to some value, or is unchanged.
pub fn edits_are_some()
    ensures { EditsAreSome }
{}

/// An edited packet has no more bytes than before, or at most four more if a VLAN tag was put in.
pub fn edits_grow()
    ensures { EditsGrow }
{}

/// Taking off the VLAN tag that was just put into a packet restores the packet.
pub fn popped_after_pushed()
    ensures { PoppedAfterPushed }
{}

/// Cutting a packet to its headers a second time changes nothing.
///
/// This does not hold for a packet with more captured bytes than its original length, if the file also gives a frame
/// check sequence: once such a packet is cut, the last bytes of its headers may count as the check sequence.
pub fn cut_once()
    ensures { CutOnce }
{}

/// Changing the identifier of a VLAN tag back restores the packet, if no tag before it has the new identifier.
pub fn set_back()
    ensures { SetBack }
{}

//! The laws of packets that are written and changed. Each is the contract of a function that does nothing.
ghost use Rattle.ether_packet.specs.Laws.{PoppedAfterPushed, PushedAfterPopped};
ghost use Rattle.ether_packet.specs.Frames.{ChangedFramesAreRead, FramesGoBack};
ghost use Rattle.ether_packet.specs.Parts.{PartsGoBack};

/// Writing the parts of a packet unchanged gives the front of its frame, except for the two reserved bits of each
/// SecTag.
pub fn parts_go_back()
    ensures { PartsGoBack }
{}

/// Writing the frame of a packet's parts gives the frame that was read, except for the two reserved bits of each
/// SecTag.
pub fn frames_go_back()
    ensures { FramesGoBack }
{}

/// If headers of a packet are replaced by others that say the same about what follows them, the frame that is written
/// is read with the new headers, the walk ends as before, and all bytes after the headers are unchanged.
pub fn changed_frames_are_read()
    ensures { ChangedFramesAreRead }
{}

/// Taking off a VLAN tag that was just put in returns that tag with the ether type that it was given, and leaves the
/// frame as it was before both.
pub fn popped_after_pushed()
    ensures { PoppedAfterPushed }
{}

/// Putting in a VLAN tag that was just taken off, with the ether type that announced it, leaves the frame as it was
/// before both.
pub fn pushed_after_popped()
    ensures { PushedAfterPopped }
{}

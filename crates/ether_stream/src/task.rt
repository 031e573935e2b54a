//! What is made of a capture.
ghost use Rattle.std.specs.Prelude.{◌≡◌, ◌↔◌, IsTrue, Some};
ghost use Rattle.ether_pcap.specs.CaptureViews.{captured_packet_view};
ghost use Rattle.ether_stream.specs.FrameLines.{if_selected};
ghost use Rattle.std.specs.Option.{option_map};
ghost use Rattle.ether_stream.specs.Task.{is_copy, lines_view, packets_before, task_view, IsChosen, IsOpen};

use crate::selection::Selection;
use ether_content::PacketEdit;
use ether_format::Format;
use ether_pcap::{CapturedPacket, CopyMode};
use std::num::NonZeroUsize;

/// What is made of a capture, and for which packets.
#[derive(Debug, Drop)]
pub struct Task<'a> {
    /// Which packets are chosen; all of them without a selection.
    pub selection: Option<Selection>,
    /// The number of these after which the run ends; with `None` it ends at the end of the capture.
    pub count: Option<NonZeroUsize>,
    /// What is made of them.
    pub form: Form<'a>,
}

/// What is made of the packets of a capture.
#[derive(Clone, Copy, PartialEq, Eq, Debug)]
pub enum Form<'a> {
    /// Lines of text.
    Lines(LineOptions<'a>),
    /// A copy of the capture with these packets alone.
    Copy {
        /// Whether it is exact, or another capture.
        mode: CopyMode,
        /// How each packet is edited, if it is.
        edit: Option<PacketEdit>,
    },
}

/// Which lines a packet has.
#[derive(Clone, Copy, PartialEq, Eq, Debug)]
pub struct LineOptions<'a> {
    /// The name of the capture's file, if it has one.
    pub file: Option<&'a [u8]>,
    /// Whether the lines of packets and of totals are left out.
    pub is_plain: bool,
    /// Another format than lines: a packet then has its text in that format, and nothing else.
    pub format: Option<Format>,
    /// The greatest number of VLAN tags and SecTags that are read of a packet; `None` for all.
    pub limit: Option<usize>,
    /// The number of packets in the captures before this one, if it is one of several; it then has no line of totals.
    pub before: Option<usize>,
    /// Whether a packet is accepted although the walk through its headers ends in a fault.
    pub excuses: bool,
}

impl<'a> LineOptions<'a> {
    /// The same for a capture in the file of this name, if it has one, that follows others with this number of packets.
    pub fn after(self, file: Option<&'a [u8]>, packets: usize) -> LineOptions<'a>
        ensures { lines_view result ≡ record (lines_view self.entry) {
          file = option_map (λ name. name.now) file.entry;
          before = Some packets;
        } }
    {
        LineOptions {
            file,
            is_plain: self.is_plain,
            format: self.format,
            limit: self.limit,
            before: Some(packets),
            excuses: self.excuses,
        }
    }
}

impl Task<'_> {
    /// Tests that a packet is chosen.
    #[inline(always)]
    pub fn chooses(&self, packet: &CapturedPacket<'_>) -> bool
        ensures { IsTrue result ↔ IsChosen (task_view self.now).select (captured_packet_view packet.now) }
    {
        match &self.selection {
            Some(selection) => selection.chooses(packet),
            None => true,
        }
    }

    /// Tests that the captured bytes of a packet don't decide whether it is selected.
    #[inline(always)]
    pub fn leaves_open(&self, packet: &CapturedPacket<'_>) -> bool
        ensures { IsTrue result ↔ IsOpen (task_view self.now).select (captured_packet_view packet.now) }
    {
        match &self.selection {
            Some(selection) => selection.leaves_open(packet),
            None => false,
        }
    }

    /// The number, if packets are selected.
    pub fn if_selected(&self, number: usize) -> Option<usize>
        ensures { result ≡ if_selected (task_view self.now).select number }
    {
        match &self.selection {
            Some(_) => Some(number),
            None => None,
        }
    }

    /// The number of packets in the captures before this one.
    pub fn packets_before(&self) -> usize
        ensures { result ≡ packets_before (task_view self.now).form }
    {
        match &self.form {
            Form::Lines(options) => options.before.unwrap_or(0),
            Form::Copy { .. } => 0,
        }
    }

    /// How many packets are asked for, if their number is limited.
    pub fn asked_for(&self) -> Option<usize>
        ensures { result ≡ (task_view self.now).count }
    {
        match self.count {
            Some(count) => Some(count.get()),
            None => None,
        }
    }

    /// Tests that a copy is made.
    pub fn is_copy(&self) -> bool
        ensures { result ≡ is_copy (task_view self.now).form }
    {
        matches!(self.form, Form::Copy { .. })
    }
}

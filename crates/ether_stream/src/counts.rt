//! How many packets were read.
ghost use Rattle.std.specs.Prelude.{[]};
ghost use Rattle.ether_stream.specs.Counting.{AreCounted};
ghost use Rattle.ether_stream.specs.Task.{task_view};

use crate::Task;

/// How many packets of a capture were read.
#[derive(Clone, Copy, PartialEq, Eq, Debug)]
pub struct PacketCounts {
    /// The number of the last packet, counted on from the captures before this one.
    pub number: usize,
    /// How many packets of this capture were skipped.
    pub skipped: usize,
    /// How many packets of this capture are undecided: their captured bytes don't decide whether they are selected.
    pub undecided: usize,
    /// How many further packets are asked for, if their number is limited.
    pub left: Option<usize>,
}

impl PacketCounts {
    /// The counts before a packet was read.
    pub fn none(task: &Task<'_>) -> PacketCounts
        ensures { AreCounted (task_view task.now) [] result }
    {
        PacketCounts {
            number: task.packets_before(),
            skipped: 0,
            undecided: 0,
            left: task.asked_for(),
        }
    }
}

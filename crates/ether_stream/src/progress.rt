//! How far a run has come.
ghost use Rattle.std.specs.Prelude.{◌≡◌, ◌≤◌, ◌↔◌, ◌+◌, IsTrue, IfSome, IfNone, drop, length, Some, None, IfOk, IfErr, OnOk, true};
ghost use Rattle.std.specs.Option.{option_map};
ghost use Rattle.std.specs.Io.KnownBytes.{Appends};
ghost use Rattle.ether_pcap.specs.Capture.{HasBegun};
ghost use Rattle.ether_pcap.specs.CaptureViews.{captured_packet_view};
ghost use Rattle.ether_output.specs.OutputBuffer.{contents_of, Marks, Takes};
ghost use Rattle.ether_text.specs.Verdict.{verdict_with};
ghost use Rattle.ether_stream.specs.FrameLines.{if_selected, skip_count};
ghost use Rattle.ether_stream.specs.Packets.{counted};
ghost use Rattle.ether_stream.specs.Progress.{Counts, counts_at, IsChoice, IsStart, IsTakingFault, IsUnitOf, last_lines, Makes, MakesText, OnNotEdited, OnOutput, other_text, StopsAfter, StopsUnwritten, TakesUnit, TakesUnits};
ghost use Rattle.ether_stream.specs.Task.{form_view, task_view};

use crate::copying::{write_other, write_packet};
use crate::frame_lines::{is_skipped, write_lines, write_totals_of};
use crate::{EditBuffer, Form, Grow, PacketCounts, RunFault, SectionTable, Task};
use ether_output::{OutputBuffer, Sink};
use ether_pcap::{CaptureError, CaptureFault, CaptureReader, CapturedPacket, InterfaceTable};
use ether_text::Verdict;

/// Where the run is in the capture, and the counts and the verdict of the packets before that.
#[derive(Drop)]
pub struct Progress<T: InterfaceTable> {
    reader: CaptureReader<T>,
    count: usize,
    skipped: usize,
    undecided: usize,
    offset: usize,
    left: Option<usize>,
    verdict: Verdict,
}

impl<T: SectionTable> Progress<T> {
    /// The state of a run that has read nothing.
    pub fn new(task: &Task<'_>, interfaces: T) -> Self
        ensures { IsStart (task_view task.now) result }
    {
        Progress {
            reader: CaptureReader::new(interfaces),
            count: task.packets_before(),
            skipped: 0,
            undecided: 0,
            offset: 0,
            left: task.asked_for(),
            verdict: Verdict::AllAccepted,
        }
    }
}

impl<T: InterfaceTable> Progress<T> {
    /// How many packets were read.
    pub fn counts(&self) -> PacketCounts
        ensures { result ≡ counts_at self.now }
    {
        PacketCounts {
            number: self.count,
            skipped: self.skipped,
            undecided: self.undecided,
            left: self.left,
        }
    }

    /// Takes the units at the front of `bytes`, and writes what is made of each. Returns how many bytes were taken,
    /// and why those that are left do not begin with a unit, or `None` if the requested number of packets was
    /// reached.
    pub fn take_units<B: Grow, W: Sink>(
        &mut self,
        task: &Task<'_>,
        edits: &mut EditBuffer<B>,
        bytes: &[u8],
        out: &mut OutputBuffer<'_, W>,
    ) -> Result<(usize, Option<CaptureError>), RunFault>
        ensures same_writer { out.new.writer.ghost_name ≡ out.old.writer.ghost_name }
        ensures within { IfOk result (λ found. found.0 ≤ length bytes.now) }
        ensures ok { IfOk result (λ found. TakesUnits (task_view task.now) W.contents bytes.now
            self.old out.old (drop found.0 bytes.now) found.1 self.new out.new) }
        ensures stopped { IfErr result (λ fault. OnNotEdited fault (λ offset.
            StopsAfter (task_view task.now) W.contents bytes.now self.old out.old offset out.new)) }
        ensures fault { IfErr result IsTakingFault }
        ensures failed { IfErr result (λ fault. OnOutput fault (out.new.has_failed ≡ true)) }
        ensures marks { Marks W.can_fail out.old out.new }
    {
        let mut at = 0;
        while !self.is_done() {
            let unit = match self.reader.read(&bytes[at..]) {
                Ok(unit) => unit,
                Err(error) => return Ok((at, Some(error))),
            };
            let end = at + unit.len;
            self.take_unit(task, edits, &bytes[at..end], &unit.packet, out)?;
            at = end;
        }
        Ok((at, None))
    }

    /// Tests that the requested number of packets was reached.
    fn is_done(&self) -> bool
        ensures { IsTrue result ↔ (self.now.left ≡ Some 0) }
    {
        matches!(self.left, Some(0))
    }

    /// Takes a unit that was just read, with its packet if it has one, and writes what is made of it.
    #[inline(always)]
    fn take_unit<B: Grow, W: Sink>(
        &mut self,
        task: &Task<'_>,
        edits: &mut EditBuffer<B>,
        unit: &[u8],
        packet: &Option<CapturedPacket<'_>>,
        out: &mut OutputBuffer<'_, W>,
    ) -> Result<(), RunFault>
        requires { IsUnitOf self.old.reader unit.now (option_map captured_packet_view packet.now) }
        ensures same_writer { out.new.writer.ghost_name ≡ out.old.writer.ghost_name }
        ensures ok { OnOk result (TakesUnit (task_view task.now) W.contents unit.now
            (option_map captured_packet_view packet.now) self.old out.old self.new out.new) }
        ensures stopped { IfErr result
            (λ fault. OnNotEdited fault (λ offset. StopsUnwritten (task_view task.now) unit.now
            (option_map captured_packet_view packet.now) self.old out.old offset out.new)) }
        ensures fault { IfErr result IsTakingFault }
        ensures failed { IfErr result (λ fault. OnOutput fault (out.new.has_failed ≡ true)) }
        ensures marks { Marks W.can_fail out.old out.new }
    {
        let is_chosen = is_chosen(task, packet);
        let Some(accepted) = self.write_unit(task, is_chosen, edits, unit, packet, out) else {
            return Err(RunFault::NotEdited(self.offset));
        };
        out.check()?;
        self.count_packet(task, is_chosen, packet);
        self.judge(accepted);
        self.offset = self.offset.saturating_add(unit.len());
        Ok(())
    }

    /// Sets the verdict to [`Verdict::SomeRefused`] if a packet is refused.
    #[inline(always)]
    fn judge(&mut self, accepted: bool)
        ensures { self.new ≡ record self.old { verdict = verdict_with self.old.verdict accepted } }
    {
        if !accepted {
            self.verdict = Verdict::SomeRefused;
        }
    }

    /// Writes what is made of a unit, and returns whether its packet is accepted. Returns `None` and writes nothing
    /// if the packet is to be edited, and can't be.
    #[inline(always)]
    fn write_unit<B: Grow, W: Sink>(
        &self,
        task: &Task<'_>,
        is_chosen: bool,
        edits: &mut EditBuffer<B>,
        unit: &[u8],
        packet: &Option<CapturedPacket<'_>>,
        out: &mut OutputBuffer<'_, W>,
    ) -> Option<bool>
        requires choice { IsChoice task.now.selection (option_map captured_packet_view packet.now) is_chosen }
        requires unit { IsUnitOf self.now.reader unit.now (option_map captured_packet_view packet.now) }
        ensures some { IfSome result (λ accepted. MakesText task.now.selection (form_view task.now.form) self.now.reader
            (counted (self.now.count + 1)) unit.now (option_map captured_packet_view packet.now)
            W.contents W.can_fail out.old accepted out.new) }
        ensures none { IfNone result (Makes task.now.selection (form_view task.now.form) self.now.reader
            (counted (self.now.count + 1)) unit.now (option_map captured_packet_view packet.now) true None) }
        ensures same_out { IfNone result (out.new ≡ out.old) }
    {
        let Some(packet) = packet else {
            self.write_other(&task.form, unit, out);
            return Some(true);
        };
        if !is_chosen {
            return Some(true);
        }
        match &task.form {
            Form::Lines(options) => Some(write_lines(options, &self.count, packet, out)),
            Form::Copy { mode, edit } => {
                if write_packet(&self.reader, *mode, *edit, edits, unit, packet, out) {
                    Some(true)
                } else {
                    None
                }
            }
        }
    }

    /// Writes what a copy has of a unit without a packet, if a copy is made.
    #[inline(always)]
    fn write_other<W: Sink>(&self, form: &Form<'_>, unit: &[u8], out: &mut OutputBuffer<'_, W>)
        requires { IsUnitOf self.now.reader unit.now None }
        ensures { Takes W.contents W.can_fail out.old (other_text (form_view form.now) self.now.reader unit.now) out.new }
    {
        if let Form::Copy { mode, .. } = form {
            write_other(&self.reader, *mode, unit, out);
        }
    }

    /// Counts the packet of a unit, if it has one.
    #[inline(always)]
    fn count_packet(
        &mut self,
        task: &Task<'_>,
        is_chosen: bool,
        packet: &Option<CapturedPacket<'_>>,
    )
        requires { IsChoice task.now.selection (option_map captured_packet_view packet.now) is_chosen }
        ensures counts { Counts task.now.selection (option_map captured_packet_view packet.now) self.old self.new }
        ensures same_reader { self.new.reader ≡ self.old.reader }
        ensures same_offset { self.new.offset ≡ self.old.offset }
        ensures same_verdict { self.new.verdict ≡ self.old.verdict }
    {
        let Some(packet) = packet else {
            return;
        };
        self.count = self.count.saturating_add(1);
        self.skipped = skipped_after(self.skipped, packet);
        if task.leaves_open(packet) {
            self.undecided = self.undecided.saturating_add(1);
        }
        if let Some(left) = self.left {
            if is_chosen {
                self.left = Some(left.saturating_sub(1));
            }
        }
    }

    /// Why the run stops if the unit at its place can't be read.
    pub fn fault(&self, error: CaptureError) -> RunFault
        ensures { result ≡ RunFault.Capture
            (record { offset = self.now.offset; error = error }) }
    {
        RunFault::Capture(CaptureFault {
            offset: self.offset,
            error,
        })
    }

    /// Tests that a unit was taken.
    pub fn has_begun(&self) -> bool
        ensures { IsTrue result ↔ HasBegun self.now.reader }
    {
        self.reader.has_begun()
    }

    /// Ends the run at the end of the capture: writes the line of the totals, if there is to be one, and returns the
    /// verdict.
    pub fn finish<W: Sink>(
        &self,
        task: &Task<'_>,
        out: &mut OutputBuffer<'_, W>,
    ) -> Result<Verdict, RunFault>
        ensures same_writer { out.new.writer.ghost_name ≡ out.old.writer.ghost_name }
        ensures ok { IfOk result (λ verdict. verdict ≡ self.now.verdict) }
        ensures written { OnOk result (Appends (contents_of W.contents out.old) (contents_of W.contents out.new)
            (last_lines (form_view task.now.form) self.now.count self.now.skipped
            (if_selected task.now.selection self.now.undecided))) }
        ensures fault { IfErr result (λ fault. fault ≡ RunFault.Output) }
        ensures failed { IfErr result (λ fault. out.new.has_failed ≡ true) }
        ensures marks { Marks W.can_fail out.old out.new }
    {
        if let Form::Lines(options) = &task.form {
            let undecided = task.if_selected(self.undecided);
            write_totals_of(options, self.count, self.skipped, undecided, out);
        }
        out.check()?;
        Ok(self.verdict)
    }
}

/// Tests that the packet of a unit is chosen.
#[inline(always)]
fn is_chosen(task: &Task<'_>, packet: &Option<CapturedPacket<'_>>) -> bool
    ensures { IsChoice task.now.selection (option_map captured_packet_view packet.now) result }
{
    match packet {
        Some(packet) => task.chooses(packet),
        None => false,
    }
}

/// How many packets are skipped up to this one, if `skipped` before it are.
#[inline(always)]
fn skipped_after(skipped: usize, packet: &CapturedPacket<'_>) -> usize
    ensures { result ≡ counted (skipped + skip_count (captured_packet_view packet.now)) }
{
    if is_skipped(packet) {
        return skipped.saturating_add(1);
    }
    skipped
}

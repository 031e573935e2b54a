//! How far bytes that are written are whole.

/// What is written.
#[derive(Clone, Copy, PartialEq, Eq, Debug)]
pub enum Form {
    /// A capture of the classic pcap format or of pcapng.
    Capture,
    /// Lines.
    Lines,
}

/// What the next bytes begin.
#[derive(Clone, Copy, PartialEq, Eq, Debug)]
enum Part {
    /// The capture, by its magic number.
    Capture,
    /// The file header of a classic file.
    FileHeader,
    /// A record of a classic file.
    Record,
    /// A block of a pcapng file.
    Block,
    /// A line.
    Line,
}

/// The magic number of a section header block: it is the same in both byte orders.
const SECTION: [u8; 4] = [0x0A, 0x0D, 0x0D, 0x0A];

/// The byte-order magic of a section whose numbers have their most significant byte first.
const BIG_ENDIAN: [u8; 4] = [0x1A, 0x2B, 0x3C, 0x4D];

/// The most bytes that say how long a part is: those of the file header.
const LONGEST_HEAD: usize = 24;

/// How far the bytes that were written so far are whole parts, by the lengths that these give of themselves.
#[derive(Debug, Drop)]
pub(crate) struct WholeParts {
    part: Part,
    is_big_endian: bool,
    head: [u8; LONGEST_HEAD],
    head_len: usize,
    left: u64,
    taken: u64,
    whole: u64,
    frames: u64,
}

impl WholeParts {
    /// Nothing is written yet.
    pub(crate) fn new(form: Form) -> Self {
        WholeParts {
            part: match form {
                Form::Capture => Part::Capture,
                Form::Lines => Part::Line,
            },
            is_big_endian: false,
            head: [0; LONGEST_HEAD],
            head_len: 0,
            left: 0,
            taken: 0,
            whole: 0,
            frames: 0,
        }
    }

    /// How many bytes at the front are whole parts.
    pub(crate) fn len(&self) -> u64 {
        self.whole
    }

    /// Tests that nothing is whole.
    pub(crate) fn is_empty(&self) -> bool {
        self.whole == 0
    }

    /// Tests that there is a whole record, block or line.
    pub(crate) fn has_frames(&self) -> bool {
        self.frames > 0
    }

    /// Takes bytes that were written.
    pub(crate) fn take(&mut self, bytes: &[u8]) {
        let mut rest = bytes;
        for _ in 0..bytes.len() {
            if rest.is_empty() {
                return;
            }
            rest = self.take_some(rest);
        }
    }

    /// Takes a byte of a head, or what there is of a part after its head, and returns the bytes after these.
    fn take_some<'a>(&mut self, bytes: &'a [u8]) -> &'a [u8] {
        if self.left > 0 {
            let count = self.left.min(bytes.len() as u64) as usize;
            self.left = self.left.saturating_sub(count as u64);
            self.taken = self.taken.saturating_add(count as u64);
            if self.left == 0 {
                self.end_part();
            }
            return &bytes[count..];
        }
        let Some((byte, rest)) = bytes.split_first() else {
            return bytes;
        };
        self.taken = self.taken.saturating_add(1);
        if self.part == Part::Line {
            if *byte == b'\n' {
                self.end_part();
            }
            return rest;
        }
        if let Some(place) = self.head.get_mut(self.head_len) {
            *place = *byte;
        }
        self.head_len = self.head_len.saturating_add(1);
        self.read_head();
        rest
    }

    /// What is written up to here is whole.
    fn end_part(&mut self) {
        self.whole = self.taken;
        self.head_len = 0;
        match self.part {
            Part::FileHeader => self.part = Part::Record,
            _ => self.frames = self.frames.saturating_add(1),
        }
    }

    /// Reads a head, if all of it is there, and ends a part that has nothing else.
    fn read_head(&mut self) {
        match (self.part, self.head_len) {
            (Part::Capture, 4) => self.part = self.first_part(),
            (Part::FileHeader, 24) => self.end_part(),
            (Part::Record, 16) => self.go_on(self.number_at(8)),
            (Part::Block, 12) => {
                if self.has_at(0, SECTION) {
                    self.is_big_endian = self.has_at(8, BIG_ENDIAN);
                }
                self.go_on(self.number_at(4).saturating_sub(12));
            }
            _ => {}
        }
    }

    /// This many bytes of the part are still to be written.
    fn go_on(&mut self, left: u32) {
        self.left = u64::from(left);
        if left == 0 {
            self.end_part();
        }
    }

    /// The part that a capture begins with, which is being written.
    fn first_part(&mut self) -> Part {
        if self.has_at(0, SECTION) {
            return Part::Block;
        }
        self.is_big_endian = self.head[0] == 0xA1;
        Part::FileHeader
    }

    /// Tests that the head has these bytes at a place.
    fn has_at(&self, at: usize, bytes: [u8; 4]) -> bool {
        self.four_at(at) == bytes
    }

    /// The number at a place of the head.
    fn number_at(&self, at: usize) -> u32 {
        let bytes = self.four_at(at);
        if self.is_big_endian {
            u32::from_be_bytes(bytes)
        } else {
            u32::from_le_bytes(bytes)
        }
    }

    /// The four bytes at a place of the head.
    fn four_at(&self, at: usize) -> [u8; 4] {
        match self.head.get(at..) {
            Some([a, b, c, d, ..]) => [*a, *b, *c, *d],
            _ => [0; 4],
        }
    }
}

//! Where the VLAN tags and SecTags of a packet are in its frame.
ghost use Rattle.std.specs.Prelude.{◌≡◌, ◌<◌, ◌≤◌, [], ◌∷◌, ◌++◌, length, slice_get};

use std::fmt;
use std::marker::Model;

/// A window of a frame: its offset, and its bytes.
#[derive(Clone, Copy)]
pub(crate) struct FrameWindow<'a> {
    pub start: usize,
    pub bytes: &'a [u8],
}

/// Shows how many bytes there are, and not the bytes: the frame has them.
impl fmt::Debug for FrameWindow<'_> {
    fn fmt<W: fmt::Write>(&self, f: &mut fmt::Formatter<W>) -> fmt::Result {
        f.debug_struct("FrameWindow")
            .field("start", &self.start)
            .field("len", &self.bytes.len())
            .finish()
    }
}

/// Whether a tag is a VLAN tag or a SecTag.
#[derive(Clone, Copy, Debug)]
pub(crate) enum ExtKind {
    Vlan,
    Macsec,
}

/// A tag, and the window in which it was read.
#[derive(Clone, Copy, Debug)]
pub(crate) struct ExtPlace<'a> {
    pub kind: ExtKind,
    pub place: FrameWindow<'a>,
}

/// Up to three tags in order. Three fields take fewer instructions than an `ArrayVec`, whose unused places have to be
/// filled.
#[derive(Debug, Drop)]
pub(crate) struct ExtPlaces<'a> {
    first: Option<ExtPlace<'a>>,
    second: Option<ExtPlace<'a>>,
    third: Option<ExtPlace<'a>>,
}

impl<'a> Model for ExtPlaces<'a> {
    ghost use Rattle.std.specs.Prelude.{List};
    ghost use Rattle.ether_packet.specs.declared.ext_places.ExtPlace.{ExtPlace as Placed};
    ghost use Rattle.ether_packet.specs.ExtPlaces.{listed, IsGapless};

    ghost Value = { List Placed };

    ghost view = { λ a. listed a.first a.second a.third };

    ghost invariant = { λ a. IsGapless a.first a.second a.third };
}

impl<'a> ExtPlaces<'a> {
    /// No tags.
    #[inline(always)]
    pub fn new() -> ExtPlaces<'a>
        ensures { result ≡ [] }
    {
        ExtPlaces {
            first: None,
            second: None,
            third: None,
        }
    }

    /// Appends a tag.
    #[inline(always)]
    pub fn push(&mut self, tag: ExtPlace<'a>)
        requires { length self.old < 3 }
        ensures { self.new ≡ self.old ++ tag.entry ∷ [] }
    {
        match self.len() {
            0 => self.first = Some(tag),
            1 => self.second = Some(tag),
            _ => self.third = Some(tag),
        }
    }

    /// The tag at an index.
    #[inline(always)]
    pub fn get(&self, index: usize) -> Option<ExtPlace<'a>>
        ensures { result ≡ slice_get self.now index }
    {
        match index {
            0 => self.first,
            1 => self.second,
            2 => self.third,
            _ => None,
        }
    }

    /// The number of tags.
    #[inline(always)]
    pub fn len(&self) -> usize
        ensures value { result ≡ length self.now }
        ensures most { length self.now ≤ 3 }
    {
        match (&self.first, &self.second, &self.third) {
            (None, _, _) => 0,
            (_, None, _) => 1,
            (_, _, None) => 2,
            _ => 3,
        }
    }
}

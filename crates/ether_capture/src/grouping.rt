//! Whether the columns of a row are counted by themselves, or together.
ghost use Rattle.std.specs.Prelude.{◌≡◌, Bool, true, false};

/// Whether the columns of a row are counted by themselves, or together.
pub trait Grouping {
    // Packets are counted by the texts of all columns together.
    ghost is_joint: { Bool };

    /// Tests that packets are counted by the texts of all columns together.
    fn is_joint() -> bool
        ensures { result ≡ is_joint };
}

/// A packet is counted for each of its texts.
pub struct Each;

impl Grouping for Each {
    ghost is_joint = { false };

    #[inline(always)]
    fn is_joint() -> bool {
        false
    }
}

/// A packet is counted once, for all of its texts.
pub struct Together;

impl Grouping for Together {
    ghost is_joint = { true };

    #[inline(always)]
    fn is_joint() -> bool {
        true
    }
}

//! The intervals in which packets are counted.

/// An interval of a time: its minute, its hour or its day.
#[derive(Clone, Copy)]
pub(crate) enum Interval {
    Minute,
    Hour,
    Day,
}

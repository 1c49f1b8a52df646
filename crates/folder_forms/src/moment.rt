//! Times as `metadata` has them.

/// A date and a time of day in UTC.
#[derive(Clone, Copy)]
pub struct Moment {
    pub year: u16,
    /// From 1 to 12.
    pub month: u8,
    /// From 1.
    pub day: u8,
    pub hour: u8,
    pub minute: u8,
    pub second: u8,
}

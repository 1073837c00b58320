// The longest separation, repeat length and delay.
pub(crate) const MOST_SPACING: u32 = 1_000_000;

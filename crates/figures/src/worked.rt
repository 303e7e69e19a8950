use rounding::interval::Interval;

/// What the code makes of the figures.
#[derive(Clone, Copy, Debug, PartialEq, Eq)]
pub struct WorkedFigures {
    pub closed: Interval,
    pub in_ends: Interval,
    pub in_centred: Interval,
    pub around_zero: Interval,
    pub clipped: i64,
    pub stepped: i64,
    pub keeps_high: bool,
    pub keeps_low: bool,
    pub keeps_part: bool,
    pub keeps_past: bool,
}

/// Registers are live at no more places than so many, or there are no webs.
pub(crate) const MOST_PLACES: u32 = 4_000_000;

/// No more webs than a number of a register tells apart.
pub(crate) const MOST_WEBS: u32 = 65_535;

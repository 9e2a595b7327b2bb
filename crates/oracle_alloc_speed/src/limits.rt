/// So many places are looked at, at most, to find out which webs may lie in one location.
pub(crate) const MOST_LOOKS: u64 = 8_000_000;

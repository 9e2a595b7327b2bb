/// Why what a journal's records say of offers cannot be taken over.
#[derive(Clone, Copy, Debug, PartialEq, Eq)]
pub enum RecordFault {
    /// A growth of memory was refused.
    NoMemory,
    /// The bytes of an offer are no offer of its room's pass (403).
    BadRecord,
    /// An offer that its pass does not accept (301).
    Refused,
}

/// A step of the protocol, as a view keeps it: which node does what, under which ballot, with which value.
pub enum Event {
    Offers(u8),
    Starts(u8, u16),
    Promises(u8, u16),
    Proposes(u16, u16),
    Accepts(u8, u16, u16),
    Learns(u8, u16),
    Restarts(u8),
}

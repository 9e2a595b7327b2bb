use crate::fault::OfferFault;
use bundle_reading::Four;
use lang_base::Row;

/// What a bundle's bytes say, and whether its offers stand by themselves.
#[derive(Drop)]
pub struct JudgedBundle {
    pub digest: Row<u8>,
    /// The parts of each function's offers, whether their passes accept them or not.
    pub fours: Vec<Four>,
    /// Whether these stand, whatever function the first of them goes on from; else the first fault.
    pub alone: Vec<Result<(), OfferFault>>,
}

/// What was learned of a function: in the room of each pass the number of the node whose offer it is.
#[derive(Drop)]
pub struct FunctionRooms {
    pub name: String,
    pub first: u8,
    pub second: u8,
    pub third: u8,
    pub fourth: u8,
}

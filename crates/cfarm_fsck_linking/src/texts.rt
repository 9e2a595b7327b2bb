/// The texts of the offers of a function's four passes, in the order of the passes, each where it is known.
#[derive(Clone, Copy, Debug)]
pub struct Texts<'a> {
    pub first: Option<&'a [u8]>,
    pub second: Option<&'a [u8]>,
    pub third: Option<&'a [u8]>,
    pub fourth: Option<&'a [u8]>,
}

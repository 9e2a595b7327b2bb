/// The error of C's table: C gives this operator no result at these words.
#[derive(Clone, Copy, Debug, PartialEq, Eq)]
pub struct CWrong;

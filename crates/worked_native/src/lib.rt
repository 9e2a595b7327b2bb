//! Rows about native code: what the model's interpreter makes of words. Tells how many rows are answered as they say.
//!
//! | Question | Answer |
//! |---|---|
//! | `OPERATOR X Y,Y,..` | what the instruction makes of X and of each Y: `add` to `xor`, and with a constant `addw` to `xorw`; `shl`, `shr`, `sar` by a constant, `shlb`, `shrb`, `sarb` by ecx; `neg`, `not`; `cltd`; quotient and rest `idiv`, `irem`, `div`, `rem`; 1 or 0 for the conditions `e` to `ae`, and with a constant `ew` to `aew` |
//!
//! What an instruction leaves open is not asked.
#![tactic(auto)]

mod asking;
mod codes;
mod rows;

use crate::rows::Rows;
use std::io;
use worked_row_files::compare;

/// Asks for each row of the file that lies beside the program, and tells how many agree.
pub fn tell(rt: &HostRuntime) -> io::Result<()> {
    compare(rt, "native.txt", &mut Rows)
}

//! Where the words of Linear lie.

ghost use Rattle.std.specs.Prelude.{◌≡◌};
ghost use Rattle.native_lowering_definition.specs.Locations.{register_of};

use x86_syntax::Register;

/// The native register of a register of Linear.
pub fn register_of(r: u8) -> Register
    ensures { result ≡ register_of r }
{
    match r {
        0 => Register::R8d,
        1 => Register::R9d,
        2 => Register::R10d,
        3 => Register::R11d,
        4 => Register::Ebx,
        5 => Register::Ebp,
        6 => Register::R12d,
        7 => Register::R13d,
        _ => Register::R8d,
    }
}

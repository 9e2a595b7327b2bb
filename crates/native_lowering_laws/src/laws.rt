//! The laws, each the contract of a call that does nothing else.

ghost use Rattle.native_lowering_laws.specs.Laws.{LoweringKeeps, LoweringIsSafe, RoomKeeps};

/// What a program of Linear in range means, its native program does, whatever words the processor holds where nothing is said.
pub fn lowering_keeps()
    ensures { LoweringKeeps }
{}

/// With a bound on the stack a native program shows the same, or is full behind a beginning of what it prints.
pub fn room_keeps()
    ensures { RoomKeeps }
{}

/// No run of a native program is stuck, not where the program of Linear goes wrong either. So it reads and writes cells of its own globals
/// and frames alone, returns only to where it was called from, and jumps only to labels of its function.
pub fn lowering_is_safe()
    ensures { LoweringIsSafe }
{}

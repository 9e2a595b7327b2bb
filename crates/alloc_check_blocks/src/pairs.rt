//! What an instruction and the body that stands for it define, if they do the same.

ghost use Rattle.std.specs.Prelude.{◌≡◌, Some, None};
ghost use Rattle.alloc_check_rules.specs.Act.TheVariants as rtl_act;
ghost use Rattle.alloc_check_rules.specs.Instruction.TheVariants as rtl_instruction;
ghost use Rattle.alloc_check_rules.specs.Pairs.{same_number, result_change, act_change, same_test, same_presence, change_of};

use alloc_check_rules::{Act, Arguments, Body, Change, Instruction, Op, Register, Test};
use locations::{Location, Register as MachineRegister};

fn same_number(names: &Arguments, locations: &machine::Arguments) -> bool
    ensures { result ≡ same_number names.now locations.now }
{
    match names {
        Arguments::One(_) => matches!(locations, machine::Arguments::One(_)),
        Arguments::Two(_, _) => matches!(locations, machine::Arguments::Two(_, _)),
    }
}

fn result_change(target: Option<Register>, location: Option<Location>) -> Option<Change>
    ensures { result ≡ result_change target location }
{
    match target {
        None => match location {
            None => Some(Change::Nothing),
            Some(_) => None,
        },
        Some(register) => match location {
            None => None,
            Some(location) => Some(Change::Defines { register, location }),
        },
    }
}

/// What an act defines for which nothing is done.
fn without(act: &Act) -> Option<Change>
    ensures { result ≡ act_change act.now None }
{
    match *act {
        Act::Nop => Some(Change::Nothing),
        Act::Move { target, source } => Some(Change::Copies { target, source }),
        Act::Constant { target, .. } | Act::Operate { target, .. } | Act::Load { target, .. } => {
            Some(Change::Drops { register: target })
        }
        Act::Store { .. } | Act::Put { .. } => None,
    }
}

fn defines(register: Register, machine_register: MachineRegister) -> Option<Change>
    ensures { result ≡ Some (Change.Defines register (Location.InRegister machine_register)) }
{
    Some(Change::Defines {
        register,
        location: Location::InRegister(machine_register),
    })
}

fn constant_change(target: Register, word: u32, other: &machine::Act) -> Option<Change>
    ensures { result ≡ act_change (rtl_act.Constant target word) (Some other.now) }
{
    match *other {
        machine::Act::Constant {
            target: machine_register,
            word: same,
        } if word == same => defines(target, machine_register),
        _ => None,
    }
}

fn operate_change(
    op: Op,
    target: Register,
    names: &Arguments,
    other: &machine::Act,
) -> Option<Change>
    ensures { result ≡ act_change (rtl_act.Operate op target names.now) (Some other.now) }
{
    match other {
        machine::Act::Operate {
            op: same,
            target: machine_register,
            arguments,
        } => {
            if op.code() == same.code() && same_number(names, arguments) {
                defines(target, *machine_register)
            } else {
                None
            }
        }
        _ => None,
    }
}

fn load_change(
    target: Register,
    global: u16,
    index: Register,
    other: &machine::Act,
) -> Option<Change>
    ensures { result ≡ act_change (rtl_act.Load target global index) (Some other.now) }
{
    match *other {
        machine::Act::Load {
            target: machine_register,
            global: same,
            ..
        } if global == same => defines(target, machine_register),
        _ => None,
    }
}

fn store_change(
    global: u16,
    index: Register,
    source: Register,
    other: &machine::Act,
) -> Option<Change>
    ensures { result ≡ act_change (rtl_act.Store global index source) (Some other.now) }
{
    match *other {
        machine::Act::Store { global: same, .. } if global == same => Some(Change::Nothing),
        _ => None,
    }
}

fn put_change(source: Register, target: Option<Register>, other: &machine::Act) -> Option<Change>
    ensures { result ≡ act_change (rtl_act.Put source target) (Some other.now) }
{
    match *other {
        machine::Act::Put {
            target: location,
            ..
        } => { result_change(target, location.map(Location::InRegister)) }
        _ => None,
    }
}

/// What an act and the one that stands for it define.
fn with(act: &Act, other: &machine::Act) -> Option<Change>
    ensures { result ≡ act_change act.now (Some other.now) }
{
    match act {
        Act::Nop | Act::Move { .. } => None,
        Act::Constant { target, word } => constant_change(*target, *word, other),
        Act::Operate {
            op,
            target,
            arguments,
        } => operate_change(*op, *target, arguments, other),
        Act::Load {
            target,
            global,
            index,
        } => load_change(*target, *global, *index, other),
        Act::Store {
            global,
            index,
            source,
        } => store_change(*global, *index, *source, other),
        Act::Put { source, target } => put_change(*source, *target, other),
    }
}

fn do_change(act: &Act, successor: u16, body: &Body) -> Option<Change>
    ensures { result ≡ change_of (rtl_instruction.Do act.now successor) body.now }
{
    match body {
        Body::Go {
            act: other,
            successor: same,
            ..
        } => {
            if successor != *same {
                return None;
            }
            match other {
                None => without(act),
                Some(other) => with(act, other),
            }
        }
        _ => None,
    }
}

fn call_change(
    function: u8,
    names: &[Register],
    target: Option<Register>,
    successor: u16,
    body: &Body,
) -> Option<Change>
    ensures { result ≡ change_of (rtl_instruction.Call function names.now target successor) body.now }
{
    match body {
        Body::Call {
            function: callee,
            arguments,
            target: location,
            successor: same,
            ..
        } => {
            if function == *callee && names.len() == arguments.len() && successor == *same {
                result_change(target, *location)
            } else {
                None
            }
        }
        _ => None,
    }
}

fn same_test(test: &Test, other: &machine::Test) -> bool
    ensures { result ≡ same_test test.now other.now }
{
    test.condition.code() == other.condition.code()
        && same_number(&test.arguments, &other.arguments)
}

fn branch_change(test: &Test, taken: u16, other: u16, body: &Body) -> Option<Change>
    ensures { result ≡ change_of (rtl_instruction.Branch test.now taken other) body.now }
{
    match body {
        Body::Branch {
            test: asked,
            taken: same,
            other: also,
        } => {
            if same_test(test, asked) && taken == *same && other == *also {
                Some(Change::Nothing)
            } else {
                None
            }
        }
        _ => None,
    }
}

fn return_change(value: Option<Register>, body: &Body) -> Option<Change>
    ensures { result ≡ change_of (rtl_instruction.Return value) body.now }
{
    match body {
        Body::Return {
            value: machine_register,
        } => {
            if value.is_some() == machine_register.is_some() {
                Some(Change::Nothing)
            } else {
                None
            }
        }
        _ => None,
    }
}

/// What the instruction and the body define; none where the body does something else.
pub fn change_of(instruction: &Instruction, body: &Body) -> Option<Change>
    ensures { result ≡ change_of instruction.now body.now }
{
    match instruction {
        Instruction::Do { act, successor } => do_change(act, *successor, body),
        Instruction::Call {
            function,
            arguments,
            target,
            successor,
        } => call_change(*function, arguments.as_slice(), *target, *successor, body),
        Instruction::Branch { test, taken, other } => branch_change(test, *taken, *other, body),
        Instruction::Return { value } => return_change(*value, body),
    }
}

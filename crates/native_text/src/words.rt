//! The words of the text.

ghost use Rattle.std.specs.Prelude.{◌≡◌};
ghost use Rattle.lang_base.specs.Texts.{Appends};
ghost use Rattle.native_text.specs.Words.{name_of, wide_name_of, operator_text, turning_text, shifting_text, jump_text, set_text, verb_text, signed_text};

use lang_base::{NoMemory, push_byte};
use text_keys::push_number;
use x86_syntax::{Condition, Operator, Register, Shifting, Turning};

/// What is done.
#[derive(Clone, Copy)]
pub enum Verb {
    /// `#`: nothing.
    Remark,
    /// `movl`
    Moves,
    Does(Operator),
    Turns(Turning),
    Shifts(Shifting),
    /// `cltd`
    Extends,
    /// `idivl`
    Divides,
    /// `divl`
    DividesUnsigned,
    /// `cmpl`
    Compares,
    Sets(Condition),
    /// `movzbl`
    Widens,
    /// `jmp`
    Jumps,
    JumpsIf(Condition),
    /// `call`
    Calls,
    /// `ret`
    Returns,
    /// `cmpq`
    ComparesWide,
    /// `subq`
    SubtractsWide,
    /// `addq`
    AddsWide,
}

pub(crate) fn name_of(register: Register) -> &'static [u8]
    ensures { result.now ≡ name_of register }
{
    match register {
        Register::R8d => b"%r8d",
        Register::R9d => b"%r9d",
        Register::R10d => b"%r10d",
        Register::R11d => b"%r11d",
        Register::Ebx => b"%ebx",
        Register::Ebp => b"%ebp",
        Register::R12d => b"%r12d",
        Register::R13d => b"%r13d",
        Register::Eax => b"%eax",
        Register::Ecx => b"%ecx",
        Register::Edx => b"%edx",
        Register::Esi => b"%esi",
        Register::Edi => b"%edi",
    }
}

/// The whole register.
pub(crate) fn wide_name_of(register: Register) -> &'static [u8]
    ensures { result.now ≡ wide_name_of register }
{
    match register {
        Register::R8d => b"%r8",
        Register::R9d => b"%r9",
        Register::R10d => b"%r10",
        Register::R11d => b"%r11",
        Register::Ebx => b"%rbx",
        Register::Ebp => b"%rbp",
        Register::R12d => b"%r12",
        Register::R13d => b"%r13",
        Register::Eax => b"%rax",
        Register::Ecx => b"%rcx",
        Register::Edx => b"%rdx",
        Register::Esi => b"%rsi",
        Register::Edi => b"%rdi",
    }
}

fn operator_text(op: Operator) -> &'static [u8]
    ensures { result.now ≡ operator_text op }
{
    match op {
        Operator::Add => b"addl",
        Operator::Sub => b"subl",
        Operator::Mul => b"imull",
        Operator::And => b"andl",
        Operator::Or => b"orl",
        Operator::Xor => b"xorl",
    }
}

fn turning_text(op: Turning) -> &'static [u8]
    ensures { result.now ≡ turning_text op }
{
    match op {
        Turning::Neg => b"negl",
        Turning::Not => b"notl",
    }
}

fn shifting_text(op: Shifting) -> &'static [u8]
    ensures { result.now ≡ shifting_text op }
{
    match op {
        Shifting::Shl => b"shll",
        Shifting::Shr => b"shrl",
        Shifting::Sar => b"sarl",
    }
}

fn jump_text(condition: Condition) -> &'static [u8]
    ensures { result.now ≡ jump_text condition }
{
    match condition {
        Condition::Equal => b"je",
        Condition::NotEqual => b"jne",
        Condition::Less => b"jl",
        Condition::LessOrEqual => b"jle",
        Condition::Below => b"jb",
        Condition::BelowOrEqual => b"jbe",
        Condition::AboveOrEqual => b"jae",
    }
}

fn set_text(condition: Condition) -> &'static [u8]
    ensures { result.now ≡ set_text condition }
{
    match condition {
        Condition::Equal => b"sete",
        Condition::NotEqual => b"setne",
        Condition::Less => b"setl",
        Condition::LessOrEqual => b"setle",
        Condition::Below => b"setb",
        Condition::BelowOrEqual => b"setbe",
        Condition::AboveOrEqual => b"setae",
    }
}

pub(crate) fn verb_text(verb: Verb) -> &'static [u8]
    ensures { result.now ≡ verb_text verb }
{
    match verb {
        Verb::Remark => b"#",
        Verb::Moves => b"movl",
        Verb::Does(op) => operator_text(op),
        Verb::Turns(op) => turning_text(op),
        Verb::Shifts(op) => shifting_text(op),
        Verb::Extends => b"cltd",
        Verb::Divides => b"idivl",
        Verb::DividesUnsigned => b"divl",
        Verb::Compares => b"cmpl",
        Verb::Sets(condition) => set_text(condition),
        Verb::Widens => b"movzbl",
        Verb::Jumps => b"jmp",
        Verb::JumpsIf(condition) => jump_text(condition),
        Verb::Calls => b"call",
        Verb::Returns => b"ret",
        Verb::ComparesWide => b"cmpq",
        Verb::SubtractsWide => b"subq",
        Verb::AddsWide => b"addq",
    }
}

/// Writes a word, read as signed.
pub(crate) fn push_signed(out: &mut Vec<u8>, word: u32) -> Result<(), NoMemory>
    ensures { Appends result (signed_text word) out.old.items out.new.items }
{
    let number = u64::from(word);
    if number < 1 << 31 {
        push_number(out, number)
    } else {
        push_byte(out, b'-')?;
        push_number(out, (1 << 32) - number)
    }
}

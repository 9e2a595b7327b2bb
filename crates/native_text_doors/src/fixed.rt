//! The fixed text. `specs/Fixed` says what each line does.

ghost use Rattle.lang_base.specs.Texts.{Appends};
ghost use Rattle.native_text_doors.specs.Fixed.{kept_text, back_text, main_text, result_text, enter_text, put_text, flush_text, ends_text, data_text, note_text};

use lang_base::NoMemory;
use text_keys::push_bytes;

/// The registers that C keeps are put on the stack.
pub fn push_kept(out: &mut Vec<u8>) -> Result<(), NoMemory>
    ensures { Appends result kept_text out.old.items out.new.items }
{
    push_bytes(
        out,
        b" pushq %rbx
 pushq %rbp
 pushq %r12
 pushq %r13
 pushq %r14
 pushq %r15
",
    )
}

/// They are taken back, and the caller goes on.
pub fn push_back(out: &mut Vec<u8>) -> Result<(), NoMemory>
    ensures { Appends result back_text out.old.items out.new.items }
{
    push_bytes(
        out,
        b" popq %r15
 popq %r14
 popq %r13
 popq %r12
 popq %rbp
 popq %rbx
 ret
",
    )
}

/// The linker may give main to C's start.
pub fn push_main(out: &mut Vec<u8>) -> Result<(), NoMemory>
    ensures { Appends result main_text out.old.items out.new.items }
{
    push_bytes(
        out,
        b" .globl main
main:
",
    )
}

/// Behind main's result.
pub fn push_result(out: &mut Vec<u8>) -> Result<(), NoMemory>
    ensures { Appends result result_text out.old.items out.new.items }
{
    push_bytes(
        out,
        b" movl %eax, %ebx
 call .Lflush
 movl %ebx, %eax
",
    )
}

/// A function is entered.
pub fn push_enter(out: &mut Vec<u8>) -> Result<(), NoMemory>
    ensures { Appends result enter_text out.old.items out.new.items }
{
    push_bytes(
        out,
        b".Lenter:
 leaq .Lglobals(%rip), %r14
 movq .Llimit(%rip), %r15
 testq %r15, %r15
 je .Lfind
.Lfound:
 xorl %r8d, %r8d
 xorl %r9d, %r9d
 xorl %r10d, %r10d
 xorl %r11d, %r11d
 xorl %ebx, %ebx
 xorl %ebp, %ebp
 xorl %r12d, %r12d
 xorl %r13d, %r13d
 ret
.Lfind:
 pushq %rdi
 pushq %rsi
 pushq %rdx
 pushq %rcx
 movq %rsp, %rbp
 subq $16, %rsp
 andq $-16, %rsp
 movl $3, %edi
 movq %rsp, %rsi
 call getrlimit@PLT
 movq (%rsp), %rax
 movl $1073741824, %ecx
 cmpq %rcx, %rax
 cmovaq %rcx, %rax
 movq %rax, %rdx
 shrq $2, %rdx
 subq %rdx, %rax
 leaq 65536(%rbp), %r15
 subq %rax, %r15
 movq %r15, .Llimit(%rip)
 movq %rbp, %rsp
 popq %rcx
 popq %rdx
 popq %rsi
 popq %rdi
 jmp .Lfound
",
    )
}

/// A byte is printed.
pub fn push_put(out: &mut Vec<u8>) -> Result<(), NoMemory>
    ensures { Appends result put_text out.old.items out.new.items }
{
    push_bytes(
        out,
        b".Lput:
 pushq %r8
 pushq %r9
 pushq %r10
 pushq %r11
 pushq %rbp
 movq %rsp, %rbp
 andq $-16, %rsp
 movzbl %dil, %edi
 call putchar@PLT
 movq %rbp, %rsp
 popq %rbp
 popq %r11
 popq %r10
 popq %r9
 popq %r8
 testl %eax, %eax
 js .Lunwritten
 ret
",
    )
}

/// What was printed is flushed.
pub fn push_flush(out: &mut Vec<u8>) -> Result<(), NoMemory>
    ensures { Appends result flush_text out.old.items out.new.items }
{
    push_bytes(
        out,
        b".Lflush:
 pushq %rbp
 movq %rsp, %rbp
 andq $-16, %rsp
 xorl %edi, %edi
 call fflush@PLT
 movq %rbp, %rsp
 popq %rbp
 testl %eax, %eax
 jne .Lunwritten
 ret
",
    )
}

/// What ends a run early.
pub fn push_ends(out: &mut Vec<u8>) -> Result<(), NoMemory>
    ensures { Appends result ends_text out.old.items out.new.items }
{
    push_bytes(
        out,
        b".Lwrong:
 call .Lflush
 movl $5, %ebx
 leaq .Ltold5(%rip), %rsi
 movl $6, %edx
 jmp .Lend
.Lfull:
 call .Lflush
 movl $7, %ebx
 leaq .Ltold7(%rip), %rsi
 movl $7, %edx
 jmp .Lend
.Lunwritten:
 movl $4, %ebx
 leaq .Ltold4(%rip), %rsi
 movl $10, %edx
.Lend:
 andq $-16, %rsp
 movl $2, %edi
 call write@PLT
 movl %ebx, %edi
 call _exit@PLT
.Ltold5:
 .byte 119,114,111,110,103,10
.Ltold7:
 .byte 109,101,109,111,114,121,10
.Ltold4:
 .byte 119,114,105,116,101,32,55,48,49,10
",
    )
}

/// The data, but for the globals.
pub fn push_data(out: &mut Vec<u8>) -> Result<(), NoMemory>
    ensures { Appends result data_text out.old.items out.new.items }
{
    push_bytes(
        out,
        b" .data
 .p2align 3
.Llimit:
 .quad 0
.Lglobals:
",
    )
}

/// The stack holds no code.
pub fn push_note(out: &mut Vec<u8>) -> Result<(), NoMemory>
    ensures { Appends result note_text out.old.items out.new.items }
{
    push_bytes(out, b" .section .note.GNU-stack,\"\",@progbits\n")
}

ghost use Rattle.std.specs.Prelude.{◌≡◌, ◌⊎◌, OnOk, OnErr, IfOk, IfErr, IfSome, IsNone};
ghost use Rattle.std.specs.Io.KnownBytes.{Appends, Keeps};
ghost use Rattle.std.specs.String.{string_bytes};
ghost use Rattle.cfarm_sim.specs.Rooms.{room_of};
ghost use Rattle.cfarm_sim.specs.Told.{told_text};
ghost use Rattle.cfarm_sim_lines.specs.Texts.{first_line};
ghost use Rattle.cfarm_sim_lines.specs.declared.command.Command.TheVariants as Command;
ghost use Rattle.cfarm_sim.specs.declared.error.ScheduleError.TheVariants as ScheduleError;
ghost use Rattle.cfarm_sim.specs.Plays.{IsLine, IsNoCommand, IsShown, IsStopped, Obeyed, ObeyedLine, Refuses, last_line};
ghost use Rattle.cfarm_output.specs.Begun.{IsBegun};

use crate::error::ScheduleError;
use crate::room::Room;
use crate::told::Told;
use cfarm_output::{print_all, print_whole};
use cfarm_sim_lines::{Command, command_of, quorums_of, split_at_byte};
use lang_base::NoMemory;
use paxos_core::agreement;
use std::alloc::Global;
use std::io::Write;

/// The first line of a text, and what stands behind it.
pub fn next_line(text: &[u8]) -> (&[u8], &[u8])
    ensures line { result.0.now ≡ first_line text.now }
    ensures text { IsLine text.now result.0.now result.1.now }
{
    split_at_byte(text, b'\n').unwrap_or((text, &[]))
}

/// Does what a command asks; none where its node is none, or its message was not sent yet.
pub fn obey(room: &mut Room, command: Command) -> Result<Option<Told>, NoMemory>
    ensures some { IfOk result (λ told. IfSome told (Obeyed room.old command room.new)) }
    ensures none { IfOk result (λ told. IsNone told → Refuses room.old command) }
    ensures quorums { room.new.quorums ≡ room.old.quorums }
{
    let count = room.count();
    match command {
        Command::Offer(node) if node < count => Ok(Some(room.offer(node))),
        Command::Start(node) if node < count => Ok(Some(room.start(node)?)),
        Command::Propose(node) if node < count => Ok(Some(room.propose(node)?)),
        Command::Restart(node) if node < count => Ok(Some(room.restart(node))),
        Command::Deliver(node, number) => deliver(room, node, number),
        _ => Ok(None),
    }
}

/// Hands the message with this number, from 1, to the node; none where there is no such node, or no such message yet.
fn deliver(room: &mut Room, node: u8, number: u64) -> Result<Option<Told>, NoMemory>
    ensures some { IfOk result (λ told. IfSome told (Obeyed room.old (Command.Deliver node number) room.new)) }
    ensures none { IfOk result (λ told. IsNone told → Refuses room.old (Command.Deliver node number)) }
    ensures quorums { room.new.quorums ≡ room.old.quorums }
{
    if number == 0 || node >= room.count() {
        return Ok(None);
    }
    match room.message(number - 1) {
        Some(message) => Ok(Some(room.deliver(node, message)?)),
        None => Ok(None),
    }
}

/// Does what a line asks; none where it spells no command that can be done.
fn obey_line(alloc: Global, room: &mut Room, line: &[u8]) -> Result<Option<Told>, NoMemory>
    ensures some { IfOk result (λ told. IfSome told (ObeyedLine room.old line.now room.new)) }
    ensures none { IfOk result (λ told. IsNone told → IsNoCommand room.old.quorums (room_of room.old) line.now) }
    ensures quorums { room.new.quorums ≡ room.old.quorums }
{
    room.known();
    match command_of(alloc, line)? {
        Some(command) => obey(room, command),
        None => Ok(None),
    }
}

/// Prints what is told of a call.
fn print<W: Write>(alloc: Global, told: Told, out: &mut W) -> Result<(), ScheduleError>
    ensures ok { OnOk result (Appends (W.contents out.old) (W.contents out.new) (told_text told)) }
    ensures err { IfErr result (λ e. (e ≡ ScheduleError.NoMemory) ⊎ (e ≡ ScheduleError.Write)) }
    ensures begun { OnErr result (IsBegun (told_text told) (W.contents out.old) (W.contents out.new)) }
{
    match format!(in alloc; "{told}") {
        Ok(text) => match print_all(out, text.as_bytes()) {
            Ok(()) => Ok(()),
            Err(_) => Err(ScheduleError::Write),
        },
        Err(_) => Err(ScheduleError::NoMemory),
    }
}

/// The last line: what each node has learned.
pub fn closing_of(alloc: Global, room: &Room) -> Result<String, NoMemory>
    ensures { IfOk result (λ text. string_bytes text ≡ last_line room.now) }
{
    let mut text = "learned:".to_string(alloc)?;
    for node in 0..room.count() {
        match room.learned(node) {
            None => text.push_str(" -")?,
            Some(value) => write!(text, " {value}")?,
        }
    }
    text.push_str("\n")?;
    Ok(text)
}

/// What is told of the line with this number, which is none: what was printed of the lines before it is flushed.
fn stop_at<W: Write>(number: u64, out: &mut W) -> ScheduleError
    ensures told { (result ≡ ScheduleError.Schedule number) ⊎ (result ≡ ScheduleError.Write) }
    ensures kept { Keeps (W.contents out.old) (W.contents out.new) }
{
    match out.flush() {
        Ok(()) => ScheduleError::Schedule(number),
        Err(_) => ScheduleError::Write,
    }
}

/// Prints the last line, and flushes all.
fn close<W: Write>(alloc: Global, room: &Room, out: &mut W) -> Result<(), ScheduleError>
    ensures ok { OnOk result (Appends (W.contents out.old) (W.contents out.new) (last_line room.now)) }
    ensures err { IfErr result (λ e. (e ≡ ScheduleError.NoMemory) ⊎ (e ≡ ScheduleError.Write)) }
    ensures begun { OnErr result (IsBegun (last_line room.now) (W.contents out.old) (W.contents out.new)) }
{
    let Ok(text) = closing_of(alloc, room) else {
        return Err(ScheduleError::NoMemory);
    };
    match print_whole(out, text.as_bytes()) {
        Ok(()) => Ok(()),
        Err(_) => Err(ScheduleError::Write),
    }
}

/// Plays a schedule, line by line, and prints a line for each command and, at its end, what each node has learned. The
/// caller buffers; all is flushed.
pub fn simulate<W: Write>(alloc: Global, schedule: &[u8], out: &mut W) -> Result<(), ScheduleError>
    // All lines were played, and what they show is a run of the protocol.
    ensures shown { OnOk result (IsShown schedule.now (W.contents out.old) (W.contents out.new)) }
    // The first line that is none is told, and what the lines before it print stays; where memory or the writer fails, a
    // beginning of what the schedule shows is printed.
    ensures stopped { IfErr result (λ e. IsStopped schedule.now e (W.contents out.old) (W.contents out.new)) }
{
    agreement();
    let (head, mut rest) = next_line(schedule);
    let Some(quorums) = quorums_of(head) else {
        return Err(ScheduleError::Schedule(1));
    };
    let Ok(mut room) = Room::new(alloc, quorums) else {
        return Err(ScheduleError::NoMemory);
    };
    let mut number = 1u64;
    while !rest.is_empty() {
        let (line, behind) = next_line(rest);
        number += 1;
        let told = match obey_line(alloc, &mut room, line) {
            Ok(Some(told)) => told,
            Ok(None) => return Err(stop_at(number, out)),
            Err(NoMemory) => return Err(ScheduleError::NoMemory),
        };
        print(alloc, told, out)?;
        rest = behind;
    }
    close(alloc, &room, out)
}

//! Playing a schedule, row by row.

ghost use Rattle.std.specs.Prelude.{◌≡◌, ◌<◌, ◌+◌, ◌++◌, [], OnOk, IfOk, IfErr, IfSome, IsNone, true, false};
ghost use Rattle.std.specs.String.{string_bytes};
ghost use Rattle.cfarm_sim.specs.Plays.{numbered};
ghost use Rattle.cfarm_sim.specs.Rooms.{room_of};
ghost use Rattle.cfarm_sim.specs.declared.error.ScheduleError.TheVariants as ScheduleError;
ghost use Rattle.cfarm_sim_svg.specs.Playing.{DrewLine, HasDrawn, IsBegin, IsPlayedOut, IsUnplayed, SpellsNone, row_by};
ghost use Rattle.cfarm_sim_svg_shapes.specs.Handed.{handed, has_come, node_of};
ghost use Rattle.cfarm_sim_svg_shapes.specs.Rows.{sent_by};

use cfarm_sim::{Room, ScheduleError, Told, next_line, obey};
use cfarm_sim_lines::{Command, command_of, quorums_of};
use cfarm_sim_svg_shapes::{Origin, add_row, node_of};
use lang_base::NoMemory;
use paxos_core::agreement;
use paxos_core_world::msg::Msg;
use paxos_core_world::quorum::Quorums;
use std::alloc::Global;

/// A schedule that is under way.
#[derive(Drop)]
pub struct Playing {
    pub room: Room,
    /// Where its messages were sent, the oldest first.
    pub sent: Vec<Origin>,
    /// The rows that were drawn.
    pub body: String,
    /// How many these are.
    pub row: u32,
}

/// The message with this number, from 1.
fn numbered(room: &Room, number: u64) -> Option<Msg>
    ensures { result ≡ numbered (room_of room.now).sent number }
{
    if number == 0 {
        return None;
    }
    room.message(number - 1)
}

/// The message that a command hands over.
fn handed(room: &Room, command: Command) -> Option<Msg>
    ensures { result ≡ handed (room_of room.now).sent command }
{
    match command {
        Command::Deliver(_, number) => numbered(room, number),
        Command::Offer(_) | Command::Start(_) | Command::Propose(_) | Command::Restart(_) => None,
    }
}

/// Whether anything came of it.
fn has_come(room: &Room, node: u8, message: Option<Msg>) -> bool
    requires { node < room.now.quorums.nodes }
    ensures { result ≡ has_come ((room_of room.now).nodes node) message }
{
    match message {
        Some(message) => room.has_noted(node, &message),
        None => true,
    }
}

/// Notes where a message was sent.
#[tactic(auto, using(crate::proofs::Going::none_more))]
fn note_sent(sent: &mut Vec<Origin>, row: u32, told: Told) -> Result<(), NoMemory>
    ensures { OnOk result (sent.new.items ≡ sent.old.items ++ sent_by row told) }
{
    match told {
        Told::Sent(_, node, _) => {
            sent.push(Origin { node, row })?;
            Ok(())
        }
        Told::Offered | Told::Restarted | Told::Nothing | Told::Refused | Told::Learned(_) => Ok(
            (),
        ),
    }
}

/// Does what a line asks, and draws its row; false where it spells no command that can be done.
#[tactic(auto, using(crate::proofs::Going::within_new, crate::proofs::Going::no_line, crate::proofs::Going::drew_by))]
fn draw_line(alloc: Global, playing: &mut Playing, line: &[u8]) -> Result<bool, NoMemory>
    ensures drew { IfOk result (λ drew. drew ≡ true → DrewLine playing.old playing.new line.now) }
    ensures none { IfOk result (λ drew. drew ≡ false → SpellsNone playing.old line.now) }
{
    playing.room.known();
    let Some(command) = command_of(alloc, line)? else {
        return Ok(false);
    };
    let message = handed(&playing.room, command);
    let Some(told) = obey(&mut playing.room, command)? else {
        return Ok(false);
    };
    draw_told(alloc, playing, command, told, message)?;
    Ok(true)
}

/// The row of a command that was done.
fn row_of(
    alloc: Global,
    playing: &Playing,
    command: Command,
    told: Told,
    message: Option<Msg>,
) -> Result<String, NoMemory>
    requires { node_of command < playing.now.room.quorums.nodes }
    ensures { IfOk result (λ text. string_bytes text ≡ row_by playing.now command told message) }
{
    let come = has_come(&playing.room, node_of(command), message);
    let mut text = String::new(alloc);
    let nodes = playing.room.count();
    let sent = playing.sent.as_slice();
    add_row(
        alloc,
        &mut text,
        nodes,
        playing.row,
        sent,
        command,
        told,
        come,
    )?;
    Ok(text)
}

/// Draws the row of a command that was done.
fn draw_told(
    alloc: Global,
    playing: &mut Playing,
    command: Command,
    told: Told,
    message: Option<Msg>,
) -> Result<(), NoMemory>
    requires { node_of command < playing.old.room.quorums.nodes }
    ensures { OnOk result (HasDrawn playing.old playing.new command told message) }
{
    let text = row_of(alloc, playing, command, told, message)?;
    playing.body.push_str(text.as_str())?;
    let row = playing.row;
    note_sent(&mut playing.sent, row, told)?;
    Ok(())
}

/// A room with these quorums in which nothing was done.
fn begin(alloc: Global, quorums: Quorums) -> Result<Playing, NoMemory>
    ensures { IfOk result (IsBegin quorums) }
{
    let room = Room::new(alloc, quorums)?;
    Ok(Playing {
        room,
        sent: Vec::new(alloc),
        body: String::new(alloc),
        row: 0,
    })
}

/// The number of the line behind those that were drawn.
fn line_behind(playing: &Playing) -> u64
    ensures { result ≡ playing.now.row + 2 }
{
    u64::from(playing.row) + 2
}

/// Plays a schedule, line by line, and draws a row for each command.
pub(crate) fn play(alloc: Global, schedule: &[u8]) -> Result<Playing, ScheduleError>
    ensures played { IfOk result (IsPlayedOut schedule.now) }
    ensures stopped { IfErr result (λ e. IsUnplayed schedule.now e) }
{
    agreement();
    let (head, mut rest) = next_line(schedule);
    let Some(quorums) = quorums_of(head) else {
        return Err(ScheduleError::Schedule(1));
    };
    let Ok(mut playing) = begin(alloc, quorums) else {
        return Err(ScheduleError::NoMemory);
    };
    while !rest.is_empty() {
        let (line, behind) = next_line(rest);
        let number = line_behind(&playing);
        let Ok(drew) = draw_line(alloc, &mut playing, line) else {
            return Err(ScheduleError::NoMemory);
        };
        if !drew {
            return Err(ScheduleError::Schedule(number));
        }
        let Some(next) = playing.row.checked_add(1) else {
            return Err(ScheduleError::NoMemory);
        };
        playing.row = next;
        rest = behind;
    }
    Ok(playing)
}

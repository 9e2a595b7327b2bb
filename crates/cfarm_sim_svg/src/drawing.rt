//! The drawing of a schedule.

ghost use Rattle.std.specs.Prelude.{◌≡◌, ◌++◌, OnOk, IfOk, IfErr};
ghost use Rattle.std.specs.String.{string_bytes};
ghost use Rattle.cfarm_sim_svg.specs.Drawn.{IsDrawn, IsUndrawn};
ghost use Rattle.cfarm_sim_svg.specs.Playing.{IsPlayedOut, drawing_by, foot_by};
ghost use Rattle.cfarm_sim_svg_shapes.specs.Labels.{LabelsAreLines};

use crate::playing::{Playing, play};
use cfarm_output::print_whole;
use cfarm_sim::{ScheduleError, closing_of};
use cfarm_sim_svg_shapes::{add_foot, head_of, labels_are_lines};
use lang_base::NoMemory;
use std::alloc::Global;
use std::io::Write;

/// The rows, with what stands round them.
fn drawing_of(alloc: Global, played: &Playing) -> Result<String, NoMemory>
    ensures { IfOk result (λ text. string_bytes text ≡ drawing_by played.now) }
{
    let nodes = played.room.count();
    let mut text = head_of(alloc, nodes, played.row)?;
    text.push_str(played.body.as_str())?;
    add_last(alloc, &mut text, played)?;
    Ok(text)
}

/// The last line behind the rows.
fn add_last(alloc: Global, text: &mut String, played: &Playing) -> Result<(), NoMemory>
    ensures { OnOk result (string_bytes text.new ≡ string_bytes text.old ++ foot_by played.now) }
{
    let line = closing_of(alloc, &played.room)?;
    add_foot(text, played.room.count(), played.row, line.as_str())
}

/// Prints the drawing of what was played.
fn print_drawing<W: Write>(
    alloc: Global,
    schedule: &[u8],
    played: &Playing,
    out: &mut W,
) -> Result<(), ScheduleError>
    requires { IsPlayedOut schedule.now played.now }
    ensures drawn { OnOk result (IsDrawn schedule.now (W.contents out.old) (W.contents out.new)) }
    ensures undrawn { IfErr result (λ e. IsUndrawn schedule.now e (W.contents out.old) (W.contents out.new)) }
{
    let Ok(text) = drawing_of(alloc, played) else {
        return Err(ScheduleError::NoMemory);
    };
    match print_whole(out, text.as_bytes()) {
        Ok(()) => Ok(()),
        Err(_) => Err(ScheduleError::Write),
    }
}

/// Plays a schedule and prints its drawing. Where a line is none nothing is printed. The caller buffers; all is flushed.
#[tactic(auto, using(crate::proofs::Ending::undrawn_by))]
pub fn draw<W: Write>(alloc: Global, schedule: &[u8], out: &mut W) -> Result<(), ScheduleError>
    // All lines were played, and their drawing is printed.
    ensures drawn { OnOk result (IsDrawn schedule.now (W.contents out.old) (W.contents out.new)) }
    // The first line that is none is told; where the writer fails a beginning of the drawing is printed.
    ensures undrawn { IfErr result (λ e. IsUndrawn schedule.now e (W.contents out.old) (W.contents out.new)) }
    // What stands outside of the tags of a drawing is what `sim` prints.
    ensures labels { LabelsAreLines }
{
    labels_are_lines();
    match play(alloc, schedule) {
        Ok(played) => print_drawing(alloc, schedule, &played, out),
        Err(fault) => Err(fault),
    }
}

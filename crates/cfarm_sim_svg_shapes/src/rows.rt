//! The row of a command.

ghost use Rattle.std.specs.Prelude.{◌≡◌, ◌++◌, OnOk};
ghost use Rattle.std.specs.String.{string_bytes};
ghost use Rattle.cfarm_sim_svg_shapes.specs.Places.{arrow_from, bend_of, guides_end, labels_at, lane_at, over_at, row_at};
ghost use Rattle.cfarm_sim_svg_shapes.specs.Rows.{arrow_part, is_dashed, label_at, numbered_origin, origin_of, row_text};
ghost use Rattle.cfarm_sim_svg_shapes.specs.Handed.{node_of};
ghost use Rattle.cfarm_sim.specs.Told.{told_text};

use crate::elements::{Arrow, add_arrow, add_guide, add_label, add_mark};
use crate::marks::{mark_of, mark_tail};
use crate::origin::Origin;
use cfarm_sim::Told;
use cfarm_sim_lines::Command;
use lang_base::NoMemory;
use std::alloc::Global;

/// How far right the lane of a node stands.
pub(crate) fn lane_at(node: u8) -> u64
    ensures { result ≡ lane_at node }
{
    40 + 80 * u64::from(node)
}

/// How far down a row stands.
pub(crate) fn row_at(row: u32) -> u64
    ensures { result ≡ row_at row }
{
    70 + 26 * u64::from(row)
}

/// How far right the faint lines of so many nodes end.
fn guides_end(nodes: u8) -> u64
    ensures { result ≡ guides_end nodes }
{
    20 + 80 * u64::from(nodes)
}

/// How far right the labels of so many nodes begin.
pub(crate) fn labels_at(nodes: u8) -> u64
    ensures { result ≡ labels_at nodes }
{
    26 + 80 * u64::from(nodes)
}

/// The node that a command is about.
pub fn node_of(command: Command) -> u8
    ensures { result ≡ node_of command }
{
    match command {
        Command::Offer(node) => node,
        Command::Start(node) => node,
        Command::Propose(node) => node,
        Command::Restart(node) => node,
        Command::Deliver(node, _) => node,
    }
}

/// Where the message with this number was sent, from 1.
fn numbered_origin(sent: &[Origin], number: u64) -> Option<Origin>
    ensures { result ≡ numbered_origin sent.now number }
{
    if number == 0 {
        return None;
    }
    sent.get((number - 1) as usize).copied()
}

/// Where the message of a delivery was sent.
fn origin_of(sent: &[Origin], command: Command) -> Option<Origin>
    ensures { result ≡ origin_of sent.now command }
{
    match command {
        Command::Deliver(_, number) => numbered_origin(sent, number),
        Command::Offer(_) | Command::Start(_) | Command::Propose(_) | Command::Restart(_) => None,
    }
}

/// The place towards which a message's way is bent, from the left.
fn over_at(from: u8, to: u8) -> u64
    ensures { result ≡ over_at from to }
{
    if from == to {
        return lane_at(from) - 30;
    }
    (lane_at(from) + lane_at(to)) / 2
}

/// How far down a message's way is bent: where it crosses a lane, so that it is seen from one that ends there.
fn bend_of(from: u8, to: u8) -> u64
    ensures { result ≡ bend_of from to }
{
    let (from, to) = (u64::from(from), u64::from(to));
    if from + 1 < to || to + 1 < from {
        return 12;
    }
    0
}

/// The way of a message: straight to the lane beside, bent down where it crosses another, and to the left where a node is handed its own.
fn arrow_from(origin: Origin, node: u8, row: u32) -> Arrow
    ensures { result ≡ arrow_from origin node row }
{
    let (from_y, to_y) = (row_at(origin.row), row_at(row));
    Arrow {
        from_x: lane_at(origin.node),
        from_y,
        over_x: over_at(origin.node, node),
        over_y: (from_y + to_y) / 2 + bend_of(origin.node, node),
        to_x: lane_at(node),
        to_y,
    }
}

/// Whether nothing came of what was handed over: no answer, and nothing was learned or noted.
fn is_dashed(told: Told, has_come: bool) -> bool
    ensures { result ≡ is_dashed told has_come }
{
    match told {
        Told::Nothing => !has_come,
        Told::Offered | Told::Restarted | Told::Refused | Told::Learned(_) | Told::Sent(_, _, _) =>
            false,
    }
}

/// The arrow of a delivery.
#[tactic(auto, using(crate::proofs::Joining::none))]
fn add_way(
    text: &mut String,
    origin: Option<Origin>,
    node: u8,
    row: u32,
    is_dashed: bool,
) -> Result<(), NoMemory>
    ensures { OnOk result (string_bytes text.new ≡ string_bytes text.old ++ arrow_part origin node row is_dashed) }
{
    match origin {
        Some(origin) => add_arrow(text, arrow_from(origin, node, row), is_dashed),
        None => Ok(()),
    }
}

/// The label of a row: what is told of its call.
fn add_told(
    alloc: Global,
    text: &mut String,
    nodes: u8,
    row: u32,
    told: Told,
) -> Result<(), NoMemory>
    ensures { OnOk result (string_bytes text.new ≡ string_bytes text.old ++ label_at nodes row (told_text told)) }
{
    let line = format!(in alloc; "{told}")?;
    add_label(text, labels_at(nodes), row_at(row) + 4, line.as_str())
}

/// The row of a command: what was sent before it, and whether anything came of what it handed over.
#[tactic(auto, using(crate::proofs::Joining::four))]
pub fn add_row(
    alloc: Global,
    text: &mut String,
    nodes: u8,
    row: u32,
    sent: &[Origin],
    command: Command,
    told: Told,
    came: bool,
) -> Result<(), NoMemory>
    ensures { OnOk result (string_bytes text.new ≡ string_bytes text.old ++ row_text nodes row sent.now command told came) }
{
    let node = node_of(command);
    let (x, y) = (lane_at(node), row_at(row));
    add_guide(text, x, y, guides_end(nodes))?;
    add_way(
        text,
        origin_of(sent, command),
        node,
        row,
        is_dashed(told, came),
    )?;
    add_mark(text, x, y, mark_tail(mark_of(command, told)))?;
    add_told(alloc, text, nodes, row, told)?;
    Ok(())
}

//! What stands round the rows: the sizes, the lanes and the last label.

ghost use Rattle.std.specs.Prelude.{◌≡◌, ◌++◌, OnOk, IfOk};
ghost use Rattle.std.specs.String.{string_bytes};
ghost use Rattle.cfarm_sim_svg_shapes.specs.Frame.{foot_text, head_text, lanes_text, opening_text};
ghost use Rattle.cfarm_sim_svg_shapes.specs.Places.{height_of, lanes_end, width_of};

use crate::elements::{add_label, add_lane, add_mark};
use crate::marks::name_tail;
use crate::rows::{labels_at, lane_at, row_at};
use lang_base::NoMemory;
use std::alloc::Global;

/// How high the names of the lanes stand.
const NAMES: u64 = 16;

fn width_of(nodes: u8) -> u64
    ensures { result ≡ width_of nodes }
{
    300 + 90 * u64::from(nodes)
}

fn height_of(rows: u32) -> u64
    ensures { result ≡ height_of rows }
{
    90 + 26 * u64::from(rows)
}

fn lanes_end(rows: u32) -> u64
    ensures { result ≡ lanes_end rows }
{
    54 + 26 * u64::from(rows)
}

/// The sizes, how arrows end, and the ground.
fn add_opening(text: &mut String, width: u64, height: u64) -> Result<(), NoMemory>
    ensures { OnOk result (string_bytes text.new ≡ string_bytes text.old ++ opening_text width height) }
{
    write!(
        text,
        "<svg xmlns=\"http://www.w3.org/2000/svg\" width=\"{width}\" height=\"{height}\"\nfont-family=\"monospace\" font-size=\"12\" fill=\"none\" stroke=\"black\"><marker id=\"a\" markerWidth=\"9\" markerHeight=\"8\" refX=\"12\" refY=\"4\" orient=\"auto\"><path d=\"M0 0L9 4L0 8z\" fill=\"black\"/></marker><path d=\"M0 0H{width}V{height}H0z\" fill=\"white\"/>"
    )?;
    Ok(())
}

/// The lanes of the nodes, each with its node's number on top.
#[tactic(auto, using(crate::proofs::Joining::three))]
fn add_lanes(text: &mut String, nodes: u8, end: u64) -> Result<(), NoMemory>
    ensures { OnOk result (string_bytes text.new ≡ string_bytes text.old ++ lanes_text nodes end) }
{
    for node in 0..nodes {
        add_lane(text, lane_at(node), end)?;
        add_mark(text, lane_at(node), NAMES, name_tail(node))?;
    }
    Ok(())
}

/// What stands in front of so many rows of so many nodes.
#[tactic(auto, using(crate::proofs::Joining::first_two))]
pub fn head_of(alloc: Global, nodes: u8, rows: u32) -> Result<String, NoMemory>
    ensures { IfOk result (λ text. string_bytes text ≡ head_text nodes rows) }
{
    let mut text = String::new(alloc);
    add_opening(&mut text, width_of(nodes), height_of(rows))?;
    add_lanes(&mut text, nodes, lanes_end(rows))?;
    Ok(text)
}

/// What stands behind them, with this last line.
#[tactic(auto, using(crate::proofs::Joining::two))]
pub fn add_foot(text: &mut String, nodes: u8, rows: u32, line: &str) -> Result<(), NoMemory>
    ensures { OnOk result (string_bytes text.new ≡ string_bytes text.old ++ foot_text nodes rows line.now) }
{
    add_label(text, labels_at(nodes), row_at(rows) + 4, line)?;
    text.push_str("</svg>")?;
    Ok(())
}

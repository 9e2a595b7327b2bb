//! The elements of a drawing, each as it is written behind the others.

ghost use Rattle.std.specs.Prelude.{◌≡◌, ◌++◌, OnOk};
ghost use Rattle.std.specs.String.{string_bytes};
ghost use Rattle.cfarm_sim_svg_shapes.specs.Elements.{arrow_tail, arrow_text, guide_text, label_text, lane_text, mark_text, way_text};

use lang_base::NoMemory;

/// A faint line from a place to the label of its row.
pub(crate) fn add_guide(text: &mut String, x: u64, y: u64, end: u64) -> Result<(), NoMemory>
    ensures { OnOk result (string_bytes text.new ≡ string_bytes text.old ++ guide_text x y end) }
{
    write!(text, "<path d=\"M{x} {y}H{end}\" stroke=\"gainsboro\"/>")?;
    Ok(())
}

/// Where an arrow begins and ends, and the place towards which it is bent.
#[derive(Clone, Copy, Debug, PartialEq, Eq)]
pub struct Arrow {
    pub from_x: u64,
    pub from_y: u64,
    pub over_x: u64,
    pub over_y: u64,
    pub to_x: u64,
    pub to_y: u64,
}

/// How an arrow ends: dashed where nothing came of the message.
fn arrow_tail<'a>(is_dashed: bool) -> &'a str
    ensures { result.now ≡ arrow_tail is_dashed }
{
    if is_dashed {
        "\" stroke=\"gray\" stroke-dasharray=\"5 4\" marker-end=\"url(#a)\"/>"
    } else {
        "\" marker-end=\"url(#a)\"/>"
    }
}

/// The way of an arrow, with this end.
fn add_way(text: &mut String, arrow: Arrow, tail: &str) -> Result<(), NoMemory>
    ensures { OnOk result (string_bytes text.new ≡ string_bytes text.old ++ way_text arrow tail.now) }
{
    let (from_x, from_y) = (arrow.from_x, arrow.from_y);
    let (over_x, over_y) = (arrow.over_x, arrow.over_y);
    let (to_x, to_y) = (arrow.to_x, arrow.to_y);
    write!(
        text,
        "<path d=\"M{from_x} {from_y}Q{over_x} {over_y} {to_x} {to_y}{tail}"
    )?;
    Ok(())
}

pub(crate) fn add_arrow(text: &mut String, arrow: Arrow, is_dashed: bool) -> Result<(), NoMemory>
    ensures { OnOk result (string_bytes text.new ≡ string_bytes text.old ++ arrow_text arrow is_dashed) }
{
    add_way(text, arrow, arrow_tail(is_dashed))
}

/// What is drawn from a place on.
pub(crate) fn add_mark(text: &mut String, x: u64, y: u64, tail: &str) -> Result<(), NoMemory>
    ensures { OnOk result (string_bytes text.new ≡ string_bytes text.old ++ mark_text x y tail.now) }
{
    write!(text, "<path d=\"M{x} {y}{tail}")?;
    Ok(())
}

/// A line that `sim` prints, with its end.
pub(crate) fn add_label(text: &mut String, x: u64, y: u64, line: &str) -> Result<(), NoMemory>
    ensures { OnOk result (string_bytes text.new ≡ string_bytes text.old ++ label_text x y line.now) }
{
    write!(
        text,
        "<text x=\"{x}\" y=\"{y}\" fill=\"black\" stroke=\"none\">{line}</text>"
    )?;
    Ok(())
}

/// The lane of a node, to this height.
pub(crate) fn add_lane(text: &mut String, x: u64, end: u64) -> Result<(), NoMemory>
    ensures { OnOk result (string_bytes text.new ≡ string_bytes text.old ++ lane_text x end) }
{
    write!(text, "<path\nd=\"M{x} 44V{end}\" stroke=\"silver\"/>")?;
    Ok(())
}

//! Nodes that have no journal, where others have records.

ghost use Rattle.std.specs.Prelude.{◌≡◌, IfOk, OnOk};
ghost use Rattle.std.specs.String.{string_bytes};
ghost use Rattle.cfarm_fsck_files.specs.Lost.{ended, has_none, have_records, lost_lines, with_node};

use cfarm_fsck_journals::NodeFiles;
use cfarm_options::{Note, holds_nothing, holds_records};
use lang_base::NoMemory;
use std::alloc::Global;

/// Whether the files of this node hold no journal.
fn has_none(one: &NodeFiles) -> bool
    ensures { result ≡ has_none one.now }
{
    holds_nothing(&one.new, &one.old)
}

/// Whether those of some node hold records.
fn have_records(found: &[NodeFiles]) -> bool
    ensures { result ≡ have_records found.now }
{
    for node in 0..found.len() {
        if holds_records(&found[node].new, &found[node].old) {
            return true;
        }
    }
    false
}

/// Ends the text's last line, where it has one.
pub(crate) fn push_end(text: &mut String) -> Result<(), NoMemory>
    ensures { OnOk result (string_bytes text.new ≡ ended (string_bytes text.old)) }
{
    match text.as_bytes() {
        [] => Ok(()),
        [_first, _rest @ ..] => {
            text.push('\n')?;
            Ok(())
        }
    }
}

/// Writes the line of the node of this number, where it has no journal.
fn push_node(node: usize, one: &NodeFiles, text: &mut String) -> Result<(), NoMemory>
    ensures { OnOk result (string_bytes text.new ≡ with_node (string_bytes text.old) node one.now) }
{
    if !has_none(one) {
        return Ok(());
    }
    let line = Note::Lost(node);
    push_end(text)?;
    write!(text, "{line}")?;
    Ok(())
}

/// The lines of nodes that have no journal, where others have records; the last one without its end.
pub(crate) fn lost_lines(alloc: Global, found: &[NodeFiles]) -> Result<String, NoMemory>
    ensures { IfOk result (λ text. string_bytes text ≡ lost_lines found.now) }
{
    let mut text = String::new(alloc);
    if !have_records(found) {
        return Ok(text);
    }
    for node in 0..found.len() {
        match push_node(node, &found[node], &mut text) {
            Ok(()) => {}
            Err(fault) => return Err(fault),
        }
    }
    Ok(text)
}

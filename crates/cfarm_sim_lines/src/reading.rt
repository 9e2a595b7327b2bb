//! Reading a line: a number is guessed, and the line that it would spell is compared with what stands there.

ghost use Rattle.std.specs.Prelude.{◌≡◌, ◌<◌, ◌^◌, ℕ, Some, IfSome, IfOk};
ghost use Rattle.std.specs.Fmt.{decimal};
ghost use Rattle.cfarm_sim_lines.specs.Commands.{IsInWords, IsReadAsDelivery, line_of};
ghost use Rattle.cfarm_sim_lines.specs.declared.command.Command.{Command};
ghost use Rattle.cfarm_sim_lines.specs.declared.command.Command.TheVariants as Command;

use crate::command::Command;
use crate::parts::{behind, number_in, split_at_byte};
use lang_base::NoMemory;
use std::alloc::Global;

/// A node's number.
fn node_in(digits: &[u8]) -> Option<u8>
    ensures { (n : ℕ) → n < 256 → digits.now ≡ decimal n → result ≡ Some n }
{
    u8::try_from(number_in(digits)?).ok()
}

/// The node and the message of a delivery.
fn delivery_in(words: &[u8]) -> Option<Command>
    ensures { IsReadAsDelivery words.now result }
{
    let (node, message) = split_at_byte(words, b' ')?;
    Some(Command::Deliver(node_in(node)?, number_in(message)?))
}

/// The command that the line spells, if it spells one; else it may be any.
fn guess(line: &[u8]) -> Option<Command>
    ensures { (c : Command) → IsInWords c → line.now ≡ line_of c → result ≡ Some c }
{
    match line.first()? {
        b'o' => Some(Command::Offer(node_in(behind(line, b"offer ")?)?)),
        b's' => Some(Command::Start(node_in(behind(line, b"start ")?)?)),
        b'p' => Some(Command::Propose(node_in(behind(line, b"propose ")?)?)),
        b'r' => Some(Command::Restart(node_in(behind(line, b"restart ")?)?)),
        b'd' => delivery_in(behind(line, b"deliver ")?),
        _ => None,
    }
}

/// The command that the line spells.
pub fn command_of(alloc: Global, line: &[u8]) -> Result<Option<Command>, NoMemory>
    ensures some { IfOk result (λ found. IfSome found (λ c. line.now ≡ line_of c)) }
    ensures only { IfOk result (λ found. (c : Command) → IsInWords c → line.now ≡ line_of c → found ≡ Some c) }
{
    let Some(command) = guess(line) else {
        return Ok(None);
    };
    let spelled = format!(in alloc; "{command}")?;
    Ok((spelled.as_bytes() == line).then_some(command))
}

//! What marks the place where a node acts.

ghost use Rattle.std.specs.Prelude.{◌≡◌};
ghost use Rattle.cfarm_sim_svg_shapes.specs.Marks.{mark_of, mark_tail, name_tail, sending_mark};

use cfarm_sim::Told;
use cfarm_sim_lines::Command;

/// What a mark says.
#[derive(Clone, Copy, Debug, PartialEq, Eq)]
pub enum Mark {
    /// A node has offered.
    Ring,
    /// A node has started a ballot, or proposed.
    Disk,
    /// A node has forgotten what it does not keep.
    Cross,
    /// A node has learned a value.
    Square,
    /// Any other call.
    Dot,
}

/// The mark of a call, by its command and by what is told of it.
pub(crate) fn mark_of(command: Command, told: Told) -> Mark
    ensures { result ≡ mark_of command told }
{
    match told {
        Told::Offered => Mark::Ring,
        Told::Restarted => Mark::Cross,
        Told::Learned(_) => Mark::Square,
        Told::Nothing | Told::Refused => Mark::Dot,
        Told::Sent(_, _, _) => sending_mark(command),
    }
}

/// The mark of a call that sends a message.
fn sending_mark(command: Command) -> Mark
    ensures { result ≡ sending_mark command }
{
    match command {
        Command::Start(_) | Command::Propose(_) => Mark::Disk,
        Command::Offer(_) | Command::Restart(_) | Command::Deliver(_, _) => Mark::Dot,
    }
}

/// How the mark is drawn from the place at which it stands.
pub(crate) fn mark_tail<'a>(mark: Mark) -> &'a str
    ensures { result.now ≡ mark_tail mark }
{
    match mark {
        Mark::Ring => "m-5 0a5 5 0 0 0 10 0a5 5 0 0 0 -10 0\" fill=\"white\"/>",
        Mark::Disk => "m-5 0a5 5 0 0 0 10 0a5 5 0 0 0 -10 0\" fill=\"black\"/>",
        Mark::Cross => "m-6 -6l12 12m0 -12l-12 12\" stroke=\"crimson\" stroke-width=\"3\"/>",
        Mark::Square => "m-6 -6h12v12h-12z\" fill=\"limegreen\"/>",
        Mark::Dot => "m-2 0a2 2 0 0 0 4 0a2 2 0 0 0 -4 0\" fill=\"black\"/>",
    }
}

/// How the number of a node, which is below 7, is drawn from the place at which it stands.
pub(crate) fn name_tail<'a>(node: u8) -> &'a str
    ensures { result.now ≡ name_tail node }
{
    if node == 0 {
        return "m-4 0h8v14h-8z\"/>";
    }
    if node == 1 {
        return "v14\"/>";
    }
    if node == 2 {
        return "m-4 0h8v7h-8v7h8\"/>";
    }
    if node == 3 {
        return "m-4 0h8v7h-8m8 0v7h-8\"/>";
    }
    if node == 4 {
        return "m-4 0v7h8m0 -7v14\"/>";
    }
    if node == 5 {
        return "m4 0h-8v7h8v7h-8\"/>";
    }
    "m4 0h-8v14h8v-7h-8\"/>"
}

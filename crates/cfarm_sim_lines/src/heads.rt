//! Reading the first line: sizes are guessed of its digits, and the line that these would spell is compared with what stands there. The
//! sizes of quorums that meet have one digit each.

ghost use Rattle.std.specs.Prelude.{◌≡◌, ℕ, ◌+◌, slice_get, Some, IsNone, IfSome, IsTrue, ◌↔◌};
ghost use Rattle.paxos_core_world.specs.Quorum.{majority_sizes, AreQuorums, Sizes};
ghost use Rattle.cfarm_sim_lines.specs.Commands.{IsHead};
ghost use Rattle.cfarm_sim_lines.specs.FirstLine.{IsSpelled};

use paxos_core_world::quorum::Quorums;

/// The number that the byte at that place spells, where it is a digit.
fn digit_at(line: &[u8], place: usize) -> Option<u8>
    ensures { (n : ℕ) → slice_get line.now place ≡ Some (48 + n) → result ≡ Some n }
{
    match line.get(place) {
        Some(byte) => byte.checked_sub(b'0'),
        None => None,
    }
}

/// The sizes that the line spells, if it spells any that meet; else they may be any.
fn guess(line: &[u8]) -> Option<Quorums>
    ensures { (q : Sizes) → AreQuorums q → IsSpelled line.now q → result ≡ Some q }
{
    let Some(nodes) = digit_at(line, 6) else {
        return None;
    };
    if line.len() == 7 {
        return Quorums::majorities(nodes);
    }
    let Some(promise) = digit_at(line, 8) else {
        return None;
    };
    let Some(accept) = digit_at(line, 10) else {
        return None;
    };
    Quorums::of(nodes, promise, accept)
}

/// Whether both sizes are those of more than half of the nodes.
fn are_majorities(quorums: Quorums) -> bool
    ensures { IsTrue result ↔ (quorums ≡ majority_sizes quorums.nodes) }
{
    let half = quorums.nodes() / 2 + 1;
    quorums.promise() == half && quorums.accept() == half
}

/// Whether the line spells these sizes.
fn is_spelled(line: &[u8], quorums: Quorums) -> bool
    ensures spelled { IsTrue result ↔ IsSpelled line.now quorums }
    ensures sizes { AreQuorums quorums }
{
    let (nodes, promise, accept) = (
        b'0' + quorums.nodes(),
        b'0' + quorums.promise(),
        b'0' + quorums.accept(),
    );
    let short = [b'n', b'o', b'd', b'e', b's', b' ', nodes];
    let long = [
        b'n', b'o', b'd', b'e', b's', b' ', nodes, b' ', promise, b' ', accept,
    ];
    line == long.as_slice() || line == short.as_slice() && are_majorities(quorums)
}

/// The sizes of quorums that the first line says.
pub fn quorums_of(line: &[u8]) -> Option<Quorums>
    ensures some { IfSome result (λ q. IsHead line.now q) }
    ensures none { IsNone result → (q : Sizes) → IsHead line.now q → ⊥ }
{
    let Some(quorums) = guess(line) else {
        return None;
    };
    if is_spelled(line, quorums) {
        Some(quorums)
    } else {
        None
    }
}

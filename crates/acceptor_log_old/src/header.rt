//! The two forms of an old header.

ghost use Rattle.std.specs.Prelude.{◌≡◌, ◌≤◌, length};
ghost use Rattle.acceptor_log_old.specs.OldText.{belong_to_first, old_header_size, old_header_text};

use acceptor_log_form::Header;

/// Whether an old journal's header has the first form.
pub fn has_first_form(header: &Header) -> bool
    ensures { result ≡ belong_to_first header.now.nodes header.now.promise header.now.accept }
{
    belongs_to_first(header.nodes, header.promise, header.accept)
}

/// How many bytes it has at the front of an old journal.
#[tactic(auto, unfolding(crate::specs::OldText::old_header_size, crate::specs::OldText::old_header_text))]
pub fn old_size(header: &Header) -> usize
    ensures size { result ≡ old_header_size header.now }
    ensures text { length (old_header_text header.now) ≡ result }
    ensures most { result ≤ 40 }
{
    let digest = digest_size(header);
    if has_first_form(header) {
        6 + digest
    } else {
        8 + digest
    }
}

fn digest_size(header: &Header) -> usize
    ensures own { length header.now.digest ≡ result }
    ensures long { result ≡ 32 }
{
    let digest: &[u8] = &header.digest;
    digest.len()
}

/// Whether these sizes of quorums of so many nodes belong to the first form of a header.
#[tactic(auto, unfolding(crate::specs::OldText::belong_to_first))]
pub fn belongs_to_first(nodes: u8, promise: u8, accept: u8) -> bool
    ensures { result ≡ belong_to_first nodes promise accept }
{
    let twice = u16::from(nodes) + 1;
    2 * u16::from(promise) == twice && 2 * u16::from(accept) == twice
}

// The cases of standard input. What is read no contract can say.
ghost use Rattle.std.specs.Prelude.{◌≡◌, ◌≤◌, ◌<◌, IfSome};
ghost use Rattle.std.specs.Option.{option_map};
ghost use Rattle.replay_cases.specs.Case as Spec;

use crate::case;

// A case by its kind and its bytes behind the head, with zeros behind these.
#[derive(Drop)]
pub struct Case {
    pub kind: usize,
    pub bytes: [u8; 16384],
}

// Reads the file's mark.
pub fn mark() {
    let mut mark = [0u8; 8];
    io::read_full(0, &mut mark);
}

// The bytes behind a head that says so many words.
fn bytes(size: usize) -> [u8; 16384]
    requires { size ≤ 2048 }
{
    let mut b = [0u8; 16384];
    io::read_full(0, &mut b[..size * 8]);
    b
}

// The case whose head this is; none if it has a kind or a size that no buffer here holds.
fn behind(head: &[u8; 16]) -> Option<Case>
    ensures value { option_map (λ c. c.kind) result ≡ Spec.kind_of head.now }
    ensures upper_bound { IfSome result (λ c. c.kind < 128) }
{
    let kind = case::kind(head);
    if kind > 127 {
        return None;
    }
    let size = case::size(head)?;
    Some(Case {
        kind: kind as usize,
        bytes: bytes(size),
    })
}

// The next case, if it has a head.
pub fn next() -> Option<Case>
    ensures { IfSome result (λ c. c.kind < 128) }
{
    let mut head = [0u8; 16];
    if io::read_full(0, &mut head) < 16 {
        return None;
    }
    behind(&head)
}

// The bytes of a line, from one piece or several, and the lines' numbers.
ghost use Rattle.std.specs.Prelude.{◌≡◌, ◌≤◌, length, take, position, nat_eq};
ghost use Rattle.session_owed.specs.Owed.{Begun};
ghost use Rattle.session_memory.specs.Gathering.{Gathers};

use text_line::{AHEAD, LF};

// How many bytes of a line have come, how far the piece was taken, and whether 29 bytes or an LF decide the line.
#[derive(Clone, Copy)]
pub struct Gathered {
    pub begun: usize,
    pub place: usize,
    pub whole: bool,
}

// Where the first LF of these bytes is, if there is one.
fn end_of(bytes: &[u8]) -> Option<usize>
    ensures { result ≡ position (λ b. nat_eq b 10) bytes.now }
{
    bytes.iter().position(|b| *b == LF)
}

// Bytes of a piece behind those of the begun line.
pub fn gather(piece: &[u8], from: usize, window: &mut [u8], begun: usize) -> Gathered
    requires { (29 ≤ length window.old) × (begun ≤ 28) × Begun (take begun window.old) }
    ensures { Gathers piece.now from window.old begun result.begun result.place result.whole window.new }
{
    let coming = &piece[from.min(piece.len())..];
    let coming = &coming[..coming.len().min(AHEAD - begun)];
    let (taken, whole) = match end_of(coming) {
        Some(i) => (i + 1, true),
        None => (coming.len(), begun + coming.len() == AHEAD),
    };
    window[begun..begun + taken].copy_from_slice(&coming[..taken]);
    Gathered {
        begun: begun + taken,
        place: from + taken,
        whole,
    }
}

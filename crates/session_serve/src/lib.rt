// A session from a reader to a writer: a thin loop over `feed`, in fixed memory. A failed read ends the input; a failed write ends the session.
#![tactic(auto)]

ghost use Rattle.session_feed.specs.Laws.{Starts};
ghost use Rattle.session_serve.specs.Serving.{IsPrefixLen, session_in, Served, PieceServed, NextServed};

use session_feed::{Fed, State, feed, finish, start};
use session_memory::OUT;
use session_owed::{PART_OWNS, PARTS};
use std::io::{Read, Write};
use table::WORDS;
use text_line::AHEAD;
use update::Record;

// A session's memory: the table's words, the begun line's bytes, the nodes that have come with their own sets and the points' words, and the engine's buffers.
#[derive(Drop)]
pub struct Memory {
    pub words: [u64; WORDS],
    pub window: [u8; AHEAD],
    pub parts: [u8; PARTS],
    pub part_owns: [u64; PART_OWNS],
    pub held: [u8; Record::NODES],
    pub held_owns: [u64; Record::NODES],
    pub sets: [u64; Record::SETS],
    pub earlier: [u64; Record::SETS],
}

// Prints the first bytes of a buffer, and says whether that could be done.
fn print<W: Write>(output: &mut W, out: &[u8], printed: usize) -> bool {
    printed <= out.len() && output.write_all(&out[..printed]).is_ok()
}

// The end of the input.
fn print_end<W: Write>(output: &mut W, state: State, out: &mut [u8]) {
    if let Ok(n) = finish(state, out) {
        print(output, out, n);
    }
}

// One call of `feed`, and what it prints; none where the session is over.
fn take_some<W: Write>(
    output: &mut W,
    state: State,
    memory: &mut Memory,
    piece: &[u8],
    from: usize,
    out: &mut [u8],
) -> Option<Fed>
    ensures { Served (session_in memory.old state) piece.now from out.old (session_in memory.new) out.new result }
{
    let fed = feed(
        state,
        &mut memory.words,
        &mut memory.window,
        &mut memory.parts,
        &mut memory.part_owns,
        &mut memory.held,
        &mut memory.held_owns,
        &mut memory.sets,
        &mut memory.earlier,
        piece,
        from,
        out,
    )
    .ok()?;
    print(output, out, fed.printed).then_some(fed)
}

// One piece, and the state behind it. What is owed for the rest of it falls with each turn.
fn take_piece<W: Write>(
    output: &mut W,
    mut state: State,
    memory: &mut Memory,
    piece: &[u8],
    out: &mut [u8],
) -> Option<State>
    ensures { PieceServed (session_in memory.old state) out.old piece.now (session_in memory.new) out.new result }
{
    let mut place = 0;
    loop {
        let fed = take_some(output, state, memory, piece, place, out)?;
        if !fed.more {
            return Some(fed.state);
        }
        state = fed.state;
        place = fed.place;
    }
}

// The bytes that have come, at the start of the buffer; none at the end of the input.
fn read_piece<R: Read>(input: &mut R, buffer: &mut [u8]) -> usize
    ensures { IsPrefixLen result buffer.new }
{
    input.read(buffer).unwrap_or(0)
}

// The next piece as it comes, and the state behind it; or the end of the input.
fn take_next<R: Read, W: Write>(
    input: &mut R,
    output: &mut W,
    state: State,
    memory: &mut Memory,
    buffer: &mut [u8],
    out: &mut [u8],
) -> Option<State>
    ensures { NextServed (session_in memory.old state) out.old (session_in memory.new) out.new buffer.new result }
{
    let n = read_piece(input, buffer);
    if n == 0 {
        print_end(output, state, out);
        return None;
    }
    take_piece(output, state, memory, &buffer[..n], out)
}

// Pieces as they come, until there are none, from a session's start on. A proved loop has to end: it counts its turns down, from a number that no input uses up.
fn take_pieces<R: Read, W: Write>(
    input: &mut R,
    output: &mut W,
    mut state: State,
    memory: &mut Memory,
    buffer: &mut [u8],
    out: &mut [u8],
)
    requires { Starts (session_in memory.old state) out.old }
{
    for _ in 0..u64::MAX {
        let Some(next) = take_next(input, output, state, memory, buffer, out) else {
            return;
        };
        state = next;
    }
}

// No piece is longer.
const READ: usize = 65_536;

// The whole session.
pub fn serve<R: Read, W: Write>(input: &mut R, output: &mut W) {
    let mut memory = Memory {
        words: [0; WORDS],
        window: [0; AHEAD],
        parts: [0; PARTS],
        part_owns: [0; PART_OWNS],
        held: [0; Record::NODES],
        held_owns: [0; Record::NODES],
        sets: [0; Record::SETS],
        earlier: [0; Record::SETS],
    };
    let mut buffer = [0u8; READ];
    let mut out = [0u8; OUT];
    take_pieces(input, output, start(), &mut memory, &mut buffer, &mut out);
}

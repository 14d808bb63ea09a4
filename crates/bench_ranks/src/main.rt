// Ranks the circles of a graph on standard input, so that the ranking can be counted by itself.
//
// The graph: the number n of its slots, then for each slot its two arguments a and b, all in two bytes, the high one first. 65534 for a says that the
// slot is not declared; any other number from n on is no argument. Asked to `rank`, it prints how many circles there are and what the lists
// of members and of ends have in the middle; asked to `read`, how many slots, and zeros.
#![tactic(auto)]

ghost use Rattle.std.specs.Prelude.{◌+◌, ◌*◌, ◌<◌, ◌≤◌, ◌≡◌, length};
ghost use Rattle.circles.specs.Arrays.{Given, graph_of};
ghost use Rattle.circles.specs.Graph.{Closed};
ghost use Rattle.circles.specs.Ranked.{ranked};
ghost use Rattle.circles_order.specs.Inner.Turns.{Says};
ghost use Rattle.bench_ranks.specs.Inner.Slots.{Stands, Sure};

use circles::{Graph, NO_SLOT, SLOTS, UNDECLARED};
use circles_rank::rank_circles;
use std::env::Env;
use std::io;
use std::io::{Cursor, Read, Stdout};

// So many bytes has the text of the greatest graph, and so many ends have the most circles.
const TEXT: usize = 4 * SLOTS + 2;

const ENDS: usize = SLOTS + 1;

// What the program is asked.
#[derive(Clone, Copy, PartialEq, Eq)]
enum Task {
    Rank,
    Read,
}

fn asked(rt: &impl Env) -> Option<Task> {
    let mut word = [0u8; 8];
    let length = rt.arg(1, &mut word).ok()?;
    match &word[..length] {
        b"rank" => Some(Task::Rank),
        b"read" => Some(Task::Read),
        _ => None,
    }
}

// Reads until the buffer is full, the input ends or a read fails, and says how many bytes came; they stand at the buffer's start.
fn read_full(input: &mut impl Read, buffer: &mut [u8]) -> usize
    ensures { result ≤ length buffer.new }
{
    let room = buffer.len();
    let mut text = Cursor::new(buffer);
    let _ = io::copy(input, &mut text);
    room.min(text.position() as usize)
}

fn number(text: &[u8], at: usize) -> u16
    requires { at + 1 < length text.now }
{
    u16::from_be_bytes([text[at], text[at + 1]])
}

// The first or second arguments of the slots, the first of them at the place given.
fn fill(text: &[u8], at: usize, into: &mut [u16])
    requires { (length into.old ≤ 4096) × (at ≤ 4) × (4 * length into.old + at ≤ length text.now + 2) }
{
    for (x, argument) in into.iter_mut().enumerate() {
        *argument = number(text, 4 * x + at);
    }
}

// Whether the argument y of a declared slot may stand: no slot, or a declared one.
fn stands(g: Graph, y: u16) -> bool
    requires { g.n ≤ 4096 }
    ensures { Says (Stands g.entry.n g.entry.a.now y) result }
{
    let i = usize::from(y);
    g.n <= i || g.a[i] != UNDECLARED
}

// Whether slot x is not declared or its arguments stand.
fn sure(g: Graph, x: usize) -> bool
    requires { (g.n ≤ 4096) × (x < g.n) }
    ensures { Says (Sure g.entry.n g.entry.a.now g.entry.b.now x) result }
{
    g.a[x] == UNDECLARED || stands(g, g.a[x]) && stands(g, g.b[x])
}

// Whether what declared slots read is declared.
fn is_closed(g: Graph) -> bool
    requires { (g.n ≤ 4096) × (g.n ≤ length g.a.now) × (g.n ≤ length g.b.now) }
    ensures { Says (Closed (graph_of g.entry.n g.entry.a.now g.entry.b.now)) result }
{
    (0..g.n).all(|x| sure(g, x))
}

// How many circles or slots there are, and what the lists of members and of ends have in the middle.
#[derive(Clone, Copy)]
struct Found {
    count: usize,
    member: u16,
    end: u16,
}

// Counts the circles of the graph, or its slots. The arrays are made in both cases and looked into, so that the ranking is the only difference and all of it is done.
fn counted(g: Graph, task: Task) -> Found
    requires { Given g.n g.a.now g.b.now }
    ensures { (task ≡ Task.Rank → result.count ≡ length (ranked (graph_of g.entry.n g.entry.a.now g.entry.b.now))) × (task ≡ Task.Read → result.count ≡ g.entry.n) }
{
    let mut label = [0u16; SLOTS];
    let mut members = [0u16; SLOTS];
    let mut ends = [0u16; ENDS];
    let count = match task {
        Task::Rank => rank_circles(g.n, g.a, g.b, &mut label, &mut members, &mut ends),
        Task::Read => g.n,
    };
    let middle = g.n / 2;
    Found {
        count,
        member: members[middle],
        end: ends[middle],
    }
}

fn tell(output: Stdout, g: Graph, task: Task) -> io::Result<()>
    requires { (g.n ≤ 4096) × (g.n ≤ length g.a.now) × (g.n ≤ length g.b.now) }
{
    if !is_closed(g) {
        return println!(output; "a declared slot reads one that is not");
    }
    let Found { count, member, end } = counted(g, task);
    println!(output; "{count}")?;
    println!(output; "{member}")?;
    println!(output; "{end}")
}

fn answer(output: Stdout, text: &[u8], task: Task) -> io::Result<()> {
    if text.len() < 2 {
        return println!(output; "the text is too short");
    }
    let n = usize::from(number(text, 0));
    if SLOTS < n {
        return println!(output; "more than 4096 slots");
    }
    if text.len() < 4 * n + 2 {
        return println!(output; "the text is too short");
    }
    let mut a = [UNDECLARED; SLOTS];
    let mut b = [NO_SLOT; SLOTS];
    fill(text, 2, &mut a[..n]);
    fill(text, 4, &mut b[..n]);
    let g = Graph { n, a: &a, b: &b };
    tell(output, g, task)
}

fn main(rt: HostRuntime) -> io::Result<()> {
    let output = rt.stdout();
    let Some(task) = asked(&rt) else {
        return println!(output; "usage: bench_ranks rank|read < GRAPH");
    };
    let mut text = [0u8; TEXT];
    let length = read_full(&mut rt.stdin(), &mut text);
    answer(output, &text[..length], task)
}

// Does the work on a tree up to a stage, so that each stage can be counted by itself.
//
// Standard input has the text of a table and then of a tree. The stages: `judge` the table and the tree, the `spans` of its subtrees, `wire` its instances,
// `rank` its circles. What is printed: the count of nodes, or of circles once they are ranked, and what each array has in the middle, in hex of one width.
#![tactic(auto)]

ghost use Rattle.std.specs.Prelude.{◌<◌, ◌≤◌, length};
ghost use Rattle.wire.specs.Inner.Turns.{Held};

use circles_rank::rank_circles;
use std::env::Env;
use std::io;
use std::io::{Cursor, Read, Stdout};
use text::{ReadTable, ReadTree, read_table, read_tree};
use tree::{judge_tree, spans};
use wire::wire_tree;

// The stage that is asked for: 1 to 4, or 0 for none that it knows.
fn asked(rt: &impl Env) -> u8 {
    let mut word = [0u8; 8];
    let Ok(length) = rt.arg(1, &mut word) else {
        return 0;
    };
    match &word[..length] {
        b"judge" => 1,
        b"spans" => 2,
        b"wire" => 3,
        b"rank" => 4,
        _ => 0,
    }
}

// Reads until the buffer is full, the input ends or a read fails, and says how many bytes came; they stand at the buffer's start.
fn read_full(input: &mut impl Read, buffer: &mut [u8]) -> usize
    ensures { result ≤ length buffer.new }
{
    let room = buffer.len();
    let mut text = Cursor::new(buffer);
    let _ = io::copy(input, &mut text);
    room.min(text.position() as usize)
}

fn show(output: Stdout, n: u16) -> io::Result<()> {
    println!(output; "{n:04x}")
}

// Shows the count and what each array has for the node and its first slot. All stages look into all arrays, so that they differ by their work alone and all of it is done.
fn tell(
    output: Stdout,
    count: usize,
    node: usize,
    places: &[u16; 512],
    a: &[u16; 4096],
    b: &[u16; 4096],
    left: &[u16; 4096],
    rule: &[u16; 4096],
    label: &[u16; 4096],
    members: &[u16; 4096],
    ends: &[u16; 4097],
) -> io::Result<()>
    requires { node < 512 }
{
    let x = 8 * node;
    println!(output; "{count}")?;
    show(output, places[node])?;
    show(output, a[x])?;
    show(output, b[x])?;
    show(output, left[x])?;
    show(output, rule[x])?;
    show(output, label[x])?;
    show(output, members[x])?;
    show(output, ends[x])
}

// The stages behind the judgement.
fn work<'a>(output: Stdout, table: &'a [u64; 2657], nodes: &'a [u8], stage: u8) -> io::Result<()>
    requires { Held table.now nodes.now }
{
    let mut places = [0u16; 512];
    let mut a = [0u16; 4096];
    let mut b = [0u16; 4096];
    let mut left = [0u16; 4096];
    let mut rule = [0u16; 4096];
    let mut label = [0u16; 4096];
    let mut members = [0u16; 4096];
    let mut ends = [0u16; 4097];
    let n = 8 * nodes.len();
    let mut count = nodes.len();
    if 1 < stage {
        spans(table, nodes, &mut places);
        if 2 < stage {
            wire_tree(table, nodes, &places, &mut a, &mut b, &mut left, &mut rule);
            if 3 < stage {
                count = rank_circles(n, &a, &b, &mut label, &mut members, &mut ends);
            }
        }
    }
    tell(
        output,
        count,
        nodes.len() / 2,
        &places,
        &a,
        &b,
        &left,
        &rule,
        &label,
        &members,
        &ends,
    )
}

fn judge<'a>(
    output: Stdout,
    table: &'a [u64; 2657],
    nodes: &'a [u8],
    owns: &'a [u64],
    stage: u8,
) -> io::Result<()> {
    match judge_tree(table, nodes, owns) {
        Ok(()) => work(output, table, nodes, stage),
        Err(_) => println!(output; "the tree is refused"),
    }
}

// Reads the tree behind the table and goes on with it.
fn plant(
    output: Stdout,
    table: &[u64; 2657],
    text: &[u8],
    place: usize,
    line: u32,
    nodes: &mut [u8],
    owns: &mut [u64],
    stage: u8,
) -> io::Result<()> {
    let Ok(ReadTree { count, .. }) = read_tree(table, text, place, line, nodes, owns) else {
        return println!(output; "there is no tree");
    };
    if nodes.len() < count {
        return Ok(());
    }
    if owns.len() < count {
        return Ok(());
    }
    judge(output, table, &nodes[..count], &owns[..count], stage)
}

fn answer(output: Stdout, text: &[u8], stage: u8) -> io::Result<()> {
    let mut table = [0u64; 2657];
    let mut nodes = [0u8; 512];
    let mut owns = [0u64; 512];
    let Ok(ReadTable { place, line }) = read_table(text, 0, 1, &mut table) else {
        return println!(output; "there is no table");
    };
    plant(
        output, &table, text, place, line, &mut nodes, &mut owns, stage,
    )
}

fn main(rt: HostRuntime) -> io::Result<()> {
    let output = rt.stdout();
    let stage = asked(&rt);
    if stage == 0 {
        return println!(output; "usage: bench_stages judge|spans|wire|rank < TEXT");
    }
    let mut text = [0u8; 65_536];
    let length = read_full(&mut rt.stdin(), &mut text);
    answer(output, &text[..length], stage)
}

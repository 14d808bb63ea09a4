// Reads the text of a table and then of a tree from standard input and writes both back, so that reading and writing can be counted by themselves.
//
// The argument says how far it goes: `take` the bytes, `read` the table and the tree, `write` them back. Accepted text comes back as it went in.
#![tactic(auto)]

ghost use Rattle.std.specs.Prelude.{◌≤◌, length};

use refusal::Refusal;
use std::env::Env;
use std::io;
use std::io::{Cursor, Read, Stdout};
use text::{ReadTable, ReadTree, read_table, read_tree, write_table, write_tree};

// How far: 1 to 3, or 0 for a word that it doesn't know.
fn asked(rt: &impl Env) -> u8 {
    let mut word = [0u8; 8];
    let Ok(length) = rt.arg(1, &mut word) else {
        return 0;
    };
    match &word[..length] {
        b"take" => 1,
        b"read" => 2,
        b"write" => 3,
        _ => 0,
    }
}

// Reads until the buffer is full, the input ends or a read fails, and says how many bytes came; they stand at the buffer's start.
fn read_full(input: &mut impl Read, buffer: &mut [u8]) -> usize
    ensures { result ≤ length buffer.new }
{
    let room = buffer.len();
    let mut text = Cursor::new(buffer);
    let _ = io::copy(input, &mut text);
    room.min(text.position() as usize)
}

fn tell(output: Stdout, count: usize) -> io::Result<()> {
    println!(output; "{count}")
}

// Prints what was written, or the number that refused it.
fn print(output: Stdout, written: Result<usize, Refusal>, out: &[u8]) -> io::Result<()> {
    match written {
        Ok(n) => {
            if n <= out.len() {
                return output.write_all(&out[..n]);
            }
            Ok(())
        }
        Err(r) => tell(output, refusal::number(r) as usize),
    }
}

fn write_back<'a>(
    output: Stdout,
    table: &'a [u64; 2657],
    nodes: &'a [u8],
    owns: &'a [u64],
    count: usize,
    out: &mut [u8],
) -> io::Result<()> {
    if nodes.len() < count {
        return Ok(());
    }
    if owns.len() < count {
        return Ok(());
    }
    let first = write_table(table, out);
    print(output, first, &*out)?;
    let second = write_tree(table, &nodes[..count], &owns[..count], out);
    print(output, second, &*out)
}

fn copy(output: Stdout, text: &[u8], stage: u8) -> io::Result<()> {
    let mut table = [0u64; 2657];
    let mut nodes = [0u8; 512];
    let mut owns = [0u64; 512];
    let mut out = [0u8; 65_536];
    let Ok(ReadTable { place, line }) = read_table(text, 0, 1, &mut table) else {
        return println!(output; "there is no table");
    };
    let Ok(ReadTree { count, .. }) = read_tree(&table, text, place, line, &mut nodes, &mut owns)
    else {
        return println!(output; "there is no tree");
    };
    if stage < 3 {
        return tell(output, count);
    }
    write_back(output, &table, &nodes, &owns, count, &mut out)
}

fn main(rt: HostRuntime) -> io::Result<()> {
    let output = rt.stdout();
    let stage = asked(&rt);
    let mut text = [0u8; 65_536];
    let length = read_full(&mut rt.stdin(), &mut text);
    if stage == 0 {
        return println!(output; "usage: bench_copies take|read|write < TEXT");
    }
    if stage == 1 {
        return tell(output, length);
    }
    copy(output, &text[..length], stage)
}

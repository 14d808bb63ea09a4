// Makes every public call of the engine on four days, because what is only proved has never been run: session A's, one of a tree of 512 nodes, and two with a waiver, which
// stands outside every circle until the leaf is replaced, and inside one from the start. Each line says what a call answers and, behind a bar, the record that it leaves; a
// line of memory is a mark of all that is lent, which no refused call may change. `stdout` has the right lines, from docs/RULES.md, the recorded sessions and a program that
// isn't this one.
#![tactic(auto)]

ghost use Rattle.std.specs.Prelude.{◌≤◌, length};

mod act;
mod lending;
mod mark;
mod reading;
mod tape;
mod tell;

use act::{Day, perform};
use std::fs::Files;
use std::io::{Cursor, Read, Stdout};
use std::{fs, io};
use tape::ALL;
use text::{ReadTable, ReadTree, read_table, read_tree};

// So many words a table has.
const WORDS: usize = 2657;

// The calls of a day, as `tape` spells them: with a table of zeros; without a tree; loads that are refused; with a record beyond its limits; the load; what is refused while
// it is open; its rounds; what is refused then; readings; replacements that are refused; one that isn't; its rounds, and readings.
fn call_day(output: Stdout, table: &[u64; WORDS], day: Day) {
    perform(output, &[0; WORDS], b"klps1vrk ", day);
    let tape = b"kps1vr hfbm olps1vrnk lk lrpk 0s1vek eusk a gwxtk pk sss11ek a";
    perform(output, table, tape, day);
}

// The calls that replace at several points, on a day whose tree ends before the last two own sets: with a table of zeros; without a tree, where 22 comes before 16; with a
// record beyond its limits; while the load is open; what is refused when it is done; a row that isn't; what is refused while that is open; its rounds, and readings; the
// same row once more, which now alters nothing.
fn call_rows(output: Stdout, table: &[u64; WORDS], day: Day) {
    perform(output, &[0; WORDS], b" kdk ", day);
    let tape = b"kdz9k odznk lk dzk ek qz92jyk dk djk 0s1vk a dek";
    perform(output, table, tape, day);
}

// A day's text has its table and its tree, of at most 512 nodes; what stands behind them is no production of their tables. The leaf at the point is replaced; in a day with
// rows, both leaves together too.
fn tell_text(output: Stdout, text: &[u8], point: usize, rows: bool) {
    let mut table = [0u64; WORDS];
    let mut nodes = [3u8; ALL];
    let mut owns = [0u64; ALL];
    let Ok(ReadTable { place, line }) = read_table(text, 0, 1, &mut table) else {
        return;
    };
    let Ok(ReadTree { count, .. }) = read_tree(&table, text, place, line, &mut nodes, &mut owns)
    else {
        return;
    };
    let day = Day {
        nodes: &nodes,
        owns: &owns,
        count,
        point,
    };
    call_day(output, &table, day);
    if rows {
        call_rows(output, &table, day);
    }
}

// Reads until the buffer is full, the input ends or a read fails, and says how many bytes came; they stand at the buffer's start.
fn read_full(input: &mut impl Read, buffer: &mut [u8]) -> usize
    ensures { result ≤ length buffer.new }
{
    let room = buffer.len();
    let mut text = Cursor::new(buffer);
    let _ = io::copy(input, &mut text);
    room.min(text.position() as usize)
}

fn tell_day(rt: &(impl Files + Eprint), output: Stdout, name: &str, point: usize, rows: bool) {
    let mut text = [0u8; 65_536];
    match fs::open(rt, name) {
        Ok(mut file) => {
            let length = read_full(&mut file, &mut text);
            let _ = println!(output; "{name}");
            tell_text(output, &text[..length], point, rows);
        }
        Err(e) => {
            let _ = eprintln!(rt; "{name}: {e}");
        }
    }
}

fn main(rt: HostRuntime) {
    let output = rt.stdout();
    let _ = println!(output; "| held open nodes point part rank round circles evaluations");
    tell_day(&rt, output, "session-a.txt", 1, true);
    tell_day(&rt, output, "full-512.txt", 511, false);
    tell_day(&rt, output, "waiver-outside.txt", 1, false);
    tell_day(&rt, output, "waiver-inside.txt", 1, false);
}

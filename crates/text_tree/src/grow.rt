// A tree read from text.
ghost use Rattle.std.specs.Prelude.{◌≡◌, ◌≤◌, length, take, set};
ghost use Rattle.std.proofs.lemmas.List.Edits.{sets};
ghost use Rattle.refusal.specs.Numbers.{verdict_of};
ghost use Rattle.refusal.specs.Orders.{refusal_by};
ghost use Rattle.table.specs.Judge.{judge_table};
ghost use Rattle.text_tree.specs.Planting.{nodes_at, tree_at};
ghost use Rattle.text_tree.specs.Growing.{fitted, tree_answer, productions_after, owns_after, stray, Stored, kept_order};
ghost use Rattle.text_tree.specs.Calls.{ReadTreeSays};
ghost use Rattle.tree.specs.Tree.{nodes_most};

use crate::ReadTree;
use refusal::Refusal;
use table_judge::judge_table;
use text_frame::{Change, Frame, Misread, next_at};
use tree::{NODES, judge_held};

// A frame where another is expected: its own refusal is passed on, else 14.
#[tactic(auto, using(crate::proofs::Growing::no_refusal))]
fn no_node(frame: Frame, line: u32) -> Misread
    ensures { Err result ≡ tree_answer (stray frame line) }
{
    match frame {
        Frame::Refused { refusal, line } => Misread { refusal, line },
        _ => Misread {
            refusal: Refusal::Frame,
            line,
        },
    }
}

// Stores an item of a node where there is room.
fn keep<T: Copy>(memory: &mut [T], i: usize, item: T)
    ensures { memory.new ≡ set memory.old i item }
{
    if i < memory.len() {
        memory[i] = item;
    }
}

// Reads the lines of so many nodes, and keeps those for which there is room: a command may announce more than are kept.
fn read_nodes(
    text: &[u8],
    count: usize,
    place: usize,
    line: u32,
    productions: &mut [u8],
    owns: &mut [u64],
) -> Result<ReadTree, Misread>
    ensures { (result ≡ tree_answer (nodes_at count text.now place line)) × Stored (nodes_at count text.now place line) productions.old owns.old productions.new owns.new }
{
    let mut at = place;
    let mut l = line;
    for i in 0..count {
        let step = next_at(text, at, l);
        let Frame::Node { production, own } = step.frame else {
            return Err(no_node(step.frame, l));
        };
        keep(productions, i, production);
        keep(owns, i, own);
        at = step.place;
        l = step.line;
    }
    Ok(ReadTree {
        count,
        place: at,
        line: l,
    })
}

// Reads the lines of a load.
fn read_lines(
    text: &[u8],
    place: usize,
    line: u32,
    productions: &mut [u8],
    owns: &mut [u64],
) -> Result<ReadTree, Misread>
    ensures { (result ≡ tree_answer (tree_at text.now place line)) × Stored (tree_at text.now place line) productions.old owns.old productions.new owns.new }
{
    let step = next_at(text, place, line);
    let Frame::Change(change) = step.frame else {
        return Err(no_node(step.frame, line));
    };
    let Change::Load { count } = change else {
        return Err(no_node(step.frame, line));
    };
    read_nodes(
        text,
        usize::from(count),
        step.place,
        step.line,
        productions,
        owns,
    )
}

// Judges so many nodes that were read: 8, 6/7, then 15 for the memory that they are to go to.
#[tactic(auto, unfolding(refusal::specs::Orders::refusal_by))]
fn judge_read(
    table: &[u64; 2657],
    productions: &[u8],
    count: usize,
    room: usize,
    room_owns: usize,
) -> Result<(), Refusal>
    requires { (judge_table table.now ≡ 0) × (nodes_most ≤ length productions.now) }
    ensures { verdict_of result ≡ refusal_by (kept_order table.now productions.now count room room_owns) }
{
    if NODES < count {
        return Err(Refusal::Size);
    }
    judge_held(table, productions, count, 0)?;
    if room < count || room_owns < count {
        return Err(Refusal::Buffer);
    }
    Ok(())
}

// Copies the first items of one's own memory into lent memory.
fn copy_front<T: Copy>(from: &[T], count: usize, to: &mut [T])
    requires { (count ≤ length from.now) × (count ≤ length to.old) }
    ensures { to.new ≡ sets to.old 0 (take count from.now) }
{
    to[..count].copy_from_slice(&from[..count]);
}

// Reads a tree over a judged table.
fn read_judged(
    table: &[u64; 2657],
    text: &[u8],
    place: usize,
    line: u32,
    productions: &mut [u8],
    owns: &mut [u64],
) -> Result<ReadTree, Misread>
    requires { judge_table table.now ≡ 0 }
    ensures { (result ≡ tree_answer (fitted table.now line (length productions.old) (length owns.old) (tree_at text.now place line))) × ((productions.new ≡ productions_after (fitted table.now line (length productions.old) (length owns.old) (tree_at text.now place line)) productions.old) × (owns.new ≡ owns_after (fitted table.now line (length productions.old) (length owns.old) (tree_at text.now place line)) owns.old)) }
{
    let mut ps = [0u8; NODES];
    let mut os = [0u64; NODES];
    let read = read_lines(text, place, line, &mut ps, &mut os)?;
    let count = read.count;
    judge_read(table, &ps, count, productions.len(), owns.len()).map_err(|refusal| Misread {
        refusal,
        line,
    })?;
    copy_front(&ps, count, productions);
    copy_front(&os, count, owns);
    Ok(read)
}

// Reads a tree at a place of a text into lent memory: 1 to 5, 13 and 14 over all lines of its command, 8, 6/7, then 15; where it is refused nothing is written.
pub fn read_tree(
    table: &[u64; 2657],
    text: &[u8],
    place: usize,
    line: u32,
    productions: &mut [u8],
    owns: &mut [u64],
) -> Result<ReadTree, Misread>
    ensures { ReadTreeSays table.now text.now place line productions.old owns.old result productions.new owns.new }
{
    judge_table(table).map_err(|refusal| Misread { refusal, line })?;
    read_judged(table, text, place, line, productions, owns)
}

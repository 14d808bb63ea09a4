// The dump: the sets of the held tree, written as text.
#![tactic(auto)]

ghost use Rattle.std.specs.Prelude.{◌≡◌, ◌+◌, ◌*◌, ◌<◌, ◌≤◌, length, take};
ghost use Rattle.std.proofs.lemmas.List.Edits.{sets as sets_at};
ghost use Rattle.text_sets.specs.Telling.{told_from, slot_text, Tellable};
ghost use Rattle.text_sets.specs.Calls.{DumpSays};
ghost use Rattle.update.specs.Memories.{lent};

use refusal::Refusal;
use text_frame::{SET_LINE, put_set};
use update::Record;
use update_judge::{is_declared, judge_look};

// Writes a slot's line where it is declared, and says where the next line goes.
fn put_slot(
    table: &[u64; 2657],
    held: &[u8],
    nodes: usize,
    sets: &[u64],
    x: usize,
    buffer: &mut [u8],
    place: usize,
) -> usize
    requires tellable { Tellable table.now held.now sets.now nodes }
    requires x_bound { (x < 8 * nodes) × (place + length (slot_text table.now (take nodes held.now) sets.now x) ≤ length buffer.old) }
    ensures { (result ≡ place + length (slot_text table.now (take nodes held.now) sets.now x)) × (buffer.new ≡ sets_at buffer.old place (slot_text table.now (take nodes held.now) sets.now x)) }
{
    if is_declared(table, held, nodes, x) {
        put_set(buffer, place, x as u16, sets[x])
    } else {
        place
    }
}

// Writes the declared instances of the tree of the first `nodes` nodes with their sets, rising, and says where the text behind goes.
pub fn put_sets(
    table: &[u64; 2657],
    held: &[u8],
    nodes: usize,
    sets: &[u64],
    buffer: &mut [u8],
    place: usize,
) -> usize
    requires tellable { Tellable table.now held.now sets.now nodes }
    requires text_in_bounds { place + length (told_from table.now (take nodes held.now) sets.now 0 (8 * nodes)) ≤ length buffer.old }
    ensures { (result ≡ place + length (told_from table.now (take nodes held.now) sets.now 0 (8 * nodes))) × (buffer.new ≡ sets_at buffer.old place (told_from table.now (take nodes held.now) sets.now 0 (8 * nodes))) }
{
    let mut at = place;
    for x in 0..8 * nodes {
        at = put_slot(table, held, nodes, sets, x, buffer, at);
    }
    at
}

// How long the text of these sets is.
pub fn sets_length(table: &[u64; 2657], held: &[u8], nodes: usize, sets: &[u64]) -> usize
    requires { Tellable table.now held.now sets.now nodes }
    ensures { result ≡ length (told_from table.now (take nodes held.now) sets.now 0 (8 * nodes)) }
{
    let mut n = 0;
    for x in 0..8 * nodes {
        if is_declared(table, held, nodes, x) {
            n += SET_LINE;
        }
    }
    n
}

// 15.10: dumps the held tree's sets into the text; where it is refused, at last by 15 for the text, nothing is written.
pub fn dump(
    table: &[u64; 2657],
    record: Record,
    held: &[u8],
    held_owns: &[u64],
    sets: &[u64],
    earlier: &[u64],
    text: &mut [u8],
) -> Result<usize, Refusal>
    ensures { DumpSays table.now (lent held.now held_owns.now sets.now earlier.now) «record» text.old result text.new }
{
    judge_look(table, record, held, held_owns, sets, earlier)?;
    let nodes = record.nodes;
    if text.len() < sets_length(table, held, nodes, sets) {
        return Err(Refusal::Buffer);
    }
    Ok(put_sets(table, held, nodes, sets, text, 0))
}

// The wiring of a sound tree and its ranked circles.
ghost use Rattle.wire.specs.Inner.Turns.{Held};
ghost use Rattle.wire_plan.specs.Inner.Prepared.{Scratch, Prepared};

use circles::SLOTS;
use circles_rank::rank_circles;
use table::WORDS;
use tree::{NODES, spans};
use wire::wire_tree;

// Fills the arrays of the wiring and of the ranked circles of a sound tree, and says how many circles there are: once for all the steps of an update.
pub fn prepare<'a>(
    table: &'a [u64; WORDS],
    tree: &'a [u8],
    a: &mut [u16; SLOTS],
    b: &mut [u16; SLOTS],
    left: &mut [u16],
    rule: &mut [u16],
    label: &mut [u16],
    members: &mut [u16],
    ends: &mut [u16],
) -> usize
    requires held { Held table.now tree.now }
    requires scratch { Scratch a.old b.old left.old rule.old label.old members.old ends.old }
    ensures { Prepared table.now tree.now a.old b.old left.old rule.old label.old members.old ends.old a.new b.new left.new rule.new label.new members.new ends.new result }
{
    let mut places = [0u16; NODES];
    spans(table, tree, &mut places);
    wire_tree(table, tree, &places, a, b, left, rule);
    let n = 8 * tree.len();
    rank_circles(n, a, b, label, members, ends)
}

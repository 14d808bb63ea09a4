// What a load and a replacement make of the lent memory: the held tree's productions and own sets, its attribute sets and their before values.
ghost use Rattle.std.specs.Prelude.{◌≡◌, ◌+◌, ◌*◌, ◌<◌, ◌≤◌, length, take, replicate};
ghost use Rattle.table.specs.Limits.{Limits};
ghost use Rattle.tree.specs.Points.{nodes_row};
ghost use Rattle.tree.specs.Handed.{named_points, cut_row};
ghost use Rattle.update.specs.Memories.{lent, filled_with, filled, replaced_row};
ghost use Rattle.tree.specs.Numbered.{Numbered};
ghost use Rattle.update_place.specs.Inner.Cleared.{cleared};
ghost use Rattle.update_place.specs.Inner.Splicing.{Splicing};
ghost use Rattle.update_place.specs.Inner.Pieces.{spliced_by, carried_by, Fitting, Apart};
ghost use Rattle.circles.specs.Marks.{slots_most};
ghost use Rattle.tree.specs.Tree.{nodes_most};

use crate::copying::{clear, copy, write};
use table::{SETS_EACH, WORDS, inherited_of, left_of, synthesized_of};
use tree::{Cuts, NODES, Places};

// `new`, be it nodes or sets, and zeros behind.
fn fill<T: Copy>(held: &mut [T], zero: T, new: &[T])
    requires { length new.now ≤ length held.old }
    ensures { held.new ≡ filled_with zero new.now held.old }
{
    let count = new.len();
    write(held, 0, new);
    let behind = held.len() - count;
    clear(held, zero, count, behind);
}

// A load's tree is placed, and every set is empty: the four fields of `loaded`.
#[tactic(auto, unfolding(update::specs::Memories::filled))]
pub fn place_tree(
    productions: &[u8],
    owns: &[u64],
    held: &mut [u8],
    held_owns: &mut [u64],
    sets: &mut [u64],
    earlier: &mut [u64],
)
    requires productions_in_bounds { length productions.now ≤ length held.old }
    requires owns_len { length owns.now ≡ length productions.now }
    requires owns_in_bounds { length owns.now ≤ length held_owns.old }
    ensures held_after { held.new ≡ filled productions.now held.old }
    ensures held_owns_after { held_owns.new ≡ filled owns.now held_owns.old }
    ensures sets_after { sets.new ≡ replicate (length sets.old) 0 }
    ensures earlier_after { earlier.new ≡ replicate (length earlier.old) 0 }
{
    fill(held, 0, productions);
    fill(held_owns, 0, owns);
    sets.fill(0);
    earlier.fill(0);
}

// The nodes of the tree as it would be, or their own sets, front to back: what stays up to the next point, then its part; zeros behind. Gives their count.
// A tree on the way from one point to the next might not fit, so no part is placed in `held` itself.
#[tactic(auto, using(crate::proofs::Laying::splicings))]
pub fn splice<T: Copy>(
    held: &[T],
    nodes: usize,
    cuts: Cuts,
    new: &[T],
    zero: T,
    out: &mut [T],
) -> usize
    requires nodes_in_bounds { nodes ≤ length held.now }
    requires fitting { Fitting cuts nodes (length new.now) }
    requires row_in_bounds { length (spliced_by cuts new.now (take nodes held.now)) ≤ length out.old }
    ensures value { result ≡ length (spliced_by cuts new.now (take nodes held.now)) }
    ensures out_after { out.new ≡ filled_with zero (spliced_by cuts new.now (take nodes held.now)) out.old }
{
    let mut at = 0;
    let mut from = 0;
    let mut to = 0;
    for c in &cuts.cuts[..cuts.count] {
        let stays = c.node - at;
        copy(out, to, held, at, stays);
        copy(out, to + stays, new, from, c.count);
        at = c.node + c.old;
        from += c.count;
        to += stays + c.count;
    }
    let stays = nodes - at;
    copy(out, to, held, at, stays);
    let end = to + stays;
    let behind = out.len() - end;
    clear(out, zero, end, behind);
    end
}

// Each node's attribute sets go with it, eight to a node, into `out`: a point keeps its own, the rest of its part starts empty; zeros behind.
fn carry_sets(sets: &[u64], nodes: usize, cuts: Cuts, out: &mut [u64])
    requires nodes_in_bounds { 8 * nodes ≤ length sets.now }
    requires apart { Apart cuts nodes }
    requires row_in_bounds { length (carried_by cuts (take (8 * nodes) sets.now)) ≤ length out.old }
    ensures { out.new ≡ filled (carried_by cuts (take (8 * nodes) sets.now)) out.old }
{
    let mut at = 0;
    let mut to = 0;
    for c in &cuts.cuts[..cuts.count] {
        let stays = 8 * (c.node + 1 - at);
        let fresh = 8 * (c.count - 1);
        copy(out, to, sets, 8 * at, stays);
        clear(out, 0, to + stays, fresh);
        at = c.node + c.old;
        to += stays + fresh;
    }
    let stays = 8 * (nodes - at);
    copy(out, to, sets, 8 * at, stays);
    let end = to + stays;
    let behind = out.len() - end;
    clear(out, 0, end, behind);
}

// Empties the undeclared slots of one node: its synthesized sets stand from 0 on, its inherited ones from 4 on.
#[tactic(auto, using(crate::proofs::Slots::node_of_table))]
fn clear_node(table: &[u64; WORDS], nodes: &[u8], at: usize, sets: &mut [u64])
    requires limits { Limits table.now }
    requires numbered { Numbered table.now nodes.now }
    requires at_in_bounds { at < length nodes.now }
    requires nodes_in_bounds { 8 * length nodes.now ≤ length sets.old }
    ensures { sets.new ≡ cleared table.now nodes.now at (at + 1) sets.old }
{
    let symbol = left_of(table, usize::from(nodes[at]));
    let a = synthesized_of(table, symbol);
    let b = inherited_of(table, symbol);
    let first = 8 * at;
    clear(sets, 0, first + a, SETS_EACH - a);
    clear(sets, 0, first + SETS_EACH + b, SETS_EACH - b);
}

// Empties the undeclared slots of every node.
#[tactic(auto, using(crate::proofs::Slots::clearing))]
fn clear_undeclared(table: &[u64; WORDS], nodes: &[u8], sets: &mut [u64])
    requires limits { Limits table.now }
    requires numbered { Numbered table.now nodes.now }
    requires nodes_in_bounds { 8 * length nodes.now ≤ length sets.old }
    ensures { sets.new ≡ cleared table.now nodes.now 0 (length nodes.now) sets.old }
{
    for at in 0..nodes.len() {
        clear_node(table, nodes, at, sets);
    }
}

// The nodes of the tree as it will be, or their own sets, in the place of what is held. Gives their count.
fn place<T: Copy>(nodes: usize, cuts: Cuts, new: &[T], zero: T, held: &mut [T]) -> usize
    requires nodes_le_nodes_most { (nodes ≤ nodes_most) × (nodes_most ≤ length held.old) }
    requires fitting { Fitting cuts nodes (length new.now) }
    requires row_bound { length (spliced_by cuts new.now (take nodes held.old)) ≤ nodes_most }
    ensures value { result ≡ length (spliced_by cuts new.now (take nodes held.old)) }
    ensures few { result ≤ nodes_most }
    ensures held_after { held.new ≡ filled_with zero (spliced_by cuts new.now (take nodes held.old)) held.old }
{
    let mut tree = [zero; NODES];
    let count = splice(held, nodes, cuts, new, zero, &mut tree);
    fill(held, zero, &tree[..count]);
    count
}

// The attribute sets of the new tree: `nodes` is the count of the tree as it was.
fn arrange_sets(
    table: &[u64; WORDS],
    tree: &[u8],
    nodes: usize,
    cuts: Cuts,
    sets: &[u64],
    out: &mut [u64],
)
    requires limits { Limits table.now }
    requires numbered { Numbered table.now tree.now }
    requires nodes_in_bounds { (8 * nodes ≤ length sets.now) × (8 * length tree.now ≤ length out.old) }
    requires apart { Apart cuts nodes }
    requires row_in_bounds { length (carried_by cuts (take (8 * nodes) sets.now)) ≤ length out.old }
    ensures { out.new ≡ cleared table.now tree.now 0 (length tree.now) (filled (carried_by cuts (take (8 * nodes) sets.now)) out.old) }
{
    carry_sets(sets, nodes, cuts, out);
    clear_undeclared(table, tree, out);
}

// Each point's subtree makes way for its new part, all in one go: the memory of `replaced_row`. Gives the new tree's count.
// The values are arranged in `before`, whose old contents are given up, so that no second array is needed.
pub fn place_row(
    table: &[u64; WORDS],
    nodes: usize,
    points: Places,
    cuts: Cuts,
    new: &[u8],
    new_owns: &[u64],
    held: &mut [u8],
    held_owns: &mut [u64],
    sets: &mut [u64],
    earlier: &mut [u64],
) -> usize
    requires splicing { Splicing table.now (take nodes held.old) (take nodes held_owns.old) points cuts new.now new_owns.now }
    requires nodes_le_nodes_most { (nodes ≤ nodes_most) × (nodes_most ≤ length held.old) × (nodes_most ≤ length held_owns.old) }
    requires slots_most_in_bounds { (slots_most ≤ length sets.old) × (slots_most ≤ length earlier.old) }
    ensures value { result ≡ length (nodes_row table.now (take nodes held.old) (cut_row (named_points points) new.now new_owns.now)) }
    ensures lent_after { lent held.new held_owns.new sets.new earlier.new ≡ replaced_row table.now (lent held.old held_owns.old sets.old earlier.old) nodes (cut_row (named_points points) new.now new_owns.now) }
{
    let count = place(nodes, cuts, new, 0, held);
    place(nodes, cuts, new_owns, 0, held_owns);
    arrange_sets(table, &held[..count], nodes, cuts, sets, earlier);
    fill(sets, 0, &earlier[..8 * count]);
    count
}

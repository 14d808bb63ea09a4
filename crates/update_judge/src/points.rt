// The points of a replacement: what a call is refused by while they are looked at, and the cuts that they make in the held tree.
ghost use Rattle.std.specs.Prelude.{◌≡◌, true, false, [], ◌∷◌, ◌+◌, ◌-◌, ◌<◌, ◌≤◌, min, leb, ltb, length, get_or, take, drop};
ghost use Rattle.std.specs.List.{list_any};
ghost use Rattle.refusal.specs.Numbers.{verdict_of};
ghost use Rattle.table.specs.Limits.{Limits};
ghost use Rattle.table.specs.Words.{left_of};
ghost use Rattle.tree.specs.Tree.{nodes_most, judge_nodes};
ghost use Rattle.tree.specs.Handed.{named_points, bare_row, handed_row, cut_of, Cutting};
ghost use Rattle.tree.specs.Numbered.{Numbered};
ghost use Rattle.update.specs.Refusals.{missing, asked_order};
ghost use Rattle.update_judge.specs.Inner.Cuts.{named_cuts, meeting, leaving, coming, judge_cuts, Small, Aimed};
ghost use Rattle.update_judge.specs.Order.{named_order, fit_order};
ghost use Rattle.refusal.specs.Orders.{refusal_by};

use crate::trees::part_of;
use refusal::Refusal;
use table::{WORDS, left_of};
use tree::{Cut, Cuts, Places, Point, judge_nodes};
use update::{Record, is_open};

// 10, 22.
#[tactic(auto, using(crate::proofs::Rows::asking))]
pub fn judge_asked(record: Record, points: Places) -> Result<(), Refusal>
    ensures { verdict_of result ≡ refusal_by (asked_order «record» (bare_row (named_points points))) }
{
    if is_open(record.open) {
        return Err(Refusal::Busy);
    }
    if points.count == 0 || Record::POINTS < points.count {
        return Err(Refusal::Points);
    }
    Ok(())
}

// Whether a point isn't below the node count.
fn is_missing(points: Places, nodes: usize) -> bool
    requires { points.count ≤ 8 }
    ensures { result ≡ list_any (λ point. leb nodes point.node) (take points.count points.points) }
{
    points.points[..points.count]
        .iter()
        .any(|point| nodes <= point.node)
}

// What a replacement is refused by where a tree that is held is sound, before its subtrees are counted: 10, 22, 16, 9.
#[tactic(auto, using(crate::proofs::Rows::naming))]
pub fn judge_named(record: Record, points: Places) -> Result<(), Refusal>
    ensures { verdict_of result ≡ refusal_by (named_order «record» (bare_row (named_points points))) }
{
    judge_asked(record, points)?;
    if !record.held {
        return Err(Refusal::Absent);
    }
    if is_missing(points, record.nodes) {
        return Err(Refusal::Point);
    }
    Ok(())
}

// A point's cut: its subtree is counted.
fn cut_of(table: &[u64; WORDS], tree: &[u8], point: Point) -> Cut
    requires limits { Limits table.now }
    requires numbered { Numbered table.now tree.now }
    requires node_in_bounds { point.node < length tree.now }
    requires tree_bound { length tree.now ≤ nodes_most }
    ensures { result ≡ cut_of table.now tree.now point }
{
    Cut {
        node: point.node,
        old: part_of(table, tree, point.node),
        count: point.count,
    }
}

// The cuts of all the points.
pub fn cuts_of(table: &[u64; WORDS], tree: &[u8], points: Places) -> Cuts
    requires limits { Limits table.now }
    requires numbered { Numbered table.now tree.now }
    requires tree_len_bound { (length tree.now ≤ nodes_most) × (points.count ≤ 8) × (missing (length tree.now) (bare_row (named_points points)) ≡ false) }
    ensures { Cutting table.now tree.now (named_points points) result }
{
    let none = Cut {
        node: 0,
        old: 0,
        count: 0,
    };
    let mut cuts = [none; Record::POINTS];
    for (i, point) in points.points[..points.count].iter().enumerate() {
        cuts[i] = cut_of(table, tree, *point);
    }
    Cuts {
        count: points.count,
        cuts,
    }
}

// 23: whether a point lies before another that is named before it, or inside its old part.
#[tactic(auto, using(crate::proofs::Walks::meetings))]
fn is_meeting(cuts: Cuts) -> bool
    requires { Small nodes_most cuts }
    ensures { result ≡ meeting 0 (named_cuts cuts) }
{
    let mut from = 0;
    for cut in &cuts.cuts[..cuts.count] {
        if cut.node < from {
            return true;
        }
        from = cut.node + cut.old;
    }
    false
}

// How many nodes make way.
#[tactic(auto, using(crate::proofs::Walks::leavings))]
fn count_leaving(cuts: Cuts) -> usize
    requires { Small nodes_most cuts }
    ensures { result ≡ leaving (named_cuts cuts) }
{
    let mut sum = 0;
    for cut in &cuts.cuts[..cuts.count] {
        sum += cut.old;
    }
    sum
}

// More nodes than a tree may have.
const TOO_MANY: usize = Record::NODES + 1;

// How many nodes come. Above 512 it says 513, since a caller may announce more than any number holds.
#[tactic(auto, using(crate::proofs::Walks::comings))]
fn count_coming(cuts: Cuts) -> usize
    requires { Small nodes_most cuts }
    ensures { result ≡ min 513 (coming (named_cuts cuts)) }
{
    let mut sum = 0;
    for cut in &cuts.cuts[..cuts.count] {
        if Record::NODES - sum < cut.count {
            return TOO_MANY;
        }
        sum += cut.count;
    }
    sum
}

// 8: whether the tree with all the parts in their places would pass 512 nodes.
fn is_passing(nodes: usize, cuts: Cuts) -> bool
    requires small { Small nodes_most cuts }
    requires cuts_bound { (leaving (named_cuts cuts) ≤ nodes) × (nodes ≤ nodes_most) }
    ensures { result ≡ ltb nodes_most (nodes - leaving (named_cuts cuts) + coming (named_cuts cuts)) }
{
    let staying = nodes - count_leaving(cuts);
    Record::NODES - staying < count_coming(cuts)
}

// The part of one cut, which begins at `at`: its root is to have the symbol of the node that it replaces.
fn judge_cut(
    table: &[u64; WORDS],
    tree: &[u8],
    cut: Cut,
    new: &[u8],
    at: usize,
) -> Result<(), Refusal>
    requires limits { Limits table.now }
    requires numbered { Numbered table.now tree.now }
    requires node_in_bounds { cut.node < length tree.now }
    requires part_in_bounds { at + cut.count ≤ length new.now }
    ensures { verdict_of result ≡ judge_nodes table.now (take cut.count (drop at new.now)) (left_of table.now (get_or tree.now cut.node 0) ∷ []) }
{
    let symbol = left_of(table, usize::from(tree[cut.node]));
    judge_nodes(table, &new[at..at + cut.count], symbol)
}

// The parts in their order.
#[tactic(auto, using(crate::proofs::Walks::judgings))]
fn judge_parts(table: &[u64; WORDS], tree: &[u8], cuts: Cuts, new: &[u8]) -> Result<(), Refusal>
    requires limits { Limits table.now }
    requires numbered { Numbered table.now tree.now }
    requires small { Small (length tree.now) cuts }
    requires cuts_in_bounds { coming (named_cuts cuts) ≤ length new.now }
    ensures { verdict_of result ≡ judge_cuts table.now tree.now (named_cuts cuts) new.now }
{
    let mut at = 0;
    for cut in &cuts.cuts[..cuts.count] {
        judge_cut(table, tree, *cut, new, at)?;
        at += cut.count;
    }
    Ok(())
}

// What a replacement is refused by where its points are nodes of a sound tree: 23, 8, the parts' 6/7. Where nodes or own sets are missing or left over it is 7 as
// the first part's number.
#[tactic(auto, using(crate::proofs::Rows::fitting))]
pub fn judge_row(
    table: &[u64; WORDS],
    tree: &[u8],
    points: Places,
    cuts: Cuts,
    new: &[u8],
    new_owns: &[u64],
) -> Result<(), Refusal>
    requires { Aimed table.now tree.now points cuts }
    ensures { verdict_of result ≡ refusal_by (fit_order table.now tree.now (length tree.now) (handed_row (named_points points) new.now new_owns.now)) }
{
    if is_meeting(cuts) {
        return Err(Refusal::Overlap);
    }
    if is_passing(tree.len(), cuts) {
        return Err(Refusal::Size);
    }
    let count = count_coming(cuts);
    if new.len() != count || new_owns.len() != count {
        return Err(Refusal::Shape);
    }
    judge_parts(table, tree, cuts, new)
}

// Trees in preorder: the judgement 6 and 7, and where each subtree ends.
#![tactic(auto)]

ghost use Rattle.std.specs.Prelude.{◌≡◌, [], ◌∷◌, suc, ◌+◌, ◌-◌, ◌<◌, ◌≤◌, length, take};
ghost use Rattle.refusal.specs.Numbers.{verdict_of};
ghost use Rattle.table.specs.Words.{production_count, children};
ghost use Rattle.table.specs.Limits.{Limits};
ghost use Rattle.tree.specs.Tree.{nodes_most, judge_nodes, span_end};
ghost use Rattle.tree.specs.Refusals.{JudgeTreeSays};
ghost use Rattle.tree.specs.Inner.Says.{Says};
ghost use Rattle.tree.specs.Inner.Spans.{Numbers, Ended, Spans};

use refusal::Refusal;
use table::{WORDS, child_count, child_of, left_of, production_count};
use table_judge::judge_table;

// So many nodes a tree has at the most.
pub const NODES: usize = 512;

// A point of a replacement, by its number in a tree, and its new part's count.
#[derive(Clone, Copy)]
pub struct Point {
    pub node: usize,
    pub count: usize,
}

// The points that a call names, by their numbers in the tree as it was: the first `count` of them.
#[derive(Clone, Copy)]
pub struct Places {
    pub count: usize,
    pub points: [Point; 8],
}

// A point of the tree as it was, with the count of its subtree, which makes way, and of its new part.
#[derive(Clone, Copy)]
pub struct Cut {
    pub node: usize,
    pub old: usize,
    pub count: usize,
}

// The cuts at the points that a call names: the first `count` of them.
#[derive(Clone, Copy)]
pub struct Cuts {
    pub count: usize,
    pub cuts: [Cut; 8],
}

// A production number as an index.
pub fn index(x: u8) -> usize
    ensures { (result ≡ x) × (result < 256) }
{
    x as usize
}

// Reads one subtree of `symbol` at `at`: a node, and behind it the row of its children. Where what it read ends, or what is wrong there.
#[cycle(row_subtree)]
fn subtree(
    table: &[u64; WORDS],
    productions: &[u8],
    at: usize,
    symbol: usize,
) -> Result<usize, Refusal>
    requires limits { Limits table.now }
    requires at_in_bounds { at ≤ length productions.now }
    ensures { Says table.now productions.now at (suc at) (symbol ∷ []) result }
{
    if productions.len() <= at {
        return Err(Refusal::Shape);
    }
    let p = usize::from(productions[at]);
    if production_count(table) <= p {
        return Err(Refusal::Production);
    }
    if left_of(table, p) != symbol {
        return Err(Refusal::Shape);
    }
    row(table, productions, at + 1, p)
}

// Reads the row of a production's children, each by the reading of a subtree. What is unread falls from call to call.
#[cycle(row_subtree)]
fn row(
    table: &[u64; WORDS],
    productions: &[u8],
    at: usize,
    production: usize,
) -> Result<usize, Refusal>
    requires limits { Limits table.now }
    requires at_in_bounds { at ≤ length productions.now }
    requires production_bound { production < production_count table.now }
    ensures { Says table.now productions.now at at (children table.now production) result }
{
    let mut next = at;
    for child in 0..child_count(table, production) {
        next = subtree(table, productions, next, child_of(table, production, child))?;
    }
    Ok(next)
}

// Judges nodes over a judged table: whether they are one subtree of `symbol`, and nothing behind it.
pub fn judge_nodes(table: &[u64; WORDS], productions: &[u8], symbol: usize) -> Result<(), Refusal>
    requires { Limits table.now }
    ensures { verdict_of result ≡ judge_nodes table.now productions.now (symbol ∷ []) }
{
    let next = subtree(table, productions, 0, symbol)?;
    if productions.len() <= next {
        return Ok(());
    }
    let over = usize::from(productions[next]);
    if production_count(table) <= over {
        Err(Refusal::Production)
    } else {
        Err(Refusal::Shape)
    }
}

// The same of the first `n` nodes of a longer slice.
pub fn judge_held(table: &[u64; WORDS], held: &[u8], n: usize, symbol: usize) -> Result<(), Refusal>
    requires limits { Limits table.now }
    requires n_in_bounds { n ≤ length held.now }
    ensures { verdict_of result ≡ judge_nodes table.now (take n held.now) (symbol ∷ []) }
{
    judge_nodes(table, &held[..n], symbol)
}

// Judges a table and a tree that is handed in, whose root is to be of symbol 0.
#[tactic(auto, using(crate::proofs::Handed::handing))]
pub fn judge_tree(table: &[u64; WORDS], productions: &[u8], owns: &[u64]) -> Result<(), Refusal>
    ensures { JudgeTreeSays table.now productions.now owns.now result }
{
    judge_table(table)?;
    if NODES < productions.len() {
        return Err(Refusal::Size);
    }
    if productions.len() != owns.len() {
        return Err(Refusal::Shape);
    }
    judge_nodes(table, productions, 0)
}

// The end of node `at`'s subtree, where `ends` has those of the nodes behind it: from child to child.
#[tactic(auto, using(crate::proofs::Size::turn_first, crate::proofs::Size::turn_next, crate::proofs::Size::turn_last))]
fn end_of(table: &[u64; WORDS], productions: &[u8], ends: &[u16], at: usize) -> usize
    requires at_in_bounds { at < length productions.now }
    requires productions_len_bound { (length productions.now ≤ nodes_most) × (length productions.now ≤ length ends.now) }
    requires numbers { Numbers productions.now }
    requires ended { Ended table.now productions.now (at + 1) ends.now }
    ensures { result ≡ span_end table.now productions.now at }
{
    let p = usize::from(productions[at]);
    let mut behind = at + 1;
    for _ in 0..child_count(table, p) {
        if productions.len() <= behind {
            return behind;
        }
        behind = usize::from(ends[behind]);
    }
    behind
}

// Writes the end of each node's subtree, from the last node to the first: each node looks at its children alone.
#[tactic(auto, using(crate::proofs::Size::end_le))]
pub fn spans(table: &[u64; WORDS], productions: &[u8], ends: &mut [u16])
    requires productions_len_bound { (length productions.now ≤ nodes_most) × (length productions.now ≤ length ends.old) }
    requires numbers { Numbers productions.now }
    ensures { Spans table.now productions.now ends.old ends.new }
{
    for at in (0..productions.len()).rev() {
        ends[at] = end_of(table, productions, ends, at) as u16;
    }
}

// The held tree as the calls look at it: its nodes, their declared instances, and the count of a subtree.
ghost use Rattle.std.specs.Prelude.{◌≡◌, ◌<◌, ◌≤◌, length, take};
ghost use Rattle.table.specs.Limits.{Limits};
ghost use Rattle.tree.specs.Replace.{part};
ghost use Rattle.tree.specs.Numbered.{Numbered};
ghost use Rattle.wire.specs.Instances.{declared};
ghost use Rattle.tree.specs.Tree.{nodes_most};

use table::{WORDS, child_count, has_set, left_of};

// Whether an instance is declared in the tree of the first `nodes` nodes.
#[tactic(auto, using(crate::proofs::Parts::declaring), unfolding(wire::specs::Instances::declared))]
pub fn is_declared(table: &[u64; WORDS], held: &[u8], nodes: usize, instance: usize) -> bool
    requires limits { Limits table.now }
    requires numbered { Numbered table.now (take nodes held.now) }
    requires nodes_in_bounds { nodes ≤ length held.now }
    ensures { result ≡ declared table.now (take nodes held.now) instance }
{
    let node = instance / 8;
    node < nodes && has_set(table, left_of(table, usize::from(held[node])), instance % 8)
}

// How many nodes the subtree at `point` has: from node to node, with the count of subtrees still to come.
#[tactic(auto, using(crate::proofs::Parts::counting), unfolding(tree::specs::Replace::part))]
pub fn part_of(table: &[u64; WORDS], tree: &[u8], point: usize) -> usize
    requires limits { Limits table.now }
    requires numbered { Numbered table.now tree.now }
    requires point_in_bounds { (point < length tree.now) × (length tree.now ≤ nodes_most) }
    ensures { result ≡ part table.now tree.now point }
{
    let below = &tree[point..];
    let mut left = 1;
    for (count, production) in below.iter().enumerate() {
        if left == 0 {
            return count;
        }
        left = left - 1 + child_count(table, usize::from(*production));
    }
    below.len()
}

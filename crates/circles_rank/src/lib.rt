// The ranks of the circles, over two argument arrays and nothing else.
#![tactic(auto)]

ghost use Rattle.std.specs.Prelude.{◌+◌, ◌≤◌, length};
ghost use Rattle.circles.specs.Arrays.{Given, graph_of, Laid};

mod lent;
mod sizes;

use crate::sizes::rank_within;
use circles::Graph;

// The circles of n slots, ranked: the label of each slot, the members circle by circle, where each circle ends, and how many there are.
// a[x] is 65534 where x is not declared; an argument past the slots is none. The memory that it fills follows n.
pub fn rank_circles(
    n: usize,
    a: &[u16; 4096],
    b: &[u16; 4096],
    label: &mut [u16],
    members: &mut [u16],
    ends: &mut [u16],
) -> usize
    requires { Given n a.now b.now × (n ≤ length label.old) × (n ≤ length members.old) × (n + 1 ≤ length ends.old) }
    ensures { Laid (graph_of n a.now b.now) label.old members.old ends.old label.new members.new ends.new result }
{
    let g = Graph { n, a, b };
    if n <= 512 {
        rank_within::<512, 1024>(g, label, members, ends)
    } else if n <= 1024 {
        rank_within::<1024, 2048>(g, label, members, ends)
    } else if n <= 2048 {
        rank_within::<2048, 4096>(g, label, members, ends)
    } else {
        rank_within::<4096, 8192>(g, label, members, ends)
    }
}

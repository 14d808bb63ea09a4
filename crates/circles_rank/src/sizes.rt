// The memory of a ranking, by the number of slots.
ghost use Rattle.std.specs.Prelude.{◌+◌, ◌*◌, ◌≤◌, length};
ghost use Rattle.circles.specs.Arrays.{Given, graph_of, Laid};

use crate::lent::rank_lent;
use circles::Graph;
use circles_find::{UNMARKED, UNSEEN};

// The ranking in memory of its own for so many slots, whose arguments have two places each.
pub fn rank_within<const SLOTS: usize, const PLACES: usize>(
    g: Graph,
    label: &mut [u16],
    members: &mut [u16],
    ends: &mut [u16],
) -> usize
    requires { Given g.n g.a.now g.b.now × (g.n ≤ length label.old) × (g.n ≤ length members.old) × (g.n + 1 ≤ length ends.old) × (g.n ≤ SLOTS) × (2 * SLOTS ≤ PLACES) × (PLACES ≤ 8192) }
    ensures { Laid (graph_of g.entry.n g.entry.a.now g.entry.b.now) label.old members.old ends.old label.new members.new ends.new result }
{
    let mut first = [UNMARKED; SLOTS];
    let mut next = [0u16; PLACES];
    let mut slots = [0u16; SLOTS];
    let mut queue = [0u16; SLOTS];
    let mut after = [0u16; SLOTS];
    let mut stage = [UNSEEN; SLOTS];
    let mut rep = [UNMARKED; SLOTS];
    let mut seen = [UNMARKED; SLOTS];
    let mut low = [UNMARKED; SLOTS];
    let mut taken = [0u16; SLOTS];
    rank_lent(
        g, &mut first, &mut next, &mut slots, &mut queue, &mut after, &mut stage, &mut rep,
        &mut seen, &mut low, &mut taken, label, members, ends,
    )
}

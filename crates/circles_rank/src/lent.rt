// The ranking in memory that is lent to it.
ghost use Rattle.std.specs.Prelude.{◌+◌, ◌≤◌, length};
ghost use Rattle.circles.specs.Arrays.{Given, graph_of, Laid};
ghost use Rattle.circles_rank.specs.Inner.Spare.{Spare};

use circles::Graph;
use circles_find::{Readers, circle_labels};
use circles_order::{Labels, rank_labelled};

// Labels, then ranks. The queue of the searches becomes the row of cursors.
pub fn rank_lent(
    g: Graph,
    first: &mut [u16],
    next: &mut [u16],
    slots: &mut [u16],
    queue: &mut [u16],
    after: &mut [u16],
    stage: &mut [u16],
    rep: &mut [u16],
    seen: &mut [u16],
    low: &mut [u16],
    taken: &mut [u16],
    label: &mut [u16],
    members: &mut [u16],
    ends: &mut [u16],
) -> usize
    requires given { Given g.n g.a.now g.b.now × (g.n ≤ length label.old) × (g.n ≤ length members.old) × (g.n + 1 ≤ length ends.old) }
    requires spare { Spare g.n first.old next.old slots.old queue.old after.old stage.old rep.old seen.old low.old taken.old }
    ensures { Laid (graph_of g.entry.n g.entry.a.now g.entry.b.now) label.old members.old ends.old label.new members.new ends.new result }
{
    let count = circle_labels(
        g, first, next, slots, queue, stage, rep, seen, low, label, after,
    );
    rank_labelled(
        g,
        Readers { first, next },
        Labels { label, after },
        &slots[..count],
        taken,
        queue,
        members,
        ends,
    )
}

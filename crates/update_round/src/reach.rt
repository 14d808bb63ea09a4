// What the points of an update reach in the tree: the instances that they sow, and the nodes of their new parts.
ghost use Rattle.std.specs.Prelude.{◌≡◌, ◌≤◌};
ghost use Rattle.tree.specs.Handed.{places_from};
ghost use Rattle.tree.specs.Points.{is_old, survives_at};
ghost use Rattle.tree.specs.Tree.{nodes_most};
ghost use Rattle.wire.specs.Points.{sown_at};
ghost use Rattle.wire.specs.Replaced.{sown_by};
ghost use Rattle.update.specs.Records.{points_of};
ghost use Rattle.update.specs.Within.{WithinLimits};

use table::SETS_EACH;
use tree::Point;
use update::Record;

// The first points of a record's places.
#[tactic(auto, using(crate::proofs::Points::places_taken))]
fn first_of(points: &[Point; 8], count: usize) -> &[Point]
    requires { count ≤ 8 }
    ensures { result.now ≡ places_from 0 count points.now }
{
    &points[..count]
}

// Whether the point sows the instance x: its own synthesized sets and all sets below it.
#[tactic(auto, unfolding(wire::specs::Replaced::sown_by))]
fn sows(q: Point, x: usize) -> bool
    requires { (q.node ≤ nodes_most) × (q.count ≤ nodes_most) }
    ensures { result ≡ sown_by q.node q.count x }
{
    let node = x / 8;
    if node == q.node {
        x % 8 < SETS_EACH
    } else {
        q.node < node && node < q.node + q.count
    }
}

// Whether one of the update's points sows it.
pub fn some_sows(r: &Record, x: usize) -> bool
    requires { WithinLimits r.now }
    ensures { result ≡ sown_at (points_of r.now) x }
{
    first_of(&r.points, r.count).iter().any(|q| sows(*q, x))
}

// Whether the point leaves the node in the tree: its new part stands below it.
#[tactic(auto, unfolding(tree::specs::Points::survives_at))]
fn spares(q: Point, node: usize) -> bool
    requires { (q.node ≤ nodes_most) × (q.count ≤ nodes_most) }
    ensures { result ≡ survives_at q node }
{
    node <= q.node || q.node + q.count <= node
}

// Whether all of the update's points leave it there.
pub fn all_spare(r: &Record, node: usize) -> bool
    requires { WithinLimits r.now }
    ensures { result ≡ is_old (points_of r.now) node }
{
    first_of(&r.points, r.count)
        .iter()
        .all(|q| spares(*q, node))
}

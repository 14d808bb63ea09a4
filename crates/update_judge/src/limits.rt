// 11: whether the record that a caller lends is beyond its limits.
ghost use Rattle.std.specs.Prelude.{◌≡◌, ◌||◌, ◌+◌, ◌≤◌, ◌<◌, max, ltb, leb};
ghost use Rattle.std.specs.List.{list_any};
ghost use Rattle.update.specs.Records.{large, astray, points_of, beyond};
ghost use Rattle.update_judge.specs.Inner.Limits.{Numbers, over};
ghost use Rattle.tree.specs.Tree.{nodes_most};

use tree::Point;
use update::{Record, is_open};

fn is_large(point: Point) -> bool
    ensures { result ≡ large point }
{
    Record::NODES < point.node || Record::NODES < point.count
}

// Whether one of the eight places has a number beyond its limit, used or not.
fn has_large(record: Record) -> bool
    ensures { result ≡ list_any large «record».points }
{
    record.points.iter().any(|point| is_large(*point))
}

// Whether a point lies before `from`, or it or its part outside a tree of so many nodes.
fn is_outside(point: Point, nodes: usize, from: usize) -> bool
    requires { (point.node ≤ nodes_most) × (point.count ≤ nodes_most) }
    ensures { result ≡ (ltb point.node from || leb nodes point.node || ltb nodes (point.node + point.count)) }
{
    point.node < from || nodes <= point.node || nodes < point.node + point.count
}

// The first place behind a point's part; a part of no nodes still has its point.
fn behind(point: Point) -> usize
    requires { (point.node ≤ nodes_most) × (point.count ≤ nodes_most) }
    ensures { result ≡ point.node + max 1 point.count }
{
    point.node + point.count.max(1)
}

// Whether the record's points don't rise, lie outside the tree or in one another's parts.
#[tactic(auto, using(crate::proofs::Walks::straying))]
fn is_astray(record: Record) -> bool
    requires { Numbers «record» }
    ensures { result ≡ astray «record».nodes 0 (points_of «record») }
{
    let mut from = 0;
    for point in &record.points[..record.count] {
        if is_outside(*point, record.nodes, from) {
            return true;
        }
        from = behind(*point);
    }
    false
}

// Whether a number of the record is above its limit, one of its points' too.
fn is_over(record: Record) -> bool
    ensures { result ≡ over «record» }
{
    Record::NODES < record.nodes
        || Record::POINTS < record.count
        || has_large(record)
        || Record::CIRCLES < record.rank as u64
        || Record::ROUND < record.round
        || Record::CIRCLES < record.circles
        || Record::EVALUATIONS < record.evaluations
}

// Whether a field is beyond its limit, or the points of an open record are none or astray.
#[tactic(auto, using(crate::proofs::Tests::beyond_is))]
pub fn is_beyond(record: Record) -> bool
    ensures { result ≡ beyond «record» }
{
    is_over(record) || is_open(record.open) && (record.count == 0 || is_astray(record))
}

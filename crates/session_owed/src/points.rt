// The words that keep the points of a command while its lines come: behind the own sets of its nodes, a word a point.
ghost use Rattle.std.specs.Prelude.{◌≡◌, ◌≤◌, length};
ghost use Rattle.tree.specs.Handed.{announced};
ghost use Rattle.session_owed.specs.Owed.{owns_kept, word_point, points_in, named_in};
ghost use Rattle.session_owed.specs.Hearing.{point_kept};

use std::array;
use tree::Point;

// So many nodes of a command are kept, one more than a tree may have; their own sets stand before the points' words.
pub const PARTS: usize = 513;

// So many points have a word each.
const POINTS: usize = 8;

// So many own sets and words of points there are.
pub const PART_OWNS: usize = PARTS + POINTS;

// The word of the eighth.
const EIGHTH: usize = PART_OWNS - 1;

// A point's number stands above its part's count.
const COUNTS: u64 = 1 << 32;

// Below it there is room for the counts behind the eighth's, whatever the word was.
const ROOM: u64 = 1 << 48;

// A point gets its word. More than eight points are refused whatever they are, and of those behind the eighth only the counts matter, since their nodes are still read.
#[tactic(auto, unfolding(crate::specs::Hearing::point_kept))]
pub fn keep_point(part_owns: &mut [u64], taken: usize, point: u16, count: u16)
    requires { owns_kept ≤ length part_owns.old }
    ensures { part_owns.new ≡ point_kept taken point count part_owns.old }
{
    if taken < POINTS {
        part_owns[PARTS + taken] = u64::from(point) * COUNTS + u64::from(count);
    } else {
        part_owns[EIGHTH] = part_owns[EIGHTH] % ROOM + u64::from(count);
    }
}

// How many nodes the points that have come announce.
pub fn announced_in(part_owns: &[u64], taken: usize) -> usize
    requires { owns_kept ≤ length part_owns.now }
    ensures { result ≡ announced (named_in taken part_owns.now) }
{
    part_owns[PARTS..PARTS + taken.min(POINTS)]
        .iter()
        .map(|word| (*word % COUNTS) as usize)
        .sum()
}

// A word as a point.
fn point_of(word: u64) -> Point
    ensures { result ≡ word_point word }
{
    Point {
        node: (word / COUNTS) as usize,
        count: (word % COUNTS) as usize,
    }
}

// The words as points.
pub fn points_in(part_owns: &[u64]) -> [Point; POINTS]
    requires { owns_kept ≤ length part_owns.now }
    ensures { result ≡ points_in part_owns.now }
{
    array::from_fn(|i| point_of(part_owns[PARTS + i]))
}

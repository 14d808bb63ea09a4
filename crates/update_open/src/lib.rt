// Load and replacement: what opens an update.
#![tactic(auto)]

ghost use Rattle.std.specs.Prelude.{◌≡◌, [], ◌∷◌};
ghost use Rattle.update_judge.specs.Inner.Cuts.{named_cuts, shifted};
ghost use Rattle.update_judge.specs.Order.{Grounded, Holding};
ghost use Rattle.update_open.specs.Lent.{LoadLeaves, PointsLeave, ReplaceLeaves};
ghost use Rattle.update_open.specs.Inner.Placed.{point_of, placed, opened_at, Shiftable, Pointed};
ghost use Rattle.update.specs.Memories.{lent};

use refusal::Refusal;
use tree::{Cuts, Places, Point};
use update::{Open, Record};
use update_judge::{cuts_of, judge_aim, judge_ground, judge_loaded, judge_named, judge_replaced};
use update_place::placing::{place_row, place_tree};

// What stands in a record behind its points.
const NOWHERE: Point = Point { node: 0, count: 0 };

// One point, as a call names it or a load's record has it.
#[tactic(auto, unfolding(update::specs::Records::padded))]
fn one_point(node: usize, count: usize) -> Places
    ensures { result ≡ placed (point_of node count ∷ []) }
{
    let mut points = [NOWHERE; Record::POINTS];
    points[0] = Point { node, count };
    Places { count: 1, points }
}

// The points in the new tree: each moves by what came and by what left before it.
fn shift_points(cuts: Cuts) -> Places
    requires { Shiftable cuts }
    ensures { result ≡ placed (shifted 0 0 (named_cuts cuts)) }
{
    let mut points = [NOWHERE; Record::POINTS];
    let mut came = 0;
    let mut left = 0;
    for i in 0..cuts.count {
        let cut = cuts.cuts[i];
        points[i] = Point {
            node: cut.node + came - left,
            count: cut.count,
        };
        came += cut.count;
        left += cut.old;
    }
    Places {
        count: cuts.count,
        points,
    }
}

// The record of an update just opened: nothing is worked on or counted yet.
#[tactic(auto, unfolding(update::specs::Records::empty_record, update::specs::Records::shut))]
fn just_opened(open: Open, nodes: usize, places: Places) -> Record
    ensures { result ≡ opened_at «open» nodes places }
{
    let Places { count, points } = places;
    Record {
        held: true,
        open,
        nodes,
        count,
        points,
        ..Record::empty()
    }
}

// A load over a judged table, buffers that are long enough and a record within its limits.
pub fn load_judged(
    table: &[u64; 2657],
    record: Record,
    productions: &[u8],
    owns: &[u64],
    held: &mut [u8],
    held_owns: &mut [u64],
    sets: &mut [u64],
    earlier: &mut [u64],
) -> Result<Record, Refusal>
    requires { Grounded table.now (lent held.old held_owns.old sets.old earlier.old) «record» }
    ensures { LoadLeaves table.now (lent held.old held_owns.old sets.old earlier.old) «record» productions.now owns.now result (lent held.new held_owns.new sets.new earlier.new) }
{
    judge_loaded(table, record, productions, owns)?;
    place_tree(productions, owns, held, held_owns, sets, earlier);
    let nodes = productions.len();
    Ok(just_opened(Open::Load, nodes, one_point(0, nodes)))
}

// A load: places a whole tree, empties every set and opens an update.
pub fn load(
    table: &[u64; 2657],
    record: Record,
    productions: &[u8],
    owns: &[u64],
    held: &mut [u8],
    held_owns: &mut [u64],
    sets: &mut [u64],
    earlier: &mut [u64],
) -> Result<Record, Refusal>
    ensures { LoadLeaves table.now (lent held.old held_owns.old sets.old earlier.old) «record» productions.now owns.now result (lent held.new held_owns.new sets.new earlier.new) }
{
    judge_ground(table, record, held, held_owns, sets, earlier)?;
    load_judged(
        table,
        record,
        productions,
        owns,
        held,
        held_owns,
        sets,
        earlier,
    )
}

// A replacement at nodes of a sound tree that is held, with no update open.
fn exchange_row(
    table: &[u64; 2657],
    record: Record,
    points: Places,
    new: &[u8],
    new_owns: &[u64],
    held: &mut [u8],
    held_owns: &mut [u64],
    sets: &mut [u64],
    earlier: &mut [u64],
) -> Result<Record, Refusal>
    requires { Pointed table.now (lent held.old held_owns.old sets.old earlier.old) «record» points }
    ensures { PointsLeave table.now (lent held.old held_owns.old sets.old earlier.old) «record» points new.now new_owns.now result (lent held.new held_owns.new sets.new earlier.new) }
{
    let nodes = record.nodes;
    let tree = &held[..nodes];
    let cuts = cuts_of(table, tree, points);
    judge_replaced(table, tree, points, cuts, new, new_owns)?;
    let count = place_row(
        table, nodes, points, cuts, new, new_owns, held, held_owns, sets, earlier,
    );
    Ok(just_opened(Open::Replacement, count, shift_points(cuts)))
}

// A replacement at several points over a judged table, buffers that are long enough, a record within its limits and a tree that is sound if held.
pub fn replace_points_judged(
    table: &[u64; 2657],
    record: Record,
    points: Places,
    new: &[u8],
    new_owns: &[u64],
    held: &mut [u8],
    held_owns: &mut [u64],
    sets: &mut [u64],
    earlier: &mut [u64],
) -> Result<Record, Refusal>
    requires { Holding table.now (lent held.old held_owns.old sets.old earlier.old) «record» }
    ensures { PointsLeave table.now (lent held.old held_owns.old sets.old earlier.old) «record» points new.now new_owns.now result (lent held.new held_owns.new sets.new earlier.new) }
{
    judge_named(record, points)?;
    exchange_row(
        table, record, points, new, new_owns, held, held_owns, sets, earlier,
    )
}

// A replacement at one to eight points, by their numbers in the tree as it was. The parts lie one behind the other in `new` and `new_owns`.
pub fn replace_points(
    table: &[u64; 2657],
    record: Record,
    points: Places,
    new: &[u8],
    new_owns: &[u64],
    held: &mut [u8],
    held_owns: &mut [u64],
    sets: &mut [u64],
    earlier: &mut [u64],
) -> Result<Record, Refusal>
    ensures { PointsLeave table.now (lent held.old held_owns.old sets.old earlier.old) «record» points new.now new_owns.now result (lent held.new held_owns.new sets.new earlier.new) }
{
    judge_aim(table, record, points, held, held_owns, sets, earlier)?;
    replace_points_judged(
        table, record, points, new, new_owns, held, held_owns, sets, earlier,
    )
}

// A replacement at one point where all that is judged.
pub fn replace_judged(
    table: &[u64; 2657],
    record: Record,
    point: usize,
    new: &[u8],
    new_owns: &[u64],
    held: &mut [u8],
    held_owns: &mut [u64],
    sets: &mut [u64],
    earlier: &mut [u64],
) -> Result<Record, Refusal>
    requires { Holding table.now (lent held.old held_owns.old sets.old earlier.old) «record» }
    ensures { ReplaceLeaves table.now (lent held.old held_owns.old sets.old earlier.old) «record» point new.now new_owns.now result (lent held.new held_owns.new sets.new earlier.new) }
{
    let points = one_point(point, new.len());
    replace_points_judged(
        table, record, points, new, new_owns, held, held_owns, sets, earlier,
    )
}

// A replacement at one point: the row of that one.
pub fn replace(
    table: &[u64; 2657],
    record: Record,
    point: usize,
    new: &[u8],
    new_owns: &[u64],
    held: &mut [u8],
    held_owns: &mut [u64],
    sets: &mut [u64],
    earlier: &mut [u64],
) -> Result<Record, Refusal>
    ensures { ReplaceLeaves table.now (lent held.old held_owns.old sets.old earlier.old) «record» point new.now new_owns.now result (lent held.new held_owns.new sets.new earlier.new) }
{
    let points = one_point(point, new.len());
    replace_points(
        table, record, points, new, new_owns, held, held_owns, sets, earlier,
    )
}

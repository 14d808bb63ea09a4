// The refusals of the calls, in the order of chapter 15.
ghost use Rattle.std.specs.Prelude.{◌≡◌, ◌≤◌, length};
ghost use Rattle.refusal.specs.Numbers.{verdict_of};
ghost use Rattle.table.specs.Judge.{judge_table};
ghost use Rattle.tree.specs.Handed.{named_points, bare_row};
ghost use Rattle.update.specs.Memories.{lent};
ghost use Rattle.update.specs.Refusals.{short, step_refusal, ground_order, new_order, held_order, going_order, look_order, aim_order};
ghost use Rattle.refusal.specs.Orders.{refusal_by};

use crate::limits::is_beyond;
use crate::points::judge_asked;
use refusal::Refusal;
use table::WORDS;
use table_judge::judge_table;
use tree::{Places, judge_held, judge_nodes};
use update::{Record, is_open};

// 15: whether one of the four buffers is too short.
#[tactic(auto, unfolding(update::specs::Refusals::short))]
fn is_short(held: &[u8], held_owns: &[u64], sets: &[u64], earlier: &[u64]) -> bool
    ensures { result ≡ short (lent held.now held_owns.now sets.now earlier.now) }
{
    held.len() < Record::NODES
        || held_owns.len() < Record::NODES
        || sets.len() < Record::SETS
        || earlier.len() < Record::SETS
}

// What every call is refused by first: 15, 1 to 5, 11.
#[tactic(auto, using(refusal::proofs::Distinct::handed_number, table::proofs::Steps::or_stops), unfolding(refusal::specs::Orders::refusal_by))]
pub fn judge_ground(
    table: &[u64; WORDS],
    record: Record,
    held: &[u8],
    held_owns: &[u64],
    sets: &[u64],
    earlier: &[u64],
) -> Result<(), Refusal>
    ensures { verdict_of result ≡ refusal_by (ground_order table.now (lent held.now held_owns.now sets.now earlier.now) «record») }
{
    if is_short(held, held_owns, sets, earlier) {
        return Err(Refusal::Buffer);
    }
    judge_table(table)?;
    if is_beyond(record) {
        return Err(Refusal::Fields);
    }
    Ok(())
}

// What a load is refused by behind that: 10, 8, 6/7.
#[tactic(auto, using(crate::proofs::Orders::loading), unfolding(refusal::specs::Orders::refusal_by))]
pub fn judge_load(
    table: &[u64; WORDS],
    record: Record,
    productions: &[u8],
    owns: &[u64],
) -> Result<(), Refusal>
    requires { judge_table table.now ≡ 0 }
    ensures { verdict_of result ≡ refusal_by (new_order table.now «record» productions.now owns.now) }
{
    if is_open(record.open) {
        return Err(Refusal::Busy);
    }
    if Record::NODES < productions.len() {
        return Err(Refusal::Size);
    }
    if productions.len() != owns.len() {
        return Err(Refusal::Shape);
    }
    judge_nodes(table, productions, 0)
}

// 16, and the held tree's 6/7.
#[tactic(auto, using(crate::proofs::Orders::holding))]
pub fn judge_holding(
    table: &[u64; WORDS],
    record: Record,
    held: &[u8],
    held_owns: &[u64],
) -> Result<(), Refusal>
    requires table_value { judge_table table.now ≡ 0 }
    requires record_in_bounds { («record».nodes ≤ length held.now) × («record».nodes ≤ length held_owns.now) }
    ensures { verdict_of result ≡ refusal_by (held_order table.now held.now held_owns.now «record») }
{
    if !record.held {
        return Err(Refusal::Absent);
    }
    judge_held(table, held, record.nodes, 0)
}

// What a look at the held tree is refused by: what every call is first, then 10, 16, the tree's 6/7.
#[tactic(auto, using(crate::proofs::Orders::looking))]
pub fn judge_look(
    table: &[u64; WORDS],
    record: Record,
    held: &[u8],
    held_owns: &[u64],
    sets: &[u64],
    earlier: &[u64],
) -> Result<(), Refusal>
    ensures { verdict_of result ≡ refusal_by (look_order table.now (lent held.now held_owns.now sets.now earlier.now) «record») }
{
    judge_ground(table, record, held, held_owns, sets, earlier)?;
    if is_open(record.open) {
        return Err(Refusal::Busy);
    }
    judge_holding(table, record, held, held_owns)
}

// What a replacement is refused by before its points are looked at: 15, 1 to 5, 11, 10, 22, 16, the held tree's 6/7.
#[tactic(auto, using(crate::proofs::Rows::aiming))]
pub fn judge_aim(
    table: &[u64; WORDS],
    record: Record,
    points: Places,
    held: &[u8],
    held_owns: &[u64],
    sets: &[u64],
    earlier: &[u64],
) -> Result<(), Refusal>
    ensures { verdict_of result ≡ refusal_by (aim_order table.now (lent held.now held_owns.now sets.now earlier.now) «record» (bare_row (named_points points))) }
{
    judge_ground(table, record, held, held_owns, sets, earlier)?;
    judge_asked(record, points)?;
    judge_holding(table, record, held, held_owns)
}

// 16, the held tree's 6/7, 17.
#[tactic(auto, using(crate::proofs::Orders::idling))]
fn judge_going(
    table: &[u64; WORDS],
    record: Record,
    held: &[u8],
    held_owns: &[u64],
) -> Result<(), Refusal>
    requires table_value { judge_table table.now ≡ 0 }
    requires record_in_bounds { («record».nodes ≤ length held.now) × («record».nodes ≤ length held_owns.now) }
    ensures { verdict_of result ≡ refusal_by (going_order table.now held.now held_owns.now «record») }
{
    judge_holding(table, record, held, held_owns)?;
    if is_open(record.open) {
        return Ok(());
    }
    Err(Refusal::Idle)
}

// What a step and a run are refused by: what every call is first, then 16, the tree's 6/7, 17.
#[tactic(auto, using(crate::proofs::Orders::stepping))]
pub fn judge_step(
    table: &[u64; WORDS],
    record: Record,
    held: &[u8],
    held_owns: &[u64],
    sets: &[u64],
    earlier: &[u64],
) -> Result<(), Refusal>
    ensures { verdict_of result ≡ step_refusal table.now (lent held.now held_owns.now sets.now earlier.now) «record» }
{
    judge_ground(table, record, held, held_owns, sets, earlier)?;
    judge_going(table, record, held, held_owns)
}

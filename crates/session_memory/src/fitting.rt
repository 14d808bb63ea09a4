// Whether the memory lent can be a session's: a public call takes any.
ghost use Rattle.std.specs.Prelude.{◌≡◌, not, ◌≤◌, length, take};
ghost use Rattle.refusal.specs.Numbers.{verdict_of};
ghost use Rattle.refusal.specs.Orders.{refusal_by};
ghost use Rattle.update.specs.Memories.{lent};
ghost use Rattle.text_table.specs.Read.{Awaits};
ghost use Rattle.session_owed.specs.Owed.{owns_kept, Begun};
ghost use Rattle.session_memory.specs.Suspended.{Wide, Tests};
ghost use Rattle.session_memory.specs.Refusals.{frame_refusal, sofar_refusal, misnamed, kept_order, settled_order};

use crate::State;
use refusal::Refusal;
use session_owed::{Awaited, PART_OWNS, PARTS, announced_in};
use table::WORDS;
use table_judge::{judge_equation, judge_header, judge_production, judge_symbol};
use text_frame::{Expected, next_of};
use text_line::{AHEAD, LF, LONGEST};
use update::Record;
use update_judge::{judge_ground, judge_holding, judge_step};

// What a line can print, and more.
pub const OUT: usize = 131_072;

// No command's first line announces more points, and no point's line more nodes.
const POINTS: usize = 255;

const NODES: usize = 65_535;

// A buffer is shorter than a line, a command's nodes and points, a table, the engine or what a line can print asks for.
pub fn is_narrow(
    words: &[u64],
    window: &[u8],
    parts: &[u8],
    part_owns: &[u64],
    held: &[u8],
    held_owns: &[u64],
    sets: &[u64],
    earlier: &[u64],
    out: &[u8],
) -> bool
    ensures { Tests (not result) (Wide words.now window.now parts.now part_owns.now (lent held.now held_owns.now sets.now earlier.now) out.now) }
{
    words.len() < WORDS
        || window.len() < AHEAD
        || parts.len() < PARTS
        || part_owns.len() < PART_OWNS
        || held.len() < Record::NODES
        || held_owns.len() < Record::NODES
        || sets.len() < Record::SETS
        || earlier.len() < Record::SETS
        || out.len() < OUT
}

// Whether the begun line has room and no end yet.
pub fn is_begun(window: &[u8], begun: usize) -> bool
    requires { 29 ≤ length window.now }
    ensures { Tests result ((begun ≤ 28) × Begun (take begun window.now)) }
{
    begun <= LONGEST && !window[..begun].contains(&LF)
}

// The judgement of one frame of a table.
fn judge_at(table: &[u64; WORDS], expected: Expected) -> Result<(), Refusal>
    requires { Awaits table.now expected }
    ensures { verdict_of result ≡ frame_refusal table.now expected }
{
    match expected {
        Expected::AtHeader => judge_header(table),
        Expected::AtSymbol(s) => judge_symbol(table, s),
        Expected::AtProduction(p) => judge_production(table, p),
        Expected::AtEquation(p, q, k) => judge_equation(table, p, q, k),
        Expected::Ended => Err(Refusal::Fields),
    }
}

// The frames of a table before the one that is expected: 1 to 5 at the first that is refused, 11 where no walk comes to it.
fn judge_so_far(table: &[u64; WORDS], expected: Expected) -> Result<(), Refusal>
    ensures { verdict_of result ≡ sofar_refusal table.now expected }
{
    let mut x = Expected::AtHeader;
    for _ in 0..WORDS {
        if x == expected && x != Expected::Ended {
            return Ok(());
        }
        judge_at(table, x)?;
        x = next_of(table, x);
    }
    Err(Refusal::Fields)
}

// 11: whether no lines name so many points with so many nodes.
#[tactic(auto, unfolding(crate::specs::Refusals::misnamed))]
fn is_misnamed(count: usize, taken: usize, part_owns: &[u64]) -> bool
    requires { owns_kept ≤ length part_owns.now }
    ensures { result ≡ misnamed count taken part_owns.now }
{
    count <= taken || POINTS < count || NODES * taken < announced_in(part_owns, taken)
}

// The held tree, if there is one.
fn judge_kept(
    table: &[u64; WORDS],
    record: Record,
    held: &[u8],
    held_owns: &[u64],
    sets: &[u64],
    earlier: &[u64],
) -> Result<(), Refusal>
    ensures { verdict_of result ≡ refusal_by (kept_order table.now (lent held.now held_owns.now sets.now earlier.now) «record») }
{
    judge_ground(table, record, held, held_owns, sets, earlier)?;
    if record.held {
        return judge_holding(table, record, held, held_owns);
    }
    Ok(())
}

// By what is waited for.
pub fn judge_state(
    table: &[u64; WORDS],
    state: State,
    window: &[u8],
    part_owns: &[u64],
    held: &[u8],
    held_owns: &[u64],
    sets: &[u64],
    earlier: &[u64],
) -> Result<(), Refusal>
    requires { (29 ≤ length window.now) × (owns_kept ≤ length part_owns.now) }
    ensures { verdict_of result ≡ refusal_by (settled_order state table.now window.now part_owns.now (lent held.now held_owns.now sets.now earlier.now)) }
{
    if !is_begun(window, state.begun) {
        return Err(Refusal::Fields);
    }
    let record = state.record;
    let awaited = state.awaited;
    match awaited {
        Awaited::Table(expected) => judge_so_far(table, expected),
        Awaited::Command => judge_kept(table, record, held, held_owns, sets, earlier),
        Awaited::Naming { count, taken, line } => {
            if is_misnamed(count, taken, part_owns) {
                return Err(Refusal::Fields);
            }
            judge_kept(table, record, held, held_owns, sets, earlier)
        }
        Awaited::Nodes {
            coming,
            count,
            taken,
            line,
        } => {
            if count <= taken {
                return Err(Refusal::Fields);
            }
            judge_kept(table, record, held, held_owns, sets, earlier)
        }
        Awaited::Working { turns } => judge_step(table, record, held, held_owns, sets, earlier),
        Awaited::Stopped => Ok(()),
    }
}

// The command whose last node has come: it is judged as a whole, and opens an update or is refused.
ghost use Rattle.std.specs.Prelude.{◌≡◌, ◌+◌, ◌≤◌, length};
ghost use Rattle.update_open.specs.Lent.{begun};
ghost use Rattle.update_judge.specs.Order.{Holding};
ghost use Rattle.session_owed.specs.Owed.{order_call};
ghost use Rattle.session_owed.specs.Hearing.{called, Hears};
ghost use Rattle.session_line.specs.Lent.{memory_in, Holds, Same};

use crate::lent::{Lent, Parts};
use refusal::Refusal;
use session_owed::{Awaited, Coming, PARTS, Told, points_in};
use text_frame::put_refusal;
use tree::{Places, Point};
use update::Record;
use update_open::{load_judged, replace_judged, replace_points_judged};

// A round makes an evaluation at the least, so that no update takes more steps.
const TURNS: u64 = Record::EVALUATIONS + 2;

// The call that the command asks for, with the points that came before its nodes.
fn call_order(
    table: &[u64; 2657],
    record: Record,
    coming: Coming,
    points: [Point; 8],
    new: &[u8],
    new_owns: &[u64],
    memory: &mut Lent,
) -> Result<Record, Refusal>
    requires { Holding table.now (memory_in memory.old) «record» }
    ensures same { Same memory.old memory.new }
    ensures called { begun «record» result (memory_in memory.new) ≡ order_call coming points table.now (memory_in memory.old) «record» new.now new_owns.now }
{
    match coming {
        Coming::Load => load_judged(
            table,
            record,
            new,
            new_owns,
            memory.held,
            memory.held_owns,
            memory.sets,
            memory.earlier,
        ),
        Coming::Replace(point) => replace_judged(
            table,
            record,
            point,
            new,
            new_owns,
            memory.held,
            memory.held_owns,
            memory.sets,
            memory.earlier,
        ),
        Coming::Several(count) => replace_points_judged(
            table,
            record,
            Places { count, points },
            new,
            new_owns,
            memory.held,
            memory.held_owns,
            memory.sets,
            memory.earlier,
        ),
    }
}

// 19.4: opens the update of a command, or writes its refusal, which names the command's first line.
pub fn open_update(
    table: &[u64; 2657],
    record: Record,
    coming: Coming,
    count: usize,
    line: u32,
    parts: &Parts,
    memory: &mut Lent,
    out: &mut [u8],
    printed: usize,
) -> Told
    requires holding { Holding table.now (memory_in memory.old) «record» }
    requires parts_kept_in_bounds { Holds parts.now × (printed + 13 ≤ length out.old) }
    ensures same { Same memory.old memory.new }
    ensures heard { Hears (called table.now parts.now.nodes.now parts.now.owns.now (memory_in memory.old) «record» coming count line) result printed out.old out.new table.now parts.now.nodes.now parts.now.owns.now (memory_in memory.new) }
{
    // More nodes than a tree may have are refused whatever they are: as many stand for all of them.
    let n = count.min(PARTS);
    let points = points_in(parts.owns);
    let opened = call_order(
        table,
        record,
        coming,
        points,
        &parts.nodes[..n],
        &parts.owns[..n],
        memory,
    );
    match opened {
        Ok(next) => Told {
            awaited: Awaited::Working { turns: TURNS },
            record: next,
            printed,
        },
        Err(refusal) => Told {
            awaited: Awaited::Command,
            record,
            printed: put_refusal(out, printed, refusal, line),
        },
    }
}

// One whole line, by what is waited for.
ghost use Rattle.std.specs.Prelude.{◌≡◌, List, ℕ, ◌+◌, ◌≤◌, ◌<◌, length};
ghost use Rattle.refusal.specs.Numbers.{number_of};
ghost use Rattle.update.specs.Memories.{lent, Memory};
ghost use Rattle.text_table.specs.Read.{Awaits, taken_at, words_after};
ghost use Rattle.update_judge.specs.Order.{Holding};
ghost use Rattle.session_owed.specs.Owed.{owns_kept, parts_kept, Sound};
ghost use Rattle.session_owed.specs.Hearing.{stopped, strange, awaited_of, tabled, ordered, naming, changed, commanded, kept_at, pointed, noded, hearing, Hears, Spacious};
ghost use Rattle.session_line.specs.Lent.{memory_in, Holds, Same, SameParts};
ghost use Rattle.table.specs.Words.{table_words};

use crate::dumping::tell_sets;
use crate::lent::{Lent, Parts};
use crate::opening::open_update;
use refusal::Refusal;
use session_owed::{Awaited, Coming, PARTS, Told, announced_in, keep_point};
use text_frame::{Change, Expected, Frame, put_refusal};
use text_table::take_frame;
use update::Record;

// 19.5: writes a refusal behind which nothing is read.
#[tactic(auto, using(text_frame::proofs::Printed::refusal_length))]
fn stop(out: &mut [u8], printed: usize, record: Record, refusal: Refusal, line: u32) -> Told
    requires { printed + 13 ≤ length out.old }
    ensures { (t ps os : List ℕ) (m : Memory) → Hears (stopped t ps os m «record» (number_of refusal) line) result printed out.old out.new t ps os m }
{
    Told {
        awaited: Awaited::Stopped,
        record,
        printed: put_refusal(out, printed, refusal, line),
    }
}

// A frame in a place where it can't stand: its own refusal, else 14.
fn stop_at(out: &mut [u8], printed: usize, record: Record, frame: Frame, line: u32) -> Told
    requires { printed + 13 ≤ length out.old }
    ensures { (t ps os : List ℕ) (m : Memory) → Hears (strange t ps os m «record» frame line) result printed out.old out.new t ps os m }
{
    let Frame::Refused { refusal, line: own } = frame else {
        return stop(out, printed, record, Refusal::Frame, line);
    };
    stop(out, printed, record, refusal, own)
}

// What is waited for behind a frame of the table.
fn awaited_of(expected: Expected) -> Awaited
    ensures { result ≡ awaited_of expected }
{
    match expected {
        Expected::Ended => Awaited::Command,
        _ => Awaited::Table(expected),
    }
}

// A frame of the table. No record counts before a tree is held.
fn hear_table(
    table: &mut [u64; 2657],
    expected: Expected,
    frame: Frame,
    line: u32,
    out: &mut [u8],
    printed: usize,
) -> Told
    requires { (length table.old ≡ table_words) × Awaits table.old expected × (printed + 13 ≤ length out.old) }
    ensures { (ps os : List ℕ) (m : Memory) → Hears (tabled (words_after table.old expected frame) ps os m (taken_at table.old expected frame line)) result printed out.old out.new table.new ps os m }
{
    let none = Record::empty();
    match take_frame(table, expected, frame, line) {
        Ok(next) => Told {
            awaited: awaited_of(next),
            record: none,
            printed,
        },
        Err(e) => stop(out, printed, none, e.refusal, e.line),
    }
}

// The first line of a load or a replacement: its nodes are waited for, if it has any.
fn hear_order(
    table: &[u64; 2657],
    record: Record,
    coming: Coming,
    count: usize,
    line: u32,
    parts: &Parts,
    memory: &mut Lent,
    out: &mut [u8],
    printed: usize,
) -> Told
    requires holding { Holding table.now (memory_in memory.old) «record» }
    requires parts_kept_in_bounds { Holds parts.now × (printed + 13 ≤ length out.old) }
    ensures same { Same memory.old memory.new }
    ensures heard { Hears (ordered table.now parts.now.nodes.now parts.now.owns.now (memory_in memory.old) «record» coming count line) result printed out.old out.new table.now parts.now.nodes.now parts.now.owns.now (memory_in memory.new) }
{
    if count == 0 {
        return open_update(
            table, record, coming, count, line, parts, memory, out, printed,
        );
    }
    Told {
        awaited: Awaited::Nodes {
            coming,
            count,
            taken: 0,
            line,
        },
        record,
        printed,
    }
}

// The first line of a command that names points: they are waited for, if it has any.
fn hear_naming(
    table: &[u64; 2657],
    record: Record,
    count: usize,
    line: u32,
    parts: &Parts,
    memory: &mut Lent,
    out: &mut [u8],
    printed: usize,
) -> Told
    requires holding { Holding table.now (memory_in memory.old) «record» }
    requires parts_kept_in_bounds { Holds parts.now × (printed + 13 ≤ length out.old) }
    ensures same { Same memory.old memory.new }
    ensures heard { Hears (naming table.now parts.now.nodes.now parts.now.owns.now (memory_in memory.old) «record» count line) result printed out.old out.new table.now parts.now.nodes.now parts.now.owns.now (memory_in memory.new) }
{
    if count == 0 {
        return open_update(
            table,
            record,
            Coming::Several(0),
            0,
            line,
            parts,
            memory,
            out,
            printed,
        );
    }
    Told {
        awaited: Awaited::Naming {
            count,
            taken: 0,
            line,
        },
        record,
        printed,
    }
}

// The first line of a change.
fn hear_change(
    table: &[u64; 2657],
    record: Record,
    change: Change,
    line: u32,
    parts: &Parts,
    memory: &mut Lent,
    out: &mut [u8],
    printed: usize,
) -> Told
    requires holding { Holding table.now (memory_in memory.old) «record» }
    requires parts_kept_in_bounds { Holds parts.now × (printed + 13 ≤ length out.old) }
    ensures same { Same memory.old memory.new }
    ensures heard { Hears (changed table.now parts.now.nodes.now parts.now.owns.now (memory_in memory.old) «record» change line) result printed out.old out.new table.now parts.now.nodes.now parts.now.owns.now (memory_in memory.new) }
{
    match change {
        Change::Load { count } => hear_order(
            table,
            record,
            Coming::Load,
            usize::from(count),
            line,
            parts,
            memory,
            out,
            printed,
        ),
        Change::Replace { point, count } => hear_order(
            table,
            record,
            Coming::Replace(usize::from(point)),
            usize::from(count),
            line,
            parts,
            memory,
            out,
            printed,
        ),
        Change::Corrections { count } => hear_naming(
            table,
            record,
            usize::from(count),
            line,
            parts,
            memory,
            out,
            printed,
        ),
    }
}

// A command's first line.
fn hear_command(
    table: &[u64; 2657],
    record: Record,
    frame: Frame,
    line: u32,
    parts: &Parts,
    memory: &mut Lent,
    out: &mut [u8],
    printed: usize,
) -> Told
    requires holding { Holding table.now (memory_in memory.old) «record» }
    requires parts_kept_in_bounds { Holds parts.now × Spacious out.old printed }
    ensures same { Same memory.old memory.new }
    ensures heard { Hears (commanded table.now parts.now.nodes.now parts.now.owns.now (memory_in memory.old) «record» frame line) result printed out.old out.new table.now parts.now.nodes.now parts.now.owns.now (memory_in memory.new) }
{
    match frame {
        Frame::Change(change) => hear_change(
            table, record, change, line, parts, memory, out, printed,
        ),
        Frame::Dump => tell_sets(table, record, memory, line, out, printed),
        _ => stop_at(out, printed, record, frame, line),
    }
}

// A point's line; behind the last one the nodes of all parts are waited for.
fn hear_point(
    table: &[u64; 2657],
    record: Record,
    count: usize,
    taken: usize,
    start: u32,
    frame: Frame,
    line: u32,
    parts: &mut Parts,
    memory: &mut Lent,
    out: &mut [u8],
    printed: usize,
) -> Told
    requires holding { Holding table.now (memory_in memory.old) «record» }
    requires parts_kept_in_bounds { Holds parts.old × (printed + 13 ≤ length out.old) × (taken < count) }
    ensures same { Same memory.old memory.new × SameParts parts.old parts.new }
    ensures heard { Hears (pointed count taken start frame line table.now parts.old.nodes.now parts.old.owns.now (memory_in memory.old) «record») result printed out.old out.new table.now parts.new.nodes.now parts.new.owns.now (memory_in memory.new) }
{
    let Frame::Point {
        point,
        count: nodes,
    } = frame
    else {
        return stop_at(out, printed, record, frame, line);
    };
    let owns = &mut *parts.owns;
    keep_point(owns, taken, point, nodes);
    if taken + 1 < count {
        return Told {
            awaited: Awaited::Naming {
                count,
                taken: taken + 1,
                line: start,
            },
            record,
            printed,
        };
    }
    let all = announced_in(owns, count);
    hear_order(
        table,
        record,
        Coming::Several(count),
        all,
        start,
        parts,
        memory,
        out,
        printed,
    )
}

// A node is kept while a tree may have so many.
fn keep_node(parts: &mut Parts, taken: usize, production: u8, own: u64)
    requires { Holds parts.old }
    ensures same { SameParts parts.old parts.new }
    ensures kept { (parts.new.nodes.now ≡ kept_at taken production parts.old.nodes.now) × (parts.new.owns.now ≡ kept_at taken own parts.old.owns.now) }
{
    if taken < PARTS {
        parts.nodes[taken] = production;
        parts.owns[taken] = own;
    }
}

// A node's line; behind the last one the command is carried out.
fn hear_node(
    table: &[u64; 2657],
    record: Record,
    coming: Coming,
    count: usize,
    taken: usize,
    command: u32,
    frame: Frame,
    line: u32,
    parts: &mut Parts,
    memory: &mut Lent,
    out: &mut [u8],
    printed: usize,
) -> Told
    requires holding { Holding table.now (memory_in memory.old) «record» }
    requires parts_kept_in_bounds { Holds parts.old × (printed + 13 ≤ length out.old) × (taken < count) }
    ensures same { Same memory.old memory.new × SameParts parts.old parts.new }
    ensures heard { Hears (noded coming count taken command frame line table.now parts.old.nodes.now parts.old.owns.now (memory_in memory.old) «record») result printed out.old out.new table.now parts.new.nodes.now parts.new.owns.now (memory_in memory.new) }
{
    let Frame::Node { production, own } = frame else {
        return stop_at(out, printed, record, frame, line);
    };
    keep_node(parts, taken, production, own);
    if taken + 1 < count {
        return Told {
            awaited: Awaited::Nodes {
                coming,
                count,
                taken: taken + 1,
                line: command,
            },
            record,
            printed,
        };
    }
    open_update(
        table, record, coming, count, command, parts, memory, out, printed,
    )
}

// A line's frame, by what is waited for.
pub fn hear(
    table: &mut [u64; 2657],
    awaited: Awaited,
    record: Record,
    line: u32,
    frame: Frame,
    parts: &mut [u8],
    part_owns: &mut [u64],
    held: &mut [u8],
    held_owns: &mut [u64],
    sets: &mut [u64],
    earlier: &mut [u64],
    out: &mut [u8],
    printed: usize,
) -> Told
    requires table_len { (length table.old ≡ table_words) × Sound awaited table.old part_owns.old (lent held.old held_owns.old sets.old earlier.old) «record» }
    requires parts_kept_in_bounds { (parts_kept ≤ length parts.old) × (owns_kept ≤ length part_owns.old) × Spacious out.old printed }
    ensures { Hears (hearing awaited frame line table.old parts.old part_owns.old (lent held.old held_owns.old sets.old earlier.old) «record») result printed out.old out.new table.new parts.new part_owns.new (lent held.new held_owns.new sets.new earlier.new) }
{
    let mut parts = Parts {
        nodes: parts,
        owns: part_owns,
    };
    let mut memory = Lent {
        held,
        held_owns,
        sets,
        earlier,
    };
    match awaited {
        Awaited::Table(expected) => hear_table(table, expected, frame, line, out, printed),
        Awaited::Command => hear_command(
            table,
            record,
            frame,
            line,
            &parts,
            &mut memory,
            out,
            printed,
        ),
        Awaited::Naming {
            count,
            taken,
            line: command,
        } => hear_point(
            table,
            record,
            count,
            taken,
            command,
            frame,
            line,
            &mut parts,
            &mut memory,
            out,
            printed,
        ),
        Awaited::Nodes {
            coming,
            count,
            taken,
            line: command,
        } => hear_node(
            table,
            record,
            coming,
            count,
            taken,
            command,
            frame,
            line,
            &mut parts,
            &mut memory,
            out,
            printed,
        ),
        Awaited::Working { .. } | Awaited::Stopped => Told {
            awaited,
            record,
            printed,
        },
    }
}

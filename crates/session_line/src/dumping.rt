// What a dump prints.
ghost use Rattle.std.specs.Prelude.{◌≡◌, ◌+◌, length};
ghost use Rattle.std.proofs.lemmas.List.Edits.{sets as sets_at};
ghost use Rattle.update_judge.specs.Order.{Holding};
ghost use Rattle.session.specs.Session.{dump_told};
ghost use Rattle.session_owed.specs.Hearing.{Spacious};
ghost use Rattle.session_owed.specs.declared.Awaited.TheVariants.{Command};
ghost use Rattle.session_line.specs.Lent.{memory_in};

use crate::lent::Lent;
use refusal::Refusal;
use session_owed::{Awaited, Told};
use text_frame::put_refusal;
use text_sets::put_sets;
use update::{Record, is_open};

// 13.2, 18.2: writes the lines of a dump. Over a judged table and tree it is refused by 10, then by 16.
pub fn tell_sets(
    table: &[u64; 2657],
    record: Record,
    memory: &Lent,
    line: u32,
    out: &mut [u8],
    printed: usize,
) -> Told
    requires holding { Holding table.now (memory_in memory.now) «record» }
    requires spacious { Spacious out.old printed }
    ensures { (result.awaited ≡ Command) × (result.«record» ≡ «record») × (result.printed ≡ printed + length (dump_told line table.now «record» (memory_in memory.now)).text) × (out.new ≡ sets_at out.old printed (dump_told line table.now «record» (memory_in memory.now)).text) }
{
    let printed = if is_open(record.open) {
        put_refusal(out, printed, Refusal::Busy, line)
    } else if !record.held {
        put_refusal(out, printed, Refusal::Absent, line)
    } else {
        put_sets(table, memory.held, record.nodes, memory.sets, out, printed)
    };
    Told {
        awaited: Awaited::Command,
        record,
        printed,
    }
}

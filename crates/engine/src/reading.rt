// Reading a set of the held tree.
ghost use Rattle.engine.specs.Lent.{ReadSays};
ghost use Rattle.update.specs.Memories.{lent};

use refusal::Refusal;
use update::Record;
use update_judge::{is_declared, judge_look};

// The set of a declared instance, with no update open; nothing is changed.
pub fn read(
    table: &[u64; 2657],
    record: Record,
    held: &[u8],
    held_owns: &[u64],
    sets: &[u64],
    earlier: &[u64],
    instance: usize,
) -> Result<u64, Refusal>
    ensures { ReadSays table.now (lent held.now held_owns.now sets.now earlier.now) «record» instance result }
{
    judge_look(table, record, held, held_owns, sets, earlier)?;
    if !is_declared(table, held, record.nodes, instance) {
        return Err(Refusal::Undeclared);
    }
    Ok(sets[instance])
}

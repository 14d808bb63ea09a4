// A step: a round of an open update.
ghost use Rattle.engine.specs.Lent.{StepLeaves};

use crate::arranging::Arrays;
use circles::SLOTS;
use refusal::Refusal;
use update::Record;
use update_judge::judge_step;
use update_step::{Stepped, step_in};

// One step: a round of the first due circle, or done where none is due.
pub fn step<'a>(
    table: &'a [u64; 2657],
    record: Record,
    held: &'a [u8],
    held_owns: &'a [u64],
    sets: &mut [u64],
    earlier: &'a [u64],
) -> Result<Stepped, Refusal>
    ensures { StepLeaves table.now held.now held_owns.now sets.old earlier.now «record» result sets.new }
{
    judge_step(table, record, held, held_owns, sets, earlier)?;
    let mut arrays = Arrays::blank();
    arrays.arrange(table, &held[..record.nodes]);
    let (wires, ranked) = arrays.views();
    let owns = &held_owns[..record.nodes];
    let values = &mut [0; SLOTS];
    Ok(step_in(table, owns, wires, ranked, earlier, record, sets, values))
}

// A run: the rounds of an open update.
ghost use Rattle.engine.specs.Lent.{RunLeaves, RanLeaves};

use crate::arranging::Arrays;
use circles::SLOTS;
use refusal::Refusal;
use update::{Record, Run};
use update_judge::judge_step;
use update_step::{Ran, run_in};

// A run: steps until one is done, or until as many rounds are made as the budget has. The record goes by value.
pub fn run_record<'a>(
    table: &'a [u64; 2657],
    record: Record,
    held: &'a [u8],
    held_owns: &'a [u64],
    sets: &mut [u64],
    earlier: &'a [u64],
    budget: u64,
) -> Result<Ran, Refusal>
    ensures { RanLeaves table.now held.now held_owns.now sets.old earlier.now «record» budget result sets.new }
{
    judge_step(table, record, held, held_owns, sets, earlier)?;
    let mut arrays = Arrays::blank();
    arrays.arrange(table, &held[..record.nodes]);
    let (wires, ranked) = arrays.views();
    let owns = &held_owns[..record.nodes];
    let values = &mut [0; SLOTS];
    Ok(run_in(
        table, owns, wires, ranked, earlier, budget, record, sets, values,
    ))
}

// The same run over a record that the caller lends, which is changed in place.
pub fn run<'a>(
    record: &mut Record,
    table: &'a [u64; 2657],
    held: &'a [u8],
    held_owns: &'a [u64],
    sets: &mut [u64],
    earlier: &'a [u64],
    budget: u64,
) -> Result<Run, Refusal>
    ensures { RunLeaves table.now held.now held_owns.now sets.old earlier.now «record».old budget result «record».new sets.new }
{
    let ran = run_record(table, *record, held, held_owns, sets, earlier, budget)?;
    *record = ran.record;
    Ok(ran.answer)
}

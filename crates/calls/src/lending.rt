// What the calls are lent: memory, and a run's record.
ghost use Rattle.engine.specs.Lent.{RunLeaves};

use engine::{Record, Run};
use refusal::Refusal;

// What lies in lent memory at first.
pub const DUST: u64 = 0xa5a5_a5a5_a5a5_a5a5;

// The memory that a tape's calls are lent.
#[derive(Drop)]
pub struct Lent {
    pub held: [u8; Record::NODES],
    pub held_owns: [u64; Record::NODES],
    pub sets: [u64; Record::SETS],
    pub earlier: [u64; Record::SETS],
}

impl Lent {
    pub fn dusty() -> Self {
        let held = [0xa5; Record::NODES];
        let held_owns = [DUST; Record::NODES];
        let sets = [DUST; Record::SETS];
        let earlier = [DUST; Record::SETS];
        Lent {
            held,
            held_owns,
            sets,
            earlier,
        }
    }
}

// Lends a record of its own to the run, and finds it altered, or as it was where the run is refused.
pub fn run_lent<'a>(
    table: &'a [u64; 2657],
    record: Record,
    held: &'a [u8],
    held_owns: &'a [u64],
    sets: &mut [u64],
    earlier: &'a [u64],
    budget: u64,
) -> (Result<Run, Refusal>, Record)
    ensures { RunLeaves table.now held.now held_owns.now sets.old earlier.now «record» budget result.0 result.1 sets.new }
{
    let mut lent = record;
    let answer = engine::run(&mut lent, table, held, held_owns, sets, earlier, budget);
    (answer, lent)
}

// Steps in a row.
ghost use Rattle.climb.specs.Inner.Wires.{wired_by, WiringBy};
ghost use Rattle.update.specs.Within.{WithinLimits};
ghost use Rattle.update.specs.Steps.{run_of};
ghost use Rattle.update_round.specs.Inner.Arranged.{Lent};
ghost use Rattle.update_round.specs.Inner.Wires.{circles_by, CirclesBy};
ghost use Rattle.update_step.specs.Inner.Says.{RunSays};

use super::step::step_in;
use climb::Wires;
use update::{Answer, Record, Run};
use update_round::Ranked;

#[derive(Clone, Copy)]
pub struct Ran {
    pub answer: Run,
    pub record: Record,
}

// Step after step, until one is done or the budget is spent.
pub fn run_in(
    table: &[u64; 2657],
    owns: &[u64],
    wires: Wires,
    ranked: Ranked,
    earlier: &[u64],
    budget: u64,
    r: Record,
    sets: &mut [u64],
    values: &mut [u64],
) -> Ran
    requires within_limits { WithinLimits r }
    requires wiring { WiringBy owns.now wires }
    requires circles { CirclesBy wires ranked }
    requires lent { Lent wires.n earlier.now sets.old values.old }
    ensures { RunSays (run_of (wired_by table.now owns.now wires.entry) (circles_by wires.entry) earlier.now budget r sets.old) result.answer result.record sets.new }
{
    let mut work = r;
    for rounds in 0..budget {
        let d = step_in(table, owns, wires, ranked, earlier, work, sets, values);
        work = d.record;
        if let Answer::Done {
            circles,
            evaluations,
            changed,
        } = d.answer
        {
            return Ran {
                answer: Run::Finished {
                    rounds,
                    circles,
                    evaluations,
                    changed,
                },
                record: work,
            };
        }
    }
    Ran {
        answer: Run::Paused { rounds: budget },
        record: work,
    }
}

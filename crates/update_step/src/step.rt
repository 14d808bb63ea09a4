// One step of an update.
ghost use Rattle.std.specs.Prelude.{◌<◌, ◌≤◌, length};
ghost use Rattle.climb.specs.Inner.Wires.{wired_by, RowsBy, WiringBy};
ghost use Rattle.update.specs.Within.{WithinLimits};
ghost use Rattle.update.specs.Steps.{round_number, round_made, done_made, step_of};
ghost use Rattle.update_round.specs.Inner.Arranged.{Lent};
ghost use Rattle.update_round.specs.Inner.Tests.{reading};
ghost use Rattle.update_round.specs.Inner.Wires.{circles_by, CirclesBy};
ghost use Rattle.update_step.specs.Inner.Says.{StepSays};
ghost use Rattle.climb.specs.Circuit.{circles_most};
ghost use Rattle.circles.specs.Marks.{slots_most};

use climb::Wires;
use tree::Point;
use update::{Answer, Open, Record};
use update_round::{Ranked, changed, first_due, next_record, round_at, round_number};

#[derive(Clone, Copy)]
pub struct Stepped {
    pub answer: Answer,
    pub record: Record,
}

// No circle is due: the numbers at done, and the update closed.
fn finish(wires: Wires, earlier: &[u64], sets: &[u64], r: Record) -> Stepped
    requires within_limits { WithinLimits r }
    requires n_in_bounds { (wires.n ≤ length wires.a.now) × (wires.n ≤ length earlier.now) × (wires.n ≤ length sets.now) }
    ensures { StepSays (done_made (reading wires.entry.n wires.entry.a.now wires.entry.a.now) r earlier.now sets.now) result.answer result.record sets.now }
{
    Stepped {
        answer: Answer::Done {
            circles: r.circles,
            evaluations: r.evaluations,
            changed: changed(wires, earlier, sets, r),
        },
        record: Record {
            open: Open::Nothing,
            count: 0,
            points: [Point { node: 0, count: 0 }; 8],
            rank: 0,
            round: 0,
            circles: 0,
            evaluations: 0,
            ..r
        },
    }
}

// Circle i makes one round.
fn make_round(
    table: &[u64; 2657],
    owns: &[u64],
    wires: Wires,
    circle: &[u16],
    r: Record,
    i: usize,
    sets: &mut [u64],
    values: &mut [u64],
) -> Stepped
    requires within_limits { WithinLimits r }
    requires i_lt_circles_most { (i < circles_most) × (0 < length circle.now) × (length circle.now ≤ slots_most) }
    requires rows { RowsBy owns.now wires circle.now }
    requires n_in_bounds { (wires.n ≤ length wires.a.now) × (wires.n ≤ length wires.b.now) × (wires.n ≤ length sets.old) × (length circle.now ≤ length values.old) }
    ensures { StepSays (round_made (wired_by table.now owns.now wires.entry) circle.now r i (round_number r i) sets.old) result.answer result.record sets.new }
{
    let k = round_number(r, i);
    let closed = round_at(table, owns, wires, circle, k, sets, values);
    let size = circle.len();
    Stepped {
        answer: Answer::Round {
            least: usize::from(circle[0]),
            round: k,
            size,
            closed,
        },
        record: next_record(r, i, k, size, closed),
    }
}

// One step: a round of the first due circle, or done. The values of the round pass through `values`.
pub fn step_in(
    table: &[u64; 2657],
    owns: &[u64],
    wires: Wires,
    ranked: Ranked,
    earlier: &[u64],
    r: Record,
    sets: &mut [u64],
    values: &mut [u64],
) -> Stepped
    requires within_limits { WithinLimits r }
    requires wiring { WiringBy owns.now wires }
    requires circles { CirclesBy wires ranked }
    requires lent { Lent wires.n earlier.now sets.old values.old }
    ensures { StepSays (step_of (wired_by table.now owns.now wires.entry) (circles_by wires.entry) r earlier.now sets.old) result.answer result.record sets.new }
{
    let i = first_due(wires, ranked, earlier, sets, r);
    if i < ranked.count {
        make_round(table, owns, wires, ranked.circle(i), r, i, sets, values)
    } else {
        finish(wires, earlier, sets, r)
    }
}

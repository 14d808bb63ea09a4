// The numbers of the record after a round.
ghost use Rattle.std.specs.Prelude.{◌≡◌, ◌<◌, ◌≤◌};
ghost use Rattle.update.specs.Within.{WithinLimits};
ghost use Rattle.update.specs.Steps.{round_number, round_record};
ghost use Rattle.circles.specs.Marks.{slots_most};
ghost use Rattle.climb.specs.Circuit.{circles_most};

use update::Record;

// The number of the round that circle i is to make.
#[tactic(auto, unfolding(update::specs::Steps::round_number))]
pub fn round_number(r: Record, i: usize) -> u64
    requires { WithinLimits r }
    ensures { result ≡ round_number r i }
{
    if i == r.rank {
        (r.round + 1).min(Record::ROUND)
    } else {
        1
    }
}

// The record after round k of circle i.
#[tactic(auto, unfolding(update::specs::Steps::round_record))]
pub fn next_record(r: Record, i: usize, k: u64, size: usize, closed: bool) -> Record
    requires within_limits { WithinLimits r }
    requires i_lt_circles_most { (i < circles_most) × (size ≤ slots_most) }
    ensures { result ≡ round_record r i k size closed }
{
    let evaluations = (r.evaluations + size as u64).min(Record::EVALUATIONS);
    if closed {
        let circles = (r.circles + 1).min(Record::CIRCLES);
        Record {
            rank: i + 1,
            round: 0,
            circles,
            evaluations,
            ..r
        }
    } else {
        Record {
            rank: i,
            round: k,
            evaluations,
            ..r
        }
    }
}

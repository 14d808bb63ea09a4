// One round of a circle.
ghost use Rattle.std.specs.Prelude.{◌≡◌, cond, not, ◌&&◌, ◌≤◌, eqb, length};
ghost use Rattle.climb.specs.Memory.{empty_on};
ghost use Rattle.climb.specs.Inner.Wired.{Span};
ghost use Rattle.climb.specs.Inner.Wires.{wired_by, RowsBy};
ghost use Rattle.update_round.specs.Inner.Says.{RoundSays};

use climb::{Wires, empty_circle, lone, round};
use table::WORDS;

// Before round 1 a circle that isn't lone becomes empty.
#[tactic(auto, using(crate::proofs::Rounding::ready_later, crate::proofs::Rounding::ready_alone, crate::proofs::Rounding::ready_first))]
fn make_ready(alone: bool, k: u64, circle: &[u16], sets: &mut [u64])
    requires { Span circle.now (length sets.old) 0 (length circle.now) }
    ensures { sets.new ≡ cond (eqb k 1 && not alone) (empty_on circle.now sets.old) sets.old }
{
    if k == 1 && !alone {
        empty_circle(circle, sets);
    }
}

// Round k of a circle: whether it closes.
pub fn round_at(
    table: &[u64; WORDS],
    owns: &[u64],
    wires: Wires,
    circle: &[u16],
    k: u64,
    sets: &mut [u64],
    values: &mut [u64],
) -> bool
    requires rows { RowsBy owns.now wires circle.now }
    requires n_in_bounds { (wires.n ≤ length wires.a.now) × (wires.n ≤ length wires.b.now) × (wires.n ≤ length sets.old) × (length circle.now ≤ length values.old) }
    ensures { RoundSays (wired_by table.now owns.now wires.entry) circle.now k sets.old sets.new result }
{
    let alone = lone(wires, circle);
    make_ready(alone, k, circle, sets);
    let still = round(table, owns, wires, circle, sets, values);
    alone || still
}

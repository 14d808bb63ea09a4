// The first due circle.
ghost use Rattle.std.specs.Prelude.{◌≡◌, false, cond, ◌<◌, ◌≤◌, ltb, length, get_or};
ghost use Rattle.circles.specs.Arrays.{given};
ghost use Rattle.circles.specs.Ranked.{any_of};
ghost use Rattle.climb.specs.Memory.{at};
ghost use Rattle.climb.specs.Inner.Wired.{Span};
ghost use Rattle.update.specs.Records.{is_load};
ghost use Rattle.update.specs.Within.{WithinLimits};
ghost use Rattle.update.specs.Steps.{sown_of, due_from};
ghost use Rattle.update_round.specs.Inner.Tests.{moved_in, due_in};
ghost use Rattle.update_round.specs.Inner.Wires.{circles_by, reading_by, CirclesBy, LooksBy};
ghost use Rattle.circles.specs.Marks.{not_declared};

use super::reach::some_sows;
use crate::Ranked;
use climb::Wires;
use update::{Open, Record};

// Whether the update is a load.
pub fn is_load(o: Open) -> bool
    ensures { result ≡ is_load o }
{
    matches!(o, Open::Load)
}

// Whether the update has sown it: a load has sown all, a replacement what one of its points sows.
#[tactic(auto, unfolding(update::specs::Steps::sown_of))]
fn sown(r: &Record, x: usize) -> bool
    requires { WithinLimits r.now }
    ensures { result ≡ sown_of r.now x }
{
    is_load(r.open) || some_sows(r, x)
}

// Whether the argument y is there, lies outside the circle with this least instance and has changed.
fn moved(label: &[u16], earlier: &[u64], sets: &[u64], n: usize, least: usize, y: usize) -> bool
    requires { (n ≤ length label.now) × (n ≤ length earlier.now) × (n ≤ length sets.now) }
    ensures { result ≡ cond (ltb y n) (moved_in label.now (at earlier.now) (at sets.now) least y) false }
{
    y < n && usize::from(label[y]) != least && sets[y] != earlier[y]
}

// Whether the instance x of that circle reads such an argument.
fn reads_moved(
    wires: Wires,
    label: &[u16],
    earlier: &[u64],
    sets: &[u64],
    least: usize,
    x: usize,
) -> bool
    requires x_lt_n { x < wires.n }
    requires looks { LooksBy wires label.now earlier.now sets.now }
    ensures { result ≡ any_of (moved_in label.now (at earlier.now) (at sets.now) least) (given wires.entry.n (get_or wires.entry.a.now x not_declared) (get_or wires.entry.b.now x not_declared)) }
{
    let y = usize::from(wires.a[x]);
    let z = usize::from(wires.b[x]);
    moved(label, earlier, sets, wires.n, least, y) || moved(label, earlier, sets, wires.n, least, z)
}

// Whether the circle is due.
fn is_due(
    wires: Wires,
    label: &[u16],
    circle: &[u16],
    earlier: &[u64],
    sets: &[u64],
    r: &Record,
) -> bool
    requires within_limits { WithinLimits r.now }
    requires some { 0 < length circle.now }
    requires span { Span circle.now wires.n 0 (length circle.now) }
    requires looks { LooksBy wires label.now earlier.now sets.now }
    ensures { result ≡ due_in wires.entry.n wires.entry.a.now wires.entry.b.now label.now r.now (at earlier.now) (at sets.now) (get_or circle.now 0 0) circle.now }
{
    let least = usize::from(circle[0]);
    circle.iter().any(|x| {
        let x = usize::from(*x);
        sown(r, x) || reads_moved(wires, label, earlier, sets, least, x)
    })
}

// The first due circle from the recorded rank on, or a rank past the last.
pub fn first_due(wires: Wires, ranked: Ranked, earlier: &[u64], sets: &[u64], r: Record) -> usize
    requires within_limits { WithinLimits r }
    requires circles { CirclesBy wires ranked }
    requires looks { LooksBy wires ranked.label.now earlier.now sets.now }
    ensures { result ≡ due_from (reading_by wires.entry) (circles_by wires.entry) r earlier.now sets.now }
{
    for i in r.rank..ranked.count {
        if is_due(wires, ranked.label, ranked.circle(i), earlier, sets, &r) {
            return i;
        }
    }
    r.rank.max(ranked.count)
}

// The surviving instances whose set differs from before.
ghost use Rattle.std.specs.Prelude.{◌≡◌, ◌<◌, ◌≤◌, length};
ghost use Rattle.update.specs.Within.{WithinLimits};
ghost use Rattle.update.specs.Steps.{survives, changed_of};
ghost use Rattle.update_round.specs.Inner.Tests.{counted_in, reading};

use super::due::is_load;
use super::reach::all_spare;
use circles::UNDECLARED;
use climb::Wires;
use update::Record;

// Whether the update left the node of x in the tree: all of its points leave it there.
#[tactic(auto, unfolding(update::specs::Steps::survives))]
fn survived(r: &Record, x: usize) -> bool
    requires { WithinLimits r.now }
    ensures { result ≡ survives r.now x }
{
    all_spare(r, x / 8)
}

// Whether x is declared, survives and has another set than before.
fn counted(wires: Wires, earlier: &[u64], sets: &[u64], r: &Record, x: usize) -> bool
    requires within_limits { WithinLimits r.now }
    requires x_lt_n { (x < wires.n) × (wires.n ≤ length wires.a.now) × (wires.n ≤ length earlier.now) × (wires.n ≤ length sets.now) }
    ensures { result ≡ counted_in wires.entry.n wires.entry.a.now r.now earlier.now sets.now x }
{
    wires.a[x] != UNDECLARED && survived(r, x) && sets[x] != earlier[x]
}

// How many they are; none for a load.
pub fn changed(wires: Wires, earlier: &[u64], sets: &[u64], r: Record) -> u64
    requires within_limits { WithinLimits r }
    requires n_in_bounds { (wires.n ≤ length wires.a.now) × (wires.n ≤ length earlier.now) × (wires.n ≤ length sets.now) }
    ensures { result ≡ changed_of (reading wires.entry.n wires.entry.a.now wires.entry.a.now) r earlier.now sets.now }
{
    if is_load(r.open) {
        return 0;
    }
    (0..wires.n)
        .filter(|x| counted(wires, earlier, sets, &r, *x))
        .count() as u64
}

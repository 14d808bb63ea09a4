// The climb: one round of one circle, over its members.
#![tactic(auto)]

ghost use Rattle.std.specs.Prelude.{◌≡◌, map, ◌≤◌, length};
ghost use Rattle.std.proofs.lemmas.List.Edits.{sets as row};
ghost use Rattle.circles.specs.Arrays.{graph_of};
ghost use Rattle.circles.specs.Ranked.{lone_of};
ghost use Rattle.climb.specs.Memory.{at, puts, empty_on, round_on, still_on};
ghost use Rattle.climb.specs.Inner.Wired.{read_of, Span};
ghost use Rattle.climb.specs.Inner.Wires.{wired_by, RowBy, RowsBy};

use sets::value;
use table::{WORDS, equation_at};

// The wiring of n slots: of slot x the arguments are a[x] and b[x], the left node of its equation is left[x] and its rule in the table is rule[x].
#[derive(Clone, Copy)]
pub struct Wires<'a> {
    pub n: usize,
    pub a: &'a [u16],
    pub b: &'a [u16],
    pub left: &'a [u16],
    pub rule: &'a [u16],
}

// The set of an argument, empty where there is none.
fn read(sets: &[u64], y: usize, n: usize) -> u64
    requires { n ≤ length sets.now }
    ensures { result ≡ read_of n (at sets.now) y }
{
    if y < n { sets[y] } else { 0 }
}

// The value of the equation of x.
fn evaluate(table: &[u64; WORDS], owns: &[u64], wires: Wires, sets: &[u64], x: usize) -> u64
    requires row { RowBy owns.now wires x }
    requires n_in_bounds { wires.n ≤ length sets.now }
    ensures { result ≡ (wired_by table.now owns.now wires.entry).eval (at sets.now) x }
{
    let node = usize::from(wires.left[x]);
    let y = read(sets, usize::from(wires.a[x]), wires.n);
    let z = read(sets, usize::from(wires.b[x]), wires.n);
    let equation = equation_at(table, usize::from(wires.rule[x]));
    value(equation, owns[node], y, z)
}

// The values of a round, each at its member's place; whether none differs from the set held.
fn compute(
    table: &[u64; WORDS],
    owns: &[u64],
    wires: Wires,
    circle: &[u16],
    sets: &[u64],
    values: &mut [u64],
) -> bool
    requires rows { RowsBy owns.now wires circle.now }
    requires n_in_bounds { (wires.n ≤ length sets.now) × (length circle.now ≤ length values.old) }
    ensures still { result ≡ still_on (wired_by table.now owns.now wires.entry) circle.now sets.now }
    ensures values { values.new ≡ row values.old 0 (map ((wired_by table.now owns.now wires.entry).eval (at sets.now)) circle.now) }
{
    let mut still = true;
    for (p, x) in circle.iter().enumerate() {
        let x = usize::from(*x);
        let v = evaluate(table, owns, wires, sets, x);
        still = still && v == sets[x];
        values[p] = v;
    }
    still
}

// The values stored together.
#[tactic(auto, using(crate::proofs::Places::puts_more, crate::proofs::Places::puts_end))]
fn store(circle: &[u16], values: &[u64], sets: &mut [u64])
    requires span { Span circle.now (length sets.old) 0 (length circle.now) }
    requires end_in_bounds { length circle.now ≤ length values.now }
    ensures { sets.new ≡ puts sets.old circle.now values.now }
{
    for (p, x) in circle.iter().enumerate() {
        sets[usize::from(*x)] = values[p];
    }
}

// One round of a circle: whether it altered nothing. The values pass through `values`, each at its member's place.
pub fn round(
    table: &[u64; WORDS],
    owns: &[u64],
    wires: Wires,
    circle: &[u16],
    sets: &mut [u64],
    values: &mut [u64],
) -> bool
    requires rows { RowsBy owns.now wires circle.now }
    requires n_in_bounds { (wires.n ≤ length sets.old) × (length circle.now ≤ length values.old) }
    ensures still { result ≡ still_on (wired_by table.now owns.now wires.entry) circle.now sets.old }
    ensures sets { sets.new ≡ round_on (wired_by table.now owns.now wires.entry) circle.now sets.old }
    ensures values { values.new ≡ row values.old 0 (map ((wired_by table.now owns.now wires.entry).eval (at sets.old)) circle.now) }
{
    let still = compute(table, owns, wires, circle, sets, values);
    store(circle, values, sets);
    still
}

// The circle's sets become empty.
#[tactic(auto, using(crate::proofs::Places::stores_more, crate::proofs::Places::stores_end))]
pub fn empty_circle(circle: &[u16], sets: &mut [u64])
    requires { Span circle.now (length sets.old) 0 (length circle.now) }
    ensures { sets.new ≡ empty_on circle.now sets.old }
{
    for x in circle {
        sets[usize::from(*x)] = 0;
    }
}

// Whether the circle is lone: one instance, and not among its own arguments.
#[tactic(auto, using(crate::proofs::Places::lone_one, crate::proofs::Places::lone_many))]
pub fn lone(wires: Wires, circle: &[u16]) -> bool
    requires span { Span circle.now wires.n 0 (length circle.now) }
    requires n_in_bounds { (wires.n ≤ length wires.a.now) × (wires.n ≤ length wires.b.now) }
    ensures { result ≡ lone_of (graph_of wires.entry.n wires.entry.a.now wires.entry.b.now) circle.now }
{
    let [x] = circle else {
        return false;
    };
    let x = usize::from(*x);
    usize::from(wires.a[x]) != x && usize::from(wires.b[x]) != x
}

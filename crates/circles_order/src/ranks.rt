ghost use Rattle.std.specs.Prelude.{◌≡◌, ℕ, ◌+◌, ◌*◌, ◌<◌, ◌≤◌, MatchOption, get_or, length};
ghost use Rattle.std.proofs.lemmas.List.Edits.{sets};
ghost use Rattle.circles.specs.Arrays.{Given, graph_of};
ghost use Rattle.circles_find.specs.Inner.Search.{Arg, Chained, arg_of, Marked, Roll};
ghost use Rattle.circles_find.specs.Inner.Labels.{Kin};
ghost use Rattle.circles_order.specs.Inner.Turns.{Says, Settled, Free, Advanced, Bits, Put, Pulled, Cursors, Moved, SureAt, Turn, Outset, members_from, Agrees, Covered, Listed};
ghost use Rattle.circles.specs.Marks.{slots_most};

use circles::Graph;
use circles_find::Readers;

// A circle that is taken has this mark.
const TAKEN: u16 = 1;

// The ready circles stand in words, one a bit; the last word has a bit for each other one that has a ready circle.
const WORDS: usize = 65;

const BLOCKS: usize = WORDS - 1;

// The circles of a graph: label[x] is the least of x's circle, and after[x] its next member behind x; a number past the slots is none.
#[derive(Clone, Copy)]
pub struct Labels<'a> {
    pub label: &'a [u16],
    pub after: &'a [u16],
}

// A ranking where it stands: the graph, its circles, and which of them are taken.
#[derive(Clone, Copy)]
struct Ranking<'a> {
    g: Graph<'a>,
    labels: Labels<'a>,
    taken: &'a [u16],
}

// Whether y, an argument of the circle l, is none, or in l, or in a taken circle.
fn settled(r: Ranking, l: u16, y: u16) -> bool
    requires { (r.g.n ≤ slots_most) × (r.g.n ≤ length r.labels.label.now) × (r.g.n ≤ length r.taken.now) × (y < r.g.n → get_or r.labels.label.now y 0 < r.g.n) }
    ensures { Says (Settled r.entry.g.n r.entry.labels.label.now r.entry.taken.now l y) result }
{
    let i = usize::from(y);
    r.g.n <= i || r.labels.label[i] == l || r.taken[usize::from(r.labels.label[i])] == TAKEN
}

// Whether both arguments of x, in the circle l, are settled.
fn free(r: Ranking, l: u16, x: usize) -> bool
    requires n_le_slots_most { (r.g.n ≤ slots_most) × (r.g.n ≤ length r.labels.label.now) × (r.g.n ≤ length r.taken.now) × (x < r.g.n) }
    requires x_bound { (get_or r.g.a.now x 0 < r.g.n → get_or r.labels.label.now (get_or r.g.a.now x 0) 0 < r.g.n) × (get_or r.g.b.now x 0 < r.g.n → get_or r.labels.label.now (get_or r.g.b.now x 0) 0 < r.g.n) }
    ensures { Says (Free r.entry.g.n r.entry.g.a.now r.entry.g.b.now r.entry.labels.label.now r.entry.taken.now l x) result }
{
    settled(r, l, r.g.a[x]) && settled(r, l, r.g.b[x])
}

// The first member of the circle l from x on that is not free, or what is past the end.
fn advance(r: Ranking, l: u16, x: u16) -> u16
    requires { Kin r.g.n r.labels.label.now r.labels.after.now × Covered r.g.n r.g.a.now r.g.b.now r.labels.label.now × (r.g.n ≤ length r.taken.now) × (l < r.g.n) × (x < r.g.n → get_or r.labels.label.now x 0 ≡ l) }
    ensures { Advanced r.entry.g.n r.entry.g.a.now r.entry.g.b.now r.entry.labels.label.now r.entry.taken.now l x result }
{
    let m = r.g.n as u16;
    let mut e = x;
    while e < m {
        let i = usize::from(e);
        if !free(r, l, i) {
            return e;
        }
        e = r.labels.after[i];
    }
    e
}

// Makes l ready.
fn put(l: usize, ready: &mut [u64; WORDS])
    requires { (l < slots_most) × Bits ready.old }
    ensures { Put l ready.old ready.new }
{
    let k = l / 64;
    ready[k] |= 1 << (l % 64);
    ready[BLOCKS] |= 1 << k;
}

// The least of what is ready, which is ready no more.
fn pull(ready: &mut [u64; WORDS]) -> Option<usize>
    requires { Bits ready.old }
    ensures { MatchOption result (Pulled ready.old ready.new slots_most)
        (λ l. (l < slots_most) × Pulled ready.old ready.new l) }
{
    let s = ready[BLOCKS];
    if s == 0 {
        return None;
    }
    let k = s.trailing_zeros() as usize;
    let w = ready[k];
    let i = w.trailing_zeros() as usize;
    let rest = w & (w - 1);
    ready[k] = rest;
    if rest == 0 {
        ready[BLOCKS] = s & (s - 1);
    }
    Some(64 * k + i)
}

// Where w is what its circle's cursor stands at, the cursor moves on; where it gets past the end, the circle is ready.
fn touch(r: Ranking, w: u16, cur: &mut [u16], ready: &mut [u64; WORDS])
    requires kin { Kin r.g.n r.labels.label.now r.labels.after.now × Covered r.g.n r.g.a.now r.g.b.now r.labels.label.now × (r.g.n ≤ length r.taken.now) × (w < r.g.n) × (get_or r.labels.label.now w 0 < r.g.n) }
    requires cursors { Cursors r.g.n r.g.a.now r.g.b.now r.labels.label.now r.taken.now cur.old × Bits ready.old }
    ensures { Moved r.entry.g.n r.entry.g.a.now r.entry.g.b.now r.entry.labels.label.now r.entry.taken.now cur.old ready.old cur.new ready.new × SureAt r.entry.g.n r.entry.g.a.now r.entry.g.b.now r.entry.labels.label.now r.entry.taken.now cur.new w }
{
    let l = r.labels.label[usize::from(w)];
    let j = usize::from(l);
    if cur[j] != w {
        return;
    }
    let d = advance(r, l, w);
    cur[j] = d;
    if r.g.n <= usize::from(d) {
        put(j, ready);
    }
}

// Touches whatever reads y, by the chains of readers.
fn retire(r: Ranking, readers: Readers, y: usize, cur: &mut [u16], ready: &mut [u64; WORDS])
    requires y_lt_n { (y < r.g.n) × Chained (arg_of r.g.a.now r.g.b.now) (2 * r.g.n) r.g.n readers.first.now readers.next.now × Kin r.g.n r.labels.label.now r.labels.after.now × Covered r.g.n r.g.a.now r.g.b.now r.labels.label.now × (r.g.n ≤ length r.taken.now) }
    requires cursors { Cursors r.g.n r.g.a.now r.g.b.now r.labels.label.now r.taken.now cur.old × Bits ready.old }
    ensures { Moved r.entry.g.n r.entry.g.a.now r.entry.g.b.now r.entry.labels.label.now r.entry.taken.now cur.old ready.old cur.new ready.new × ((w : ℕ) → Arg r.entry.g.n r.entry.g.a.now r.entry.g.b.now w y → SureAt r.entry.g.n r.entry.g.a.now r.entry.g.b.now r.entry.labels.label.now r.entry.taken.now cur.new w) }
{
    let mut e = usize::from(readers.first[y]);
    while e < 2 * r.g.n {
        touch(r, (e / 2) as u16, cur, ready);
        e = usize::from(readers.next[e]);
    }
}

// Touches whatever reads a member of the circle l.
fn retire_circle(r: Ranking, readers: Readers, l: usize, cur: &mut [u16], ready: &mut [u64; WORDS])
    requires l_lt_n { (l < r.g.n) × Chained (arg_of r.g.a.now r.g.b.now) (2 * r.g.n) r.g.n readers.first.now readers.next.now × Kin r.g.n r.labels.label.now r.labels.after.now × Covered r.g.n r.g.a.now r.g.b.now r.labels.label.now × (r.g.n ≤ length r.taken.now) }
    requires cursors { Cursors r.g.n r.g.a.now r.g.b.now r.labels.label.now r.taken.now cur.old × Bits ready.old × (get_or r.labels.label.now l 0 ≡ l) }
    ensures { Moved r.entry.g.n r.entry.g.a.now r.entry.g.b.now r.entry.labels.label.now r.entry.taken.now cur.old ready.old cur.new ready.new × ((y w : ℕ) → y < r.entry.g.n → get_or r.entry.labels.label.now y 0 ≡ l → Arg r.entry.g.n r.entry.g.a.now r.entry.g.b.now w y → SureAt r.entry.g.n r.entry.g.a.now r.entry.g.b.now r.entry.labels.label.now r.entry.taken.now cur.new w) }
{
    let mut y = l;
    while y < r.g.n {
        retire(r, readers, y, cur, ready);
        y = usize::from(r.labels.after[y]);
    }
}

// Writes the circle l, rising, from pos on: where it ends.
fn lay_circle(n: usize, labels: Labels, l: u16, members: &mut [u16], pos: usize) -> usize
    requires { Kin n labels.label.now labels.after.now × (l < n) × (get_or labels.label.now l 0 ≡ l) × (pos + length (members_from n labels.label.now l 0) ≤ length members.old) }
    ensures { (members.new ≡ sets members.old pos (members_from n labels.entry.label.now l 0)) × (result ≡ pos + length (members_from n labels.entry.label.now l 0)) }
{
    let m = n as u16;
    let mut y = l;
    let mut p = pos;
    while y < m {
        members[p] = y;
        p += 1;
        y = labels.after[usize::from(y)];
    }
    p
}

// The cursor of the slot l, where it leads a circle: at its first member with an argument outside.
fn start_cursor(r: Ranking, l: u16, cur: &mut [u16], ready: &mut [u64; WORDS])
    requires { Kin r.g.n r.labels.label.now r.labels.after.now × Covered r.g.n r.g.a.now r.g.b.now r.labels.label.now × (l < r.g.n) × ((y : ℕ) → get_or r.taken.now y 0 ≡ 1 → ⊥) × Turn r.g.n r.g.a.now r.g.b.now r.labels.label.now r.taken.now cur.old ready.old l }
    ensures { Turn r.entry.g.n r.entry.g.a.now r.entry.g.b.now r.entry.labels.label.now r.entry.taken.now cur.new ready.new (l + 1) }
{
    let j = usize::from(l);
    if r.labels.label[j] != l {
        return;
    }
    let d = advance(r, l, l);
    cur[j] = d;
    if r.g.n <= usize::from(d) {
        put(j, ready);
    }
}

// Before the first turn, by the list of the slots that have a label: each circle's cursor stands at its first member that is not free.
fn start_turns(r: Ranking, listed: &[u16], cur: &mut [u16], ready: &mut [u64; WORDS])
    requires { Kin r.g.n r.labels.label.now r.labels.after.now × Covered r.g.n r.g.a.now r.g.b.now r.labels.label.now × Outset r.g.n r.taken.now cur.old ready.old × Roll (Marked r.g.n r.labels.label.now) r.g.n listed.now (length listed.now) }
    ensures { Turn r.entry.g.n r.entry.g.a.now r.entry.g.b.now r.entry.labels.label.now r.entry.taken.now cur.new ready.new r.entry.g.n }
{
    for l in listed {
        start_cursor(r, *l, cur, ready);
    }
}

// Takes the circles, one after the other, the least ready one first, and lays them out: how many there are.
fn take_circles(
    g: Graph,
    readers: Readers,
    labels: Labels,
    taken: &mut [u16],
    cur: &mut [u16],
    ready: &mut [u64; WORDS],
    members: &mut [u16],
    ends: &mut [u16],
) -> usize
    requires given { Given g.n g.a.now g.b.now × Kin g.n labels.label.now labels.after.now × Agrees g.n g.a.now g.b.now labels.label.now × Chained (arg_of g.a.now g.b.now) (2 * g.n) g.n readers.first.now readers.next.now }
    requires turn { Turn g.n g.a.now g.b.now labels.label.now taken.old cur.old ready.old g.n × ((y : ℕ) → get_or taken.old y 0 ≡ 1 → ⊥) }
    requires n_in_bounds { (g.n ≤ length members.old) × (g.n + 1 ≤ length ends.old) }
    ensures { Listed (graph_of g.entry.n g.entry.a.now g.entry.b.now) members.old ends.old members.new ends.new result }
{
    ends[0] = 0;
    let mut pos: usize = 0;
    for count in 0..g.n {
        let Some(l) = pull(ready) else {
            return count;
        };
        taken[l] = TAKEN;
        pos = lay_circle(g.n, labels, l as u16, members, pos);
        ends[count + 1] = pos as u16;
        retire_circle(Ranking { g, labels, taken }, readers, l, cur, ready);
    }
    g.n
}

// The ranking over labels, chains and the list of the slots that have a label.
pub fn rank_labelled(
    g: Graph,
    readers: Readers,
    labels: Labels,
    listed: &[u16],
    taken: &mut [u16],
    cur: &mut [u16],
    members: &mut [u16],
    ends: &mut [u16],
) -> usize
    requires given { Given g.n g.a.now g.b.now × Kin g.n labels.label.now labels.after.now × Agrees g.n g.a.now g.b.now labels.label.now × Chained (arg_of g.a.now g.b.now) (2 * g.n) g.n readers.first.now readers.next.now }
    requires roll { Roll (Marked g.n labels.label.now) g.n listed.now (length listed.now) × (g.n ≤ length taken.old) × ((y : ℕ) → get_or taken.old y 0 ≡ 1 → ⊥) × (g.n ≤ length cur.old) }
    requires n_in_bounds { (g.n ≤ length members.old) × (g.n + 1 ≤ length ends.old) }
    ensures { Listed (graph_of g.entry.n g.entry.a.now g.entry.b.now) members.old ends.old members.new ends.new result }
{
    let mut ready = [0u64; WORDS];
    start_turns(Ranking { g, labels, taken }, listed, cur, &mut ready);
    take_circles(g, readers, labels, taken, cur, &mut ready, members, ends)
}

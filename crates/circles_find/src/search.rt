ghost use Rattle.std.specs.Prelude.{◌≡◌, ℕ, ◌+◌, ◌*◌, ◌<◌, ◌≤◌, get_or, length};
ghost use Rattle.circles.specs.Arrays.{Given, graph_of, over};
ghost use Rattle.circles.specs.Ranked.{labels_of};
ghost use Rattle.circles_find.specs.Inner.Labels.{Reps, Stale, Took, Cleared, Lowered, Kin};
ghost use Rattle.circles_find.specs.Inner.Search.{unmarked, Arg, arg_of, value_in, Visited, Clean, Found, Lone, Linked, Chained, Swept, Blank, Stated, Marked, Roll, Room, Back};
ghost use Rattle.circles.specs.Marks.{slots_most, not_declared, no_slot};

use crate::order::{Walked, leaving_order};
use circles::{Graph, NO_SLOT, UNDECLARED};

// The mark of a slot that has no label yet, and of a chain that has no place: no slot has it.
pub const UNMARKED: u16 = 65_533;

// What reads each slot y, as a chain of the places at which y stands: 2 x and 2 x + 1 are those of a[x] and b[x], first[y] is the least, next[e] the one behind e, and a number past the places is none.
#[derive(Clone, Copy)]
pub struct Readers<'a> {
    pub first: &'a [u16],
    pub next: &'a [u16],
}

// A search marks by x and goes through those slots y alone that okay[y] == k allows.
#[derive(Clone, Copy)]
struct Search<'a> {
    x: u16,
    okay: &'a [u16],
    k: u16,
}

// Puts the place e before the chain of y, where y is a slot.
fn link(n: usize, y: u16, e: usize, first: &mut [u16], next: &mut [u16])
    requires { (n ≤ length first.old) × (e < length next.old) × (e < 8192) }
    ensures { Linked n y e first.old next.old first.new next.new }
{
    let i = usize::from(y);
    if i < n {
        next[e] = first[i];
        first[i] = e as u16;
    }
}

// Chains what reads each slot, by its places among the arguments and the list of the declared slots.
fn chain_readers(g: Graph, listed: &[u16], first: &mut [u16], next: &mut [u16])
    requires { (g.n ≤ slots_most) × Roll (Stated g.a.now) g.n listed.now (length listed.now) × Blank g.n first.old × (2 * g.n ≤ length next.old) }
    ensures { Chained (arg_of g.entry.a.now g.entry.b.now) (2 * g.entry.n) g.entry.n first.new next.new }
{
    for x in listed.iter().rev() {
        let x = usize::from(*x);
        link(g.n, g.b[x], 2 * x + 1, first, next);
        link(g.n, g.a[x], 2 * x, first, next);
    }
}

// Chains the slots of each label, by the list of those that have one.
fn chain_members(n: usize, listed: &[u16], rep: &[u16], low: &mut [u16], after: &mut [u16])
    requires { (n ≤ slots_most) × (n ≤ length rep.now) × Roll (Marked n rep.now) n listed.now (length listed.now) × Blank n low.old × (n ≤ length after.old) }
    ensures { Chained (value_in rep.now) n n low.new after.new }
{
    for x in listed.iter().rev() {
        let x = usize::from(*x);
        link(n, rep[x], x, low, after);
    }
}

// One look at y: where it is a slot that the search may go through and has no mark, it is marked and queued.
#[tactic(auto, using(crate::proofs::Stamps::stamped_lt))]
fn look(n: usize, y: u16, s: Search, mark: &mut [u16], queue: &mut [u16], tail: usize) -> usize
    requires { (n ≤ slots_most) × (n ≤ length s.okay.now) × Room n s.x mark.old queue.old tail }
    ensures { Visited n y s.entry.x s.entry.okay.now s.entry.k mark.old queue.old mark.new queue.new tail result }
{
    let i = usize::from(y);
    if n <= i || s.okay[i] != s.k || mark[i] == s.x {
        return tail;
    }
    mark[i] = s.x;
    queue[tail] = y;
    tail + 1
}

// Marks, from a clean slate, what x gets to by reading.
fn mark_reads(g: Graph, s: Search, mark: &mut [u16], queue: &mut [u16])
    requires n_le_slots_most { (g.n ≤ slots_most) × (g.n ≤ length s.okay.now) × Clean g.n s.x mark.old × (g.n ≤ length mark.old) × (length mark.old ≤ length queue.old) }
    requires stated { Stated g.a.now s.x × ((y : ℕ) → y < g.n → get_or s.okay.now y 0 ≡ s.k → Stated g.a.now y) }
    ensures { Found g.entry.n (Arg g.entry.n g.entry.a.now g.entry.b.now) s.entry.okay.now s.entry.k s.entry.x mark.old mark.new }
{
    mark[usize::from(s.x)] = s.x;
    queue[0] = s.x;
    let mut head: usize = 0;
    let mut tail: usize = 1;
    while head < tail {
        let v = usize::from(queue[head]);
        tail = look(g.n, g.a[v], s, mark, queue, tail);
        tail = look(g.n, g.b[v], s, mark, queue, tail);
        head += 1;
    }
}

// A look at each slot that reads v, by the chains of readers.
fn sweep(
    g: Graph,
    readers: Readers,
    v: usize,
    s: Search,
    mark: &mut [u16],
    queue: &mut [u16],
    tail: usize,
) -> usize
    requires { (g.n ≤ slots_most) × (v < g.n) × Chained (arg_of g.a.now g.b.now) (2 * g.n) g.n readers.first.now readers.next.now × (g.n ≤ length s.okay.now) × Room g.n s.x mark.old queue.old tail }
    ensures { Swept g.entry.n g.entry.a.now g.entry.b.now v s.entry.x s.entry.okay.now s.entry.k mark.old queue.old mark.new queue.new tail result }
{
    let mut t = tail;
    let mut e = usize::from(readers.first[v]);
    while e < 2 * g.n {
        t = look(g.n, (e / 2) as u16, s, mark, queue, t);
        e = usize::from(readers.next[e]);
    }
    t
}

// Marks, from a clean slate, what gets to x by reading: how many they are.
fn mark_readers(g: Graph, readers: Readers, s: Search, mark: &mut [u16], queue: &mut [u16]) -> usize
    requires n_le_slots_most { (g.n ≤ slots_most) × (g.n ≤ length s.okay.now) × Clean g.n s.x mark.old × (g.n ≤ length mark.old) × (length mark.old ≤ length queue.old) }
    requires chained { Chained (arg_of g.a.now g.b.now) (2 * g.n) g.n readers.first.now readers.next.now }
    ensures { Found g.entry.n (Back (Arg g.entry.n g.entry.a.now g.entry.b.now)) s.entry.okay.now s.entry.k s.entry.x mark.old mark.new × Lone g.entry.n s.entry.x mark.new result }
{
    mark[usize::from(s.x)] = s.x;
    queue[0] = s.x;
    let mut head: usize = 0;
    let mut tail: usize = 1;
    while head < tail {
        tail = sweep(g, readers, usize::from(queue[head]), s, mark, queue, tail);
        head += 1;
    }
    tail
}

// Labels the circle of x, which has no label, by x: what reads its way to x, and of that what x reads its way to. Most circles are lone slots, for which a call of its own weighs.
#[inline(always)]
fn take_circle(
    g: Graph,
    readers: Readers,
    x: u16,
    rep: &mut [u16],
    seen: &mut [u16],
    queue: &mut [u16],
)
    requires n_le_slots_most { (g.n ≤ slots_most) × Chained (arg_of g.a.now g.b.now) (2 * g.n) g.n readers.first.now readers.next.now }
    requires reps { Reps g.n g.a.now g.b.now rep.old × Stale g.n seen.old rep.old × (length rep.old ≤ length queue.old) × (length seen.old ≤ length queue.old) }
    requires x_lt_n { (x < g.n) × (get_or rep.old x 0 ≡ unmarked) × (get_or g.a.now x 0 ≡ not_declared → ⊥) }
    ensures { Took g.entry.n g.entry.a.now g.entry.b.now x rep.old rep.new seen.new }
{
    let unlabelled = Search {
        x,
        okay: rep,
        k: UNMARKED,
    };
    let count = mark_readers(g, readers, unlabelled, seen, queue);
    if count == 1 {
        rep[usize::from(x)] = x;
        return;
    }
    let found = Search {
        x,
        okay: seen,
        k: x,
    };
    mark_reads(g, found, rep, queue);
}

// The same where x is a declared slot with no label, and else nothing.
fn try_circle(
    g: Graph,
    readers: Readers,
    x: u16,
    rep: &mut [u16],
    seen: &mut [u16],
    queue: &mut [u16],
)
    requires n_le_slots_most { (g.n ≤ slots_most) × Chained (arg_of g.a.now g.b.now) (2 * g.n) g.n readers.first.now readers.next.now }
    requires reps { Reps g.n g.a.now g.b.now rep.old × Stale g.n seen.old rep.old × (length rep.old ≤ length queue.old) × (length seen.old ≤ length queue.old) }
    ensures { Took g.entry.n g.entry.a.now g.entry.b.now x rep.old rep.new seen.new }
{
    let i = usize::from(x);
    if g.n <= i || g.a[i] == UNDECLARED || rep[i] != UNMARKED {
        return;
    }
    take_circle(g, readers, x, rep, seen, queue);
}

// Labels every circle of declared slots, each by one of its own, in the order given, whatever that has, and then by the list.
fn label_circles(
    g: Graph,
    readers: Readers,
    listed: &[u16],
    order: &[u16],
    rep: &mut [u16],
    seen: &mut [u16],
    queue: &mut [u16],
)
    requires n_le_slots_most { (g.n ≤ slots_most) × Chained (arg_of g.a.now g.b.now) (2 * g.n) g.n readers.first.now readers.next.now }
    requires roll { Roll (Stated g.a.now) g.n listed.now (length listed.now) }
    requires blank { Blank g.n rep.old × Blank g.n seen.old × (length rep.old ≤ length queue.old) × (length seen.old ≤ length queue.old) }
    ensures { Reps g.entry.n g.entry.a.now g.entry.b.now rep.new × ((y : ℕ) → y < g.entry.n → Stated g.entry.a.now y → Marked g.entry.n rep.new y) }
{
    for x in order {
        try_circle(g, readers, *x, rep, seen, queue);
    }
    for seed in listed {
        if rep[usize::from(*seed)] == UNMARKED {
            take_circle(g, readers, *seed, rep, seen, queue);
        }
    }
}

// No slot has a label.
fn clear(n: usize, label: &mut [u16])
    requires { n ≤ length label.old }
    ensures { Cleared label.old n label.new }
{
    label[..n].fill(NO_SLOT);
}

// The least of each one's circle, by the chains of labels and the list of those that have one.
fn least_labels(n: usize, listed: &[u16], rep: &[u16], low: &[u16], label: &mut [u16])
    requires n_le_slots_most { (n ≤ slots_most) × (n ≤ length label.old) × (n ≤ length rep.now) × (n ≤ length low.now) × Roll (Marked n rep.now) n listed.now (length listed.now) }
    requires by_index { (y : ℕ) → y < n → get_or label.old y 0 ≡ no_slot }
    ensures { Lowered n rep.now low.now label.old label.new }
{
    for x in listed {
        let x = usize::from(*x);
        label[x] = low[usize::from(rep[x])];
    }
}

// The label of each slot's circle, the next member of it, the chains of what reads each slot, and the list of the slots that have a label: how many they are. Stage, rep, seen and low are its own memory.
pub fn circle_labels(
    g: Graph,
    first: &mut [u16],
    next: &mut [u16],
    slots: &mut [u16],
    queue: &mut [u16],
    stage: &mut [u16],
    rep: &mut [u16],
    seen: &mut [u16],
    low: &mut [u16],
    label: &mut [u16],
    after: &mut [u16],
) -> usize
    requires given { Given g.n g.a.now g.b.now × (g.n ≤ length label.old) × (g.n ≤ length slots.old) × (g.n ≤ length queue.old) × (g.n ≤ length stage.old) × (g.n ≤ length after.old) }
    requires blank { Blank g.n first.old × (2 * g.n ≤ length next.old) × Blank g.n low.old }
    requires blank_marks { Blank g.n rep.old × Blank g.n seen.old × (length rep.old ≤ length queue.old) × (length seen.old ≤ length queue.old) }
    ensures label_after { (label.new ≡ over (labels_of (graph_of g.entry.n g.entry.a.now g.entry.b.now)) label.old) × Kin g.entry.n label.new after.new }
    ensures chained { Chained (arg_of g.entry.a.now g.entry.b.now) (2 * g.entry.n) g.entry.n first.new next.new × Roll (Marked g.entry.n label.new) g.entry.n slots.new result }
{
    let Walked { from, count } = leaving_order(g, slots, after, queue, stage);
    let listed = &slots[..count];
    chain_readers(g, listed, first, next);
    let readers = Readers { first, next };
    label_circles(g, readers, listed, &after[from..g.n], rep, seen, queue);
    chain_members(g.n, listed, rep, low, after);
    clear(g.n, label);
    least_labels(g.n, listed, rep, low, label);
    count
}

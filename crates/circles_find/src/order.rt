ghost use Rattle.std.specs.Prelude.{◌+◌, ◌<◌, ◌≤◌, length};
ghost use Rattle.circles_find.specs.Inner.Search.{Stated, Roll};
ghost use Rattle.circles.specs.Marks.{slots_most};

use circles::{Graph, SLOTS, UNDECLARED};

// The stages of a slot: no walk has come to it, its first argument is looked at next, or its second, or both have been.
pub const UNSEEN: u16 = 4;

const FIRST: u16 = 1;

const SECOND: u16 = 2;

// The argument of v in x, where the walk is at the stage that looks at it and comes to it for the first time. Both move on by a stage.
fn come_to(n: usize, x: &[u16; SLOTS], v: usize, at: u16, stage: &mut [u16]) -> Option<u16>
    requires { (v < n) × (n ≤ slots_most) × (n ≤ length stage.old) × (at < 3) }
{
    if stage[v] != at {
        return None;
    }
    stage[v] = at + 1;
    let y = x[v];
    let i = usize::from(y);
    if n <= i || stage[i] != UNSEEN {
        return None;
    }
    stage[i] = FIRST;
    Some(y)
}

// The next argument of v that the walk comes to.
fn unseen(g: Graph, v: usize, stage: &mut [u16]) -> Option<u16>
    requires { (v < g.n) × (g.n ≤ slots_most) × (g.n ≤ length stage.old) }
{
    come_to(g.n, g.a, v, FIRST, stage).or_else(|| come_to(g.n, g.b, v, SECOND, stage))
}

// A depth-first walk from the root along what is read: each slot goes into the order, from the end, as the walk leaves it. Where the order now begins.
fn walk(
    g: Graph,
    root: usize,
    from: usize,
    order: &mut [u16],
    stack: &mut [u16],
    stage: &mut [u16],
) -> usize
    requires { (root < g.n) × (g.n ≤ slots_most) × (from ≤ g.n) × (g.n ≤ length order.old) × (g.n ≤ length stack.old) × (g.n ≤ length stage.old) }
    ensures { result ≤ g.entry.n }
{
    stage[root] = FIRST;
    stack[0] = root as u16;
    let mut top: usize = 1;
    let mut at = from;
    for _ in 0..2 * g.n {
        if top == 0 {
            return at;
        }
        let v = usize::from(stack[top - 1]);
        if g.n <= v {
            return at;
        }
        match unseen(g, v, stage) {
            Some(w) => {
                if g.n <= top {
                    return at;
                }
                stack[top] = w;
                top += 1;
            }
            None => {
                if at == 0 {
                    return 0;
                }
                at -= 1;
                order[at] = v as u16;
                top -= 1;
            }
        }
    }
    at
}

// Where the order begins, and how many slots are listed.
#[derive(Clone, Copy)]
pub struct Walked {
    pub from: usize,
    pub count: usize,
}

// A declared root is listed, and walked from where no walk has come to it.
fn walk_new(
    g: Graph,
    root: usize,
    w: Walked,
    slots: &mut [u16],
    order: &mut [u16],
    stack: &mut [u16],
    stage: &mut [u16],
) -> Walked
    requires root_lt_n { (root < g.n) × (g.n ≤ slots_most) × (w.from ≤ g.n) × (g.n ≤ length order.old) × (g.n ≤ length stack.old) × (g.n ≤ length stage.old) }
    requires n_in_bounds { (g.n ≤ length slots.old) × Roll (Stated g.a.now) root slots.old w.count }
    ensures { (result.from ≤ g.entry.n) × Roll (Stated g.entry.a.now) (root + 1) slots.new result.count }
{
    if g.a[root] == UNDECLARED {
        return w;
    }
    slots[w.count] = root as u16;
    let from = if stage[root] == UNSEEN {
        walk(g, root, w.from, order, stack, stage)
    } else {
        w.from
    };
    Walked {
        from,
        count: w.count + 1,
    }
}

// The list of the declared slots; and an order of them in which the labelling does little work, on which nothing rests: by falling time of leaving in a depth-first walk.
pub fn leaving_order(
    g: Graph,
    slots: &mut [u16],
    order: &mut [u16],
    stack: &mut [u16],
    stage: &mut [u16],
) -> Walked
    requires { (g.n ≤ slots_most) × (g.n ≤ length slots.old) × (g.n ≤ length order.old) × (g.n ≤ length stack.old) × (g.n ≤ length stage.old) }
    ensures { (result.from ≤ g.entry.n) × Roll (Stated g.entry.a.now) g.entry.n slots.new result.count }
{
    let mut w = Walked {
        from: g.n,
        count: 0,
    };
    for root in 0..g.n {
        w = walk_new(g, root, w, slots, order, stack, stage);
    }
    w
}

// The calls of a day as a tape, a letter each.
// A row of so many points, of which the first two are named and take one node each: the nodes from one place to another, with the own sets from a third on.
#[derive(Clone, Copy)]
pub struct Row {
    pub count: usize,
    pub first: usize,
    pub second: usize,
    pub from: usize,
    pub to: usize,
    pub own: usize,
}

// What may change the held tree, by places in the day's nodes and own sets.
#[derive(Clone, Copy)]
pub enum Change {
    // a load of the nodes from one place to another, with the own sets from the first place to a third
    Load(usize, usize, usize),
    // a load with a set too few lent
    Short,
    // a replacement at a point by the nodes from one place to another, with the own sets from a third on
    Replace(usize, usize, usize, usize),
    // a replacement at the points of a row
    ReplacePoints(Row),
}

// What works on an open update.
#[derive(Clone, Copy)]
pub enum Work {
    Step,
    Run(u64),
    RunRecord(u64),
}

// What only looks, at an instance, at those of a day, at all that is lent; or goes on with an empty record, with one beyond its limits, or with a new line.
#[derive(Clone, Copy)]
pub enum Look {
    Read(usize),
    Day,
    Memory,
    Empty,
    Beyond,
    Line,
}

#[derive(Clone, Copy)]
pub enum Call {
    Change(Change),
    Work(Work),
    Look(Look),
}

// More rounds than an update of these days takes.
const ENOUGH: u64 = 1_000_000;

// Behind the places of a day's 512 nodes stands a production that its table doesn't have, with an empty own set.
const LAST: usize = 512;

pub const ALL: usize = 513;

// The last two own sets, for two nodes: empty where the tree ends before them.
const PAIR: usize = 511;

// A row of so many points by a day's nodes from a place to the end, which are two unless one is to be missing.
fn row_by(count: usize, first: usize, second: usize, from: usize, nodes: usize) -> Change {
    Change::ReplacePoints(Row {
        count,
        first,
        second,
        from,
        to: nodes,
        own: PAIR,
    })
}

fn row_of(letter: u8, nodes: usize, point: usize) -> Change {
    let last = nodes.wrapping_sub(1);
    let two = nodes.wrapping_sub(2);
    match letter {
        b'2' => row_by(2, point, point, two, nodes),
        b'j' => row_by(2, last, point, two, nodes),
        b'q' => row_by(2, point, nodes, two, nodes),
        b'z' => row_by(0, point, last, two, nodes),
        b'9' => row_by(9, point, last, two, nodes),
        b'y' => row_by(2, point, last, last, nodes),
        _ => row_by(2, point, last, two, nodes),
    }
}

fn change_of(letter: u8, nodes: usize, point: usize) -> Change {
    let last = nodes.wrapping_sub(1);
    match letter {
        b'l' => Change::Load(0, nodes, nodes),
        b'f' => Change::Load(0, nodes, last),
        b'b' => Change::Load(LAST, ALL, ALL),
        b'm' => Change::Load(0, ALL, ALL),
        b'h' => Change::Short,
        b'p' => Change::Replace(point, last, nodes, LAST),
        b'g' => Change::Replace(nodes, last, nodes, LAST),
        b'w' => Change::Replace(point, 0, 1, LAST),
        b'x' => Change::Replace(point, LAST, ALL, LAST),
        b't' => Change::Replace(point, 510, LAST, 511),
        _ => row_of(letter, nodes, point),
    }
}

// A letter's call on a day of so many nodes, whose leaf at the point is replaced by its last node with an empty own set:
// `l` loads the tree, `f` with an own set too few, `b` one of a production beyond the table's, `m` one of 513 nodes, `h` with a set too few lent;
// `p` replaces the leaf, `g` behind the last node, `w` by a part of another symbol, `x` by one of a production beyond the table's, `t` by one of two nodes;
// `d` replaces both the leaf and the last node, in a row, by the last two nodes with empty own sets, `2` names the leaf twice, `j` names the last node first, `q` one behind
// it, `z` no point, `9` nine, `y` has a node too few;
// `s` steps, `0`, `1` and `e` run with budgets of none, one and enough, `u` and `v` run by value with none and one;
// `r` reads the first set, `a` those of a day, `k` looks at all that is lent; `n` takes an empty record, `o` one beyond its limits.
pub fn call_of(letter: u8, nodes: usize, point: usize) -> Call {
    match letter {
        b's' => Call::Work(Work::Step),
        b'0' => Call::Work(Work::Run(0)),
        b'1' => Call::Work(Work::Run(1)),
        b'e' => Call::Work(Work::Run(ENOUGH)),
        b'u' => Call::Work(Work::RunRecord(0)),
        b'v' => Call::Work(Work::RunRecord(1)),
        b'r' => Call::Look(Look::Read(0)),
        b'a' => Call::Look(Look::Day),
        b'k' => Call::Look(Look::Memory),
        b'n' => Call::Look(Look::Empty),
        b'o' => Call::Look(Look::Beyond),
        b' ' => Call::Look(Look::Line),
        _ => Call::Change(change_of(letter, nodes, point)),
    }
}

// A tape's calls, each with its line.
use crate::WORDS;
use crate::lending::{DUST, Lent, run_lent};
use crate::mark::tell_memory;
use crate::reading::{read, read_day};
use crate::tape::{ALL, Call, Change, Look, Row, Work, call_of};
use crate::tell::{tell_begun, tell_ran, tell_stepped};
use engine::{Places, Point, Record};
use std::io::Stdout;

// A day: its nodes and own sets with what stands behind them, how many are the tree's, and the leaf that is replaced.
#[derive(Clone, Copy)]
pub struct Day<'a> {
    pub nodes: &'a [u8],
    pub owns: &'a [u64],
    pub count: usize,
    pub point: usize,
}

// Some of a day's nodes or own sets; all of them where there aren't as many.
fn some_of<T>(all: &[T], from: usize, to: usize) -> &[T] {
    all.get(from..to).unwrap_or(all)
}

// The points of a row. It has room for eight, so one that says nine has no ninth to show.
fn places_of(row: Row) -> Places {
    let mut points = [Point { node: 0, count: 0 }; Record::POINTS];
    points[0] = Point {
        node: row.first,
        count: 1,
    };
    points[1] = Point {
        node: row.second,
        count: 1,
    };
    Places {
        count: row.count,
        points,
    }
}

// A load or a replacement, and the record that it leaves.
fn change(
    output: Stdout,
    table: &[u64; WORDS],
    r: Record,
    change: Change,
    day: Day,
    lent: &mut Lent,
) -> Record {
    let Day { nodes, owns, .. } = day;
    let held = &mut lent.held;
    let held_owns = &mut lent.held_owns;
    let sets = &mut lent.sets;
    let earlier = &mut lent.earlier;
    match change {
        Change::Load(from, to, upto) => {
            let tree = some_of(nodes, from, to);
            let own = some_of(owns, from, upto);
            let d = engine::load(table, r, tree, own, held, held_owns, sets, earlier);
            tell_begun(output, "load", r, d)
        }
        Change::Short => {
            let mut few = [DUST; 4095];
            let d = engine::load(table, r, nodes, owns, held, held_owns, &mut few, earlier);
            tell_begun(output, "load", r, d)
        }
        Change::Replace(point, from, to, own) => {
            let part = some_of(nodes, from, to);
            let own = some_of(owns, own, ALL);
            let d = engine::replace(table, r, point, part, own, held, held_owns, sets, earlier);
            tell_begun(output, "replace", r, d)
        }
        Change::ReplacePoints(row) => {
            let points = places_of(row);
            let new = some_of(nodes, row.from, row.to);
            let own = some_of(owns, row.own, ALL);
            let d = engine::replace_points(
                table, r, points, new, own, held, held_owns, sets, earlier,
            );
            tell_begun(output, "replace_points", r, d)
        }
    }
}

// A step or a run, and the record that it leaves.
fn work(output: Stdout, table: &[u64; WORDS], r: Record, work: Work, lent: &mut Lent) -> Record {
    let held = &lent.held;
    let held_owns = &lent.held_owns;
    let sets = &mut lent.sets;
    let earlier = &lent.earlier;
    match work {
        Work::Step => {
            let d = engine::step(table, r, held, held_owns, sets, earlier);
            tell_stepped(output, r, d)
        }
        Work::Run(budget) => {
            let (answer, next) = run_lent(table, r, held, held_owns, sets, earlier, budget);
            tell_ran(output, "run", budget, answer, next)
        }
        Work::RunRecord(budget) => {
            let d = engine::run_record(table, r, held, held_owns, sets, earlier, budget);
            let (answer, next) = match d {
                Ok(d) => (Ok(d.answer), d.record),
                Err(refusal) => (Err(refusal), r),
            };
            tell_ran(output, "run_record", budget, answer, next)
        }
    }
}

// A record with a node more than its limit.
fn beyond() -> Record {
    Record {
        nodes: Record::NODES + 1,
        ..Record::empty()
    }
}

// A look, and the record to go on with.
fn look(output: Stdout, table: &[u64; WORDS], r: Record, look: Look, lent: &Lent) -> Record {
    match look {
        Look::Read(instance) => read(output, table, r, lent, instance),
        Look::Day => read_day(output, table, r, lent),
        Look::Memory => tell_memory(output, lent),
        Look::Empty => return Record::empty(),
        Look::Beyond => return beyond(),
        Look::Line => {
            let _ = println!(output);
        }
    }
    r
}

// The calls of a tape on a day, one after the other over one record and one set of memory.
pub fn perform(output: Stdout, table: &[u64; WORDS], tape: &[u8], day: Day) {
    let mut lent = Lent::dusty();
    let mut r = Record::empty();
    for letter in tape {
        r = match call_of(*letter, day.count, day.point) {
            Call::Change(c) => change(output, table, r, c, day, &mut lent),
            Call::Work(w) => work(output, table, r, w, &mut lent),
            Call::Look(l) => look(output, table, r, l, &lent),
        };
    }
}

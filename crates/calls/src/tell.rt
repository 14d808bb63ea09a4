// What a call answers, and the record that it leaves, as a line. What can't be printed is left out.
use engine::{Answer, Open, Record, Run, Stepped};
use refusal::{Refusal, number};
use std::io::Stdout;
use update::is_open;

fn tell_refusal(output: Stdout, refusal: Refusal) {
    let _ = print!(output; "refused by {}", number(refusal));
}

fn tell_done(output: Stdout, circles: u64, evaluations: u64, changed: u64) {
    let _ = print!(output; ", circles {circles}, evaluations {evaluations}, changed {changed}");
}

// How many points an update has that was opened at one point, or by a load; without an update there is none.
fn usual_count(open: Open) -> usize {
    usize::from(is_open(open))
}

// What a record has beyond one point: how many points there are, if that is unusual, and what stands at the further places.
fn tell_others(output: Stdout, record: Record) {
    let count = record.count;
    if count != usual_count(record.open) {
        let _ = print!(output; ", points {count}");
    }
    for (place, point) in record.points.iter().enumerate().skip(1) {
        if point.node != 0 || point.count != 0 {
            let _ = print!(output; ", {place}: {} {}", point.node, point.count);
        }
    }
}

// The record's fields in their order, as a line's end. Of the points it has the first place, so that a record with one point is told as shortly as one
// without any; all that is more is said behind.
fn tell_record(output: Stdout, record: Record) {
    let Record {
        nodes,
        rank,
        round,
        circles,
        evaluations,
        ..
    } = record;
    let held = u8::from(record.held);
    let open = record.open as u8;
    let first = record.points[0];
    let _ = print!(output;
        " | {held} {open} {nodes} {} {} {rank} {round} {circles} {evaluations}",
        first.node, first.count
    );
    tell_others(output, record);
    let _ = println!(output);
}

// A load or a replacement, by its name: the record that it leaves goes on, and where it is refused the one that it was given.
pub fn tell_begun(
    output: Stdout,
    name: &str,
    record: Record,
    begun: Result<Record, Refusal>,
) -> Record {
    let _ = print!(output; "{name}: ");
    let next = match begun {
        Ok(next) => {
            let _ = print!(output; "opened");
            next
        }
        Err(refusal) => {
            tell_refusal(output, refusal);
            record
        }
    };
    tell_record(output, next);
    next
}

fn tell_answer(output: Stdout, answer: Answer) {
    match answer {
        Answer::Round {
            least,
            round,
            size,
            closed,
        } => {
            let end = if closed { ", closed" } else { "" };
            let _ = print!(output; "round {round} of circle {least}, sets {size}{end}");
        }
        Answer::Done {
            circles,
            evaluations,
            changed,
        } => {
            let _ = print!(output; "done");
            tell_done(output, circles, evaluations, changed);
        }
    }
}

// A step likewise.
pub fn tell_stepped(output: Stdout, record: Record, stepped: Result<Stepped, Refusal>) -> Record {
    let _ = print!(output; "step: ");
    let next = match stepped {
        Ok(made) => {
            tell_answer(output, made.answer);
            made.record
        }
        Err(refusal) => {
            tell_refusal(output, refusal);
            record
        }
    };
    tell_record(output, next);
    next
}

// A run, by its name and its budget, with the record that it left.
pub fn tell_ran(
    output: Stdout,
    name: &str,
    budget: u64,
    answer: Result<Run, Refusal>,
    next: Record,
) -> Record {
    let _ = print!(output; "{name} {budget}: ");
    match answer {
        Ok(Run::Paused { rounds }) => {
            let _ = print!(output; "paused, rounds {rounds}");
        }
        Ok(
            Run::Finished {
                rounds,
                circles,
                evaluations,
                changed,
            },
        ) => {
            let _ = print!(output; "finished, rounds {rounds}");
            tell_done(output, circles, evaluations, changed);
        }
        Err(refusal) => tell_refusal(output, refusal),
    }
    tell_record(output, next);
    next
}

pub fn tell_reading(output: Stdout, instance: usize, reading: Result<u64, Refusal>) {
    let _ = print!(output; "read {instance}: ");
    match reading {
        Ok(set) => {
            let _ = print!(output; "{set:016x}");
        }
        Err(refusal) => tell_refusal(output, refusal),
    }
    let _ = println!(output);
}

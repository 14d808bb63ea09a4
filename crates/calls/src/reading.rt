// Readings of the held tree, with no update open.
use crate::WORDS;
use crate::lending::Lent;
use crate::mark::{FIRST, mix};
use crate::tell::tell_reading;
use engine::Record;
use refusal::Refusal;
use std::io::Stdout;

fn reading_of(
    table: &[u64; WORDS],
    record: Record,
    lent: &Lent,
    instance: usize,
) -> Result<u64, Refusal> {
    engine::read(
        table,
        record,
        &lent.held,
        &lent.held_owns,
        &lent.sets,
        &lent.earlier,
        instance,
    )
}

pub fn read(output: Stdout, table: &[u64; WORDS], record: Record, lent: &Lent, instance: usize) {
    tell_reading(output, instance, reading_of(table, record, lent, instance));
}

// All that can be read, as one number; a refusal counts as all reasons at once, which no set of these days has.
fn read_all(table: &[u64; WORDS], record: Record, lent: &Lent) -> u64 {
    let mut mark = FIRST;
    for i in 0..Record::SETS {
        let set = reading_of(table, record, lent, i).unwrap_or(u64::MAX);
        mark = mix(mark, set);
    }
    mark
}

// The five sets of session A, which all days declare; one that only the tree of 512 nodes has, one that none has, and one past the last; and then all.
pub fn read_day(output: Stdout, table: &[u64; WORDS], record: Record, lent: &Lent) {
    for instance in [0, 8, 12, 16, 20, 4095, 4, 4096] {
        read(output, table, record, lent, instance);
    }
    let all = read_all(table, record, lent);
    let _ = println!(output; "read all: {all:016x}");
}

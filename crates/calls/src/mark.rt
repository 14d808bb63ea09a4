// All that is lent as one number, so that two lines show whether the calls between them have changed any of it.
use crate::lending::Lent;
use std::io::Stdout;

// A row's mark before its first word.
pub const FIRST: u64 = 1;

// One word more, at its own place in the row.
pub fn mix(mark: u64, word: u64) -> u64 {
    mark.rotate_left(5).wrapping_add(word)
}

// A row's words, one after the other.
fn mix_all<T: Copy + Into<u64>>(mark: u64, row: &[T]) -> u64 {
    row.iter()
        .fold(mark, |mixed, word| mix(mixed, (*word).into()))
}

pub fn tell_memory(output: Stdout, lent: &Lent) {
    let mark = mix_all(FIRST, &lent.held);
    let mark = mix_all(mark, &lent.held_owns);
    let mark = mix_all(mark, &lent.sets);
    let mark = mix_all(mark, &lent.earlier);
    let _ = println!(output; "memory {mark:016x}");
}

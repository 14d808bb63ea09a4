// The form of an equation: which fields its operation uses, and whether the others are zero.
ghost use Rattle.std.specs.Prelude.{◌≡◌, not, ◌&&◌, ltb};
ghost use Rattle.table.specs.Equations.{uses_a, uses_b, uses_c, misformed};

use table::{FIRST, OPERATION};

// No operation has a higher number.
const LAST: u64 = 9;

// No set has more notes, so operation 7 asks for no more.
const NOTES: u64 = 56;

// Which fields an operation uses.
#[tactic(auto, unfolding(table::specs::Equations::uses_a))]
pub fn uses_a(op: u64) -> bool
    ensures { result ≡ uses_a op }
{
    matches!(op, 2..=LAST)
}

#[tactic(auto, unfolding(table::specs::Equations::uses_b))]
pub fn uses_b(op: u64) -> bool
    ensures { result ≡ uses_b op }
{
    matches!(op, 4..=7 | 9)
}

#[tactic(auto, unfolding(table::specs::Equations::uses_c))]
pub fn uses_c(op: u64) -> bool
    ensures { result ≡ uses_c op }
{
    matches!(op, 0 | 2 | 3 | 6 | 7)
}

// A field that the operation does not use, and that is not zero.
fn is_stray(used: bool, field: u64) -> bool
    ensures { result ≡ (not used && ltb 0 field) }
{
    !used && 0 < field
}

// 4: no operation of that number, something in a field that it doesn't use, or an operation 7 with a c above 56.
#[tactic(auto, unfolding(table::specs::Equations::misformed, table::specs::Equations::op_number, table::specs::Equations::a_field, table::specs::Equations::b_field))]
pub fn is_misformed(head: u64, c: u64) -> bool
    ensures { result ≡ misformed head c }
{
    let op = head / OPERATION;
    LAST < op
        || is_stray(uses_a(op), head / FIRST % FIRST)
        || is_stray(uses_b(op), head % FIRST)
        || is_stray(uses_c(op), c)
        || op == 7 && NOTES < c
}

// The test for 21, over the wiring of a tree. A table without operation 9 pays for a look at its heads alone.
ghost use Rattle.std.specs.Prelude.{◌≡◌, ◌<◌, ◌≤◌};
ghost use Rattle.table.specs.Words.{production_count};
ghost use Rattle.wire.specs.Inner.ArrayLaws.{waives_at, waives_in};
ghost use Rattle.wire.specs.Inner.Turns.{Held};
ghost use Rattle.wire.specs.Waivers.{waives};
ghost use Rattle.wire_plan.specs.Inner.Nines.{is_nine, nine_in};
ghost use Rattle.wire_plan.specs.Inner.Prepared.{Tested};

use crate::preparing::prepare;
use circles::SLOTS;
use table::{OPERATION, RULES_EACH, WORDS, head_at, production_count};

// The number of the operation that waives.
const EXCEPT: u64 = 9;

// Whether a rule's operation is 9.
#[tactic(auto, unfolding(table::specs::Equations::op_number))]
fn is_nine(table: &[u64; WORDS], rule: usize) -> bool
    requires { rule < 1280 }
    ensures { result ≡ is_nine table.now rule }
{
    head_at(table, rule) / OPERATION == EXCEPT
}

// Whether the table has an operation 9 at one of its rules' places.
pub fn has_nine(table: &[u64; WORDS]) -> bool
    requires { production_count table.now ≤ 64 }
    ensures { result ≡ nine_in table.now }
{
    let n = RULES_EACH * production_count(table);
    (0..n).any(|rule| is_nine(table, rule))
}

// Whether slot x waives an argument of its own circle.
fn waives_at(
    n: usize,
    table: &[u64; WORDS],
    b: &[u16],
    rule: &[u16],
    label: &[u16],
    x: usize,
) -> bool
    requires tested { Tested n b.now rule.now label.now }
    requires x_lt_n { x < n }
    ensures { result ≡ waives_at n table.now b.now rule.now label.now x }
{
    let y = usize::from(b[x]);
    y < n && is_nine(table, usize::from(rule[x])) && label[y] == label[x]
}

// Whether one of n slots does.
fn waives_in(n: usize, table: &[u64; WORDS], b: &[u16], rule: &[u16], label: &[u16]) -> bool
    requires { Tested n b.now rule.now label.now }
    ensures { result ≡ waives_in n table.now b.now rule.now label.now }
{
    (0..n).any(|x| waives_at(n, table, b, rule, label, x))
}

// By the wiring and the circles of the tree.
pub fn waives_wired(table: &[u64; WORDS], tree: &[u8]) -> bool
    requires { Held table.now tree.now }
    ensures { result ≡ waives table.now tree.now }
{
    let mut a = [0u16; SLOTS];
    let mut b = [0u16; SLOTS];
    let mut left = [0u16; SLOTS];
    let mut rule = [0u16; SLOTS];
    let mut label = [0u16; SLOTS];
    let mut members = [0u16; SLOTS];
    let mut ends = [0u16; SLOTS + 1];
    prepare(
        table,
        tree,
        &mut a,
        &mut b,
        &mut left,
        &mut rule,
        &mut label,
        &mut members,
        &mut ends,
    );
    waives_in(8 * tree.len(), table, &b, &rule, &label)
}

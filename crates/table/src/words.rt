// What the words of a table say. The top field of a word takes all that is above it, so that any words are a table.
ghost use Rattle.std.specs.Prelude.{◌≡◌, ◌<◌, ◌≤◌};
ghost use Rattle.table.specs.Words.{symbol_count, production_count, synthesized, inherited, left_of, child_count, child_of, symbol_at, defined, has_set, occurs, head_at, constant_at};
ghost use Rattle.table.specs.Shape.{Shaped};

// So many words a table has.
pub const WORDS: usize = 2_657;

// Where the words of symbols and of productions begin, and of rules, two words each: a head and a constant.
pub const SYMBOLS: usize = 1;

pub const PRODUCTIONS: usize = 33;

pub const HEADS: usize = 97;

pub const CONSTANTS: usize = 98;

// So many rules have a place in a production: so many at each of its five positions.
pub const RULES_EACH: usize = 20;

pub const SETS_EACH: usize = 4;

// Of two bytes in a word the upper one: the first of two counts, and an argument's position above its index.
pub const UPPER: u64 = 256;

// Of a rule's head the first argument, above the second, and the operation above both.
pub const FIRST: u64 = 65_536;

pub const OPERATION: u64 = 4_294_967_296;

// Of a production's word the left symbol, above the count of its children, and the count.
const LEFT: u64 = 1_099_511_627_776;

const COUNT: u64 = 4_294_967_296;

// So many values a byte has.
const BYTE: u64 = 256;

// A word as an index.
pub fn number(x: u64) -> usize
    ensures { result ≡ x }
{
    x as usize
}

#[tactic(auto, unfolding(crate::specs::Words::symbol_count))]
pub fn symbol_count(table: &[u64; WORDS]) -> usize
    ensures { result ≡ symbol_count table.now }
{
    (table[0] / UPPER) as usize
}

#[tactic(auto, unfolding(crate::specs::Words::production_count))]
pub fn production_count(table: &[u64; WORDS]) -> usize
    ensures { result ≡ production_count table.now }
{
    (table[0] % UPPER) as usize
}

#[tactic(auto, unfolding(crate::specs::Words::synthesized))]
pub fn synthesized_of(table: &[u64; WORDS], s: usize) -> usize
    requires { s < 32 }
    ensures { result ≡ synthesized table.now s }
{
    (table[SYMBOLS + s] / UPPER) as usize
}

#[tactic(auto, unfolding(crate::specs::Words::inherited))]
pub fn inherited_of(table: &[u64; WORDS], s: usize) -> usize
    requires { s < 32 }
    ensures { result ≡ inherited table.now s }
{
    (table[SYMBOLS + s] % UPPER) as usize
}

#[tactic(auto, unfolding(crate::specs::Words::left_of))]
pub fn left_of(table: &[u64; WORDS], p: usize) -> usize
    requires { p < 64 }
    ensures { result ≡ left_of table.now p }
{
    (table[PRODUCTIONS + p] / LEFT) as usize
}

#[tactic(auto, unfolding(crate::specs::Words::child_count))]
pub fn child_count(table: &[u64; WORDS], p: usize) -> usize
    requires { p < 64 }
    ensures { result ≡ child_count table.now p }
{
    (table[PRODUCTIONS + p] / COUNT % BYTE) as usize
}

// The symbol of a child: of the four bytes below the count the first child's is the highest.
#[tactic(auto, unfolding(crate::specs::Words::child_of))]
pub fn child_of(table: &[u64; WORDS], p: usize, k: usize) -> usize
    requires { (p < 64) × (k < 4) }
    ensures { result ≡ child_of table.now p k }
{
    ((table[PRODUCTIONS + p] >> (24 - 8 * k)) % BYTE) as usize
}

// The symbol at a position of a production.
pub fn symbol_at(table: &[u64; WORDS], p: usize, q: usize) -> usize
    requires { (p < 64) × (q ≤ 4) }
    ensures { result ≡ symbol_at table.now p q }
{
    if q == 0 {
        left_of(table, p)
    } else {
        child_of(table, p, q - 1)
    }
}

// Whether a symbol has a set with an index.
#[tactic(auto, unfolding(crate::specs::Words::has_set))]
pub fn has_set(table: &[u64; WORDS], s: usize, i: usize) -> bool
    requires { s < 32 }
    ensures { result ≡ has_set table.now s i }
{
    if i < SETS_EACH {
        i < synthesized_of(table, s)
    } else {
        i - SETS_EACH < inherited_of(table, s)
    }
}

// Whether a production has a set with an index at a position.
#[tactic(auto, unfolding(crate::specs::Words::occurs))]
pub fn occurs_at(table: &[u64; WORDS], p: usize, q: usize, i: usize) -> bool
    requires p_bound { p < 64 }
    requires shaped { Shaped table.now p }
    ensures { result ≡ occurs table.now p q i }
{
    q <= child_count(table, p) && has_set(table, symbol_at(table, p, q), i)
}

// How many equations a position of a production has.
pub fn defined_at(table: &[u64; WORDS], p: usize, q: usize) -> usize
    requires p_bound { p < 64 }
    requires shaped { Shaped table.now p }
    requires q_bound { q ≤ child_count table.now p }
    ensures { result ≡ defined table.now p q }
{
    let s = symbol_at(table, p, q);
    if q == 0 {
        synthesized_of(table, s)
    } else {
        inherited_of(table, s)
    }
}

// The two words of a rule.
#[tactic(auto, unfolding(crate::specs::Words::head_at))]
pub fn head_at(table: &[u64; WORDS], rule: usize) -> u64
    requires { rule < 1280 }
    ensures { result ≡ head_at table.now rule }
{
    table[HEADS + 2 * rule]
}

#[tactic(auto, unfolding(crate::specs::Words::constant_at))]
pub fn constant_at(table: &[u64; WORDS], rule: usize) -> u64
    requires { rule < 1280 }
    ensures { result ≡ constant_at table.now rule }
{
    table[CONSTANTS + 2 * rule]
}

// The judgement of a table, by its frames one after the other.
ghost use Rattle.std.specs.Prelude.{◌≡◌, ◌<◌, ◌≤◌};
ghost use Rattle.refusal.specs.Numbers.{verdict_of};
ghost use Rattle.table.specs.Words.{symbol_count, child_count};
ghost use Rattle.table.specs.Judge.{header, symbol, production, equation, symbol_wrong, misnamed, refusal_at, JudgeTableSays};
ghost use Rattle.table.specs.Inner.Parts.{symbols_of, position_of, equations_of, part_number, productions_of};
ghost use Rattle.table.specs.Shape.{Symbols, Shaped};

use crate::form::{is_misformed, uses_a, uses_b};
use refusal::Refusal;
use table::{
    FIRST, OPERATION, RULES_EACH, SETS_EACH, UPPER, WORDS, child_count, constant_at, defined_at,
    head_at, inherited_of, occurs_at, production_count, symbol_at, symbol_count, synthesized_of,
};

// So many symbols and productions a table has at the most, and so many children a production.
const SYMBOLS_MOST: usize = 32;

const PRODUCTIONS_MOST: usize = 64;

const CHILDREN_MOST: usize = 4;

// The header's frame.
#[tactic(auto, unfolding(table::specs::Judge::refusal_at))]
pub fn judge_header(table: &[u64; WORDS]) -> Result<(), Refusal>
    ensures { verdict_of result ≡ refusal_at table.now header }
{
    if !(1..=SYMBOLS_MOST).contains(&symbol_count(table))
        || !(1..=PRODUCTIONS_MOST).contains(&production_count(table))
    {
        return Err(Refusal::Count);
    }
    Ok(())
}

// A symbol's frame.
#[tactic(auto, unfolding(table::specs::Judge::refusal_at))]
pub fn judge_symbol(table: &[u64; WORDS], s: usize) -> Result<(), Refusal>
    requires { s < 32 }
    ensures { verdict_of result ≡ refusal_at table.now (symbol s) }
{
    let inherited = inherited_of(table, s);
    if SETS_EACH < synthesized_of(table, s) || SETS_EACH < inherited {
        return Err(Refusal::Count);
    }
    if s == 0 && 0 < inherited {
        return Err(Refusal::Start);
    }
    Ok(())
}

#[tactic(auto, using(table::proofs::Steps::turns))]
fn judge_symbols(table: &[u64; WORDS]) -> Result<(), Refusal>
    requires { symbol_count table.now ≤ 32 }
    ensures { verdict_of result ≡ symbols_of table.now }
{
    let count = symbol_count(table);
    for s in 0..count {
        judge_symbol(table, s)?;
    }
    Ok(())
}

// Whether a symbol of a production isn't below the symbol count.
fn is_foreign(table: &[u64; WORDS], p: usize) -> bool
    requires p_bound { p < 64 }
    requires children_bound { child_count table.now p ≤ 4 }
    ensures { result ≡ symbol_wrong table.now (production p) }
{
    let symbols = symbol_count(table);
    let positions = child_count(table, p) + 1;
    (0..positions).any(|q| symbols <= symbol_at(table, p, q))
}

// A production's frame.
#[tactic(auto, unfolding(table::specs::Judge::refusal_at))]
pub fn judge_production(table: &[u64; WORDS], p: usize) -> Result<(), Refusal>
    requires { p < 64 }
    ensures { verdict_of result ≡ refusal_at table.now (production p) }
{
    if CHILDREN_MOST < child_count(table, p) {
        return Err(Refusal::Count);
    }
    if is_foreign(table, p) {
        return Err(Refusal::Symbol);
    }
    Ok(())
}

// 5: an argument that is used and names no declared occurrence.
#[tactic(auto, unfolding(table::specs::Judge::misnamed))]
fn is_misnamed(table: &[u64; WORDS], p: usize, used: bool, x: u64) -> bool
    requires p_bound { p < 64 }
    requires shaped { Shaped table.now p }
    ensures { result ≡ misnamed table.now p used x }
{
    used && !occurs_at(table, p, (x / UPPER) as usize, (x % UPPER) as usize)
}

// An equation's frame.
#[tactic(auto, unfolding(table::specs::Judge::refusal_at, table::specs::Words::rule_of, table::specs::Equations::op_number, table::specs::Equations::a_field, table::specs::Equations::b_field))]
pub fn judge_equation(table: &[u64; WORDS], p: usize, q: usize, k: usize) -> Result<(), Refusal>
    requires p_bound { p < 64 }
    requires shaped { Shaped table.now p }
    requires q_bound { (q ≤ 4) × (k < 4) }
    ensures { verdict_of result ≡ refusal_at table.now (equation p q k) }
{
    let rule = RULES_EACH * p + (SETS_EACH * q + k);
    let head = head_at(table, rule);
    if is_misformed(head, constant_at(table, rule)) {
        return Err(Refusal::Form);
    }
    let op = head / OPERATION;
    if is_misnamed(table, p, uses_a(op), head / FIRST % FIRST)
        || is_misnamed(table, p, uses_b(op), head % FIRST)
    {
        return Err(Refusal::Argument);
    }
    Ok(())
}

// The equations of one position of a production.
#[tactic(auto, using(table::proofs::Steps::turns))]
fn judge_position(table: &[u64; WORDS], p: usize, q: usize) -> Result<(), Refusal>
    requires p_bound { p < 64 }
    requires shaped { Shaped table.now p }
    requires q_bound { q ≤ child_count table.now p }
    ensures { verdict_of result ≡ position_of table.now p q }
{
    let count = defined_at(table, p, q);
    for k in 0..count {
        judge_equation(table, p, q, k)?;
    }
    Ok(())
}

// All equations of a production.
#[tactic(auto, using(table::proofs::Steps::turns))]
fn judge_equations(table: &[u64; WORDS], p: usize) -> Result<(), Refusal>
    requires p_bound { p < 64 }
    requires shaped { Shaped table.now p }
    ensures { verdict_of result ≡ equations_of table.now p }
{
    let count = child_count(table, p);
    for q in 0..=count {
        judge_position(table, p, q)?;
    }
    Ok(())
}

// A production with its equations.
fn judge_part(table: &[u64; WORDS], p: usize) -> Result<(), Refusal>
    requires p_bound { p < 64 }
    requires symbols { Symbols table.now }
    ensures { verdict_of result ≡ part_number table.now p }
{
    judge_production(table, p)?;
    judge_equations(table, p)
}

#[tactic(auto, using(table::proofs::Steps::turns))]
fn judge_productions(table: &[u64; WORDS]) -> Result<(), Refusal>
    requires { Symbols table.now }
    ensures { verdict_of result ≡ productions_of table.now }
{
    let count = production_count(table);
    for p in 0..count {
        judge_part(table, p)?;
    }
    Ok(())
}

// The table: its frames in order.
#[tactic(auto, using(table::proofs::Steps::turns, table::proofs::Parts::judge_parts))]
pub fn judge_table(table: &[u64; WORDS]) -> Result<(), Refusal>
    ensures { JudgeTableSays table.now result }
{
    judge_header(table)?;
    judge_symbols(table)?;
    judge_productions(table)
}

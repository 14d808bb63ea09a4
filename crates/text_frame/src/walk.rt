// A table frame by frame.
ghost use Rattle.std.specs.Prelude.{◌≡◌, suc, ◌+◌, ◌-◌, ◌<◌, ◌≤◌};
ghost use Rattle.table.specs.Words.{child_count};
ghost use Rattle.table.specs.Shape.{Shaped};
ghost use Rattle.text_frame.specs.declared.Expected.TheVariants.{AtSymbol, AtEquation};
ghost use Rattle.text_frame.specs.Walk.{after_part, seek_from, next_of, Ready};

use crate::Expected;
use table::{child_count, defined_at, production_count, symbol_count};

// Behind the last equation of a production.
fn after_part(table: &[u64; 2657], p: usize) -> Expected
    requires { p < 64 }
    ensures { result ≡ after_part table.now p }
{
    if p + 1 < production_count(table) {
        Expected::AtProduction(p + 1)
    } else {
        Expected::Ended
    }
}

// The first equation of a production from a position on, or what comes behind its last.
#[tactic(auto, using(crate::proofs::Seeking::seek_goes, crate::proofs::Seeking::seek_stops, crate::proofs::Seeking::seek_ends))]
fn seek(table: &[u64; 2657], p: usize, q: usize) -> Expected
    requires { (p < 64) × (Shaped table.now p × (q ≤ suc (child_count table.now p))) }
    ensures { result ≡ seek_from (suc (child_count table.now p) - q) table.now p q }
{
    for at in q..=child_count(table, p) {
        if 0 < defined_at(table, p, at) {
            return Expected::AtEquation(p, at, 0);
        }
    }
    after_part(table, p)
}

// Behind equation k of a position.
#[tactic(auto, unfolding(crate::specs::Walk::next_of))]
fn after_equation(table: &[u64; 2657], p: usize, q: usize, k: usize) -> Expected
    requires { (p < 64) × (Shaped table.now p × ((q ≤ child_count table.now p) × (k < 4))) }
    ensures { result ≡ next_of table.now (AtEquation p q k) }
{
    if k + 1 < defined_at(table, p, q) {
        Expected::AtEquation(p, q, k + 1)
    } else {
        seek(table, p, q + 1)
    }
}

// Behind symbol s.
#[tactic(auto, unfolding(crate::specs::Walk::next_of))]
fn after_symbol(table: &[u64; 2657], s: usize) -> Expected
    requires { s < 32 }
    ensures { result ≡ next_of table.now (AtSymbol s) }
{
    if s + 1 < symbol_count(table) {
        Expected::AtSymbol(s + 1)
    } else {
        Expected::AtProduction(0)
    }
}

// What comes behind a frame.
#[tactic(auto, unfolding(crate::specs::Walk::next_of))]
pub fn next_of(table: &[u64; 2657], expected: Expected) -> Expected
    requires { Ready table.now expected }
    ensures { result ≡ next_of table.now expected }
{
    match expected {
        Expected::AtHeader => Expected::AtSymbol(0),
        Expected::AtSymbol(s) => after_symbol(table, s),
        Expected::AtProduction(p) => seek(table, p, 0),
        Expected::AtEquation(p, q, k) => after_equation(table, p, q, k),
        Expected::Ended => Expected::Ended,
    }
}

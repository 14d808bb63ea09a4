// Reading a table: one frame at a time, each judged as it comes.
ghost use Rattle.std.specs.Prelude.{◌≡◌, ◌+◌, ◌*◌, ◌<◌, ◌≤◌, length};
ghost use Rattle.table.specs.Words.{table_words, child_count};
ghost use Rattle.table.specs.Shape.{Symbols, Shaped};
ghost use Rattle.refusal.specs.declared.Refusal.TheVariants as why;
ghost use Rattle.text_frame.specs.declared.Frame.TheVariants as kind;
ghost use Rattle.text_frame.specs.declared.Expected.TheVariants.{AtHeader, AtSymbol, AtProduction, AtEquation};
ghost use Rattle.text_frame.specs.Calls.{misread};
ghost use Rattle.text_table.specs.Read.{strange_at, taken_at, words_after, Awaits};

use refusal::Refusal;
use table::{CONSTANTS, HEADS, PRODUCTIONS, RULES_EACH, SETS_EACH, SYMBOLS, UPPER};
use table_judge::{judge_equation, judge_header, judge_production, judge_symbol};
use text_frame::{Expected, Frame, Misread, Rule, next_of};

// Two bytes as one number, behind a number.
fn join(x: u64, a: u8, b: u8) -> u64
    requires { x < 4294967296 }
    ensures { result ≡ (x * 256 + a) * 256 + b }
{
    (x * UPPER + u64::from(a)) * UPPER + u64::from(b)
}

// A frame that is not the expected one: its own refusal is passed on, else 14.
#[tactic(auto, using(crate::proofs::Taking::not_refused))]
fn strange(frame: Frame, line: u32) -> Misread
    ensures { result ≡ strange_at frame line }
{
    match frame {
        Frame::Refused { refusal, line } => Misread { refusal, line },
        _ => misplaced(line),
    }
}

// 14 at a line.
fn misplaced(line: u32) -> Misread
    ensures { result ≡ misread why.Frame line }
{
    Misread {
        refusal: Refusal::Frame,
        line,
    }
}

fn take_header(table: &mut [u64; 2657], rule: Rule, line: u32) -> Result<Expected, Misread>
    requires { length table.old ≡ table_words }
    ensures { (result ≡ taken_at table.old AtHeader (kind.Rule rule) line) × (table.new ≡ words_after table.old AtHeader (kind.Rule rule)) }
{
    let Rule::Header {
        symbols,
        productions,
    } = rule
    else {
        return Err(misplaced(line));
    };
    table[0] = join(0, symbols, productions);
    judge_header(table).map_err(|refusal| Misread { refusal, line })?;
    Ok(next_of(table, Expected::AtHeader))
}

fn take_symbol(
    table: &mut [u64; 2657],
    s: usize,
    rule: Rule,
    line: u32,
) -> Result<Expected, Misread>
    requires { (length table.old ≡ table_words) × (s < 32) }
    ensures { (result ≡ taken_at table.old (AtSymbol s) (kind.Rule rule) line) × (table.new ≡ words_after table.old (AtSymbol s) (kind.Rule rule)) }
{
    let Rule::Symbol {
        synthesized,
        inherited,
    } = rule
    else {
        return Err(misplaced(line));
    };
    table[SYMBOLS + s] = join(0, synthesized, inherited);
    judge_symbol(table, s).map_err(|refusal| Misread { refusal, line })?;
    Ok(next_of(table, Expected::AtSymbol(s)))
}

fn take_production(
    table: &mut [u64; 2657],
    p: usize,
    rule: Rule,
    line: u32,
) -> Result<Expected, Misread>
    requires { (length table.old ≡ table_words) × ((p < 64) × Symbols table.old) }
    ensures { (result ≡ taken_at table.old (AtProduction p) (kind.Rule rule) line) × (table.new ≡ words_after table.old (AtProduction p) (kind.Rule rule)) }
{
    let Rule::Production {
        left,
        count,
        children,
    } = rule
    else {
        return Err(misplaced(line));
    };
    table[PRODUCTIONS + p] = join(
        join(join(0, left, count), children.one, children.two),
        children.three,
        children.four,
    );
    judge_production(table, p).map_err(|refusal| Misread { refusal, line })?;
    Ok(next_of(table, Expected::AtProduction(p)))
}

fn take_equation(
    table: &mut [u64; 2657],
    p: usize,
    q: usize,
    k: usize,
    rule: Rule,
    line: u32,
) -> Result<Expected, Misread>
    requires { (length table.old ≡ table_words) × ((p < 64) × (Shaped table.old p × ((q ≤ child_count table.old p) × (k < 4)))) }
    ensures { (result ≡ taken_at table.old (AtEquation p q k) (kind.Rule rule) line) × (table.new ≡ words_after table.old (AtEquation p q k) (kind.Rule rule)) }
{
    let Rule::Equation { op, a, b, c } = rule else {
        return Err(misplaced(line));
    };
    let at = RULES_EACH * p + (SETS_EACH * q + k);
    table[HEADS + 2 * at] = join(
        join(u64::from(op), a.position, a.index),
        b.position,
        b.index,
    );
    table[CONSTANTS + 2 * at] = c;
    judge_equation(table, p, q, k).map_err(|refusal| Misread { refusal, line })?;
    Ok(next_of(table, Expected::AtEquation(p, q, k)))
}

// One frame of a table: it is stored and judged, and what comes next is told. A stopped reading leaves words that are no table.
pub fn take_frame(
    table: &mut [u64; 2657],
    expected: Expected,
    frame: Frame,
    line: u32,
) -> Result<Expected, Misread>
    requires { (length table.old ≡ table_words) × Awaits table.old expected }
    ensures { (result ≡ taken_at table.old expected frame line) × (table.new ≡ words_after table.old expected frame) }
{
    let Frame::Rule(rule) = frame else {
        return Err(strange(frame, line));
    };
    match expected {
        Expected::AtHeader => take_header(table, rule, line),
        Expected::AtSymbol(s) => take_symbol(table, s, rule, line),
        Expected::AtProduction(p) => take_production(table, p, rule, line),
        Expected::AtEquation(p, q, k) => take_equation(table, p, q, k, rule, line),
        Expected::Ended => Err(misplaced(line)),
    }
}

// The text of a table, written into a lent buffer.
ghost use Rattle.std.specs.Prelude.{◌≡◌, ◌+◌, ◌*◌, ◌<◌, ◌≤◌, leb, length};
ghost use Rattle.std.proofs.lemmas.List.Edits.{sets};
ghost use Rattle.table.specs.Words.{child_count, head_at};
ghost use Rattle.table.specs.Equations.{op_number};
ghost use Rattle.table.specs.Judge.{header, symbol, production, judge_table};
ghost use Rattle.text_frame.specs.Text.{text_of};
ghost use Rattle.text_table.specs.Text.{shown, table_text};
ghost use Rattle.text_frame.specs.Walk.{Ready, is_on};
ghost use Rattle.text_table.specs.Inner.Putting.{Shows, text_at};
ghost use Rattle.text_table.specs.Inner.Putting.{reached_of, equation_text};
ghost use Rattle.text_table.specs.Calls.{WriteTableSays};

use refusal::Refusal;
use table::{PRODUCTIONS, RULES_EACH, SETS_EACH, SYMBOLS, child_count, constant_at, head_at};
use table_judge::judge_table;
use text_frame::{Expected, next_of};

// The lines of a header, of a symbol and of a production without children are so long, and an equation's.
const SHORT_LINE: usize = 7;

const EQUATION_LINE: usize = 29;

// The kind of an equation's line, above the head.
const EQUATION: u64 = 0x400_0000_0000;

// A production's word without the bytes of children that it has not.
#[tactic(auto, unfolding(crate::specs::Inner::Putting::reached_of))]
fn reached(word: u64, count: usize) -> u64
    ensures { result ≡ reached_of word count }
{
    match count {
        0 => word / 0x1_0000_0000,
        1 => word / 0x100_0000,
        2 => word / 0x1_0000,
        3 => word / 0x100,
        _ => word,
    }
}

#[tactic(auto, using(crate::proofs::Shown::header_shown))]
fn put_header(table: &[u64; 2657], buffer: &mut [u8], place: usize) -> usize
    requires { place + 7 ≤ length buffer.old }
    ensures { (result ≡ place + 7) × (buffer.new ≡ sets buffer.old place (text_of (shown table.now header))) }
{
    text_line::put_line(buffer, place, 2, 1, 4, table[0])
}

#[tactic(auto, using(crate::proofs::Shown::symbol_shown))]
fn put_symbol(table: &[u64; 2657], s: usize, buffer: &mut [u8], place: usize) -> usize
    requires { (s < 32) × (place + 7 ≤ length buffer.old) }
    ensures { (result ≡ place + 7) × (buffer.new ≡ sets buffer.old place (text_of (shown table.now (symbol s)))) }
{
    text_line::put_line(buffer, place, 2, 2, 4, table[SYMBOLS + s])
}

#[tactic(auto, using(crate::proofs::Shown::production_shown))]
fn put_production(table: &[u64; 2657], p: usize, buffer: &mut [u8], place: usize) -> usize
    requires { (p < 64) × ((child_count table.now p ≤ 4) × (place + (7 + 2 * child_count table.now p) ≤ length buffer.old)) }
    ensures { (result ≡ place + (7 + 2 * child_count table.now p)) × (buffer.new ≡ sets buffer.old place (text_of (shown table.now (production p)))) }
{
    let count = child_count(table, p);
    let tail = reached(table[PRODUCTIONS + p], count);
    text_line::put_line(buffer, place, 2, 3, 4 + 2 * count, tail)
}

#[tactic(auto, using(crate::proofs::Shown::equation_shown), unfolding(table::specs::Equations::op_number))]
fn put_equation(table: &[u64; 2657], rule: usize, buffer: &mut [u8], place: usize) -> usize
    requires { (rule < 1280) × ((op_number (head_at table.now rule) ≤ 9) × (place + 29 ≤ length buffer.old)) }
    ensures { (result ≡ place + 29) × (buffer.new ≡ sets buffer.old place (equation_text table.now rule)) }
{
    let head = EQUATION + head_at(table, rule);
    text_line::put_line(buffer, place, 12, head, 16, constant_at(table, rule))
}

// Writes the frame that is expected, and says where the next one goes.
#[tactic(auto, using(crate::proofs::Writing::header_length, crate::proofs::Writing::symbol_length, crate::proofs::Writing::production_length, crate::proofs::Writing::equation_length), unfolding(crate::specs::Inner::Putting::text_at, crate::specs::Inner::Putting::equation_text, crate::specs::Text::shown, table::specs::Words::rule_of))]
fn put_frame(table: &[u64; 2657], expected: Expected, buffer: &mut [u8], place: usize) -> usize
    requires { Ready table.now expected × (Shows table.now expected × (place + length (text_at table.now expected) ≤ length buffer.old)) }
    ensures { (result ≡ place + length (text_at table.now expected)) × (buffer.new ≡ sets buffer.old place (text_at table.now expected)) }
{
    match expected {
        Expected::AtHeader => put_header(table, buffer, place),
        Expected::AtSymbol(s) => put_symbol(table, s, buffer, place),
        Expected::AtProduction(p) => put_production(table, p, buffer, place),
        Expected::AtEquation(p, q, k) => put_equation(
            table,
            RULES_EACH * p + (SETS_EACH * q + k),
            buffer,
            place,
        ),
        Expected::Ended => place,
    }
}

// How long the text of the frame that is expected is.
#[tactic(auto, using(crate::proofs::Writing::header_length, crate::proofs::Writing::symbol_length, crate::proofs::Writing::production_length, crate::proofs::Writing::equation_length), unfolding(crate::specs::Inner::Putting::text_at))]
fn length_of(table: &[u64; 2657], expected: Expected) -> usize
    requires { Ready table.now expected }
    ensures { result ≡ length (text_at table.now expected) }
{
    match expected {
        Expected::AtHeader | Expected::AtSymbol(_) => SHORT_LINE,
        Expected::AtProduction(p) => SHORT_LINE + 2 * child_count(table, p),
        Expected::AtEquation(_, _, _) => EQUATION_LINE,
        Expected::Ended => 0,
    }
}

// Whether a frame is expected.
pub fn is_on(expected: Expected) -> bool
    ensures { result ≡ is_on expected }
{
    !matches!(expected, Expected::Ended)
}

// Whether a table's text has room.
fn has_room(table: &[u64; 2657], room: usize) -> bool
    requires { judge_table table.now ≡ 0 }
    ensures { result ≡ leb (length (table_text table.now)) room }
{
    let mut x = Expected::AtHeader;
    let mut left = room;
    while is_on(x) {
        let n = length_of(table, x);
        if left < n {
            return false;
        }
        left -= n;
        x = next_of(table, x);
    }
    true
}

// Writes a table's text, frame by frame, and says how long it is.
fn put_table(table: &[u64; 2657], buffer: &mut [u8]) -> usize
    requires { (judge_table table.now ≡ 0) × (length (table_text table.now) ≤ length buffer.old) }
    ensures { (result ≡ length (table_text table.now)) × (buffer.new ≡ sets buffer.old 0 (table_text table.now)) }
{
    let mut x = Expected::AtHeader;
    let mut place: usize = 0;
    while is_on(x) {
        place = put_frame(table, x, buffer, place);
        x = next_of(table, x);
    }
    place
}

// Writes a table: 1 to 5, then 15, and nothing where it is refused.
pub fn write_table(table: &[u64; 2657], buffer: &mut [u8]) -> Result<usize, Refusal>
    ensures { WriteTableSays table.now buffer.old result buffer.new }
{
    judge_table(table)?;
    if has_room(table, buffer.len()) {
        Ok(put_table(table, buffer))
    } else {
        Err(Refusal::Buffer)
    }
}

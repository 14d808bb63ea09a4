// A whole table read from text.
ghost use Rattle.std.specs.Prelude.{◌≡◌, ◌≤◌, length, replicate};
ghost use Rattle.std.proofs.Math.Seq.{paste};
ghost use Rattle.text_table.specs.Reading.{reading_at, Ends};
ghost use Rattle.text_table.specs.Calls.{ReadTableSays};
ghost use Rattle.table.specs.Words.{table_words};

use crate::ReadTable;
use crate::read::take_frame;
use crate::write::is_on;
use refusal::Refusal;
use table::WORDS;
use text_frame::{Expected, Misread, next_at};

// Reads a table's frames into words of its own, each judged as it comes.
fn read_words(
    text: &[u8],
    place: usize,
    line: u32,
    words: &mut [u64; 2657],
) -> Result<ReadTable, Misread>
    requires { words.old ≡ replicate table_words 0 }
    ensures { (length words.new ≡ table_words) × Ends (reading_at text.now place line) result words.new }
{
    let mut x = Expected::AtHeader;
    let mut at = place;
    let mut l = line;
    let mut left = text.len();
    while is_on(x) {
        if left == 0 {
            return Err(Misread {
                refusal: Refusal::Frame,
                line: l,
            });
        }
        let step = next_at(text, at, l);
        x = take_frame(words, x, step.frame, l)?;
        at = step.place;
        l = step.line;
        left -= 1;
    }
    Ok(ReadTable { place: at, line: l })
}

// Copies a table's words into lent memory.
fn copy_words(words: &[u64; 2657], table: &mut [u64])
    requires { (length words.now ≡ table_words) × (table_words ≤ length table.old) }
    ensures { table.new ≡ paste table.old 0 words.now table_words }
{
    table[..WORDS].copy_from_slice(words);
}

// Reads a table at a place of a text into lent memory: 13, 14 and 1 to 5 frame by frame, then 15; where it is refused nothing is written.
pub fn read_table(
    text: &[u8],
    place: usize,
    line: u32,
    table: &mut [u64],
) -> Result<ReadTable, Misread>
    ensures { ReadTableSays text.now place line table.old result table.new }
{
    let mut words = [0u64; WORDS];
    let read = read_words(text, place, line, &mut words)?;
    if table.len() < WORDS {
        return Err(Misread {
            refusal: Refusal::Buffer,
            line,
        });
    }
    copy_words(&words, table);
    Ok(read)
}

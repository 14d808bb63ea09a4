// A table's words, from lent memory and back: an array asks for no test of its length at each look.
ghost use Rattle.std.specs.Prelude.{◌≡◌, ◌++◌, ◌≤◌, length, take, drop};
ghost use Rattle.table.specs.Words.{table_words};

use table::WORDS;

pub fn copy_in(words: &[u64], table: &mut [u64; WORDS])
    requires { (table_words ≤ length words.now) × (length table.old ≡ table_words) }
    ensures { table.new ≡ take table_words words.now }
{
    table.copy_from_slice(&words[..WORDS]);
}

pub fn copy_out(table: &[u64; WORDS], words: &mut [u64])
    requires { (length table.now ≡ table_words) × (table_words ≤ length words.old) }
    ensures { words.new ≡ table.now ++ drop table_words words.old }
{
    words[..WORDS].copy_from_slice(table);
}

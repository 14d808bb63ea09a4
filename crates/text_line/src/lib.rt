// Lines of hexadecimal text: digits, lines, and numbers in and out.
#![tactic(auto)]

ghost use Rattle.std.specs.Prelude.{List, ℕ, ◌≡◌, ◌∷◌, [], ◌+◌, ◌<◌, ◌≤◌, ◌^◌, length, get_or};
ghost use Rattle.std.proofs.lemmas.List.Edits.{sets};
ghost use Rattle.text_line.specs.Hex.{is_hex, digit_value, digits_at, num_at, hex_of, hex_digits};
ghost use Rattle.text_line.specs.Text.{line_at, field, line_text};

// A line has so many digits at the most, and one byte more decides it.
pub const LONGEST: usize = 28;

pub const AHEAD: usize = 29;

// The end of a line.
pub const LF: u8 = 10;

// The line at a place: so many digits and then LF, no line, or nothing more.
#[derive(Clone, Copy)]
pub enum Line {
    Digits(usize),
    Bad,
    End,
}

// A byte as a number.
pub fn wide(x: u8) -> u64
    ensures { (result ≡ x) × (result < 256) }
{
    u64::from(x)
}

// The byte at a place, and 0 past the end.
pub fn byte_at(text: &[u8], place: usize) -> u8
    ensures { result ≡ get_or text.now place 0 }
{
    text.get(place).copied().unwrap_or(0)
}

// Whether a byte is a digit.
#[tactic(auto, unfolding(crate::specs::Hex::is_hex))]
pub fn is_hex(b: u8) -> bool
    ensures { result ≡ is_hex b }
{
    matches!(b, b'0'..=b'9' | b'a'..=b'f')
}

// How many digits stand in a row, 29 at the most: one more than a line may have.
pub fn digits(text: &[u8], place: usize) -> usize
    requires { place + 29 < 2 ^ 64 }
    ensures { result ≡ digits_at 29 text.now place }
{
    let end = text.len().min(place + AHEAD);
    for i in place..end {
        if !is_hex(text[i]) {
            return i - place;
        }
    }
    end.saturating_sub(place)
}

// The line that starts at a place.
#[tactic(auto, unfolding(crate::specs::Text::line_at))]
pub fn line_at(text: &[u8], place: usize) -> Line
    ensures { result ≡ line_at text.now place }
{
    if text.len() <= place {
        return Line::End;
    }
    let n = digits(text, place);
    if n < 2 || LONGEST < n || n % 2 != 0 || byte_at(text, place + n) != LF {
        return Line::Bad;
    }
    Line::Digits(n)
}

// What a digit stands for, and 0 for any other byte.
#[tactic(auto, unfolding(crate::specs::Hex::digit_value, crate::specs::Hex::is_hex))]
pub fn digit_value(b: u8) -> u64
    ensures { result ≡ digit_value b }
{
    match b {
        b'0'..=b'9' => u64::from(b - b'0'),
        b'a'..=b'f' => u64::from(b - b'a' + 10),
        _ => 0,
    }
}

// The number of so many digits, big-endian, by which byte is the i-th of them.
fn number_of<F: Fn(usize) -> u8>(width: usize, byte: F) -> u64
    requires few { width ≤ 16 }
    requires told { (i : ℕ) → i < width → F.pre byte i }
    ensures { (s : List ℕ) (place : ℕ) → ((i b : ℕ) → i < width → F.post byte i b → b ≡ get_or s (place + i) 0) → result ≡ num_at width s place }
{
    let mut v = 0;
    for i in 0..width {
        let d = digit_value(byte(i));
        v = v * 16 + d;
    }
    v
}

// The number that so many digits stand for; past its end a text reads 0. Within the text no byte is asked whether it is there, which spares time.
pub fn number(text: &[u8], place: usize, width: usize) -> u64
    requires { (place + width < 2 ^ 64) × (width ≤ 16) }
    ensures { result ≡ num_at width text.now place }
{
    if place + width <= text.len() {
        number_of(width, |i| text[place + i])
    } else {
        number_of(width, |i| byte_at(text, place + i))
    }
}

// The digit of a number below 16.
#[tactic(auto, unfolding(crate::specs::Hex::hex_of))]
pub fn hex_digit(n: u8) -> u8
    requires { n < 16 }
    ensures { result ≡ hex_of n }
{
    if n < 10 { b'0' + n } else { b'a' + n - 10 }
}

// Writes the last digits of a number, and says where the next byte goes.
#[tactic(auto, using(crate::proofs::Out::hex_more, crate::proofs::Out::hex_none))]
pub fn put_hex(buffer: &mut [u8], place: usize, width: usize, v: u64) -> usize
    requires { place + width ≤ length buffer.old }
    ensures { (result ≡ place + width) × (buffer.new ≡ sets buffer.old place (hex_digits width v)) }
{
    let mut x = v;
    for i in (0..width).rev() {
        buffer[place + i] = hex_digit((x % 16) as u8);
        x /= 16;
    }
    place + width
}

// Writes a line of two numbers, and says where the next line goes. Every frame is such a line: its fields lie side by side in the two numbers.
pub fn put_line(
    buffer: &mut [u8],
    place: usize,
    before: usize,
    head: u64,
    behind: usize,
    tail: u64,
) -> usize
    requires { place + (before + (behind + 1)) ≤ length buffer.old }
    ensures { (result ≡ place + (before + (behind + 1))) × (buffer.new ≡ sets buffer.old place (line_text (field before head ∷ field behind tail ∷ []))) }
{
    let a = put_hex(buffer, place, before, head);
    let b = put_hex(buffer, a, behind, tail);
    buffer[b] = LF;
    b + 1
}

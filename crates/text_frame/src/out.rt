// The frames that a session prints.
ghost use Rattle.std.specs.Prelude.{◌≡◌, ◌+◌, ◌<◌, ◌≤◌, ◌^◌, length};
ghost use Rattle.std.proofs.lemmas.List.Edits.{sets};
ghost use Rattle.refusal.specs.Numbers.{number_of};
ghost use Rattle.text_frame.specs.Out.{round_text, done_text, set_text, refusal_text};

use refusal::Refusal;

// The kinds of the lines.
const ROUND: u64 = 0x11;

const DONE: u64 = 0x12;

const SET: u64 = 0x13;

const REFUSAL: u64 = 0x1f;

// What a number is multiplied by to get a field of one, two, three or four bytes behind it.
const BYTE: u64 = 0x100;

const TWO: u64 = 0x1_0000;

const THREE: u64 = 0x100_0000;

const FOUR: u64 = 0x1_0000_0000;

// Writes a round's line, and says where the next one goes.
#[tactic(auto, using(crate::proofs::Printed::round_line))]
pub fn put_round(
    buffer: &mut [u8],
    place: usize,
    least: u16,
    round: u32,
    size: u16,
    closed: u8,
) -> usize
    requires { (place + 19 ≤ length buffer.old) × (round < 2 ^ 24) }
    ensures { (result ≡ place + 19) × (buffer.new ≡ sets buffer.old place (round_text least round size closed)) }
{
    let circle = (u64::from(least) * THREE + u64::from(round)) * TWO + u64::from(size);
    let tail = circle * BYTE + u64::from(closed);
    text_line::put_line(buffer, place, 2, ROUND, 16, tail)
}

// Writes done's line.
#[tactic(auto, using(crate::proofs::Printed::done_line))]
pub fn put_done(
    buffer: &mut [u8],
    place: usize,
    circles: u16,
    evaluations: u32,
    changed: u16,
) -> usize
    requires { place + 19 ≤ length buffer.old }
    ensures { (result ≡ place + 19) × (buffer.new ≡ sets buffer.old place (done_text circles evaluations changed)) }
{
    let tail = (u64::from(circles) * FOUR + u64::from(evaluations)) * TWO + u64::from(changed);
    text_line::put_line(buffer, place, 2, DONE, 16, tail)
}

// Writes the line of a set of a dump.
#[tactic(auto, using(crate::proofs::Printed::set_line))]
pub fn put_set(buffer: &mut [u8], place: usize, instance: u16, value: u64) -> usize
    requires { place + 23 ≤ length buffer.old }
    ensures { (result ≡ place + 23) × (buffer.new ≡ sets buffer.old place (set_text instance value)) }
{
    let head = SET * TWO + u64::from(instance);
    text_line::put_line(buffer, place, 6, head, 16, value)
}

// Writes a refusal's line.
#[tactic(auto, using(crate::proofs::Printed::refusal_line))]
pub fn put_refusal(buffer: &mut [u8], place: usize, refusal: Refusal, line: u32) -> usize
    requires { place + 13 ≤ length buffer.old }
    ensures { (result ≡ place + 13) × (buffer.new ≡ sets buffer.old place (refusal_text (number_of refusal) line)) }
{
    let tail = u64::from(refusal::number(refusal)) * FOUR + u64::from(line);
    text_line::put_line(buffer, place, 2, REFUSAL, 10, tail)
}

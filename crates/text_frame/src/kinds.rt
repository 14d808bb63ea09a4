// The frame at a place of a text.
ghost use Rattle.std.specs.Prelude.{◌≡◌, ◌+◌, ◌<◌, ◌^◌};
ghost use Rattle.text_line.specs.Hex.{num_at};
ghost use Rattle.text_frame.specs.Frames.{wrong_length, child_at, production_of, frame_of, line_after};
ghost use Rattle.text_frame.specs.Calls.{FrameAtSays};
ghost use Rattle.text_frame.specs.declared.Frame.TheVariants as kind;
ghost use Rattle.text_frame.specs.declared.Rule.TheVariants.{Header, Symbol, Equation};
ghost use Rattle.text_frame.specs.declared.Change.TheVariants.{Load, Replace, Corrections};

use crate::{Change, Children, Frame, Rule, Step};
use refusal::Refusal;
use sets::Argument;
use text_line::Line;

// Refusal 14 at a line.
fn wrong(line: u32) -> Frame
    ensures { result ≡ wrong_length line }
{
    Frame::Refused {
        refusal: Refusal::Frame,
        line,
    }
}

// Two digits.
#[tactic(auto, using(text_line::proofs::Values::num_small))]
fn byte(text: &[u8], place: usize) -> u8
    requires { place + 2 < 2 ^ 64 }
    ensures { result ≡ num_at 2 text.now place }
{
    text_line::number(text, place, 2) as u8
}

// Four digits.
#[tactic(auto, using(text_line::proofs::Values::num_small))]
fn pair(text: &[u8], place: usize) -> u16
    requires { place + 4 < 2 ^ 64 }
    ensures { result ≡ num_at 4 text.now place }
{
    text_line::number(text, place, 4) as u16
}

fn header(text: &[u8], place: usize) -> Frame
    requires { place + 28 < 2 ^ 64 }
    ensures { result ≡ kind.Rule (Header (num_at 2 text.now (place + 2)) (num_at 2 text.now (place + 4))) }
{
    Frame::Rule(Rule::Header {
        symbols: byte(text, place + 2),
        productions: byte(text, place + 4),
    })
}

fn symbol(text: &[u8], place: usize) -> Frame
    requires { place + 28 < 2 ^ 64 }
    ensures { result ≡ kind.Rule (Symbol (num_at 2 text.now (place + 2)) (num_at 2 text.now (place + 4))) }
{
    Frame::Rule(Rule::Symbol {
        synthesized: byte(text, place + 2),
        inherited: byte(text, place + 4),
    })
}

// Child j of a production, 0 where it has none.
fn child_at(text: &[u8], place: usize, count: u8, j: u8) -> u8
    requires { (place + 28 < 2 ^ 64) × (j < 4) }
    ensures { result ≡ child_at text.now place count j }
{
    if j < count {
        byte(text, place + (6 + 2 * usize::from(j)))
    } else {
        0
    }
}

// A production, of whose children the first four are kept, where there are as many digits as its count asks for.
#[tactic(auto, unfolding(crate::specs::Frames::production_of))]
fn production(text: &[u8], place: usize, n: usize, line: u32) -> Frame
    requires { place + 28 < 2 ^ 64 }
    ensures { result ≡ production_of text.now place n line }
{
    let count = byte(text, place + 4);
    let asked = 6 + 2 * usize::from(count);
    if n != asked {
        return wrong(line);
    }
    Frame::Rule(Rule::Production {
        left: byte(text, place + 2),
        count,
        children: Children {
            one: child_at(text, place, count, 0),
            two: child_at(text, place, count, 1),
            three: child_at(text, place, count, 2),
            four: child_at(text, place, count, 3),
        },
    })
}

fn equation(text: &[u8], place: usize) -> Frame
    requires { place + 28 < 2 ^ 64 }
    ensures { result ≡ kind.Rule (Equation (num_at 2 text.now (place + 2)) (record { position = num_at 2 text.now (place + 4); index = num_at 2 text.now (place + 6) }) (record { position = num_at 2 text.now (place + 8); index = num_at 2 text.now (place + 10) }) (num_at 16 text.now (place + 12))) }
{
    Frame::Rule(Rule::Equation {
        op: byte(text, place + 2),
        a: Argument {
            position: byte(text, place + 4),
            index: byte(text, place + 6),
        },
        b: Argument {
            position: byte(text, place + 8),
            index: byte(text, place + 10),
        },
        c: text_line::number(text, place + 12, 16),
    })
}

fn node(text: &[u8], place: usize) -> Frame
    requires { place + 28 < 2 ^ 64 }
    ensures { result ≡ kind.Node (num_at 2 text.now (place + 2)) (num_at 16 text.now (place + 4)) }
{
    Frame::Node {
        production: byte(text, place + 2),
        own: text_line::number(text, place + 4, 16),
    }
}

fn load(text: &[u8], place: usize) -> Frame
    requires { place + 28 < 2 ^ 64 }
    ensures { result ≡ kind.Change (Load (num_at 4 text.now (place + 2))) }
{
    Frame::Change(Change::Load {
        count: pair(text, place + 2),
    })
}

fn replace(text: &[u8], place: usize) -> Frame
    requires { place + 28 < 2 ^ 64 }
    ensures { result ≡ kind.Change (Replace (num_at 4 text.now (place + 2)) (num_at 4 text.now (place + 6))) }
{
    Frame::Change(Change::Replace {
        point: pair(text, place + 2),
        count: pair(text, place + 6),
    })
}

fn corrections(text: &[u8], place: usize) -> Frame
    requires { place + 28 < 2 ^ 64 }
    ensures { result ≡ kind.Change (Corrections (num_at 2 text.now (place + 2))) }
{
    Frame::Change(Change::Corrections {
        count: byte(text, place + 2),
    })
}

fn point(text: &[u8], place: usize) -> Frame
    requires { place + 28 < 2 ^ 64 }
    ensures { result ≡ kind.Point (num_at 4 text.now (place + 2)) (num_at 4 text.now (place + 6)) }
{
    Frame::Point {
        point: pair(text, place + 2),
        count: pair(text, place + 6),
    }
}

// 17.1: the frame that n digits make, by its type and how many digits this asks for; else refusal 14.
#[tactic(auto, unfolding(crate::specs::Frames::frame_of, crate::specs::Frames::kind_of, crate::specs::Frames::header_of, crate::specs::Frames::symbol_of, crate::specs::Frames::production_of, crate::specs::Frames::equation_of, crate::specs::Frames::node_of, crate::specs::Frames::load_of, crate::specs::Frames::replace_of, crate::specs::Frames::dump_of, crate::specs::Frames::corrections_of, crate::specs::Frames::correction_of))]
fn frame_of(text: &[u8], place: usize, n: usize, line: u32) -> Frame
    requires { place + 28 < 2 ^ 64 }
    ensures { result ≡ frame_of text.now place n line }
{
    match (byte(text, place), n) {
        (1, 6) => header(text, place),
        (2, 6) => symbol(text, place),
        (3, _) => production(text, place, n, line),
        (4, 28) => equation(text, place),
        (5, 20) => node(text, place),
        (6, 6) => load(text, place),
        (7, 10) => replace(text, place),
        (8, 2) => Frame::Dump,
        (9, 4) => corrections(text, place),
        (11, 10) => point(text, place),
        _ => wrong(line),
    }
}

// The number of the line behind, ffffffff at most.
pub fn line_after(line: u32) -> u32
    ensures { result ≡ line_after line }
{
    if line < 0xffff_ffff { line + 1 } else { line }
}

// The frame at a place, and where the next one is. Refusal 13 comes before 14: only a line is looked into.
#[tactic(auto, unfolding(crate::specs::Frames::frame_at))]
pub fn frame_at(text: &[u8], place: usize, line: u32) -> Step
    ensures { FrameAtSays text.now place line result }
{
    match text_line::line_at(text, place) {
        Line::End => Step {
            frame: Frame::Over,
            place,
            line,
        },
        Line::Bad => Step {
            frame: Frame::Refused {
                refusal: Refusal::Line,
                line,
            },
            place,
            line,
        },
        Line::Digits(n) => Step {
            frame: frame_of(text, place, n, line),
            place: place + (n + 1),
            line: line_after(line),
        },
    }
}

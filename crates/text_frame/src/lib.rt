// Frames of text: one a line; which frame of a table comes next, and what a session prints.
#![tactic(auto)]

mod kinds;
mod out;
mod walk;

ghost use Rattle.text_frame.specs.Calls.{FrameAtSays, ReaderAtSays, NextSays};

pub use kinds::{frame_at, line_after};
pub use out::{put_done, put_refusal, put_round, put_set};
use refusal::Refusal;
use sets::Argument;
pub use walk::next_of;

// The lines that a session prints are so long: of a round or of done, of a set, of a refusal.
pub const ROUND_LINE: usize = 19;

pub const SET_LINE: usize = 23;

pub const REFUSAL_LINE: usize = 13;

// The symbols of up to four children, 0 where there is none.
#[derive(Clone, Copy)]
pub struct Children {
    pub one: u8,
    pub two: u8,
    pub three: u8,
    pub four: u8,
}

// 17.1: a frame of a table.
#[derive(Clone, Copy)]
pub enum Rule {
    // 01
    Header {
        symbols: u8,
        productions: u8,
    },
    // 02
    Symbol {
        synthesized: u8,
        inherited: u8,
    },
    // 03
    Production {
        left: u8,
        count: u8,
        children: Children,
    },
    // 04
    Equation {
        op: u8,
        a: Argument,
        b: Argument,
        c: u64,
    },
}

// 17.1: the first frame of a command that changes the tree.
#[derive(Clone, Copy)]
pub enum Change {
    // 06
    Load { count: u16 },
    // 07
    Replace { point: u16, count: u16 },
    // 09
    Corrections { count: u8 },
}

// 16.4: a kind of frame with its fields, a refusal with its line, or no line at all.
#[derive(Clone, Copy)]
pub enum Frame {
    Rule(Rule),
    // 05
    Node { production: u8, own: u64 },
    // 0b
    Point { point: u16, count: u16 },
    Change(Change),
    // 08
    Dump,
    Refused { refusal: Refusal, line: u32 },
    Over,
}

// A frame, and the place and the number of the line behind it.
#[derive(Clone, Copy)]
pub struct Step {
    pub frame: Frame,
    pub place: usize,
    pub line: u32,
}

// The frame of a table that comes next: the header, symbol s, production p, or of production p the equation k of position q; or none.
#[derive(Clone, Copy, PartialEq, Eq)]
pub enum Expected {
    AtHeader,
    AtSymbol(usize),
    AtProduction(usize),
    AtEquation(usize, usize, usize),
    Ended,
}

// Why a reading stops, and the line that is refused.
#[derive(Clone, Copy)]
pub struct Misread {
    pub refusal: Refusal,
    pub line: u32,
}

// A reader: the lent text, the place of the next line and its number.
#[derive(Clone, Copy)]
pub struct Reader<'a> {
    pub text: &'a [u8],
    pub place: usize,
    pub line: u32,
}

// A reader at a place of a text.
pub fn reader_at<'a>(text: &'a [u8], place: usize, line: u32) -> Reader<'a>
    ensures { ReaderAtSays text.entry place line result }
{
    Reader { text, place, line }
}

// The frame at the reader's place, and where the next one is.
pub fn next<'a>(r: Reader<'a>) -> Step
    ensures { NextSays r.entry result }
{
    frame_at(r.text, r.place, r.line)
}

// The same with plain parameters, for every other caller.
pub fn next_at(text: &[u8], place: usize, line: u32) -> Step
    ensures { FrameAtSays text.now place line result }
{
    next(reader_at(text, place, line))
}

// Circles and their ranks, as definitions, and what is true of them: maximal sets of instances that reach one another, the ready one with the smallest least instance first.
#![tactic(auto)]

ghost use Rattle.std.specs.Prelude.{◌≡◌};

// So many slots have a place.
pub const SLOTS: usize = 4_096;

// The marks of the arrays, which no slot has: where an argument or a label is none, and for the arguments of a slot that is not declared.
pub const NO_SLOT: u16 = 65_535;

pub const UNDECLARED: u16 = 65_534;

// The slots 0 to n - 1 and what each reads: a[x] and b[x], of which a number past the slots is none; a[x] is 65534 where x is not declared.
#[derive(Clone, Copy)]
pub struct Graph<'a> {
    pub n: usize,
    pub a: &'a [u16; SLOTS],
    pub b: &'a [u16; SLOTS],
}

// A slot's number as an index.
pub fn wide(x: u16) -> usize
    ensures { result ≡ x }
{
    x as usize
}

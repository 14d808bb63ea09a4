// Sets of hold reasons, and the equations over them: a set is a word with one bit for each reason code, 0 the empty one.
// Codes 56 to 63 are notes: members like the others, but operation 7 does not count them.
#![tactic(auto)]

ghost use Rattle.sets.specs.Members.{MembersSay, CountSays};
ghost use Rattle.sets.specs.Operations.{ValueSays};

// A place of a production, 0 for the left symbol and 1 to 4 for a child, and the index of a set that is declared there.
#[derive(Clone, Copy)]
pub struct Argument {
    pub position: u8,
    pub index: u8,
}

// An operation with the arguments a and b and the constant c that it uses, by its number in 3.2.
#[derive(Clone, Copy)]
pub enum Op {
    // 0: c
    Constant(u64),
    // 1: the own set
    Own,
    // 2: a joined with c
    JoinConstant(Argument, u64),
    // 3: what both a and c have
    MeetConstant(Argument, u64),
    // 4: a joined with b
    Join(Argument, Argument),
    // 5: what both a and b have
    Meet(Argument, Argument),
    // 6: b if all of c is in a, and nothing if not
    IfAll(Argument, Argument, u64),
    // 7: b where at least c members of a count, empty where fewer do
    IfMany(Argument, Argument, u64),
    // 8: a joined with own
    JoinOwn(Argument),
    // 9: a but for what b has
    Except(Argument, Argument),
}

// What defines a set: an operation, with all that it uses.
#[derive(Clone, Copy)]
pub struct Equation {
    pub op: Op,
}

// The set of the first note alone: a set's remainder by it holds its members 0 to 55.
const FIRST_NOTE: u64 = 0x0100_0000_0000_0000;

// How many members a set has, notes included: what bounds the rounds of a climb.
pub fn members(a: u64) -> u64
    ensures { MembersSay a result }
{
    u64::from(a.count_ones())
}

// The number that operation 7 compares with c: how many members a set has that aren't notes.
pub fn count(a: u64) -> u64
    ensures { CountSays a result }
{
    members(a % FIRST_NOTE)
}

// The value of an equation where the left node's own set is `own` and its arguments are `a` and `b`.
#[tactic(auto, unfolding(crate::specs::Operations::value_of))]
pub fn value(equation: Equation, own: u64, a: u64, b: u64) -> u64
    ensures { ValueSays equation own a b result }
{
    match equation.op {
        Op::Constant(c) => c,
        Op::Own => own,
        Op::JoinConstant(_, c) => a | c,
        Op::MeetConstant(_, c) => a & c,
        Op::Join(_, _) => a | b,
        Op::Meet(_, _) => a & b,
        Op::IfAll(_, _, c) => if c & a == c { b } else { 0 },
        Op::IfMany(_, _, c) => if c <= count(a) { b } else { 0 },
        Op::JoinOwn(_) => a | own,
        Op::Except(_, _) => a ^ (a & b),
    }
}

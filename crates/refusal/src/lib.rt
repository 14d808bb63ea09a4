// The refusals of chapter 14 (docs/RULES.md), one name a number.
#![tactic(auto)]

ghost use Rattle.refusal.specs.Numbers.{NumberSays};

#[derive(Clone, Copy, PartialEq, Eq)]
pub enum Refusal {
    // a count of the table is out of bounds
    Count = 1,
    // a production has a symbol that there is not
    Symbol = 2,
    // symbol 0 inherits something
    Start = 3,
    // an operation that there is not, a field in vain, or a c that operation 7 can't have
    Form = 4,
    // an argument that is nowhere declared
    Argument = 5,
    // a node of a production that there is not
    Production = 6,
    // the nodes don't make up one subtree, or not of the right symbol
    Shape = 7,
    // more than 512 nodes
    Size = 8,
    // a point that is no node
    Point = 9,
    // an update is open
    Busy = 10,
    // the record has a number above its limit, or an open update's points are astray
    Fields = 11,
    // no such instance
    Undeclared = 12,
    // what should be a line is none
    Line = 13,
    // a line is no frame, or not the one that is due, or the text is over too soon
    Frame = 14,
    // a buffer hasn't the length that it needs
    Buffer = 15,
    // no tree is held
    Absent = 16,
    // no update is open
    Idle = 17,
    // a waiver inside a circle
    Waiver = 21,
    // no point, or more than eight
    Points = 22,
    // points out of order, or one inside another's old part
    Overlap = 23,
}

pub fn number(refusal: Refusal) -> u8
    ensures { NumberSays refusal result }
{
    refusal as u8
}

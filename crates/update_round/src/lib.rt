// The parts of a step, over the wiring and the ranked circles: the first due circle, its round, the numbers of the record and what changed.
#![tactic(auto)]

ghost use Rattle.std.specs.Prelude.{◌≡◌, ◌+◌, ◌<◌, ◌≤◌, length, get_or};
ghost use Rattle.std.proofs.Math.Seq.{slice};

mod changes;
mod due;
mod numbers;
mod reach;
mod rounds;

pub use changes::changed;
pub use due::first_due;
pub use numbers::{next_record, round_number};
pub use rounds::round_at;

// The ranked circles, `count` of them: label[x] is the least instance of the circle of slot x, and the members of circle i are members[ends[i]..ends[i + 1]].
#[derive(Clone, Copy)]
pub struct Ranked<'a> {
    pub label: &'a [u16],
    pub members: &'a [u16],
    pub ends: &'a [u16],
    pub count: usize,
}

impl<'a> Ranked<'a> {
    // The members of circle i.
    pub fn circle(self, i: usize) -> &'a [u16]
        requires ended { i + 1 < length self.ends.now }
        requires rise { get_or self.ends.now i 0 ≤ get_or self.ends.now (i + 1) 0 }
        requires room { get_or self.ends.now (i + 1) 0 ≤ length self.members.now }
        ensures { result.now ≡ slice (get_or self.entry.ends.now i 0) (get_or self.entry.ends.now (i + 1) 0) self.entry.members.now }
    {
        &self.members[usize::from(self.ends[i])..usize::from(self.ends[i + 1])]
    }
}

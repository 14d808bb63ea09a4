// What steps and runs go over, made anew by each call.
ghost use Rattle.wire.specs.Inner.Turns.{Held};
ghost use Rattle.engine.specs.Inner.Arrays.{ArraysLaid, Viewed};

use circles::SLOTS;
use climb::Wires;
use update_round::Ranked;
use wire_plan::prepare;

// The wiring of a tree's n slots, and its ranked circles.
#[derive(Drop)]
pub struct Arrays {
    n: usize,
    a: [u16; SLOTS],
    b: [u16; SLOTS],
    left: [u16; SLOTS],
    rule: [u16; SLOTS],
    label: [u16; SLOTS],
    members: [u16; SLOTS],
    ends: [u16; SLOTS + 1],
    count: usize,
}

impl Arrays {
    // None yet. They are filled where they lie: handed on by value, 57 KB would be copied at each call.
    pub fn blank() -> Self {
        Arrays {
            n: 0,
            a: [0; SLOTS],
            b: [0; SLOTS],
            left: [0; SLOTS],
            rule: [0; SLOTS],
            label: [0; SLOTS],
            members: [0; SLOTS],
            ends: [0; SLOTS + 1],
            count: 0,
        }
    }

    // Those of a sound tree.
    pub fn arrange(&mut self, table: &[u64; 2657], tree: &[u8])
        requires { Held table.now tree.now }
        ensures { ArraysLaid table.now tree.now self.old self.new }
    {
        self.n = 8 * tree.len();
        self.count = prepare(
            table,
            tree,
            &mut self.a,
            &mut self.b,
            &mut self.left,
            &mut self.rule,
            &mut self.label,
            &mut self.members,
            &mut self.ends,
        );
    }

    pub fn views(&self) -> (Wires<'_>, Ranked<'_>)
        ensures { Viewed self.now result.0 result.1 }
    {
        let wires = Wires {
            n: self.n,
            a: &self.a,
            b: &self.b,
            left: &self.left,
            rule: &self.rule,
        };
        let ranked = Ranked {
            label: &self.label,
            members: &self.members,
            ends: &self.ends,
            count: self.count,
        };
        (wires, ranked)
    }
}

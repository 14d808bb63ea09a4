// The update record that the caller lends, and what the engine's calls answer.
#![tactic(auto)]

ghost use Rattle.std.specs.Prelude.{◌≡◌};
ghost use Rattle.update.specs.Records.{EmptySays, is_open_kind};

use circles::SLOTS;
use tree::Point;

// Which update is open: none, a load, a replacement.
#[derive(Clone, Copy, PartialEq, Eq)]
pub enum Open {
    Nothing,
    Load,
    Replacement,
}

#[derive(Clone, Copy)]
pub struct Record {
    // whether a tree is held
    pub held: bool,
    pub open: Open,
    // how many nodes it has
    pub nodes: usize,
    // how many points the open update has, and where: each where it is in the new tree, with the count of its part; of a load there is one, the root with all
    // nodes. The others are zero
    pub count: usize,
    pub points: [Point; 8],
    // which circle is worked on, by its rank, and in which round
    pub rank: usize,
    pub round: u64,
    // circles worked, and evaluations
    pub circles: u64,
    pub evaluations: u64,
}

impl Record {
    pub const NODES: usize = tree::NODES;

    // so many sets a full tree has
    pub const SETS: usize = SLOTS;

    pub const POINTS: usize = 8;

    pub const CIRCLES: u64 = 4_092;

    pub const ROUND: u64 = 262_145;

    pub const EVALUATIONS: u64 = 1_073_745_920;

    // A record with no tree and no update.
    #[tactic(auto, unfolding(crate::specs::Records::shut, crate::specs::Records::empty_record))]
    pub fn empty() -> Self
        ensures { EmptySays result }
    {
        Record {
            held: false,
            open: Open::Nothing,
            nodes: 0,
            count: 0,
            points: [Point { node: 0, count: 0 }; 8],
            rank: 0,
            round: 0,
            circles: 0,
            evaluations: 0,
        }
    }
}

// Whether an update is open.
pub fn is_open(open: Open) -> bool
    ensures { result ≡ is_open_kind «open» }
{
    open != Open::Nothing
}

// What a step answers where nothing refuses it: the round that it made, by its circle's least instance, or the numbers at done.
#[derive(Clone, Copy)]
pub enum Answer {
    Round {
        least: usize,
        round: u64,
        size: usize,
        closed: bool,
    },
    Done {
        circles: u64,
        evaluations: u64,
        changed: u64,
    },
}

// What a run answers where nothing refuses it: the rounds made, and done's numbers if it came to done.
#[derive(Clone, Copy)]
pub enum Run {
    Paused {
        rounds: u64,
    },
    Finished {
        rounds: u64,
        circles: u64,
        evaluations: u64,
        changed: u64,
    },
}

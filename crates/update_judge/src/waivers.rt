// The test for 21 of the tree that a call would leave. A table without operation 9 pays for a look at its heads alone.
ghost use Rattle.std.specs.Prelude.{◌≡◌, length};
ghost use Rattle.update_place.specs.Inner.Pieces.{spliced_by, Fitting};
ghost use Rattle.wire.specs.Inner.Turns.{Held};
ghost use Rattle.wire.specs.Waivers.{waives};

use table::WORDS;
use tree::{Cuts, NODES};
use update_place::placing::splice;
use wire_plan::{has_nine, waives_wired};

// Whether a sound tree has an operation 9 in one circle with its b: the test for 21.
#[tactic(auto, using(crate::proofs::Written::waiving))]
pub fn waives_tree(table: &[u64; WORDS], tree: &[u8]) -> bool
    requires { Held table.now tree.now }
    ensures { result ≡ waives table.now tree.now }
{
    has_nine(table) && waives_wired(table, tree)
}

// The same of the tree as a replacement would leave it. Nothing lent may change before all is accepted, so its nodes are written to memory of their own.
#[tactic(auto, using(crate::proofs::Written::waiving))]
pub fn waives_then(table: &[u64; WORDS], tree: &[u8], cuts: Cuts, new: &[u8]) -> bool
    requires fitting { Fitting cuts (length tree.now) (length new.now) }
    requires held { Held table.now (spliced_by cuts new.now tree.now) }
    ensures { result ≡ waives table.now (spliced_by cuts new.now tree.now) }
{
    if !has_nine(table) {
        return false;
    }
    let mut after = [0u8; NODES];
    let count = splice(tree, tree.len(), cuts, new, 0, &mut after);
    waives_wired(table, &after[..count])
}

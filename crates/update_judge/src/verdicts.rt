// 21 behind a load's and a replacement's other numbers.
ghost use Rattle.std.specs.Prelude.{◌≡◌, ◌++◌};
ghost use Rattle.refusal.specs.Numbers.{verdict_of};
ghost use Rattle.table.specs.Judge.{judge_table};
ghost use Rattle.tree.specs.Handed.{named_points, handed_row};
ghost use Rattle.update_judge.specs.Inner.Cuts.{Aimed};
ghost use Rattle.update_judge.specs.Order.{last_order};
ghost use Rattle.refusal.specs.Orders.{refusal_by};
ghost use Rattle.update.specs.Refusals.{new_order, waiver_order};

use crate::points::judge_row;
use crate::refuse::judge_load;
use crate::waivers::{waives_then, waives_tree};
use refusal::Refusal;
use table::WORDS;
use tree::{Cuts, Places};
use update::Record;

// What a load is refused by behind what comes first in every call: 10, 8, 6/7, 21.
#[tactic(auto, using(crate::proofs::Last::loaded))]
pub fn judge_loaded(
    table: &[u64; WORDS],
    record: Record,
    productions: &[u8],
    owns: &[u64],
) -> Result<(), Refusal>
    requires { judge_table table.now ≡ 0 }
    ensures { verdict_of result ≡ refusal_by (new_order table.now «record» productions.now owns.now ++ waiver_order table.now productions.now) }
{
    judge_load(table, record, productions, owns)?;
    if waives_tree(table, productions) {
        return Err(Refusal::Waiver);
    }
    Ok(())
}

// And a replacement at nodes of a sound tree, by its points, its parts and the tree that it would leave: 23, 8, 6/7, 21.
#[tactic(auto, using(crate::proofs::Last::replaced))]
pub fn judge_replaced(
    table: &[u64; WORDS],
    tree: &[u8],
    points: Places,
    cuts: Cuts,
    new: &[u8],
    new_owns: &[u64],
) -> Result<(), Refusal>
    requires { Aimed table.now tree.now points cuts }
    ensures { verdict_of result ≡ refusal_by (last_order table.now tree.now (handed_row (named_points points) new.now new_owns.now)) }
{
    judge_row(table, tree, points, cuts, new, new_owns)?;
    if waives_then(table, tree, cuts, new) {
        return Err(Refusal::Waiver);
    }
    Ok(())
}

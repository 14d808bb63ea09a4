// The text of a tree, written into a lent buffer.
ghost use Rattle.std.specs.Prelude.{◌≡◌, ◌+◌, ◌*◌, ◌<◌, ◌≤◌, length};
ghost use Rattle.std.proofs.lemmas.List.Edits.{sets};
ghost use Rattle.text_frame.specs.declared.Frame.TheVariants.{Node};
ghost use Rattle.text_frame.specs.Text.{text_of};
ghost use Rattle.text_tree.specs.Text.{tree_text};
ghost use Rattle.text_tree.specs.Calls.{WriteTreeSays};
ghost use Rattle.tree.specs.Tree.{nodes_most};

use refusal::Refusal;
use tree::judge_tree;

// The kind of a node's line, above its production.
const NODE: u64 = 1_280;

// The line of a load is so long, and the line of each node.
const LOAD_LINE: usize = 7;

const NODE_LINE: usize = 21;

// Writes the line of a node, and says where the next one goes.
#[tactic(auto, using(crate::proofs::Writing::node_shown))]
pub fn put_node(buffer: &mut [u8], place: usize, production: u8, own: u64) -> usize
    requires { place + 21 ≤ length buffer.old }
    ensures { (result ≡ place + 21) × (buffer.new ≡ sets buffer.old place (text_of (Node production own))) }
{
    let head = NODE + u64::from(production);
    text_line::put_line(buffer, place, 4, head, 16, own)
}

// Writes a tree's frame and its nodes, and says how long they are.
fn put_tree(productions: &[u8], owns: &[u64], buffer: &mut [u8]) -> usize
    requires { (length productions.now ≡ length owns.now) × ((length productions.now ≤ nodes_most) × (7 + 21 * length productions.now ≤ length buffer.old)) }
    ensures { (result ≡ 7 + 21 * length productions.now) × (buffer.new ≡ sets buffer.old 0 (tree_text productions.now owns.now)) }
{
    let mut place = text_line::put_line(buffer, 0, 2, 6, 4, productions.len() as u64);
    for (production, own) in productions.iter().zip(owns) {
        place = put_node(buffer, place, *production, *own);
    }
    place
}

// Writes a tree: 1 to 5, 8, 6 and 7, then 15, and nothing where it is refused.
pub fn write_tree(
    table: &[u64; 2657],
    productions: &[u8],
    owns: &[u64],
    buffer: &mut [u8],
) -> Result<usize, Refusal>
    ensures { WriteTreeSays table.now productions.now owns.now buffer.old result buffer.new }
{
    judge_tree(table, productions, owns)?;
    if buffer.len() < LOAD_LINE + NODE_LINE * productions.len() {
        return Err(Refusal::Buffer);
    }
    Ok(put_tree(productions, owns, buffer))
}

// The end of the input.
ghost use Rattle.std.specs.Prelude.{◌≡◌, length};
ghost use Rattle.refusal.specs.Numbers.{number_of};
ghost use Rattle.text_frame.specs.Out.{refusal_text};
ghost use Rattle.text_tree.specs.Written.{written_of, buffer_after};
ghost use Rattle.session_owed.specs.declared.Awaited.TheVariants.{Stopped};
ghost use Rattle.session_memory.specs.Suspended.{Tests};
ghost use Rattle.session_memory.specs.Ending.{FinishSays, inside, working};

use crate::State;
use refusal::Refusal;
use session_owed::Awaited;
use text_frame::{REFUSAL_LINE, put_refusal};

pub fn is_stopped(awaited: Awaited) -> bool
    ensures { Tests result (awaited ≡ Stopped) }
{
    matches!(awaited, Awaited::Stopped)
}

// Whether text that ends between two lines ends inside the table or a command.
fn is_inside(awaited: Awaited) -> bool
    ensures { result ≡ inside awaited }
{
    matches!(
        awaited,
        Awaited::Table(_) | Awaited::Naming { .. } | Awaited::Nodes { .. }
    )
}

// Whether an update is at work.
fn is_working(awaited: Awaited) -> bool
    ensures { result ≡ working awaited }
{
    matches!(awaited, Awaited::Working { .. })
}

// Writes the last line where it has room.
fn put_last(out: &mut [u8], refusal: Refusal, line: u32) -> Result<usize, Refusal>
    ensures { (result ≡ written_of 0 (length out.old) (refusal_text (number_of refusal) line)) × (out.new ≡ buffer_after 0 out.old (refusal_text (number_of refusal) line)) }
{
    if out.len() < REFUSAL_LINE {
        return Err(Refusal::Buffer);
    }
    Ok(put_refusal(out, 0, refusal, line))
}

// The end of the input: 10 while an update is at work, then 15; 13 is written inside a line, 14 inside the table or a command.
pub fn finish(state: State, out: &mut [u8]) -> Result<usize, Refusal>
    ensures { FinishSays state out.old result out.new }
{
    let awaited = state.awaited;
    if is_working(awaited) {
        return Err(Refusal::Busy);
    }
    if is_stopped(awaited) {
        return Ok(0);
    }
    if 0 < state.begun {
        return put_last(out, Refusal::Line, state.line);
    }
    if is_inside(awaited) {
        return put_last(out, Refusal::Frame, state.line);
    }
    Ok(0)
}

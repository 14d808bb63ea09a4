// Pieces of text in, printed bytes out.
ghost use Rattle.std.specs.Prelude.{◌≡◌, false, ◌+◌, ◌≤◌, length, take};
ghost use Rattle.text_frame.specs.Frames.{frame_at};
ghost use Rattle.update_judge.specs.Order.{Going};
ghost use Rattle.session_owed.specs.Owed.{owns_kept, parts_kept, Sound};
ghost use Rattle.session_owed.specs.Hearing.{line_room, hearing, Hears, Spacious};
ghost use Rattle.session_rounds.specs.Telling.{RoundsTold};
ghost use Rattle.session_memory.specs.Suspended.{suspended, Tests};
ghost use Rattle.session_feed.specs.Feeding.{Feeds, FeedSays};
ghost use Rattle.session_feed.specs.Inner.Faring.{Ready, Turns};
ghost use Rattle.session_feed.specs.Running.{silent};
ghost use Rattle.session_feed.specs.Inner.Kept.{Same, kept_with, memory_of};
ghost use Rattle.table.specs.Words.{table_words};
ghost use Rattle.update.specs.Memories.{lent};

use crate::Fed;
use circles::SLOTS;
use refusal::Refusal;
use session_line::hear;
use session_memory::{State, copy_in, copy_out, gather, is_narrow, judge_state};
use session_owed::{Awaited, Told};
use session_rounds::tell_rounds;
use table::WORDS;
use text_frame::{Frame, frame_at, line_after};
use update::Record;

// The memory that a session is lent, with the table's words in an array.
#[derive(Drop)]
pub struct Kept<'a> {
    pub table: &'a mut [u64; WORDS],
    pub window: &'a mut [u8],
    pub parts: &'a mut [u8],
    pub part_owns: &'a mut [u64],
    pub held: &'a mut [u8],
    pub held_owns: &'a mut [u64],
    pub sets: &'a mut [u64],
    pub earlier: &'a mut [u64],
}

// The rounds of the open update, as many as there is room for.
fn work(
    table: &mut [u64; WORDS],
    record: Record,
    turns: u64,
    held: &mut [u8],
    held_owns: &mut [u64],
    sets: &mut [u64],
    earlier: &mut [u64],
    out: &mut [u8],
    printed: usize,
) -> Told
    requires going { Going table.old (lent held.old held_owns.old sets.old earlier.old) «record» }
    requires printed_in_bounds { printed ≤ length out.old }
    ensures unchanged { (table.new ≡ table.old) × (held.new ≡ held.old) × (held_owns.new ≡ held_owns.old) × (earlier.new ≡ earlier.old) }
    ensures told { RoundsTold table.old (lent held.old held_owns.old sets.old earlier.old) «record» turns printed out.old result (lent held.new held_owns.new sets.new earlier.new) out.new }
{
    let mut a = [0u16; SLOTS];
    let mut b = [0u16; SLOTS];
    let mut left = [0u16; SLOTS];
    let mut rule = [0u16; SLOTS];
    let mut label = [0u16; SLOTS];
    let mut members = [0u16; SLOTS];
    let mut ends = [0u16; SLOTS + 1];
    let mut values = [0u64; SLOTS];
    tell_rounds(
        table,
        record,
        turns,
        held,
        held_owns,
        sets,
        earlier,
        &mut a,
        &mut b,
        &mut left,
        &mut rule,
        &mut label,
        &mut members,
        &mut ends,
        &mut values,
        out,
        printed,
    )
}

// The line that is whole: the first bytes of the window.
fn frame_in(kept: &Kept, begun: usize, line: u32) -> Frame
    requires { begun ≤ length kept.now.window.now }
    ensures { result ≡ (frame_at (take begun kept.now.window.now) 0 line).frame }
{
    frame_at(&kept.window[..begun], 0, line).frame
}

// What it says, heard.
fn hear_line(kept: &mut Kept, state: State, begun: usize, out: &mut [u8], printed: usize) -> Told
    requires table_len { (length kept.old.table.now ≡ table_words) × Sound state.awaited kept.old.table.now kept.old.part_owns.now (memory_of kept.old) state.«record» }
    requires parts_kept_in_bounds { (parts_kept ≤ length kept.old.parts.now) × (owns_kept ≤ length kept.old.part_owns.now) × Spacious out.old printed }
    requires begun_in_bounds { begun ≤ length kept.old.window.now }
    ensures same { Same kept.old kept.new }
    ensures window { kept.new.window.now ≡ kept.old.window.now }
    ensures hears { Hears (hearing state.awaited (frame_at (take begun kept.old.window.now) 0 state.line).frame state.line kept.old.table.now kept.old.parts.now kept.old.part_owns.now (memory_of kept.old) state.«record») result printed out.old out.new kept.new.table.now kept.new.parts.now kept.new.part_owns.now (memory_of kept.new) }
{
    let frame = frame_in(kept, begun, state.line);
    hear(
        kept.table,
        state.awaited,
        state.record,
        state.line,
        frame,
        kept.parts,
        kept.part_owns,
        kept.held,
        kept.held_owns,
        kept.sets,
        kept.earlier,
        out,
        printed,
    )
}

// Bytes of the piece, and the line that they make whole.
fn listen(
    kept: &mut Kept,
    state: State,
    piece: &[u8],
    from: usize,
    out: &mut [u8],
    printed: usize,
) -> Fed
    requires { Ready (kept_with kept.old state) out.old × Spacious out.old printed × (silent state.awaited ≡ false) }
    ensures same { Same kept.old kept.new }
    ensures turns { Turns (kept_with kept.old state) piece.now from out.old printed (kept_with kept.new result.state) result.place out.new result.printed result.more }
{
    let g = gather(piece, from, kept.window, state.begun);
    if !g.whole {
        return Fed {
            state: State {
                begun: g.begun,
                ..state
            },
            place: g.place,
            printed,
            more: false,
        };
    }
    let told = hear_line(kept, state, g.begun, out, printed);
    Fed {
        state: State {
            awaited: told.awaited,
            begun: 0,
            line: line_after(state.line),
            record: told.record,
        },
        place: g.place,
        printed: told.printed,
        more: true,
    }
}

// Rounds while an update is at work, else a line; nothing behind the session's end.
fn turn(
    kept: &mut Kept,
    state: State,
    piece: &[u8],
    from: usize,
    out: &mut [u8],
    printed: usize,
) -> Fed
    requires { Ready (kept_with kept.old state) out.old × Spacious out.old printed }
    ensures same { Same kept.old kept.new }
    ensures turns { Turns (kept_with kept.old state) piece.now from out.old printed (kept_with kept.new result.state) result.place out.new result.printed result.more }
{
    match state.awaited {
        Awaited::Working { turns } => {
            let told = work(
                kept.table,
                state.record,
                turns,
                kept.held,
                kept.held_owns,
                kept.sets,
                kept.earlier,
                out,
                printed,
            );
            Fed {
                state: State {
                    awaited: told.awaited,
                    record: told.record,
                    ..state
                },
                place: from,
                printed: told.printed,
                more: true,
            }
        }
        Awaited::Stopped => Fed {
            state,
            place: from,
            printed,
            more: false,
        },
        _ => listen(kept, state, piece, from, out, printed),
    }
}

// No line prints more: every set of a full tree.
const ROOM: usize = 94_208;

// Whether what a line can print has room.
fn has_room(size: usize, printed: usize) -> bool
    ensures { Tests result (printed + line_room ≤ size) }
{
    printed <= size && ROOM <= size - printed
}

// Turns until there is nothing left to do, or what a line can print has no room.
fn feed_sound(kept: &mut Kept, state: State, piece: &[u8], from: usize, out: &mut [u8]) -> Fed
    requires { Ready (kept_with kept.old state) out.old }
    ensures same { Same kept.old kept.new }
    ensures feeds { Feeds (kept_with kept.old state) piece.now from out.old (kept_with kept.new result.state) result.place result.printed result.more out.new × (length kept.new.table.now ≡ table_words) }
{
    let mut now = Fed {
        state,
        place: from,
        printed: 0,
        more: true,
    };
    while now.more && has_room(out.len(), now.printed) {
        now = turn(kept, now.state, piece, now.place, out, now.printed);
    }
    now
}

// One call: as much of the piece as the room for printing allows; or why the memory can't be a session's, and then all is as it was.
pub fn feed(
    state: State,
    words: &mut [u64],
    window: &mut [u8],
    parts: &mut [u8],
    part_owns: &mut [u64],
    held: &mut [u8],
    held_owns: &mut [u64],
    sets: &mut [u64],
    earlier: &mut [u64],
    piece: &[u8],
    from: usize,
    out: &mut [u8],
) -> Result<Fed, Refusal>
    ensures { FeedSays (suspended words.old window.old parts.old part_owns.old (lent held.old held_owns.old sets.old earlier.old) state) piece.now from out.old (suspended words.new window.new parts.new part_owns.new (lent held.new held_owns.new sets.new earlier.new)) out.new result }
{
    if is_narrow(
        words, window, parts, part_owns, held, held_owns, sets, earlier, out,
    ) {
        return Err(Refusal::Buffer);
    }
    let mut table = [0u64; WORDS];
    copy_in(words, &mut table);
    judge_state(
        &table, state, window, part_owns, held, held_owns, sets, earlier,
    )?;
    let mut kept = Kept {
        table: &mut table,
        window,
        parts,
        part_owns,
        held,
        held_owns,
        sets,
        earlier,
    };
    let fed = feed_sound(&mut kept, state, piece, from, out);
    copy_out(&table, words);
    Ok(fed)
}

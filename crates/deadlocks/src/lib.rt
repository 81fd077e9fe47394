// The deadlock test (document 01, "The three methods", its last paragraph; document 000, section 2.2; document 001, section 3.2).

#![tactic(auto)]

ghost use Rattle.std.specs.Prelude.{◌≡◌, ◌+◌, ◌*◌, ◌<◌, length};
ghost use Rattle.blocks.specs.State.{State};
ghost use Rattle.blocks.specs.Loop.{loop, onward, blocked_rows, shown_width};
ghost use Rattle.lengths.specs.Checks.{sheet_of};
ghost use Rattle.lists.specs.Lists.{overwrite};
ghost use Rattle.deadlocks.specs.Looks.{row_at, Shows, Showable, Looks, Lookable, Looked, Seekable, Sought};
ghost use Rattle.deadlocks.specs.Answers.{TestsDeadlock};

use lengths::Sheet;
use refusals::{Question, Refusal};
use rows::{MOST, ROW, ROWS, SEEN, Yard};
use statuses::{Mode, Sets};

// How many numbers are written for a block.
pub const WIDTH: usize = 3;

// The questions of a sheet and 10, and then whether blocks are deadlocked at the start; where some are, they are written as rows from the front of the lent
// space, and the answer is how many they are.
pub fn deadlock(sheet: Sheet, out: &mut [u16]) -> Result<Option<usize>, Refusal>
    ensures { TestsDeadlock (sheet_of sheet.entry) out.old result out.new }
{
    let mut yard = [[0u16; ROW]; ROWS];
    lengths::examine(sheet, &mut yard)?;
    if out.len() < WIDTH * sheet.initial.len() {
        return Err(Question::Space.refused());
    }
    Ok(test(sheet.initial, sheet.goal, &mut yard, out))
}

// The test of a problem that has been checked, with the yard as the check left it, and space for a row of each block: constructive moves on a copy of the
// state until none is left, and a look at what is then misplaced; answers how many blocks are written.
// The moves need no towers; these are filled once, for the look. Nothing ready and nothing perched: nothing is misplaced.
pub fn test(initial: &[u16], goal: &[u16], yard: &mut Yard, out: &mut [u16]) -> Option<usize>
    requires { Seekable initial.now goal.now yard.old out.old }
    ensures { Sought initial.now goal.now out.old result out.new }
{
    let mut room = [0u16; MOST];
    let cur = &mut room[..initial.len()];
    let mut moves = [0u16; 4 * MOST];
    let mut sets = statuses::begin(Mode::Building, initial, goal, cur, yard);
    runs::run(Mode::Building, cur, goal, yard, &mut sets, &mut moves, 0);
    sets.loose.lowest()?;
    sets = statuses::fit(Mode::Gn2, cur, goal, yard);
    look(yard, &sets, out)
}

// Writes the loop of a state in which no block is ready, from its lowest block onward; answers how many blocks it has, none where nothing is misplaced.
// The test calls it only where something is perched; it does not rely on that.
fn look(yard: &mut Yard, sets: &Sets, out: &mut [u16]) -> Option<usize>
    requires { Lookable yard.old sets.now out.old }
    ensures { (s g : State) → Looks s g yard.old sets.now → Looked s g out.old result out.new }
{
    let start = sets.loose.lowest()?;
    let part = choices::walk(yard, start);
    let count = part.end - part.start;
    let low = choices::lowest_in(&yard[SEEN][part]);
    show(yard, out, low, count);
    Some(count)
}

// Writes the loop from its lowest block on, a row for each block: it, the block through which its successor is in its way, and where the good part of its goal
// tower ends.
fn show(yard: &Yard, out: &mut [u16], low: usize, count: usize)
    requires { Showable yard.now out.old low count }
    ensures { (s g : State) → Shows s g yard.now low count → out.new ≡ overwrite (blocked_rows s g (onward s (loop s g))) out.old }
{
    let mut b = low;
    for i in 0..count {
        let found = towers::find(yard, b);
        write_row(out, i, b, found.by, found.above);
        b = found.next;
    }
}

// Writes the k-th row.
fn write_row(out: &mut [u16], k: usize, b: usize, by: usize, above: usize)
    requires { (shown_width * k + 2 < length out.old) × (b < 65536) × (by < 65536) × (above < 65536) }
    ensures { out.new ≡ row_at out.old k b by above }
{
    out[WIDTH * k] = b as u16;
    out[WIDTH * k + 1] = by as u16;
    out[WIDTH * k + 2] = above as u16;
}

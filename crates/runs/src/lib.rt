// Runs of moves, each written as a pair into lent space.

#![tactic(auto)]

ghost use Rattle.std.specs.Prelude.{◌≡◌, ◌+◌, ◌*◌, ◌<◌, length, set};
ghost use Rattle.runs.specs.Runs.{Steppable, Finished};

use choices::Move;
use rows::Yard;
use statuses::{Mode, Sets};

// Makes the moves of a run, one after the other, and writes them from the k-th pair on; answers the count of pairs then written.
pub fn run(
    mode: Mode,
    cur: &mut [u16],
    goal: &[u16],
    yard: &mut Yard,
    sets: &mut Sets,
    out: &mut [u16],
    k: usize,
) -> usize
    requires { Steppable mode cur.old goal.now yard.old sets.old out.old k }
    ensures { Finished mode cur.old goal.now k out.old result cur.new yard.new sets.new out.new }
{
    let mut count = k;
    while let Some(next) = choices::pick(mode, goal, yard, sets) {
        statuses::turn(mode, cur, goal, yard, sets, next.block, next.destination);
        write_pair(out, count, next);
        count += 1;
    }
    count
}

// Writes a move as the k-th pair.
fn write_pair(out: &mut [u16], k: usize, pair: Move)
    requires { (2 * k + 1 < length out.old) × (pair.block < 65536) × (pair.destination < 65536) }
    ensures { out.new ≡ set (set out.old (2 * k) pair.block) (2 * k + 1) pair.destination }
{
    out[2 * k] = pair.block as u16;
    out[2 * k + 1] = pair.destination as u16;
}

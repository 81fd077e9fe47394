// The next move of a run, with every tie-break, and the walk of the loop (document 01, "The three methods"; document 001, section 3).

#![tactic(auto)]

ghost use Rattle.std.specs.Prelude.{◌≡◌, ◌≤◌, ◌<◌, length};
ghost use Rattle.rows.specs.Rows.{row_size, seen_of, places_of};
ghost use Rattle.choices.specs.Choices.{Pickable, Picks};
ghost use Rattle.choices.specs.Walks.{Walkable, Walked, Unlocked};
ghost use Rattle.choices.specs.Visits.{LowestIn, seen_in, resumed_in, visit_in, Resumable};

use rows::{PLACES, SEEN, STANDS, Yard};
use statuses::{Mode, Sets};
use std::ops::Range;

// A move of a block to another, or to the table.
#[derive(Clone, Copy, Debug, PartialEq, Eq)]
pub struct Move {
    pub block: usize,
    pub destination: usize,
}

// The next move of a run: the lowest ready block goes home, and where none is ready a block is put down: the lowest perched one, or the lowest on the loop.
// Clearing makes no constructive move, and building puts nothing down.
pub fn pick(mode: Mode, goal: &[u16], yard: &mut Yard, sets: &Sets) -> Option<Move>
    requires { Pickable mode goal.now yard.old sets.now }
    ensures { Picks mode goal.now sets.now result yard.old yard.new }
{
    if mode.builds() {
        if let Some(block) = sets.ready.lowest() {
            return Some(Move {
                block,
                destination: usize::from(goal[block - 1]),
            });
        }
    }
    if !mode.puts_down() {
        return None;
    }
    let low = sets.loose.lowest()?;
    let block = if mode.walks() { unlock(yard, low) } else { low };
    Some(Move {
        block,
        destination: 0,
    })
}

// The lowest block on the loop. It is to be put down, so the walk is kept up to it: what was seen before it. The place of the table says how many are kept.
fn unlock(yard: &mut Yard, start: usize) -> usize
    requires { Walkable yard.old start }
    ensures { Unlocked start result yard.old yard.new }
{
    let part = walk(yard, start);
    let low = lowest_in(&yard[SEEN][part]);
    yard[PLACES][0] = yard[PLACES][low];
    low
}

// Follows successors from the start until one returns; the loop is the part of the blocks seen from its first visit on. What is kept of the last walk is not
// walked again.
pub fn walk(yard: &mut Yard, start: usize) -> Range<usize>
    requires { Walkable yard.old start }
    ensures { Walked start result yard.old yard.new }
{
    let mut k = resumed(yard, start);
    let mut b = visit(yard, start, k);
    while !is_seen(yard, k, b) {
        yard[PLACES][b] = k as u16;
        yard[SEEN][k] = b as u16;
        k += 1;
        b = towers::find(yard, b).next;
    }
    usize::from(yard[PLACES][b])..k
}

// How many blocks this walk passes over: none where the last one began at another block. Of those kept, the ones that have been brought home since are the
// last; the walk goes on at the block before them.
#[tactic(auto, unfolding(crate::specs::Visits::resumed_in))]
fn resumed(yard: &Yard, start: usize) -> usize
    requires { Resumable yard.now }
    ensures { result ≡ resumed_in yard.now start }
{
    if usize::from(yard[SEEN][0]) != start {
        return 0;
    }
    for k in (0..usize::from(yard[PLACES][0])).rev() {
        if !problem::in_position(&yard[STANDS], usize::from(yard[SEEN][k])) {
            return k;
        }
    }
    0
}

// The block at which the walk then stands.
#[tactic(auto, unfolding(crate::specs::Visits::visit_in))]
fn visit(yard: &Yard, start: usize, k: usize) -> usize
    requires { k < row_size }
    ensures { result ≡ visit_in yard.now start k }
{
    if k == 0 {
        start
    } else {
        usize::from(yard[SEEN][k])
    }
}

// Whether b is among the first k blocks seen.
#[tactic(auto, unfolding(crate::specs::Visits::seen_in))]
fn is_seen(yard: &Yard, k: usize, b: usize) -> bool
    requires { (k ≤ row_size) × (b < row_size) }
    ensures { result ≡ seen_in (seen_of yard.now) (places_of yard.now) k b }
{
    let i = usize::from(yard[PLACES][b]);
    i < k && usize::from(yard[SEEN][i]) == b
}

// The lowest of some blocks.
pub fn lowest_in(blocks: &[u16]) -> usize
    requires { 0 < length blocks.now }
    ensures { LowestIn blocks.now result }
{
    let mut low = blocks[0];
    for &b in blocks {
        low = low.min(b);
    }
    usize::from(low)
}

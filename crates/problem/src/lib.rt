// Checking a problem (document 01, questions 2 to 9), and what a planner wants to know of it at the start.

#![tactic(auto)]

ghost use Rattle.std.specs.Prelude.{◌≡◌, not, ◌&&◌, ◌+◌, ◌-◌, ◌≤◌, ◌<◌, eqb, length, get_or};
ghost use Rattle.lists.specs.Search.{pick, lowest, nonzero, count};
ghost use Rattle.blocks.specs.State.{most};
ghost use Rattle.blocks.specs.Question.{first_outside};
ghost use Rattle.blocks.specs.Answer.{first_difference};
ghost use Rattle.rows.specs.Rows.{Fresh};
ghost use Rattle.problem.specs.Known.{Fillable, Filled, stands_as, Standable, Climbable, Climbed, right_in, misplaced_in, Movable, MovedTo};
ghost use Rattle.refusals.specs.Refusals.{no_of};
ghost use Rattle.problem.specs.Checked.{no_by, Surveyable, Surveyed, Examines};

use refusals::{Question, Refusal};
use rows::{GOAL_LOADS, LOADS, MOST, ROW, STANDS};

// Questions 2 to 9, put to any two lists, over lent rows that are zero. Where the problem is accepted they hold the loads of both states, and how the blocks stand.
pub fn examine(initial: &[u16], goal: &[u16], rows: &mut [[u16; ROW]]) -> Result<(), Refusal>
    requires { Fresh 4 rows.old }
    ensures { Examines initial.now goal.now result rows.old rows.new }
{
    if MOST < initial.len() {
        return Err(Question::TooMany.refused());
    }
    if goal.len() != initial.len() {
        return Err(Question::Unequal.refused());
    }
    survey(initial, goal, rows, LOADS).map_err(Fault::now)?;
    survey(goal, goal, rows, GOAL_LOADS).map_err(Fault::in_goal)
}

// What is wrong with a list of supports, and at which block first.
#[derive(Clone, Copy, Debug, PartialEq, Eq)]
enum Fault {
    Outside(u16),
    Shared(u16),
    Floating(u16),
}

impl Fault {
    // Of the initial state: 4, 5 or 6.
    fn now(self) -> Refusal
        ensures { no_of result ≡ no_by 4 5 6 self }
    {
        match self {
            Fault::Outside(block) => Question::NowEntry.refused_at(block),
            Fault::Shared(block) => Question::NowShared.refused_at(block),
            Fault::Floating(block) => Question::NowFloating.refused_at(block),
        }
    }

    // "7, 8, 9. The same three for the goal."
    fn in_goal(self) -> Refusal
        ensures { no_of result ≡ no_by 7 8 9 self }
    {
        match self {
            Fault::Outside(block) => Question::GoalEntry.refused_at(block),
            Fault::Shared(block) => Question::GoalShared.refused_at(block),
            Fault::Floating(block) => Question::GoalFloating.refused_at(block),
        }
    }
}

// The three questions of one state. Where all are answered yes, two rows hold what rests on each block and how each block stands.
fn survey(s: &[u16], goal: &[u16], rows: &mut [[u16; ROW]], loads: usize) -> Result<(), Fault>
    requires { Surveyable s.now goal.now rows.old loads }
    ensures { Surveyed s.now goal.now result loads rows.old rows.new }
{
    if let Some(block) = first_outside(s) {
        return Err(Fault::Outside(block as u16));
    }
    if let Some(block) = fill_loads(s, &mut rows[loads]) {
        return Err(Fault::Shared(block as u16));
    }
    climb(s, goal, rows, loads);
    if let Some(block) = first_floating(&rows[loads + 1], s.len()) {
        return Err(Fault::Floating(block as u16));
    }
    Ok(())
}

// Question 4: the lowest block whose entry is above n.
fn first_outside(s: &[u16]) -> Option<usize>
    requires { length s.now ≤ most }
    ensures { result ≡ nonzero (first_outside s.now) }
{
    if !any_outside(s) {
        return None;
    }
    let n = s.len();
    for (i, &x) in s.iter().enumerate() {
        if n < usize::from(x) {
            return Some(i + 1);
        }
    }
    None
}

// Whether an entry is above n. The loop has no exit, and the compiler makes it wide.
fn any_outside(s: &[u16]) -> bool
    requires { length s.now ≤ most }
    ensures { result ≡ not (eqb (first_outside s.now) 0) }
{
    let high = s.len() as u16;
    let mut any = false;
    for &x in s {
        any |= high < x;
    }
    any
}

// Question 5: the lowest block that rests where a lower one rests; where there is none, `load` holds what rests on each block.
// Entry 0 of `load` takes what rests on the table, and says nothing.
fn fill_loads(s: &[u16], load: &mut [u16]) -> Option<usize>
    requires { Fillable s.now load.old }
    ensures { Filled s.now result load.new }
{
    for (i, &x) in s.iter().enumerate() {
        let x = usize::from(x);
        if taken(load, x) {
            return Some(i + 1);
        }
        load[x] = (i + 1) as u16;
    }
    None
}

// Whether something has been found to rest on block x; never on the table.
pub fn taken(load: &[u16], x: usize) -> bool
    requires { x < length load.now }
    ensures { result ≡ (not (eqb x 0) && not (eqb (get_or load.now x 0) 0)) }
{
    x != 0 && load[x] != 0
}

// One climb from the table through the loads, each block once: which blocks come down to the table, and which of them are in position. The row behind that of
// the loads says it.
fn climb(s: &[u16], goal: &[u16], rows: &mut [[u16; ROW]], loads: usize)
    requires { Climbable s.now goal.now rows.old loads }
    ensures { Climbed s.now goal.now loads rows.old rows.new }
{
    let stands = loads + 1;
    rows[stands][0] = 2;
    for i in 0..s.len() {
        let mut block = on_table(s, i);
        let mut below = 2; // how the support of `block` stands
        while block != 0 {
            below = stand(s, goal, below, block);
            rows[stands][block] = below;
            block = usize::from(rows[loads][block]);
        }
    }
}

// Block i + 1 where it rests on the table, else 0.
fn on_table(s: &[u16], i: usize) -> usize
    requires { i < length s.now }
    ensures { result ≡ pick (eqb (get_or s.now i 0) 0) (i + 1) }
{
    if s[i] == 0 { i + 1 } else { 0 }
}

// How block b stands, from how its support stands.
fn stand(s: &[u16], goal: &[u16], below: u16, b: usize) -> u16
    requires { Standable s.now goal.now b }
    ensures { result ≡ stands_as (get_or s.now (b - 1) 0) (get_or goal.now (b - 1) 0) below }
{
    if s[b - 1] != goal[b - 1] {
        return 1;
    }
    if below == 2 { 2 } else { 1 }
}

// The lowest block from 1 to n that was not reached.
fn first_floating(stands: &[u16], n: usize) -> Option<usize>
    requires { n < length stands.now }
    ensures { result ≡ nonzero (lowest (λ b. eqb (get_or stands.now b 0) 0) n) }
{
    if !any_floating(stands, n) {
        return None;
    }
    for i in 0..n {
        if stands[i + 1] == 0 {
            return Some(i + 1);
        }
    }
    None
}

// Whether a block from 1 to n was not reached. The loop has no exit, and the compiler makes it wide.
fn any_floating(stands: &[u16], n: usize) -> bool
    requires { n < length stands.now }
    ensures { result ≡ not (eqb (lowest (λ b. eqb (get_or stands.now b 0) 0) n) 0) }
{
    let mut any = false;
    for i in 0..n {
        any |= stands[i + 1] == 0;
    }
    any
}

// How many blocks from 1 to n are misplaced, by the row that says how each stands.
pub fn misplaced(rows: &[[u16; ROW]], n: usize) -> usize
    requires { (2 ≤ length rows.now) × (n ≤ most) }
    ensures { result ≡ count (misplaced_in rows.now) n }
{
    let mut c = 0;
    for i in 0..n {
        c += is_misplaced(rows, i + 1) as usize;
    }
    c
}

// Whether block b is misplaced: it does not stand in position.
fn is_misplaced(rows: &[[u16; ROW]], b: usize) -> bool
    requires { (2 ≤ length rows.now) × (b ≤ most) }
    ensures { result ≡ misplaced_in rows.now b }
{
    !in_position(&rows[STANDS], b)
}

// Whether block b is in position, by the row that says how the blocks stand. No other function looks there for it.
pub fn in_position(stands: &[u16], b: usize) -> bool
    requires { b < length stands.now }
    ensures { result ≡ right_in stands.now b }
{
    stands[b] == 2
}

// A legal move of block a to x: the state and its loads afterwards. Entry 0 of `load` takes what concerns the table, and says nothing.
pub fn make_move(cur: &mut [u16], load: &mut [u16], a: usize, x: usize)
    requires { Movable cur.old load.old a x }
    ensures { MovedTo cur.old a x cur.new load.new }
{
    let u = usize::from(cur[a - 1]);
    load[u] = 0;
    load[x] = a as u16;
    cur[a - 1] = x as u16;
}

// The lowest block whose supports differ.
pub fn first_difference(s: &[u16], goal: &[u16]) -> Option<usize>
    requires { length goal.now ≡ length s.now }
    ensures { result ≡ nonzero (first_difference s.now goal.now) }
{
    if !any_difference(s, goal) {
        return None;
    }
    for (i, &x) in s.iter().enumerate() {
        if x != goal[i] {
            return Some(i + 1);
        }
    }
    None
}

// Whether a block's supports differ. The loop has no exit, and the compiler makes it wide.
fn any_difference(s: &[u16], goal: &[u16]) -> bool
    requires { length goal.now ≡ length s.now }
    ensures { result ≡ not (eqb (first_difference s.now goal.now) 0) }
{
    let mut any = false;
    for (i, &x) in s.iter().enumerate() {
        any |= x != goal[i];
    }
    any
}

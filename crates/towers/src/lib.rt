// Towers by their bottom blocks: the top of a tower, the highest block in position of a goal tower, and so the position test and the successor of a block, in
// constant time.

#![tactic(auto)]

ghost use Rattle.std.specs.Prelude.{◌≡◌, not, ◌&&◌, cond, ◌-◌, ◌≤◌, ◌<◌, eqb, length, get_or};
ghost use Rattle.rows.specs.Rows.{loads_of, goal_loads_of, row_size};
ghost use Rattle.blocks.specs.State.{State};
ghost use Rattle.blocks.specs.Position.{Misplaced};
ghost use Rattle.blocks.specs.Tests.{position, nearest};
ghost use Rattle.towers.specs.Towers.{bottom, Fillable, Filled, Climbable, Climbed};
ghost use Rattle.towers.specs.Linked.{Linked, position_of, Askable, Findable, Found};
ghost use Rattle.towers.specs.Moved.{Shifting, Shifted, restood, Raisable, raised};
ghost use Rattle.towers.specs.Walks.{Standing, Markable, Marked, Descending, FirstRight};

use rows::{BOTTOMS, GOAL_BOTTOMS, GOAL_LOADS, HIGHS, LOADS, STANDS, TOPS, Yard};

// How a block stands: in position, or misplaced above c, the nearest block beneath it in its goal tower that is in position, 0 for the table.
// An enum and no Option: `None` would not say which of the two answers of the position test it is.
#[derive(Clone, Copy, Debug, PartialEq, Eq)]
pub enum Position {
    InPosition,
    MisplacedAbove { c: usize },
}

// Where the good part of a misplaced block's goal tower ends (c), what is in its way, and the block to move first: its successor.
#[derive(Clone, Copy, Debug, PartialEq, Eq)]
pub struct Blocked {
    pub above: usize,
    pub by: usize,
    pub next: usize,
}

// The bottom and the top of every tower, by walking down each tower from its clear block: in a row, and in the row behind it. Another row has the loads.
pub fn fill_towers(s: &[u16], yard: &mut Yard, loads: usize, bottoms: usize)
    requires { Fillable s.now yard.old loads bottoms }
    ensures { Filled s.now bottoms yard.old yard.new }
{
    let tops = bottoms + 1;
    for b in 1..=s.len() {
        if yard[loads][b] == 0 {
            let r = bottom_of(s, b);
            mark_tower(s, b, r, &mut yard[bottoms]);
            yard[tops][r] = b as u16;
        }
    }
}

// The bottom of b's tower, by walking down.
fn bottom_of(s: &[u16], b: usize) -> usize
    requires { Standing s.now b }
    ensures { result ≡ bottom s.now b }
{
    let mut c = b;
    loop {
        let x = usize::from(s[c - 1]);
        if x == 0 {
            return c;
        }
        c = x;
    }
}

// Walks down from t and writes r at every block that it passes.
fn mark_tower(s: &[u16], t: usize, r: usize, bottoms: &mut [u16])
    requires { Markable s.now t r bottoms.old }
    ensures { Marked s.now t r bottoms.old bottoms.new }
{
    let mut c = t;
    while c != 0 {
        bottoms[c] = r as u16;
        c = usize::from(s[c - 1]);
    }
}

// The highest block in position of every goal tower, by walking down each from its clear block.
pub fn fill_highs(goal: &[u16], yard: &mut Yard)
    requires { Climbable goal.now yard.old }
    ensures { Climbed goal.now yard.old yard.new }
{
    for b in 1..=goal.len() {
        if yard[GOAL_LOADS][b] == 0 {
            let r = usize::from(yard[GOAL_BOTTOMS][b]);
            yard[HIGHS][r] = first_in_position(goal, &yard[STANDS], b) as u16;
        }
    }
}

// The first block in position, or the table, on the way down from t in the goal.
fn first_in_position(goal: &[u16], stands: &[u16], t: usize) -> usize
    requires { Descending goal.now stands.now t }
    ensures { FirstRight goal.now stands.now t result }
{
    let mut c = t;
    while !problem::in_position(stands, c) {
        c = usize::from(goal[c - 1]);
    }
    c
}

// The towers after a legal move of a to x: the tower that it leaves has a's old support on top, the tower that it joins has a.
// Entry 0 of `tops` takes what concerns the table, and says nothing.
pub fn shift(s: &[u16], yard: &mut Yard, a: usize, x: usize)
    requires { Shifting s.now yard.old a x }
    ensures { Shifted s.now a x yard.old yard.new }
{
    let u = usize::from(s[a - 1]);
    let left = entry_or(&yard[BOTTOMS], u, 0);
    let joined = entry_or(&yard[BOTTOMS], x, a);
    yard[TOPS][left] = u as u16;
    yard[TOPS][joined] = a as u16;
    yard[BOTTOMS][a] = joined as u16;
}

// Entry x of the list; y where x is the table.
fn entry_or(l: &[u16], x: usize, y: usize) -> usize
    requires { x < length l.now }
    ensures { result ≡ cond (eqb x 0) y (get_or l.now x 0) }
{
    if x == 0 { y } else { usize::from(l[x]) }
}

// How the blocks stand after a move of a to x: a comes into position where x is its goal support.
pub fn restand(goal: &[u16], stands: &mut [u16], a: usize, x: usize)
    requires { (1 ≤ a) × (a - 1 < length goal.now) × (a < length stands.old) }
    ensures { stands.new ≡ restood goal.now a x stands.old }
{
    if x == usize::from(goal[a - 1]) {
        stands[a] = 2;
    }
}

// The highest blocks in position after such a move: a is that of its goal tower where it comes into position.
pub fn raise(goal: &[u16], yard: &mut Yard, a: usize, x: usize)
    requires { Raisable goal.now yard.old a }
    ensures { yard.new ≡ raised goal.now a x yard.old }
{
    if x == usize::from(goal[a - 1]) {
        let r = usize::from(yard[GOAL_BOTTOMS][a]);
        yard[HIGHS][r] = a as u16;
    }
}

// The position test, in whatever problem the rows are of: the highest block in position of its goal tower is c of every misplaced block.
pub fn position_of(yard: &Yard, b: usize) -> Position
    requires { Askable yard.now b }
    ensures { (s g : State) → Linked s g yard.now → b ≤ length s → position_of result ≡ position s g b }
{
    if problem::in_position(&yard[STANDS], b) {
        return Position::InPosition;
    }
    let r = usize::from(yard[GOAL_BOTTOMS][b]);
    Position::MisplacedAbove {
        c: usize::from(yard[HIGHS][r]),
    }
}

// The block that the test names, c of a misplaced block; 0 for a block in position, where it names none.
fn nearest(yard: &Yard, b: usize) -> usize
    requires { Askable yard.now b }
    ensures { (s g : State) → Linked s g yard.now → b ≤ length s → result ≡ nearest s g b }
{
    match position_of(yard, b) {
        Position::InPosition => 0,
        Position::MisplacedAbove { c } => c,
    }
}

// The successor of a misplaced block, what is in its way, and c, in whatever problem the rows are of.
pub fn find(yard: &Yard, b: usize) -> Blocked
    requires { Findable yard.now b }
    ensures { (s g : State) → Linked s g yard.now → Misplaced s g b → Found s g b result }
{
    let above = nearest(yard, b);
    let by = in_the_way(yard, usize::from(yard[GOAL_BOTTOMS][b]), above);
    let next = usize::from(yard[TOPS][usize::from(yard[BOTTOMS][by])]);
    Blocked { above, by, next }
}

// c where something rests on it, else what rests on c in the goal: for the table that is r, the bottom of the goal tower asked for.
fn in_the_way(yard: &Yard, r: usize, c: usize) -> usize
    requires { c < row_size }
    ensures { result ≡ cond (not (eqb c 0) && not (eqb (get_or (loads_of yard.now) c 0) 0)) c (cond (eqb c 0) r (get_or (goal_loads_of yard.now) c 0)) }
{
    if problem::taken(&yard[LOADS], c) {
        c
    } else {
        entry_or(&yard[GOAL_LOADS], c, r)
    }
}

// All that a run keeps beside the state: which blocks are ready and which are loose, the loads, how the blocks stand, and the towers where the loop is walked.
// `begin` fills it, `turn` keeps it through a move (document 001, section 3.4: a move changes the status of four blocks at most).

#![tactic(auto)]

ghost use Rattle.std.specs.Prelude.{◌≡◌, ◌<◌};
ghost use Rattle.lists.specs.Search.{nonzero};
ghost use Rattle.rows.specs.Rows.{row_size};
ghost use Rattle.numberset.specs.Members.{Empty, Assigned};
ghost use Rattle.towers.specs.Linked.{Known};
ghost use Rattle.statuses.specs.Modes.{buildsᵇ, puts_downᵇ, walksᵇ};
ghost use Rattle.statuses.specs.Reads.{Readable, onto, waits_in, perched_in, target_in, ready_in, loose_in};
ghost use Rattle.statuses.specs.Kept.{SetsHold, Offerable, Admissible, Refreshable, Refreshed, Moving, Fitted, Kept, Traceable, Traced, Turnable, Turned, Beginnable, Begun};

use numberset::NumberSet;
use rows::{BOTTOMS, GOAL_BOTTOMS, GOAL_LOADS, LOADS, STANDS, Yard};

// The sets of a run: the blocks that are ready, and those that are loose.
#[derive(Clone, Copy)]
pub struct Sets {
    pub ready: NumberSet,
    pub loose: NumberSet,
}

impl Sets {
    // Nothing is in either.
    pub fn new() -> Self
        ensures ready { Empty result.ready }
        ensures loose { Empty result.loose }
    {
        Sets {
            ready: NumberSet::new(),
            loose: NumberSet::new(),
        }
    }
}

// The modes of a run: the first loop of method 1, constructive moves alone (its second loop, and the deadlock test), and methods 2 and 3.
#[derive(Clone, Copy, Debug, PartialEq, Eq)]
pub enum Mode {
    Clearing,
    Building,
    Gn1,
    Gn2,
}

impl Mode {
    // Whether the run makes constructive moves.
    pub fn builds(self) -> bool
        ensures { result ≡ buildsᵇ self }
    {
        !matches!(self, Mode::Clearing)
    }

    // Whether the run puts blocks down.
    pub fn puts_down(self) -> bool
        ensures { result ≡ puts_downᵇ self }
    {
        !matches!(self, Mode::Building)
    }

    // Whether the run walks the loop: then it keeps the towers, and its loose blocks are all that wait. Else they are the perched ones, and no towers are kept.
    pub fn walks(self) -> bool
        ensures { result ≡ walksᵇ self }
    {
        matches!(self, Mode::Gn2)
    }
}

// Everything that a run keeps beside the initial state, from the loads and how the blocks stand.
pub fn begin(mode: Mode, initial: &[u16], goal: &[u16], cur: &mut [u16], yard: &mut Yard) -> Sets
    requires { Beginnable initial.now goal.now cur.old yard.old }
    ensures { Begun mode initial.now goal.now cur.new yard.old yard.new result }
{
    // a loop: `copy_from_slice` is slower, since it compares addresses
    for (i, &x) in initial.iter().enumerate() {
        cur[i] = x;
    }
    fit(mode, cur, goal, yard)
}

// What a run keeps beside the blocks: the two sets, which are answered, and the towers where it walks the loop.
pub fn fit(mode: Mode, cur: &[u16], goal: &[u16], yard: &mut Yard) -> Sets
    requires { Known cur.now goal.now yard.old }
    ensures { Begun mode cur.now goal.now cur.now yard.old yard.new result }
{
    fit_towers(mode, cur, goal, yard);
    let mut sets = Sets::new();
    fill_sets(mode, cur, goal, yard, &mut sets);
    sets
}

// The towers of both states, where the run walks the loop.
fn fit_towers(mode: Mode, cur: &[u16], goal: &[u16], yard: &mut Yard)
    requires { Known cur.now goal.now yard.old }
    ensures { Fitted mode cur.now goal.now yard.old yard.new }
{
    if !mode.walks() {
        return;
    }
    towers::fill_towers(cur, yard, LOADS, BOTTOMS);
    // the goal's tops go into the row behind its bottoms, which the highs then take
    towers::fill_towers(goal, yard, GOAL_LOADS, GOAL_BOTTOMS);
    towers::fill_highs(goal, yard);
}

// The two sets of the state.
fn fill_sets(mode: Mode, cur: &[u16], goal: &[u16], yard: &Yard, sets: &mut Sets)
    requires known { Known cur.now goal.now yard.now }
    requires empty { Empty sets.old.ready × Empty sets.old.loose }
    ensures { SetsHold mode cur.now goal.now sets.new }
{
    for b in 1..=cur.len() {
        admit(mode, cur, goal, yard, sets, b);
    }
}

// One move of a method: the state and all that is kept beside it.
pub fn turn(
    mode: Mode,
    cur: &mut [u16],
    goal: &[u16],
    yard: &mut Yard,
    sets: &mut Sets,
    a: usize,
    x: usize,
)
    requires { Turnable mode cur.old goal.now yard.old sets.old a x }
    ensures { Turned mode cur.old goal.now a x cur.new yard.old yard.new sets.new }
{
    trace(mode, cur, goal, yard, a, x);
    towers::restand(goal, &mut yard[STANDS], a, x);
    let u = usize::from(cur[a - 1]);
    problem::make_move(cur, &mut yard[LOADS], a, x);
    refresh_four(mode, cur, goal, yard, sets, a, u);
}

// The towers after a move of a method, where they are kept.
fn trace(mode: Mode, cur: &[u16], goal: &[u16], yard: &mut Yard, a: usize, x: usize)
    requires { Traceable mode cur.now goal.now yard.old a x }
    ensures { Traced mode cur.now goal.now a x yard.old yard.new }
{
    if !mode.walks() {
        return;
    }
    towers::shift(cur, yard, a, x);
    towers::raise(goal, yard, a, x);
}

// Decides the tests that a move of a from u can have changed: of a, and whether the block that goes onto it in the goal is ready; the same for u, unless it is
// the table.
fn refresh_four(
    mode: Mode,
    cur: &[u16],
    goal: &[u16],
    yard: &Yard,
    sets: &mut Sets,
    a: usize,
    u: usize,
)
    requires { Moving mode cur.now goal.now yard.now sets.old a u }
    ensures { SetsHold mode cur.now goal.now sets.new }
{
    refresh(mode, cur, goal, yard, sets, a);
    offer_onto(goal, yard, &mut sets.ready, a);
    if u == 0 {
        return;
    }
    admit(mode, cur, goal, yard, sets, u);
    offer_onto(goal, yard, &mut sets.ready, u);
}

// The same as `offer` for the block that goes onto u in the goal, if one does.
fn offer_onto(goal: &[u16], yard: &Yard, ready: &mut NumberSet, u: usize)
    requires { (u < row_size) × Offerable goal.now yard.now ready.old (onto yard.now u) }
    ensures { Assigned ready.old (onto yard.now u) (ready_in goal.now yard.now (onto yard.now u)) ready.new }
{
    if let Some(b) = onto(yard, u) {
        offer(goal, yard, ready, b);
    }
}

// The block that goes onto u in the goal.
fn onto(yard: &Yard, u: usize) -> Option<usize>
    requires { u < row_size }
    ensures { result ≡ nonzero (onto yard.now u) }
{
    let b = usize::from(yard[GOAL_LOADS][u]);
    if u == 0 || b == 0 { None } else { Some(b) }
}

// Decides both tests of block b anew.
fn refresh(mode: Mode, cur: &[u16], goal: &[u16], yard: &Yard, sets: &mut Sets, b: usize)
    requires { Refreshable cur.now goal.now yard.now b }
    ensures { Refreshed mode cur.now goal.now b sets.old sets.new }
{
    sets.ready.assign(b, is_ready(goal, yard, b));
    sets.loose.assign(b, is_loose(mode, cur, yard, b));
}

// The same for a block that is in no set in which it must not stay.
fn admit(mode: Mode, cur: &[u16], goal: &[u16], yard: &Yard, sets: &mut Sets, b: usize)
    requires { Admissible mode cur.now goal.now yard.now sets.old b }
    ensures { Refreshed mode cur.now goal.now b sets.old sets.new }
{
    offer(goal, yard, &mut sets.ready, b);
    if is_loose(mode, cur, yard, b) {
        sets.loose.insert(b);
    }
}

// Puts block b into the set where it is ready. Where it is not, it is not in the set.
fn offer(goal: &[u16], yard: &Yard, ready: &mut NumberSet, b: usize)
    requires { Offerable goal.now yard.now ready.old b }
    ensures { Assigned ready.old b (ready_in goal.now yard.now b) ready.new }
{
    if is_ready(goal, yard, b) {
        ready.insert(b);
    }
}

// Whether block b has a constructive move: it is misplaced and clear, and its goal support is in position and clear.
#[tactic(auto, unfolding(crate::specs::Reads::ready_in))]
fn is_ready(goal: &[u16], yard: &Yard, b: usize) -> bool
    requires { Readable goal.now yard.now b }
    ensures { result ≡ ready_in goal.now yard.now b }
{
    is_waiting(yard, b) && is_target(yard, usize::from(goal[b - 1]))
}

// Whether block x is in position and clear; the table is clear.
#[tactic(auto, unfolding(crate::specs::Reads::target_in))]
fn is_target(yard: &Yard, x: usize) -> bool
    requires { x < row_size }
    ensures { result ≡ target_in yard.now x }
{
    problem::in_position(&yard[STANDS], x) && !problem::taken(&yard[LOADS], x)
}

// Whether block b waits, or is perched, by the mode of the run.
#[tactic(auto, unfolding(crate::specs::Reads::loose_in))]
fn is_loose(mode: Mode, cur: &[u16], yard: &Yard, b: usize) -> bool
    requires { Readable cur.now yard.now b }
    ensures { result ≡ loose_in mode cur.now yard.now b }
{
    if mode.walks() {
        is_waiting(yard, b)
    } else {
        is_perched(cur, yard, b)
    }
}

// Whether block b is misplaced and clear, and off the table.
#[tactic(auto, unfolding(crate::specs::Reads::perched_in))]
fn is_perched(cur: &[u16], yard: &Yard, b: usize) -> bool
    requires { Readable cur.now yard.now b }
    ensures { result ≡ perched_in cur.now yard.now b }
{
    is_waiting(yard, b) && cur[b - 1] != 0
}

// Whether block b is misplaced and clear.
#[tactic(auto, unfolding(crate::specs::Reads::waits_in))]
fn is_waiting(yard: &Yard, b: usize) -> bool
    requires { b < row_size }
    ensures { result ≡ waits_in yard.now b }
{
    !problem::in_position(&yard[STANDS], b) && yard[LOADS][b] == 0
}

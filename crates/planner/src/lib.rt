// Planning by the three methods (document 01, "The three methods"; document 001, section 3.2).

#![tactic(auto)]

ghost use Rattle.std.specs.Prelude.{◌≡◌};
ghost use Rattle.lengths.specs.Checks.{sheet_of};
ghost use Rattle.planner.specs.Answers.{as_method, mode_of, Names, call_of, beyondᵇ, Plans, Solvable, Ran, Solved};

use lengths::Sheet;
use refusals::{Question, Refusal};
use rows::{MOST, ROW, ROWS, Yard};
use statuses::Mode;

// A plan that was written: how many moves it has, and how many blocks are misplaced at the start.
#[derive(Clone, Copy, Debug, PartialEq, Eq)]
pub struct Planned {
    pub count: usize,
    pub misplaced: usize,
}

// Document 01's methods 1, 2 and 3.
#[derive(Clone, Copy, Debug, PartialEq, Eq)]
pub enum Method {
    Us,
    Gn1,
    Gn2,
}

// Question 1: the method of a number.
impl TryFrom<u16> for Method {
    type Error = Refusal;

    ghost try_from_gives = { Names };

    fn try_from(number: u16) -> Result<Self, Refusal> {
        match number {
            1 => Ok(Method::Us),
            2 => Ok(Method::Gn1),
            3 => Ok(Method::Gn2),
            _ => Err(Question::Method.refused()),
        }
    }
}

impl Method {
    // The first run of the method.
    fn mode(self) -> Mode
        ensures { result ≡ mode_of (as_method self) }
    {
        match self {
            Method::Us => Mode::Clearing,
            Method::Gn1 => Mode::Gn1,
            Method::Gn2 => Mode::Gn2,
        }
    }
}

// A call of planning: the method by its number, and whether it is the cabin panel's, which takes at most 600 blocks.
#[derive(Clone, Copy, Debug, PartialEq, Eq)]
pub struct Call {
    pub method: u16,
    pub panel: bool,
}

// document 02, Job 5: the panel "takes at most 600 slabs".
const PANEL_MOST: usize = 600;

// The questions of planning, and then the plan of the method, written from the front of the lent space, for any numbers and lists.
pub fn plan(call: Call, sheet: Sheet, out: &mut [u16]) -> Result<Planned, Refusal>
    ensures { Plans (call_of call) (sheet_of sheet.entry) out.old result out.new }
{
    let method = Method::try_from(call.method)?;
    if beyond(call.panel, sheet.initial.len()) {
        return Err(Question::Panel.refused());
    }
    let mut yard = [[0u16; ROW]; ROWS];
    lengths::examine(sheet, &mut yard)?;
    if out.len() < 4 * sheet.initial.len() {
        return Err(Question::Space.refused());
    }
    Ok(solve(method, sheet.initial, sheet.goal, &mut yard, out))
}

// Question 19, which is the panel's alone and is put where 2 is answered yes: whether n is beyond its limit.
fn beyond(panel: bool, n: usize) -> bool
    ensures { result ≡ beyondᵇ panel n }
{
    panel & ((n <= MOST) & (PANEL_MOST < n))
}

// The plan of a method for a problem that has been checked, whose rows are as the check left them, and room for the plan. What is misplaced is counted first:
// the runs write on the row that says it.
pub fn solve(
    method: Method,
    initial: &[u16],
    goal: &[u16],
    yard: &mut Yard,
    out: &mut [u16],
) -> Planned
    requires { Solvable initial.now goal.now yard.old out.old }
    ensures { Solved (as_method method) initial.now goal.now out.old result out.new }
{
    let misplaced = problem::misplaced(yard, initial.len());
    let count = run_method(method, initial, goal, yard, out);
    Planned { count, misplaced }
}

// The runs of a method on a copy of the initial state: US clears and then builds, the others make one run. Answers the count of moves.
fn run_method(
    method: Method,
    initial: &[u16],
    goal: &[u16],
    yard: &mut Yard,
    out: &mut [u16],
) -> usize
    requires { Solvable initial.now goal.now yard.old out.old }
    ensures { Ran (as_method method) initial.now goal.now out.old result out.new }
{
    let mut room = [0u16; MOST];
    let cur = &mut room[..initial.len()];
    let mode = method.mode();
    let mut sets = statuses::begin(mode, initial, goal, cur, yard);
    let k = runs::run(mode, cur, goal, yard, &mut sets, out, 0);
    match method {
        Method::Us => runs::run(Mode::Building, cur, goal, yard, &mut sets, out, k),
        Method::Gn1 | Method::Gn2 => k,
    }
}

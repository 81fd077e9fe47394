// Replay of a list of moves (document 01, "What is lent and written"): linear in the blocks and the list, memory fixed.

#![tactic(auto)]

ghost use Rattle.std.specs.Prelude.{◌≡◌};
ghost use Rattle.blocks.specs.Question.{first_no};
ghost use Rattle.blocks.specs.Replay.{move_questions, lift_questions};
ghost use Rattle.blocks.specs.Length.{Counted};
ghost use Rattle.blocks.specs.Sheet.{measured_by};
ghost use Rattle.lengths.specs.Checks.{given_in, sheet_of};
ghost use Rattle.problem.specs.Known.{Loads};
ghost use Rattle.validator.specs.Replayed.{verdict_of, number_of, place_of, fault_of, Replays, Followable, Follows};

use lengths::Sheet;
use refusals::{Question, Refusal};
use rows::{CHECKED, LOADS, MOST, ROW};

// What is wrong with a move, by the test that it fails, with that test's verdict.
#[derive(Clone, Copy, Debug, PartialEq, Eq)]
pub enum Fault {
    Unknown = 1,
    Covered = 2,
    Idle = 3,
    Taken = 4,
    TooLong = 6,
}

impl Fault {
    // The verdict by which the documents know the fault.
    pub fn verdict(self) -> u16
        ensures { result ≡ verdict_of self }
    {
        self as u16
    }
}

// The verdict on a list: it arrives, or a move is bad, or a block stands elsewhere at the end.
#[derive(Clone, Copy, Debug, PartialEq, Eq)]
pub enum Verdict {
    Arrives,
    Bad { fault: Fault, lift: usize },
    Elsewhere { block: usize },
}

impl Verdict {
    // The number by which the documents know the verdict.
    pub fn number(self) -> u16
        ensures { result ≡ number_of self }
    {
        match self {
            Verdict::Arrives => 0,
            Verdict::Bad { fault, .. } => fault.verdict(),
            Verdict::Elsewhere { .. } => 5,
        }
    }

    // Its place: the bad move, counted from 1, or the block; 0 where there is none.
    pub fn place(self) -> usize
        ensures { result ≡ place_of self }
    {
        match self {
            Verdict::Arrives => 0,
            Verdict::Bad { lift, .. } => lift,
            Verdict::Elsewhere { block } => block,
        }
    }
}

// The questions of a sheet and 11, and then the verdict of the list, for any lists.
pub fn validate(sheet: Sheet, moves: &[u16]) -> Result<Verdict, Refusal>
    ensures { Replays (sheet_of sheet.entry) moves.now result }
{
    let mut rows = [[0u16; ROW]; CHECKED];
    lengths::examine(sheet, &mut rows)?;
    if moves.len() % 2 != 0 {
        return Err(Question::Odd.refused());
    }
    Ok(judge(sheet, moves, &mut rows[LOADS]))
}

// The verdict of a list of pairs, for a sheet already checked and the loads of its initial state, which follow the moves.
pub fn judge(sheet: Sheet, moves: &[u16], loads: &mut [u16]) -> Verdict
    requires { Followable (sheet_of sheet) sheet.initial.now moves.now loads.old }
    ensures { Follows (sheet_of sheet.entry) moves.now result }
{
    let mut room = [0u16; MOST];
    let cur = &mut room[..sheet.initial.len()];
    cur.copy_from_slice(sheet.initial);
    follow(sheet.lengths, cur, sheet.goal, moves, loads)
}

// The same from the current state on, which the moves change.
fn follow(
    lengths: Option<&[u16]>,
    cur: &mut [u16],
    goal: &[u16],
    moves: &[u16],
    loads: &mut [u16],
) -> Verdict
    requires { Followable (measured_by (given_in lengths) cur.old goal.now) cur.old moves.now loads.old }
    ensures { Follows (measured_by (given_in lengths.entry) cur.old goal.now) moves.now result }
{
    let count = moves.len() / 2;
    for k in 0..count {
        let a = usize::from(moves[2 * k]);
        let x = usize::from(moves[2 * k + 1]);
        if let Err(fault) = check_lift(lengths, cur, loads, a, x) {
            return Verdict::Bad { fault, lift: k + 1 };
        }
        problem::make_move(cur, loads, a, x);
    }
    match problem::first_difference(cur, goal) {
        Some(block) => Verdict::Elsewhere { block },
        None => Verdict::Arrives,
    }
}

// Whether a move of a to x is legal and fits, first by the tests of a move and then by the lengths.
fn check_lift(
    lengths: Option<&[u16]>,
    cur: &[u16],
    loads: &[u16],
    a: usize,
    x: usize,
) -> Result<(), Fault>
    requires { Loads cur.now loads.now × Counted (given_in lengths) cur.now }
    ensures { fault_of result ≡ first_no (lift_questions (given_in lengths.entry) cur.now a x) }
{
    check_move(cur, loads, a, x)?;
    let Some(lengths) = lengths else {
        return Ok(());
    };
    if lengths::too_long(lengths, a, x) {
        return Err(Fault::TooLong);
    }
    Ok(())
}

// Whether a move of a to x is legal, in the order of document 01's tests.
fn check_move(cur: &[u16], loads: &[u16], a: usize, x: usize) -> Result<(), Fault>
    requires { Loads cur.now loads.now }
    ensures { fault_of result ≡ first_no (move_questions cur.now a x) }
{
    let n = cur.len();
    if a < 1 {
        return Err(Fault::Unknown);
    }
    if n < a {
        return Err(Fault::Unknown);
    }
    if n < x {
        return Err(Fault::Unknown);
    }
    if loads[a] != 0 {
        return Err(Fault::Covered);
    }
    if x == usize::from(cur[a - 1]) {
        return Err(Fault::Idle);
    }
    if x == a {
        return Err(Fault::Taken);
    }
    if problem::taken(loads, x) {
        return Err(Fault::Taken);
    }
    Ok(())
}

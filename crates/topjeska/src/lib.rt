// What C and Rust link: the operations with answers of plain numbers. include/topjeska.h declares them.

#![tactic(auto)]

ghost use Rattle.std.specs.Prelude.{◌≡◌, ◌≢◌};
ghost use Rattle.blocks.specs.Sheet.{plain, office, panel};
ghost use Rattle.blocks.specs.Answer.{checked, check_answer};
ghost use Rattle.refusals.specs.Refusals.{asked_of};
ghost use Rattle.lengths.specs.Checks.{sheet_of};
ghost use Rattle.planner.specs.Answers.{call_of, answer_of as planned_as};
ghost use Rattle.deadlocks.specs.Answers.{answer_of as tested_as};
ghost use Rattle.validator.specs.Replayed.{answer_of as replayed_as};
ghost use Rattle.topjeska.specs.Options.{option_set, sheet_for, call_for};
ghost use Rattle.topjeska.specs.Exports.{as_check, as_plan, as_deadlock, as_replay, as_training, ExportsTraining, ExportsDraw};
ghost use Rattle.topjeska.specs.Exports.{ExportsPlan, ExportsDeadlock, ExportsReplay};

use generator::Generator;
use lengths::Sheet;
use planner::{Call, Planned};
use refusals::Refusal;
use validator::Verdict;

#[repr(C)]
#[derive(Clone, Copy, Debug, PartialEq, Eq)]
pub struct CheckAnswer {
    pub refusal: u64,
    pub place: u64,
}

#[repr(C)]
#[derive(Clone, Copy, Debug, PartialEq, Eq)]
pub struct PlanAnswer {
    pub refusal: u64,
    pub place: u64,
    pub count: u64,
    pub misplaced: u64,
}

#[repr(C)]
#[derive(Clone, Copy, Debug, PartialEq, Eq)]
pub struct DeadlockAnswer {
    pub refusal: u64,
    pub place: u64,
    pub count: u64,
}

#[repr(C)]
#[derive(Clone, Copy, Debug, PartialEq, Eq)]
pub struct ReplayAnswer {
    pub refusal: u64,
    pub verdict: u64,
    pub place: u64,
}

#[repr(C)]
#[derive(Clone, Copy, Debug, PartialEq, Eq)]
pub struct TrainingAnswer {
    pub refusal: u64,
    pub place: u64,
}

// What a refused replay has in place of a verdict.
const NO_VERDICT: u64 = 65535;

// What a refused call of planning has in place of a plan's counts.
const NO_PLAN: Planned = Planned {
    count: 0,
    misplaced: 0,
};

// The bits of `options`. Those that are not named are not looked at.
const LENGTHS: u16 = 1;

// Planning alone looks at this one.
const PANEL: u16 = 2;

// Questions 2 to 9.
#[unsafe(no_mangle)]
pub extern "C" fn topjeska_check(initial: &[u16], goal: &[u16]) -> CheckAnswer
    ensures { as_check result ≡ check_answer (plain initial.now goal.now) }
{
    topjeska_check_with(0, initial, goal, &[])
}

// The same with options: with lengths also questions 16 to 18. Without their bit the lengths are not looked at.
#[unsafe(no_mangle)]
pub extern "C" fn topjeska_check_with(
    options: u16,
    initial: &[u16],
    goal: &[u16],
    lengths: &[u16],
) -> CheckAnswer
    ensures { as_check result ≡ check_answer (sheet_for options initial.now goal.now lengths.now) }
{
    let sheet = sheet_for(options, initial, goal, lengths);
    lengths::check(sheet).into()
}

// Planning: the pairs are written from the front of the lent space.
#[unsafe(no_mangle)]
pub extern "C" fn topjeska_plan(
    method: u16,
    initial: &[u16],
    goal: &[u16],
    out: &mut [u16],
) -> PlanAnswer
    ensures { ExportsPlan (office method) (plain initial.now goal.now) out.old result out.new }
{
    topjeska_plan_with(0, method, initial, goal, &[], out)
}

// The same by the cabin panel's entry, which takes at most 600 slabs.
#[unsafe(no_mangle)]
pub extern "C" fn topjeska_plan_panel(
    method: u16,
    initial: &[u16],
    goal: &[u16],
    out: &mut [u16],
) -> PlanAnswer
    ensures { ExportsPlan (panel method) (plain initial.now goal.now) out.old result out.new }
{
    topjeska_plan_with(PANEL, method, initial, goal, &[], out)
}

// Planning with options: with lengths, by the panel's entry, or both.
#[unsafe(no_mangle)]
pub extern "C" fn topjeska_plan_with(
    options: u16,
    method: u16,
    initial: &[u16],
    goal: &[u16],
    lengths: &[u16],
    out: &mut [u16],
) -> PlanAnswer
    ensures { ExportsPlan (call_for options method) (sheet_for options initial.now goal.now lengths.now) out.old result out.new }
{
    let call = call_for(options, method);
    let sheet = sheet_for(options, initial, goal, lengths);
    planner::plan(call, sheet, out).into()
}

// The deadlock test: the rows are written from the front of the lent space; count 0 says that nothing is deadlocked.
#[unsafe(no_mangle)]
pub extern "C" fn topjeska_deadlock(
    initial: &[u16],
    goal: &[u16],
    out: &mut [u16],
) -> DeadlockAnswer
    ensures { ExportsDeadlock (plain initial.now goal.now) out.old result out.new }
{
    topjeska_deadlock_with(0, initial, goal, &[], out)
}

// The same with options.
#[unsafe(no_mangle)]
pub extern "C" fn topjeska_deadlock_with(
    options: u16,
    initial: &[u16],
    goal: &[u16],
    lengths: &[u16],
    out: &mut [u16],
) -> DeadlockAnswer
    ensures { ExportsDeadlock (sheet_for options initial.now goal.now lengths.now) out.old result out.new }
{
    let sheet = sheet_for(options, initial, goal, lengths);
    deadlocks::deadlock(sheet, out).into()
}

// Replay of a list of lifts.
#[unsafe(no_mangle)]
pub extern "C" fn topjeska_replay(initial: &[u16], goal: &[u16], lifts: &[u16]) -> ReplayAnswer
    ensures { ExportsReplay (plain initial.now goal.now) lifts.now result }
{
    topjeska_replay_with(0, initial, goal, &[], lifts)
}

// The same with options: with lengths also verdict 6.
#[unsafe(no_mangle)]
pub extern "C" fn topjeska_replay_with(
    options: u16,
    initial: &[u16],
    goal: &[u16],
    lengths: &[u16],
    lifts: &[u16],
) -> ReplayAnswer
    ensures { ExportsReplay (sheet_for options initial.now goal.now lengths.now) lifts.now result }
{
    let sheet = sheet_for(options, initial, goal, lengths);
    validator::validate(sheet, lifts).into()
}

// Training: the state of a number, written over the first n entries of the lent list.
#[unsafe(no_mangle)]
pub extern "C" fn topjeska_training(n: usize, r: u64, state: &mut [u16]) -> TrainingAnswer
    ensures { ExportsTraining n r state.old result state.new }
{
    training::train(n, r, state).into()
}

// Training: the state of the number that the lent generator draws, which moves on; a refusal leaves it as it was.
#[unsafe(no_mangle)]
pub extern "C" fn topjeska_training_draw(
    generator: &mut Generator,
    n: usize,
    state: &mut [u16],
) -> TrainingAnswer
    ensures { ExportsDraw n generator.old.seed state.old result generator.new.seed state.new }
{
    let drawn = training::draw(*generator, n, state);
    *generator = drawn.generator;
    drawn.answer.into()
}

// Whether a bit of the options is set.
fn has_option(options: u16, bit: u16) -> bool
    requires { bit ≢ 0 }
    ensures { result ≡ option_set options bit }
{
    options / bit % 2 == 1
}

// The sheet of the lists, and how planning is asked, by the options.
fn sheet_for<'a>(options: u16, initial: &'a [u16], goal: &'a [u16], lengths: &'a [u16]) -> Sheet<'a>
    ensures { sheet_of result ≡ sheet_for options initial.now goal.now lengths.now }
{
    Sheet {
        initial,
        goal,
        lengths: has_option(options, LENGTHS).then_some(lengths),
    }
}

fn call_for(options: u16, method: u16) -> Call
    ensures { call_of result ≡ call_for options method }
{
    Call {
        method,
        panel: has_option(options, PANEL),
    }
}

// The answers of the operations in the documents' numbers: those of the first "no", or 0 and 0.
impl<A: Drop> From<Result<A, Refusal>> for CheckAnswer {
    ghost from_gives = { λ asked answer. as_check answer ≡ checked (asked_of asked) };

    fn from(asked: Result<A, Refusal>) -> CheckAnswer {
        match asked {
            Ok(_) => CheckAnswer {
                refusal: 0,
                place: 0,
            },
            Err(refusal) => CheckAnswer {
                refusal: u64::from(refusal.question.number()),
                place: u64::from(refusal.place),
            },
        }
    }
}

impl From<Result<Planned, Refusal>> for PlanAnswer {
    ghost from_gives = { λ planned answer. as_plan answer ≡ planned_as planned };

    fn from(planned: Result<Planned, Refusal>) -> PlanAnswer {
        let CheckAnswer { refusal, place } = planned.into();
        let Planned { count, misplaced } = planned.unwrap_or(NO_PLAN);
        PlanAnswer {
            refusal,
            place,
            count: count as u64,
            misplaced: misplaced as u64,
        }
    }
}

// Count 0 says that nothing is deadlocked, and stands in a refusal too.
impl From<Result<Option<usize>, Refusal>> for DeadlockAnswer {
    ghost from_gives = { λ tested answer. as_deadlock answer ≡ tested_as tested };

    fn from(tested: Result<Option<usize>, Refusal>) -> DeadlockAnswer {
        let CheckAnswer { refusal, place } = tested.into();
        let found = tested.unwrap_or(None);
        DeadlockAnswer {
            refusal,
            place,
            count: found.unwrap_or(0) as u64,
        }
    }
}

impl From<Result<Verdict, Refusal>> for ReplayAnswer {
    ghost from_gives = { λ replayed answer. as_replay answer ≡ replayed_as replayed };

    fn from(replayed: Result<Verdict, Refusal>) -> ReplayAnswer {
        let CheckAnswer { refusal, place } = replayed.into();
        match replayed {
            Ok(verdict) => ReplayAnswer {
                refusal,
                verdict: u64::from(verdict.number()),
                place: verdict.place() as u64,
            },
            Err(_) => ReplayAnswer {
                refusal,
                verdict: NO_VERDICT,
                place,
            },
        }
    }
}

impl From<Result<(), Refusal>> for TrainingAnswer {
    ghost from_gives = { λ trained answer. as_training answer ≡ checked (asked_of trained) };

    fn from(trained: Result<(), Refusal>) -> TrainingAnswer {
        let CheckAnswer { refusal, place } = trained.into();
        TrainingAnswer { refusal, place }
    }
}

// The check of a sheet: questions 2 to 9, and of the slab lengths 16 to 18 (document 02, Job 3); and whether a block may rest on another.

#![tactic(auto)]

ghost use Rattle.std.specs.Prelude.{◌≡◌, not, ◌≤◌, length};
ghost use Rattle.std.proofs.Math.Option.{some};
ghost use Rattle.lists.specs.Search.{nonzero};
ghost use Rattle.rows.specs.Rows.{Fresh};
ghost use Rattle.blocks.specs.Position.{Bounded};
ghost use Rattle.blocks.specs.Question.{first_no};
ghost use Rattle.blocks.specs.Length.{fitsᵇ, first_overhang, length_questions};
ghost use Rattle.refusals.specs.Refusals.{asked_of};
ghost use Rattle.lengths.specs.Checks.{sheet_of, Checks, Examines, Measurable};

use refusals::{Question, Refusal};
use rows::{CHECKED, ROW};

// A sheet: where every block stands and where it shall stand and, where they are given, the lengths of the blocks.
#[derive(Clone, Copy)]
pub struct Sheet<'a> {
    pub initial: &'a [u16],
    pub goal: &'a [u16],
    pub lengths: Option<&'a [u16]>,
}

// Questions 2 to 9 and, where lengths are given, 16 to 18, put to any lists.
pub fn check(sheet: Sheet) -> Result<(), Refusal>
    ensures { Checks (sheet_of sheet.entry) result }
{
    let mut rows = [[0u16; ROW]; CHECKED];
    examine(sheet, &mut rows)
}

// The same over lent rows that are zero, which are then as `problem::examine` leaves them.
pub fn examine(sheet: Sheet, rows: &mut [[u16; ROW]]) -> Result<(), Refusal>
    requires { Fresh 4 rows.old }
    ensures { Examines (sheet_of sheet.entry) result rows.old rows.new }
{
    problem::examine(sheet.initial, sheet.goal, rows)?;
    match sheet.lengths {
        Some(lengths) => measure(sheet.initial, sheet.goal, lengths),
        None => Ok(()),
    }
}

// Questions 16 to 18, of a problem that is accepted without lengths.
fn measure(initial: &[u16], goal: &[u16], lengths: &[u16]) -> Result<(), Refusal>
    requires { Bounded initial.now goal.now }
    ensures { asked_of result ≡ first_no (length_questions (some lengths.now) initial.now goal.now) }
{
    if lengths.len() != initial.len() {
        return Err(Question::LengthsCount.refused());
    }
    if let Some(block) = first_overhang(initial, lengths) {
        return Err(Question::NowOverhang.refused_at(block as u16));
    }
    if let Some(block) = first_overhang(goal, lengths) {
        return Err(Question::GoalOverhang.refused_at(block as u16));
    }
    Ok(())
}

// The lowest block that overhangs.
fn first_overhang(s: &[u16], lengths: &[u16]) -> Option<usize>
    requires { Measurable s.now lengths.now }
    ensures { result ≡ nonzero (first_overhang lengths.now s.now) }
{
    for (i, &x) in s.iter().enumerate() {
        if too_long(lengths, i + 1, usize::from(x)) {
            return Some(i + 1);
        }
    }
    None
}

// Whether block a is too long to rest on x; never for the table.
pub fn too_long(lengths: &[u16], a: usize, x: usize) -> bool
    requires { (1 ≤ a) × (a ≤ length lengths.now) × (x ≤ length lengths.now) }
    ensures { result ≡ not (fitsᵇ lengths.now a x) }
{
    if x == 0 {
        return false;
    }
    lengths[x - 1] < lengths[a - 1]
}

// The planning program as one function, the bytes of its input answered by the bytes of its output (document 01, "Records of the program";
// document 02, Job 3), and another that says how much more of an input can matter.

#![tactic(auto)]

ghost use Rattle.std.specs.Prelude.{◌*◌, ◌≤◌, ◌≡◌, length};
ghost use Rattle.blocks.specs.State.{most};
ghost use Rattle.sheets.specs.Sheets.{sheet_at};
ghost use Rattle.responder.specs.Wanted.{decided_by, wanted};
ghost use Rattle.responder.specs.Answers.{refused_as, refusal_of, reply_of, Responds, Answered, Writable, Roomy, Wrote, MovesFit, PutMoves};

use lengths::Sheet;
use planner::{Call, Method, Planned};
use records::Kind;
use refusals::{Question, Refusal};
use rows::MOST;
use sheets::{Entries, Head, Unread, Whole};

// The longest input without a tail, HL, MOST NW, MOST GL and MOST LN records, and a byte by which a tail is seen. In numbers, because a constant calls
// no function; `plan` proves that they are enough.
pub const KEPT: usize = 6 + 12 * MOST + 1;

// The longest output: PL and 2 × MOST LF records.
pub const LONGEST_ANSWER: usize = 6 + 12 * MOST;

// Answers the input from the front of `out`, and says how many bytes the answer has. Where `out` has no room for the longest one, it does nothing.
pub fn respond(input: &[u8], out: &mut [u8]) -> usize
    ensures { Responds input.now out.old result out.new }
{
    if out.len() < LONGEST_ANSWER {
        return 0;
    }
    let mut space = [0u16; 4 * MOST];
    let answer = ask(input, &mut space);
    write_answer(answer, &space, out)
}

// How many bytes behind these can still matter to the answer; none where it is decided (`Decides` in specs/Bounds.antt).
#[tactic(auto, unfolding(records::specs::Marks::mark_of, records::specs::Marks::marks))]
pub fn wanted(input: &[u8]) -> usize
    ensures { result ≡ wanted input.now }
{
    let Some(head) = sheets::read_head(input, 0) else {
        return Kind::Hd.size().saturating_sub(input.len());
    };
    if Method::try_from(head.method).is_err() || decided_by(input) <= input.len() {
        return 0;
    }
    let n = usize::from(head.n);
    let k = sheets::length_count(head.measured, n);
    let end = Kind::Hd.size() + (2 * n + k) * Kind::Nw.size();
    (end + 1).saturating_sub(input.len())
}

// How many bytes decide what becomes of the sheet at the front of the input.
#[tactic(auto, unfolding(records::specs::Marks::mark_of, records::specs::Marks::marks))]
fn decided_by(input: &[u8]) -> usize
    ensures { result ≡ decided_by (sheet_at input.now 0) }
{
    let mut entries = Entries::new();
    match sheets::read_sheet(input, 0, &mut entries) {
        Ok(whole) => whole.end + 1,
        Err(Unread::Headless | Unread::Long { .. }) => Kind::Hd.size(),
        Err(Unread::Broken { before, .. }) => {
            Kind::Hd.size() + usize::from(before) * Kind::Nw.size()
        }
    }
}

// The questions to the sheet at the front of the input: of a whole one the tail's, and then those of planning.
fn ask(input: &[u8], space: &mut [u16]) -> Result<Planned, Refusal>
    requires { 4 * most ≤ length space.old }
    ensures { Answered input.now result space.new }
{
    let mut entries = Entries::new();
    let Whole {
        n,
        method,
        measured,
        end,
    } = sheets::read_sheet(input, 0, &mut entries).map_err(refusal_of)?;
    let k = sheets::length_count(measured, n);
    if input.len() != end {
        let tail = Question::Record.refused_at((2 * n + k + 1) as u16);
        return Err(refused(method, tail));
    }
    let sheet = Sheet {
        initial: &entries.initial[..n],
        goal: &entries.goal[..n],
        lengths: measured.then_some(&entries.lengths[..k]),
    };
    let office = Call {
        method,
        panel: false,
    };
    planner::plan(office, sheet, space)
}

// Why a sheet that is not whole is refused.
fn refusal_of(unread: Unread) -> Refusal
    ensures { result ≡ refusal_of unread }
{
    match unread {
        Unread::Headless => Question::Record.refused(),
        Unread::Long { method } => refused(method, Question::TooMany.refused()),
        Unread::Broken { method, before } => refused(method, Question::Record.refused_at(before)),
    }
}

// A "no" of a question behind the first: question 1 is asked before it.
fn refused(method: u16, refusal: Refusal) -> Refusal
    ensures { result ≡ refused_as method refusal }
{
    match Method::try_from(method) {
        Ok(_) => refusal,
        Err(first) => first,
    }
}

// Writes an answer: NO, or PL and the LF records of the pairs.
fn write_answer(answer: Result<Planned, Refusal>, pairs: &[u16], out: &mut [u8]) -> usize
    requires writable { Writable answer pairs.now }
    requires roomy { Roomy out.old }
    ensures { Wrote (reply_of answer pairs.now) out.old result out.new }
{
    match answer {
        Ok(Planned { count, misplaced }) => {
            let at = records::put_record(Kind::Pl, count as u16, misplaced as u16, out, 0);
            write_moves(count, pairs, out, at)
        }
        Err(Refusal { question, place }) => {
            records::put_record(Kind::No, question.number(), place, out, 0)
        }
    }
}

// Writes the LF records of the first pairs from a place on, and answers the place after them.
fn write_moves(count: usize, pairs: &[u16], out: &mut [u8], start: usize) -> usize
    requires { MovesFit count pairs.now out.old start }
    ensures { PutMoves count pairs.now start out.old result out.new }
{
    let mut at = start;
    for i in 0..count {
        let block = pairs[2 * i];
        let support = pairs[2 * i + 1];
        at = records::put_record(Kind::Lf, block, support, out, at);
    }
    at
}

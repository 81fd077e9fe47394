// Runs cases of the library from standard input and writes the answer of each to a line of standard output.
// A frame is four numbers: the operation, and the lengths of three lists; then the numbers of the lists: now, goal and a third.
// Each number has 16 bits, high byte first.
// Operation 1 checks a sheet: number, place. Operation 2 replays the third list: number, verdict, place.
// Operation 3 plans, the third list being the method and the length of the lent space: number, place, count, misplaced, space.
// Operation 4 tests for a deadlock, the third list being the same, its method not read: number, place, count, space.
// The lent space holds 65535, 65534, 65533 and so on before: above every slab, and different at each place. What it holds afterwards
// is told by the checksum of all its numbers, and then by the pairs or rows at its front, as many as the count but at most 16.
// The program ends with the input, or at a frame that is cut short, too long or of another operation.

#![tactic(auto)]

use deadlocks::WIDTH;
use lengths::Sheet;
use planner::{Call, Planned};
use refusals::Refusal;
use std::io;
use std::io::{Read, Stdin};
use validator::Verdict;

// What a refused replay has in place of a verdict.
const NO_VERDICT: u16 = 65535;

// How many of the pairs or rows at the front of the lent space are told.
const TOLD: usize = 16;

// How many numbers the lists of a frame have at most, how many the lent space has, and how many are read at a time.
const NUMS: usize = 28002;

const SPACE: usize = 16384;

const READ: usize = 8192;

// What a frame is read into, what is lent, and the bytes that are read at a time.
#[derive(Drop)]
struct Room {
    nums: [u16; NUMS],
    space: [u16; SPACE],
    chunk: [u8; 2 * READ],
}

#[derive(Clone, Copy, Debug, PartialEq, Eq)]
enum Operation {
    Check,
    Replay,
    Plan,
    Deadlock,
}

// A number that is none of an operation.
#[derive(Clone, Copy, Debug, PartialEq, Eq)]
struct UnknownOperation;

impl TryFrom<u16> for Operation {
    type Error = UnknownOperation;

    fn try_from(number: u16) -> Result<Self, UnknownOperation> {
        match number {
            1 => Ok(Operation::Check),
            2 => Ok(Operation::Replay),
            3 => Ok(Operation::Plan),
            4 => Ok(Operation::Deadlock),
            _ => Err(UnknownOperation),
        }
    }
}

// What a frame holds: an operation, a sheet without lengths, and the third list.
#[derive(Clone, Copy)]
struct Case<'a> {
    operation: Operation,
    sheet: Sheet<'a>,
    third: &'a [u16],
}

fn main(rt: HostRuntime) -> io::Result<()> {
    let mut room = Room {
        nums: [0; NUMS],
        space: [0; SPACE],
        chunk: [0; 2 * READ],
    };
    run(&rt, &mut room)
}

// Nothing says that the input ends, so the turns are counted, up to a number that no run uses up.
fn run(rt: &HostRuntime, room: &mut Room) -> io::Result<()> {
    let mut stdin = rt.stdin();
    for _ in 0..u64::MAX {
        let Some(case) = read_case(&mut stdin, &mut room.nums, &mut room.chunk) else {
            break;
        };
        if !answer(rt, case, &mut room.space)? {
            break;
        }
    }
    Ok(())
}

// Reads a frame; none where the input ends, or the frame is cut short, too long or of another operation.
fn read_case<'a>(
    stdin: &mut Stdin,
    nums: &'a mut [u16],
    chunk: &mut [u8; 2 * READ],
) -> Option<Case<'a>> {
    let mut bytes = [0; 8];
    stdin.read_exact(&mut bytes).ok()?;
    let mut head = [0; 4];
    unpack(&bytes, &mut head);
    let [operation, initial, goal, third] = head;
    let initial = usize::from(initial);
    let goal = usize::from(goal);
    let third = usize::from(third);
    let nums = nums.get_mut(..initial + goal + third)?;
    fill(stdin, nums, chunk).ok()?;
    let operation = Operation::try_from(operation).ok()?;
    let (initial, others) = nums.split_at(initial);
    let (goal, third) = others.split_at(goal);
    Some(Case {
        operation,
        sheet: Sheet {
            initial,
            goal,
            lengths: None,
        },
        third,
    })
}

// Reads as many numbers as `nums` holds.
fn fill(stdin: &mut Stdin, nums: &mut [u16], chunk: &mut [u8; 2 * READ]) -> io::Result<()> {
    for part in nums.chunks_mut(READ) {
        let bytes = &mut chunk[..2 * part.len()];
        stdin.read_exact(bytes)?;
        unpack(bytes, part);
    }
    Ok(())
}

// Makes numbers of the bytes, until either list ends.
fn unpack(bytes: &[u8], nums: &mut [u16]) {
    let (pairs, _) = bytes.as_chunks();
    for (number, pair) in nums.iter_mut().zip(pairs) {
        *number = u16::from_be_bytes(*pair);
    }
}

// Runs a case and tells its answer; false where its space is longer than what can be lent.
fn answer(rt: &HostRuntime, case: Case, space: &mut [u16]) -> io::Result<bool> {
    match case.operation {
        Operation::Check => tell_checked(rt, lengths::check(case.sheet))?,
        Operation::Replay => tell_replayed(rt, validator::validate(case.sheet, case.third))?,
        Operation::Plan => {
            let Some((method, space)) = lend(case.third, space) else {
                return Ok(false);
            };
            let office = Call {
                method,
                panel: false,
            };
            let planned = planner::plan(office, case.sheet, space);
            tell_planned(rt, planned, space)?;
        }
        Operation::Deadlock => {
            let Some((_, space)) = lend(case.third, space) else {
                return Ok(false);
            };
            let tested = deadlocks::deadlock(case.sheet, space);
            tell_tested(rt, tested, space)?;
        }
    }
    Ok(true)
}

// The method and the space that a third list asks for, painted; none where it is no such list, or asks for too much.
fn lend<'a>(third: &[u16], space: &'a mut [u16]) -> Option<(u16, &'a mut [u16])> {
    let [method, size] = *third else {
        return None;
    };
    let space = space.get_mut(..usize::from(size))?;
    paint(space);
    Some((method, space))
}

// What the lent space holds before.
fn paint(space: &mut [u16]) {
    for (number, filler) in space.iter_mut().zip((1..=u16::MAX).rev()) {
        *number = filler;
    }
}

fn tell_checked(rt: &HostRuntime, checked: Result<(), Refusal>) -> io::Result<()> {
    match checked {
        Ok(()) => println!(rt; "0 0"),
        Err(refusal) => println!(rt; "{} {}", refusal.question.number(), refusal.place),
    }
}

fn tell_replayed(rt: &HostRuntime, replayed: Result<Verdict, Refusal>) -> io::Result<()> {
    match replayed {
        Ok(verdict) => println!(rt; "0 {} {}", verdict.number(), verdict.place()),
        Err(refusal) => {
            println!(rt;
                "{} {NO_VERDICT} {}",
                refusal.question.number(),
                refusal.place
            )
        }
    }
}

fn tell_planned(
    rt: &HostRuntime,
    planned: Result<Planned, Refusal>,
    space: &[u16],
) -> io::Result<()> {
    let (number, place, count, misplaced) = match planned {
        Ok(plan) => (0, 0, plan.count, plan.misplaced),
        Err(refusal) => (refusal.question.number(), refusal.place, 0, 0),
    };
    print!(rt; "{number} {place} {count} {misplaced}")?;
    tell_space(rt, space, 2 * count.min(TOLD))
}

fn tell_tested(
    rt: &HostRuntime,
    tested: Result<Option<usize>, Refusal>,
    space: &[u16],
) -> io::Result<()> {
    let (number, place, count) = match tested {
        Ok(count) => (0, 0, count.unwrap_or(0)),
        Err(refusal) => (refusal.question.number(), refusal.place, 0),
    };
    print!(rt; "{number} {place} {count}")?;
    tell_space(rt, space, WIDTH * count.min(TOLD))
}

// The checksum of the space, and so many numbers at its front.
fn tell_space(rt: &HostRuntime, space: &[u16], shown: usize) -> io::Result<()> {
    print!(rt; " {}", checksum(space))?;
    for number in space.iter().take(shown) {
        print!(rt; " {number}")?;
    }
    println!(rt)
}

// The value at 65599 of the polynomial with these coefficients, the highest first, modulo the largest prime below 2^32.
fn checksum(nums: &[u16]) -> u32 {
    nums.iter().fold(0, |sum: u32, number| {
        ((u64::from(sum) * 65599 + u64::from(*number)) % 4294967291) as u32
    })
}

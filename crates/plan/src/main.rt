// The planning program (document 01, "Records of the program"): records from standard input, records to standard output.

#![tactic(auto)]

ghost use Rattle.std.specs.Prelude.{◌≤◌, ◌<◌, ◌≡◌, length, take, IfSome};
ghost use Rattle.plan.specs.Counts.{IsPrefixLen};
ghost use Rattle.responder.specs.Wanted.{wanted};
ghost use Rattle.responder.specs.Bounds.{enough};

use responder::{KEPT, LONGEST_ANSWER};
use std::io::{Read, Stdin};

// Where nobody reads the answer, nobody is told.
fn main(rt: HostRuntime) {
    let mut input = [0u8; KEPT];
    let n = read_input(&mut rt.stdin(), &mut input);
    let mut out = [0u8; LONGEST_ANSWER];
    let size = responder::respond(&input[..n], &mut out);
    let _ = rt.write_all(&out[..size]);
}

// Reads the input up to where it decides the answer (`Decides` in `responder`) or ends, and says how many bytes that is.
fn read_input(stdin: &mut Stdin, input: &mut [u8]) -> usize
    requires { enough ≤ length input.old }
    ensures { IsPrefixLen result input.new }
{
    let mut n = 0;
    while let Some(got) = read_more(stdin, input, n) {
        n += got;
    }
    n
}

// One read of what can still matter behind the first n bytes: how many came. None do where the answer is decided, where the input ends and where the
// read fails.
fn read_more(stdin: &mut Stdin, input: &mut [u8], n: usize) -> Option<usize>
    requires n_le_enough { n ≤ enough }
    requires enough_in_bounds { enough ≤ length input.old }
    ensures some { IfSome result (λ got. (0 < got) × (got ≤ wanted (take n input.old))) }
    ensures input_unchanged { take n input.new ≡ take n input.old }
{
    let more = responder::wanted(&input[..n]);
    if more == 0 {
        return None;
    }
    match stdin.read(&mut input[n..n + more]) {
        Ok(got) if got > 0 => Some(got),
        _ => None,
    }
}

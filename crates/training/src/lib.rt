// Training sheets from a number (document 02, Job 1).

#![tactic(auto)]

ghost use Rattle.std.specs.Prelude.{◌≡◌, suc, ◌<◌, length};
ghost use Rattle.lists.specs.Lists.{overwrite};
ghost use Rattle.lists.specs.Search.{nonzero};
ghost use Rattle.blocks.specs.Loop.{top};
ghost use Rattle.training.specs.Arrangement.{nth, picked, finish, arrangement};
ghost use Rattle.training.specs.Placing.{Placing, part_of, Placed, Known, freeᵇ, Numbered};
ghost use Rattle.training.specs.Answers.{Trains, Draws};

use counts::HELD;
use generator::Generator;
use refusals::{Question, Refusal};

// What a draw answers, and the generator for the next draw.
#[derive(Clone, Copy, Debug, PartialEq, Eq)]
pub struct Drawn {
    pub answer: Result<(), Refusal>,
    pub generator: Generator,
}

// What a state on its way needs beside its supports: how many towers are grounded, and what is left of the number.
#[derive(Clone, Copy, Debug, PartialEq, Eq)]
struct Progress {
    grounded: usize,
    rest: u64,
}

// The state of n blocks of a given number, written over the first n entries.
pub fn train(n: usize, r: u64, out: &mut [u16]) -> Result<(), Refusal>
    ensures { Trains n r out.old result out.new }
{
    if HELD < n {
        return Err(Question::TrainingSize.refused());
    }
    if counts::count_of(n, 0) <= r {
        return Err(Question::TrainingNumber.refused());
    }
    if out.len() < n {
        return Err(Question::Space.refused());
    }
    arrange(n, r, out);
    Ok(())
}

// The state of n blocks of the number that a generator draws; a refusal gives the generator back as it was.
pub fn draw(generator: Generator, n: usize, out: &mut [u16]) -> Drawn
    ensures { Draws n generator.seed out.old result out.new }
{
    if HELD < n {
        return refused(Question::TrainingSize, generator);
    }
    if generator.seed == 0 {
        return refused(Question::TrainingNumber, generator);
    }
    if out.len() < n {
        return refused(Question::Space, generator);
    }
    let next = generator.next();
    let drawn = next.seed;
    arrange(n, drawn % counts::count_of(n, 0), out);
    Drawn {
        answer: Ok(()),
        generator: next,
    }
}

// A refused draw: the generator stays as it is.
fn refused(question: Question, generator: Generator) -> Drawn
    ensures { result ≡ record { answer = Err (record { question = question; place = 0 }); generator = generator } }
{
    Drawn {
        answer: Err(question.refused()),
        generator,
    }
}

// Writes the state of number r, of n blocks, over the front of `out`.
fn arrange(n: usize, r: u64, out: &mut [u16])
    requires { Numbered n r out.old }
    ensures { out.new ≡ overwrite (arrangement n r) out.old }
{
    let mut room = [0u16; HELD];
    let mut load = [0u16; HELD + 1];
    let state = &mut room[..n];
    place_all(state, &mut load, r);
    out[..n].copy_from_slice(state);
}

// Takes the blocks in order.
fn place_all(state: &mut [u16], load: &mut [u16], r: u64)
    requires { Placing (length state.old) 0 r state.old load.old }
    ensures { state.new ≡ finish (length state.old) (part_of (record { grounded = 0; rest = r }) state.old) }
{
    let mut progress = Progress {
        grounded: 0,
        rest: r,
    };
    for loose in (0..state.len()).rev() {
        progress = place(state, load, loose, progress);
    }
}

// The next block is taken; so many towers are loose after it.
#[tactic(auto, using(crate::proofs::PlaceLaws::place_facts))]
fn place(state: &mut [u16], load: &mut [u16], loose: usize, progress: Progress) -> Progress
    requires { Placing (suc loose) progress.grounded progress.rest state.old load.old }
    ensures { Placed loose progress state.old result state.new load.new }
{
    let Progress { grounded, rest } = progress;
    let here = counts::count_of(loose, grounded + 1);
    if rest < here {
        return Progress {
            grounded: grounded + 1,
            rest,
        };
    }
    let over = rest - here;
    let each = counts::count_of(loose, grounded);
    let quotient = over / each;
    let remainder = over % each;
    let block = state.len() - loose;
    let top = pick_top(state, load, block, quotient as usize).unwrap();
    state[block - 1] = top as u16;
    load[top] = block as u16;
    Progress {
        grounded,
        rest: remainder,
    }
}

// Number q of the tops of the towers other than the block's, in ascending order.
#[tactic(auto, using(crate::proofs::TopLaws::picked_by))]
fn pick_top(state: &[u16], load: &[u16], block: usize, q: usize) -> Option<usize>
    requires { Known state.now load.now block }
    ensures { result ≡ nonzero (picked state.now block q) }
{
    let own = top_of(state, load, block);
    nth_free(load, state.len(), own, q)
}

// The top of the block's tower, by climbing. Of the state its length is used alone.
fn top_of(state: &[u16], load: &[u16], block: usize) -> usize
    requires { Known state.now load.now block }
    ensures { result ≡ top state.now (length state.now) block }
{
    let mut at = block;
    for _ in 0..state.len() {
        let above = usize::from(load[at]);
        if above == 0 {
            return at;
        }
        at = above;
    }
    at
}

// Number q of the blocks from 1 to n, other than `own`, on which nothing rests.
// A loop: by `filter(..).nth(q)` training takes 111 bytes more, and so more than tests/training.py lets it.
fn nth_free(load: &[u16], n: usize, own: usize, q: usize) -> Option<usize>
    requires { n < length load.now }
    ensures { result ≡ nonzero (nth (freeᵇ load.now own) n q) }
{
    let mut passed = 0;
    for t in 1..n + 1 {
        if is_free(load, own, t) {
            if passed == q {
                return Some(t);
            }
            passed += 1;
        }
    }
    None
}

// Whether nothing rests on the block, and it is not `own`.
fn is_free(load: &[u16], own: usize, block: usize) -> bool
    requires { block < length load.now }
    ensures { result ≡ freeᵇ load.now own block }
{
    block != own && load[block] == 0
}

// An ordered set of numbers below 4,096: put in, take out and lowest member in constant time.

#![tactic(auto)]

ghost use Rattle.std.specs.Prelude.{◌≡◌, true, false, cond, ℕ, ◌<◌, List, eqb};
ghost use Rattle.lists.specs.Search.{lowest, nonzero};
ghost use Rattle.numberset.specs.Members.{bit, member, Valid, Empty, Assigned, limit, highest};

use std::marker::Model;

// A word for 64 numbers each, and one for which of these words are not 0.
const WORDS: usize = 65;

// A set of numbers below 4,096. Contracts see its words, of which callers know `member` alone.
#[derive(Clone, Copy)]
pub struct NumberSet {
    words: [u64; WORDS],
}

impl Model for NumberSet {
    ghost Value = { List ℕ };

    ghost view = { λ s. s.words };

    ghost inverse = { λ l. record { words = l } };

    ghost invariant = { λ s. Valid s.words };
}

impl NumberSet {
    // The set with nothing in it.
    #[tactic(auto, using(crate::proofs::MemberLaws::blank_valid, crate::proofs::MemberLaws::blank_empty))]
    pub fn new() -> Self
        ensures { Empty result }
    {
        NumberSet { words: [0; WORDS] }
    }

    // Takes every number out.
    #[tactic(auto, using(crate::proofs::MemberLaws::blank_valid, crate::proofs::MemberLaws::blank_empty))]
    pub fn clear(&mut self)
        ensures { Empty self.new }
    {
        self.words = [0; WORDS];
    }

    // Puts x in.
    pub fn insert(&mut self, x: usize)
        requires { x < limit }
        ensures { Assigned self.old x true self.new }
    {
        self.assign(x, true);
    }

    // Puts x in, or takes it out.
    pub fn assign(&mut self, x: usize, on: bool)
        requires { x < limit }
        ensures { Assigned self.old x on self.new }
    {
        let i = x / 64;
        let word = with_bit(self.words[i], (x % 64) as u32, on);
        self.words[i] = word;
        self.words[64] = with_bit(self.words[64], i as u32, word != 0);
    }

    // The lowest member from 1 on. 0 itself is no member.
    #[tactic(auto, using(crate::proofs::MemberLaws::lowest_nothing, crate::proofs::MemberLaws::lowest_found))]
    pub fn lowest(&self) -> Option<usize>
        requires { member self.now 0 ≡ false }
        ensures { result ≡ nonzero (lowest (member self.now) highest) }
    {
        let summary = self.words[64];
        if summary == 0 {
            return None;
        }
        let i = summary.trailing_zeros() as usize;
        Some(64 * i + self.words[i].trailing_zeros() as usize)
    }
}

// A word with bit i set or cleared.
#[tactic(auto, using(crate::proofs::DigitLaws::word_put, crate::proofs::DigitLaws::word_take))]
fn with_bit(w: u64, i: u32, on: bool) -> u64
    requires { i < 64 }
    ensures { (j : ℕ) → bit result j ≡ cond (eqb j i) on (bit w j) }
{
    let one = 1u64 << i;
    if on { w | one } else { w ^ (w & one) }
}

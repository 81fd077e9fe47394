// The generator of training numbers (document 02, Job 1).

#![tactic(auto)]

ghost use Rattle.std.specs.Prelude.{◌≡◌};
ghost use Rattle.generator.specs.Shifts.{next_seed};

// `#[repr(C)]`: C lends it too.
#[repr(C)]
#[derive(Clone, Copy, Debug, PartialEq, Eq)]
pub struct Generator {
    pub seed: u64,
}

impl Generator {
    // The generator after one draw.
    pub fn next(self) -> Generator
        ensures { result.seed ≡ next_seed self.seed }
    {
        Generator {
            seed: next_seed(self.seed),
        }
    }

    // One draw, in the form that document 01 names for it: the generator is lent and moves on. Its new seed is the answer.
    pub fn advance(&mut self) -> u64
        ensures { (result ≡ next_seed self.old.seed) × (self.new.seed ≡ next_seed self.old.seed) }
    {
        let seed = next_seed(self.seed);
        self.seed = seed;
        seed
    }
}

// The seed after one draw.
#[tactic(auto, unfolding(crate::specs::Shifts::next_seed, crate::specs::Shifts::xor_left, crate::specs::Shifts::xor_right))]
fn next_seed(seed: u64) -> u64
    ensures { result ≡ next_seed seed }
{
    let a = seed ^ (seed << 13);
    let b = a ^ (a >> 7);
    b ^ (b << 17)
}

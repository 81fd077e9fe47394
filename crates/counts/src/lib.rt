// The counts of document 02, Job 1: how many ways there are to finish a state. Half of them are held (Job 7).

#![tactic(auto)]

ghost use Rattle.std.specs.Prelude.{◌≡◌, ◌+◌, ◌≤◌};
ghost use Rattle.counts.specs.Ways.{ways, held};
ghost use Rattle.counts.specs.Table.{EvenCounts};

// The most towers, loose and grounded together, whose count is answered.
pub const HELD: usize = 16;

// The counts for n loose towers and k grounded ones where n is even, row after row by n, in each row by k. A constant, the form that document 01 names
// for them.
const TABLE: [u64; 81] = [
    1,
    1,
    1,
    1,
    1,
    1,
    1,
    1,
    1,
    1,
    1,
    1,
    1,
    1,
    1,
    1,
    1,
    3,
    7,
    13,
    21,
    31,
    43,
    57,
    73,
    91,
    111,
    133,
    157,
    183,
    211,
    241,
    73,
    209,
    501,
    1045,
    1961,
    3393,
    5509,
    8501,
    12585,
    18001,
    25013,
    33909,
    45001,
    4051,
    13327,
    37633,
    93289,
    207775,
    424051,
    805597,
    1442173,
    2456299,
    4010455,
    6315001,
    394353,
    1441729,
    4596553,
    12975561,
    32989969,
    76751233,
    165625929,
    335262313,
    642451441,
    58941091,
    234662231,
    824073141,
    2581284541,
    7307593151,
    18941512731,
    45481765921,
    12470162233,
    53334454417,
    202976401213,
    693347907421,
    2148321709561,
    3535017524403,
    16083557845279,
    65573803186921,
    1290434218669921,
];

// The count for n loose towers and k grounded ones: held where n is even, else by one step of the rule.
#[tactic(auto, using(crate::proofs::StepLaws::product_fits, crate::proofs::StepLaws::sum_fits, crate::proofs::StepLaws::others_most, crate::proofs::StepLaws::odd_count))]
pub fn count_of(n: usize, k: usize) -> u64
    requires { n + k ≤ held }
    ensures { result ≡ ways n k }
{
    let half = n / 2;
    let at = half * (18 - half) + k;
    let table = even_counts();
    let here = table[at];
    if n % 2 == 0 {
        return here;
    }
    let others = (2 * half + k) as u64;
    table[at + 1] + others * here
}

// The table, and what it holds.
#[tactic(auto, using(crate::proofs::TableLaws::carried))]
fn even_counts() -> [u64; 81]
    ensures { EvenCounts result }
{
    TABLE
}

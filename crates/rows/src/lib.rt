// The most blocks of a problem, and the working lists of a run as rows of one lent array, each with an entry for the table and one for every block. No code.

#![tactic(auto)]

// document 01: "n at most 4,000".
pub const MOST: usize = 4000;

pub const ROW: usize = MOST + 1;

// The rows that a check fills: what rests on each block and how each block stands, of the initial state and then of the goal.
pub const LOADS: usize = 0;

pub const STANDS: usize = 1;

pub const GOAL_LOADS: usize = 2;

pub const CHECKED: usize = 4;

// The other rows of a run: the towers of the state and of the goal, and the walk of the loop. How the blocks of the goal stand in the goal is not used again:
// the bottoms take its row.
pub const BOTTOMS: usize = 3;

pub const TOPS: usize = 4;

pub const GOAL_BOTTOMS: usize = 5;

pub const HIGHS: usize = 6;

pub const SEEN: usize = 7;

pub const PLACES: usize = 8;

pub const ROWS: usize = 9;

pub type Yard = [[u16; ROW]; ROWS];

// Why an input is refused: the questions of the documents by name, with the numbers that document 01's table and the requests of document 02 give them.

#![tactic(auto)]

ghost use Rattle.std.specs.Prelude.{◌≡◌};
ghost use Rattle.refusals.specs.Refusals.{number_of};

// A question, by what a "no" to it finds. No code gives `Stall`: a stalled yard always has a slab to put down (`never_13` of `blocks`).
#[derive(Clone, Copy, Debug, PartialEq, Eq)]
pub enum Question {
    Method = 1,
    TooMany = 2,
    Unequal = 3,
    NowEntry = 4,
    NowShared = 5,
    NowFloating = 6,
    GoalEntry = 7,
    GoalShared = 8,
    GoalFloating = 9,
    Space = 10,
    Odd = 11,
    Record = 12,
    Stall = 13,
    TrainingSize = 14,
    TrainingNumber = 15,
    LengthsCount = 16,
    NowOverhang = 17,
    GoalOverhang = 18,
    Panel = 19,
}

impl Question {
    // The number by which the documents know the question.
    pub fn number(self) -> u16
        ensures { result ≡ number_of self }
    {
        self as u16
    }

    // A "no" that names no place.
    pub fn refused(self) -> Refusal
        ensures { result ≡ record { question = self; place = 0 } }
    {
        self.refused_at(0)
    }

    // A "no" that names a place: a block, or how many records stand before.
    pub fn refused_at(self, place: u16) -> Refusal
        ensures { result ≡ record { question = self; place = place } }
    {
        Refusal {
            question: self,
            place,
        }
    }
}

// The first "no", and its place; 0 where none is named.
#[derive(Clone, Copy, Debug, PartialEq, Eq)]
pub struct Refusal {
    pub question: Question,
    pub place: u16,
}

// Why a question is refused: the reason, which table, and the place in it.
#![tactic(auto)]

ghost use Rattle.std.specs.Prelude.{◌≡◌};
ghost use Rattle.refusals.specs.Refusals.{number_of, table_number, refused_at, without_place, in_new};

// The numbers that refuse, with their reasons.
#[derive(Clone, Copy, Debug, PartialEq, Eq)]
pub enum Reason {
    CutOff = 1,
    BadTag = 2,
    BadLength = 3,
    OutOfRange = 4,
    NotAbove = 5,
    TooManyLinks = 6,
    BytesBehind = 7,
    TooDifferent = 8,
    NoSuchRouter = 9,
    NoRoom = 10,
    BadViews = 11,
}

// Which of a question's tables: the old or only one, or the new.
#[derive(Clone, Copy, Debug, PartialEq, Eq)]
pub enum Which {
    Old = 0,
    New = 1,
}

// A refusal.
#[derive(Clone, Copy, Debug, PartialEq, Eq)]
pub struct Refusal {
    pub reason: Reason,
    pub table: Which,
    pub place: usize,
}

impl Reason {
    // The number that refuses.
    pub fn number(self) -> u8
        ensures { result ≡ number_of self }
    {
        self as u8
    }

    // The refusal for this reason at a place of the old or only table.
    pub fn at(self, place: usize) -> Refusal
        ensures { result ≡ refused_at self place }
    {
        Refusal {
            reason: self,
            table: Which::Old,
            place,
        }
    }
}

impl Which {
    // 0 for the old or only table, 1 for the new.
    pub fn number(self) -> u8
        ensures { result ≡ table_number self }
    {
        self as u8
    }
}

impl Refusal {
    // The same refusal, of the new table.
    pub fn in_new(self) -> Refusal
        ensures { result ≡ in_new self }
    {
        Refusal {
            table: Which::New,
            ..self
        }
    }
}

// A reason without table and place: from 8 upwards.
impl From<Reason> for Refusal {
    ghost from_gives = { λ reason refusal. refusal ≡ without_place reason };

    fn from(reason: Reason) -> Refusal {
        reason.at(0)
    }
}

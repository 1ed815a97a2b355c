// Why a word or a call is refused, and at which place.
ghost use Rattle.std.specs.Prelude.{◌≡◌};
ghost use Rattle.limits.specs.Refusal.{number_of};

// The refusals: 1 to 6 are a word's own, in the order in which they are looked for; then come those of a call.
#[derive(Clone, Copy, PartialEq, Eq)]
pub enum Refusal {
    WordTooLong = 1,
    BadNumber = 2,
    MissingOperand = 3,
    TooManyPending = 4,
    TooManySteps = 5,
    NotOneOperand = 6,
    RoomTooShort = 7,
    BadTable = 8,
    NoSuchNode = 9,
    WorkspaceTooShort = 10,
}

// A refusal and its place.
#[derive(Clone, Copy, PartialEq, Eq)]
pub struct Refused {
    pub place: usize,
    pub why: Refusal,
}

impl Refusal {
    // Its number in the table.
    pub fn number(self) -> u32
        ensures { result ≡ number_of self }
    {
        self as u32
    }

    // This refusal, at a place.
    pub fn at(self, place: usize) -> Refused
        ensures { result ≡ record { why = self; place = place } }
    {
        Refused { why: self, place }
    }
}

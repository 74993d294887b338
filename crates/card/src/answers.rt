// What a call answers. specs/Answers.antt gives each case its number and values.
ghost use Rattle.std.specs.Prelude.{◌≡◌};
ghost use Rattle.card.specs.Answers.{refusal_number, number_of};

use zone::Figures;

// Why a call is refused, in the order of the numbers.
#[derive(Clone, Copy, PartialEq, Eq)]
pub enum Refusal {
    NoRoom = 1,
    NotSound,
    NoZone,
    NoFrame,
    NobodyHolds,
    Checksum,
    Unknown,
    Syntax,
    OutOfRange,
    Locked,
    AddressHeld,
    AlreadyPresent,
    Unreadable,
    NoRecipe,
    StillBooked,
    BadAmount,
    SameZone,
}

// No Result<Option<Figures>, Refusal>: document 01 ("Where an answer is an enum, ..") asks for number and values of each of
// its cases, which number_of and values_of give.
#[derive(Clone, Copy, PartialEq, Eq)]
pub enum Answer {
    Done,
    Told(Figures),
    Refused(Refusal),
}

impl Refusal {
    pub fn number(self) -> u32
        ensures { result ≡ refusal_number self }
    {
        self as u32
    }
}

impl Answer {
    pub fn number(self) -> u32
        ensures { result ≡ number_of self }
    {
        match self {
            Answer::Done | Answer::Told(_) => 0,
            Answer::Refused(why) => why.number(),
        }
    }
}

// Why something that is handed in is refused: each refusal with its number, and a refusal with the value that it returns.
#![tactic(auto)]

ghost use Rattle.std.specs.Prelude.{◌≡◌};
ghost use Rattle.refusals.specs.Numbers.{number_of};

// Why, in the order of their numbers.
#[derive(Clone, Copy, PartialEq, Eq)]
pub enum Reason {
    LongDocument,
    LongTables,
    ShortScratch,
    BadTables,
    BadCharacter,
    Unsupported,
    Malformed,
    PastLimit,
    ShortElements,
    LongValue,
    ShortList,
    BadList,
    NoMerge,
}

// A refusal, and what it returns: a place, a length or a count.
#[derive(Clone, Copy, PartialEq, Eq)]
pub struct Refusal {
    pub reason: Reason,
    pub value: usize,
}

impl Reason {
    // The number under which a refusal is told.
    pub fn number(self) -> u32
        ensures { result ≡ number_of self }
    {
        match self {
            Reason::LongDocument => 1,
            Reason::LongTables => 2,
            Reason::ShortScratch => 3,
            Reason::BadTables => 4,
            Reason::BadCharacter => 5,
            Reason::Unsupported => 6,
            Reason::Malformed => 7,
            Reason::PastLimit => 8,
            Reason::ShortElements => 9,
            Reason::LongValue => 10,
            Reason::ShortList => 11,
            Reason::BadList => 12,
            Reason::NoMerge => 13,
        }
    }
}

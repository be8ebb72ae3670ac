// Every refusal: its cause, its number, and what is said of it.
#![tactic(auto)]

// Why something is refused; the numbers are those of `number`.
#[derive(Clone, Copy, PartialEq, Eq)]
pub enum Cause {
    // of any buffer
    Length,
    // of a sequent file
    Mark,
    Version,
    Header,
    TypeByte,
    FlagByte,
    // of a formula, and `Count` of a lent list too
    Code,
    Count,
    Index,
    Type,
    Deep,
    Long,
    // of hypotheses, and of what follows the last item of a buffer
    Twice,
    After,
    // of an act
    Room,
    NotAdded,
}

impl Cause {
    ghost use Rattle.std.specs.Prelude.{◌≡◌};
    ghost use Rattle.refusal.specs.Refusal.{number, refused, act_said};

    pub fn number(self) -> usize
        ensures { result ≡ number self }
    {
        match self {
            Cause::Length => 1,
            Cause::Mark => 2,
            Cause::Version => 3,
            Cause::Header => 4,
            Cause::TypeByte => 5,
            Cause::FlagByte => 6,
            Cause::Code => 7,
            Cause::Count => 7,
            Cause::Index => 7,
            Cause::Type => 8,
            Cause::Deep => 9,
            Cause::Long => 9,
            Cause::Twice => 10,
            Cause::After => 11,
            Cause::Room => 14,
            Cause::NotAdded => 18,
        }
    }

    // The refusal for it, found at a place.
    pub fn at(self, at: usize) -> Refusal
        ensures { result ≡ refused self at }
    {
        Refusal { cause: self, at }
    }

    // What is said of it where an act finds it itself, at no byte.
    #[tactic(auto, unfolding(crate::specs::Refusal::act_said))]
    pub fn said(self) -> Said
        ensures { result ≡ act_said self }
    {
        self.at(0).said_in(0)
    }
}

// A refusal as it is found, with its place. The place of `Length` is not known there: it is the length of the whole buffer.
#[derive(Clone, Copy, PartialEq, Eq)]
pub struct Refusal {
    pub cause: Cause,
    pub at: usize,
}

impl Refusal {
    ghost use Rattle.std.specs.Prelude.{◌≡◌};
    ghost use Rattle.refusal.specs.Refusal.{said_of};

    // What is said of it in a buffer of len bytes.
    #[tactic(auto, unfolding(crate::specs::Refusal::said_of, crate::specs::Refusal::place_of))]
    pub fn said_in(self, len: usize) -> Said
        ensures { result ≡ said_of self len }
    {
        let number = self.cause.number();
        Said {
            number,
            place: if number == 1 { len } else { self.at },
        }
    }
}

// A refusal as it is answered: by the number that document 01 gives it, which C and the programs hand on.
#[derive(Clone, Copy, PartialEq, Eq)]
pub struct Said {
    pub number: usize,
    pub place: usize,
}

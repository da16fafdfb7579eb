// The rules: what they are is in specs/. The code has the plain types that the rules and the programs share.
#![tactic(auto)]

ghost use Rattle.std.specs.Prelude.{◌≡◌};
ghost use Rattle.rules.specs.Types as types;
ghost use Rattle.rules.specs.Refusals.{number};

// How a listing shows its variables: by the numbers that the table gives them, or numbered for each root from 0 on.
#[derive(Clone, Copy, PartialEq, Eq)]
pub enum Form {
    Plain,
    Numbered,
}

#[derive(Clone, Copy, PartialEq, Eq)]
pub enum Polarity {
    Positive,
    Negative,
}

impl Polarity {
    // Polarity::flip
    pub fn flip(self) -> Self
        ensures { result ≡ types.flip self }
    {
        match self {
            Polarity::Positive => Polarity::Negative,
            Polarity::Negative => Polarity::Positive,
        }
    }
}

// Why a call is refused or, from Keys to Cells, a root.
#[derive(Clone, Copy, PartialEq, Eq)]
pub enum Refusal {
    // a line is not in form, or not in its place
    Form = 1,
    Ceiling = 2,
    // an id, a key or a name's number is out of range
    Range = 3,
    // names or keys do not ascend
    Ascent = 4,
    Frozen = 5,
    // too many keys in progress, members of a list, nodes of a pass, or cells of its nodes
    Keys = 6,
    Members = 7,
    Nodes = 8,
    Cells = 9,
    // recheck: two tables that cannot be compared, and an old listing that is not in form
    Incomparable = 10,
    Listing = 11,
    // the output or a scratch is too short
    Output = 12,
    Scratch = 20,
}

impl Refusal {
    // The number by which it is shown.
    pub fn number(self) -> u32
        ensures { result ≡ number self }
    {
        self as u32
    }
}

// A refusal, and the line at fault; 0 where no line is.
#[derive(Clone, Copy, PartialEq, Eq)]
pub struct Fault {
    pub refusal: Refusal,
    pub line: u32,
}

// Why a call is refused, and the number by which a caller in C reads it.
#![tactic(auto)]

ghost use Rattle.std.specs.Prelude.{◌≡◌};
ghost use Rattle.refusal.specs.Numbers.{number, number_of};

// Each refusal by its number; 0 is that of no refusal.
#[derive(Clone, Copy, PartialEq, Eq, Debug)]
pub enum Refusal {
    Sizes = 1,
    Length = 2,
    Element = 3,
    Indices = 4,
    Mark = 5,
    QuestionLength = 6,
    ReplyLength = 7,
    Root = 8,
    Batching = 9,
    Evaluation = 10,
    NoCounter = 11,
    Unqualified = 12,
    EqualPoints = 13,
}

impl Refusal {
    pub fn number(self) -> u32
        ensures { result ≡ number self }
    {
        self as u32
    }
}

// The number of an answer: 0, or that of the refusal.
pub fn number_of<T: Copy>(answer: Result<T, Refusal>) -> u32
    ensures { result ≡ number_of answer }
{
    match answer {
        Ok(_) => 0,
        Err(refusal) => refusal.number(),
    }
}

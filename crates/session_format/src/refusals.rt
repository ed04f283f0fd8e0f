// Why bytes are no session.
ghost use Rattle.std.specs.Prelude.{◌≡◌, Some};
ghost use Rattle.session_format.specs.Refusals.{number_of, reason};

use std::fmt;

// In the order in which the reader looks for them.
#[derive(Clone, Copy, PartialEq, Eq, Debug)]
pub enum FormatRefusal {
    EndsInsideCount,
    TooManyCalls,
    EndsInsideCall,
    BytesLeftOver,
    MalformedCall,
}

// The number of the refusal in docs/SESSIONS.md.
impl From<FormatRefusal> for u8 {
    ghost from_gives = { λ refusal n. n ≡ number_of refusal };

    fn from(refusal: FormatRefusal) -> Self {
        match refusal {
            FormatRefusal::EndsInsideCount => 8,
            FormatRefusal::TooManyCalls => 9,
            FormatRefusal::EndsInsideCall => 8,
            FormatRefusal::BytesLeftOver => 10,
            FormatRefusal::MalformedCall => 11,
        }
    }
}

impl fmt::Display for FormatRefusal {
    ghost output = { λ refusal. Some (reason refusal) };

    fn fmt<W: fmt::Write>(&self, f: &mut fmt::Formatter<W>) -> fmt::Result {
        match self {
            FormatRefusal::EndsInsideCount => write!(f, "the bytes end inside the count"),
            FormatRefusal::TooManyCalls => write!(f, "the count is above 4,096"),
            FormatRefusal::EndsInsideCall => write!(f, "the bytes end inside a call"),
            FormatRefusal::BytesLeftOver => write!(f, "bytes are left over after the last call"),
            FormatRefusal::MalformedCall => write!(f, "a call is malformed"),
        }
    }
}

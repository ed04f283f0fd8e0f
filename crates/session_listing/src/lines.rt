// The lines of a listing.
ghost use Rattle.std.specs.Prelude.{◌≡◌, Some};
ghost use Rattle.session_listing.specs.Lines.{operation, level, call_line, count_line, refusal_line};

use session_format::{Call, FormatRefusal};
use std::fmt;

// What a call asks for: its name, and its operands in a column of their own.
#[derive(Clone, Copy)]
pub(crate) struct Operation(pub(crate) Call);

impl fmt::Display for Operation {
    ghost output = { λ x. Some (operation x.0) };

    fn fmt<W: fmt::Write>(&self, f: &mut fmt::Formatter<W>) -> fmt::Result {
        match self.0 {
            Call::Write { port, byte } => {
                write!(f, "write        port {port:02X}h, byte {byte:02X}h")
            }
            Call::Read { port } => write!(f, "read         port {port:02X}h"),
            Call::Line { port, line, high } => {
                let level = level_name(high);
                write!(f, "line         port {port:02X}h, line {line} {level}")
            }
            Call::Clocks { number } => write!(f, "clocks       {number}"),
            Call::Acknowledge => write!(f, "acknowledge"),
            Call::Fetch { byte } => write!(f, "fetch        byte {byte:02X}h"),
            Call::AskInt => write!(f, "int"),
            Call::Reset => write!(f, "reset"),
        }
    }
}

fn level_name(high: bool) -> &'static str
    ensures { result.now ≡ level high }
{
    if high { "high" } else { "low" }
}

// A call, where it stands in the session, and its three bytes.
#[derive(Clone, Copy)]
pub(crate) struct CallLine {
    pub(crate) offset: u16,
    pub(crate) call: Call,
}

impl fmt::Display for CallLine {
    ghost output = { λ x. Some (call_line x.offset x.call) };

    fn fmt<W: fmt::Write>(&self, f: &mut fmt::Formatter<W>) -> fmt::Result {
        let offset = self.offset;
        let [letter, first, second] = <[u8; 3]>::from(self.call);
        let operation = Operation(self.call);
        write!(
            f,
            "{offset:04X}  {letter:02X} {first:02X} {second:02X}  {operation}"
        )
    }
}

// The count of a session's calls, and its two bytes.
#[derive(Clone, Copy)]
pub(crate) struct CountLine(pub(crate) u16);

impl fmt::Display for CountLine {
    ghost output = { λ x. Some (count_line x.0) };

    fn fmt<W: fmt::Write>(&self, f: &mut fmt::Formatter<W>) -> fmt::Result {
        let count = self.0;
        let [low, high] = count.to_le_bytes();
        write!(f, "0000  {low:02X} {high:02X}     count        {count}")
    }
}

// A refusal, by its number and in words.
#[derive(Clone, Copy)]
pub(crate) struct RefusalLine(pub(crate) FormatRefusal);

impl fmt::Display for RefusalLine {
    ghost output = { λ x. Some (refusal_line x.0) };

    fn fmt<W: fmt::Write>(&self, f: &mut fmt::Formatter<W>) -> fmt::Result {
        let number = u8::from(self.0);
        let reason = self.0;
        write!(f, "refused {number}: {reason}")
    }
}

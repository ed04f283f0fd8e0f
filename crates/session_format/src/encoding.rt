// One call of a session, and the three bytes that stand for it.
ghost use Rattle.std.specs.Prelude.{◌≡◌};
ghost use Rattle.session_format.specs.Encoding.{call_of_bytes, call_bytes, line_operand};

use crate::refusals::FormatRefusal;

#[derive(Clone, Copy, PartialEq, Eq, Debug)]
pub enum Call {
    Write { port: u8, byte: u8 },
    Read { port: u8 },
    // An outside level: the card that takes the port, one of its lines, and whether the line goes high.
    Line { port: u8, line: u8, high: bool },
    Clocks { number: u8 },
    Acknowledge,
    Fetch { byte: u8 },
    // Asks whether the interrupt line INT is pulled.
    AskInt,
    Reset,
}

// The call that a letter and two operands say.
impl TryFrom<[u8; 3]> for Call {
    type Error = FormatRefusal;

    ghost try_from_gives = { λ bytes r. r ≡ call_of_bytes bytes };

    fn try_from(bytes: [u8; 3]) -> Result<Self, FormatRefusal> {
        match bytes {
            [b'W', port, byte] => Ok(Call::Write { port, byte }),
            [b'R', port, 0] => Ok(Call::Read { port }),
            [b'L', port, operand] if operand / 16 % 8 == 0 => Ok(Call::Line {
                port,
                line: operand % 16,
                high: operand >= 128,
            }),
            [b'C', number, 0] => Ok(Call::Clocks { number }),
            [b'A', 0, 0] => Ok(Call::Acknowledge),
            [b'F', byte, 0] => Ok(Call::Fetch { byte }),
            [b'I', 0, 0] => Ok(Call::AskInt),
            [b'Z', 0, 0] => Ok(Call::Reset),
            _ => Err(FormatRefusal::MalformedCall),
        }
    }
}

// The letter and the two operands of the call. Of a line's number the format holds the low four bits.
impl From<Call> for [u8; 3] {
    ghost from_gives = { λ call bytes. bytes ≡ call_bytes call };

    fn from(call: Call) -> Self {
        match call {
            Call::Write { port, byte } => [b'W', port, byte],
            Call::Read { port } => [b'R', port, 0],
            Call::Line { port, line, high } => [b'L', port, encode_line(line, high)],
            Call::Clocks { number } => [b'C', number, 0],
            Call::Acknowledge => [b'A', 0, 0],
            Call::Fetch { byte } => [b'F', byte, 0],
            Call::AskInt => [b'I', 0, 0],
            Call::Reset => [b'Z', 0, 0],
        }
    }
}

fn encode_line(line: u8, high: bool) -> u8
    ensures { result ≡ line_operand line high }
{
    let level = if high { 128 } else { 0 };
    line % 16 + level
}

// Reads a session: the caller's bytes as calls, or the refusal.
ghost use Rattle.std.specs.Prelude.{◌≡◌, ◌+◌, ◌*◌, IfOk};
ghost use Rattle.session_format.specs.Reading.{session_of, counted, well_formed};
ghost use Rattle.session_format.specs.Laws.{Holdable, ReadsWhatIsWritten, WritesWhatWasRead, FrontDecides};
ghost use Rattle.session_format.specs.Views.{calls_left, answer};

use crate::encoding::Call;
use crate::refusals::FormatRefusal;
use crate::view::Calls;

// The most calls that a session holds.
const MOST_CALLS: u16 = 4096;

// The calls of a session, or why the bytes are none. It makes no call on a rack and changes no byte.
pub fn read_session(bytes: &[u8]) -> Result<Calls<'_>, FormatRefusal>
    ensures answer { answer result ≡ session_of bytes.now }
    ensures holdable { IfOk result (λ calls. Holdable (calls_left calls)) }
    ensures written_is_read { ReadsWhatIsWritten }
    ensures read_is_written { WritesWhatWasRead bytes.now }
    ensures front_decides { FrontDecides bytes.now }
{
    let [low, high, calls @ ..] = bytes else {
        return Err(FormatRefusal::EndsInsideCount);
    };
    read_calls(count_of(*low, *high), calls)
}

fn count_of(low: u8, high: u8) -> u16
    ensures { result ≡ low + 256 * high }
{
    u16::from_le_bytes([low, high])
}

#[tactic(auto, using(crate::proofs::Shapes::length_formed, crate::proofs::Shapes::formed_whole))]
fn read_calls(count: u16, bytes: &[u8]) -> Result<Calls<'_>, FormatRefusal>
    ensures { answer result ≡ counted count bytes.now }
{
    if count > MOST_CALLS {
        return Err(FormatRefusal::TooManyCalls);
    }
    let length = 3 * usize::from(count);
    if bytes.len() < length {
        return Err(FormatRefusal::EndsInsideCall);
    }
    if bytes.len() > length {
        return Err(FormatRefusal::BytesLeftOver);
    }
    if !all_well_formed(bytes) {
        return Err(FormatRefusal::MalformedCall);
    }
    Ok(Calls { bytes })
}

fn all_well_formed(bytes: &[u8]) -> bool
    ensures { result ≡ well_formed bytes.now }
{
    let (calls, left) = bytes.as_chunks::<3>();
    left.is_empty() && calls.iter().all(|&call| Call::try_from(call).is_ok())
}

// The listing of a session's bytes as one text.
ghost use Rattle.std.specs.Prelude.{◌≡◌, ◌++◌, IfOk, string_bytes, OnOk};
ghost use Rattle.session_format.specs.Views.{calls_left};
ghost use Rattle.session_listing.specs.Listing.{call_lines, listed_calls, listing_of, ended};
ghost use Rattle.session_listing.specs.Laws.{LineFeedEach};
ghost use Rattle.session_listing.specs.Lines.{refusal_line};

use crate::lines::{CallLine, CountLine, RefusalLine};
use session_format::{Calls, FormatRefusal, read_session};
use std::alloc::{AllocError, Global};

// Each line of the session, or the line of its refusal, with a line feed after each.
pub fn listing(heap: Global, bytes: &[u8]) -> Result<String, AllocError>
    ensures text { IfOk result (λ text. string_bytes text ≡ listing_of bytes.now) }
    ensures line_feed_each { LineFeedEach bytes.now }
{
    match read_session(bytes) {
        Ok(calls) => list_session(heap, calls),
        Err(refusal) => list_refusal(heap, refusal),
    }
}

fn list_refusal(heap: Global, refusal: FormatRefusal) -> Result<String, AllocError>
    ensures { IfOk result (λ text. string_bytes text ≡ ended (refusal_line refusal)) }
{
    let line = RefusalLine(refusal);
    format!(in heap; "{line}\n")
}

fn list_session(heap: Global, calls: Calls<'_>) -> Result<String, AllocError>
    ensures { IfOk result (λ text. string_bytes text ≡ listed_calls (calls_left calls.entry)) }
{
    // `as` is proved to lose nothing, here and below; a `try_from` would add a failure that cannot come.
    let count = CountLine(calls.len() as u16);
    let mut text = format!(in heap; "{count}\n")?;
    list_calls(&mut text, calls)?;
    Ok(text)
}

fn list_calls(text: &mut String, calls: Calls<'_>) -> Result<(), AllocError>
    ensures { OnOk result (string_bytes text.new ≡ string_bytes text.old ++ call_lines 2 (calls_left calls.entry)) }
{
    for (place, call) in calls.enumerate() {
        let offset = 2 + 3 * place as u16;
        let line = CallLine { offset, call };
        writeln!(text, "{line}")?;
    }
    Ok(())
}

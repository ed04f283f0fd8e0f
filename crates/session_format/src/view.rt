// A view of the caller's bytes as the calls that they hold.
ghost use Rattle.std.specs.Prelude.{◌≡◌, ◌≤◌, true, length, Some, IfSome};
ghost use Rattle.session_format.specs.Reading.{most_calls, calls_in, well_formed};
ghost use Rattle.session_format.specs.Splits.{Splits};

use crate::encoding::Call;

// The calls that are still to come, in order: whole, well-formed calls, and no more than a session holds.
#[derive(Drop)]
pub struct Calls<'a> {
    pub(crate) bytes: &'a [u8],
    pub ghost formed: { well_formed bytes.now ≡ true },
    pub ghost few: { length (calls_in bytes.now) ≤ most_calls },
}

impl Iterator for Calls<'_> {
    ghost use Rattle.std.specs.Iterator.{YieldsFirst, item_count, UpTo};
    ghost use Rattle.std.specs.Iterator.SizeHint.{IsWithinCount};
    ghost use Rattle.session_format.specs.Views.{calls_left};

    type Item = Call;

    ghost next_gives = { YieldsFirst calls_left };

    ghost remaining = { item_count calls_left };

    fn next(&mut self) -> Option<Call> {
        let (call, rest) = split_first(self.bytes)?;
        self.bytes = rest;
        Some(call)
    }

    fn size_hint(&self) -> (usize, Option<usize>)
        ensures lower { IsWithinCount result.0 (item_count calls_left self.now) }
        ensures upper { IfSome result.1 (UpTo (item_count calls_left self.now)) }
        ensures exact { result ≡ (length (calls_left self.now), Some (length (calls_left self.now))) }
    {
        let left = self.len();
        (left, Some(left))
    }
}

impl ExactSizeIterator for Calls<'_> {
    ghost use Rattle.session_format.specs.Views.{calls_left};

    // How many calls are still to come.
    #[tactic(auto, using(crate::proofs::Shapes::length_formed))]
    fn len(&self) -> usize
        ensures { result ≡ length (calls_left self.now) }
    {
        self.bytes.len() / 3
    }
}

// The call that the bytes begin with, and the bytes after it; none where they end or the call is malformed.
fn split_first(bytes: &[u8]) -> Option<(Call, &[u8])>
    ensures { Splits bytes.now result }
{
    let [letter, first, second, rest @ ..] = bytes else {
        return None;
    };
    let call = Call::try_from([*letter, *first, *second]).ok()?;
    Some((call, rest))
}

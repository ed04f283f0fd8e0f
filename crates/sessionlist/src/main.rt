// Lists the session that stands on standard input, or says why it is none.
#![tactic(auto)]

use session_listing::listing;
use std::io::Read;

// The longest session and one byte more: the reader's contract says that longer bytes are answered as this front of them is.
const READ_AT_MOST: u64 = 12_291;

fn main(rt: HostRuntime) -> anyhow::Result<()> {
    let heap = rt.alloc();
    let mut bytes = Vec::new(heap);
    rt.stdin().take(READ_AT_MOST).read_to_end(&mut bytes)?;
    print!(rt; "{}", listing(heap, bytes.as_slice())?)?;
    Ok(())
}

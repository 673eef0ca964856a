// The listing program: standard input, a byte at a time, to answers on standard output.
#![tactic(auto)]

use lister::lent::Buffers;
use lister::sized::SizedInput;
use std::io;

fn main(rt: HostRuntime) -> io::Result<()> {
    let mut input = SizedInput::<_, 4096>::new(rt.stdin());
    let mut buffers = Buffers::new();
    let mut listing = buffers.listing();
    // no input has as many bytes
    for _ in 0..u64::MAX {
        let Some(b) = input.next_byte()? else {
            return listing.finish(&rt);
        };
        listing.take_byte(&rt, b)?;
        if listing.at.stopped {
            return Ok(());
        }
    }
    Ok(())
}

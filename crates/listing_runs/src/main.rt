// The listing on many inputs, one after another: a line that begins with `=` ends an input, is printed as it is, and begins the next.
#![tactic(auto)]

use lister::lent::Buffers;
use lister::sized::SizedInput;
use std::io;

fn main(rt: HostRuntime) -> io::Result<()> {
    let mut input = SizedInput::<_, 4096>::new(rt.stdin());
    let mut buffers = Buffers::new();
    let mut listing = buffers.listing();
    let mut titled = false;
    // no input has as many bytes
    for _ in 0..u64::MAX {
        let Some(b) = input.next_byte()? else {
            return listing.finish(&rt);
        };
        if titled {
            rt.write_all(&[b])?;
            titled = b != b'\n';
        } else if b == b'=' {
            listing.finish(&rt)?;
            rt.write_all(&[b])?;
            listing.restart();
            titled = true;
        } else {
            listing.take_byte(&rt, b)?;
        }
    }
    Ok(())
}

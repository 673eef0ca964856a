// Bytes into a lent area, from a place on. A call answers the place after its bytes, which is the area's end where there is no room for them.
ghost use Rattle.std.specs.Prelude.{◌≡◌, [], ◌∷◌, min, length};
ghost use Rattle.texts.specs.Written.{Wrote};

// Nothing yet: the place itself, or the area's end before it.
pub fn put_nothing(out: &[u8], at: usize) -> usize
    ensures { result ≡ min at (length out.now) }
{
    at.min(out.len())
}

pub fn put_byte(out: &mut [u8], at: usize, byte: u8) -> usize
    ensures { Wrote out.old at (byte ∷ []) out.new result }
{
    if at < out.len() {
        out[at] = byte;
        return at + 1;
    }
    out.len()
}

pub fn put_bytes(out: &mut [u8], at: usize, bytes: &[u8]) -> usize
    ensures { Wrote out.old at bytes.now out.new result }
{
    let mut p = put_nothing(out, at);
    for &byte in bytes {
        p = put_byte(out, p, byte);
    }
    p
}

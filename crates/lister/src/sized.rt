// The bytes of an input one by one, out of a buffer of N bytes. Its calls ask that it fit in memory, which of a reader of unknown size can't be
// shown: there `Input` serves.
ghost use Rattle.std.specs.Prelude.{◌≤◌, OnErr};

use std::io;
use std::io::Read;

#[derive(Drop)]
pub struct SizedInput<R: Read, const N: usize> {
    pub reader: R,
    pub buffer: [u8; N],
    // the bytes of the buffer that are still to come stand from `next` to before `end`
    pub next: usize,
    pub end: usize,
    ghost in_buffer: { end ≤ N },
}

impl<R: Read, const N: usize> SizedInput<R, N> {
    pub fn new(reader: R) -> SizedInput<R, N>
        ensures none_to_come { result.end ≤ result.next }
    {
        SizedInput {
            reader,
            buffer: [0u8; N],
            next: 0,
            end: 0,
        }
    }

    // The next byte; None where the input has ended. It fails where a read was needed and failed, and in no other case.
    pub fn next_byte(&mut self) -> io::Result<Option<u8>>
        ensures read_on_err { OnErr result (self.old.end ≤ self.old.next) }
    {
        if self.end <= self.next {
            let read = self.reader.read(&mut self.buffer)?;
            self.end = read;
            self.next = 0;
            if read == 0 {
                return Ok(None);
            }
        }
        let byte = self.buffer[self.next];
        self.next += 1;
        Ok(Some(byte))
    }
}

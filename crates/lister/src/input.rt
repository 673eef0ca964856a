// The bytes of an input one by one, out of a buffer. By itself, and not `SizedInput` of 4,096 bytes: no call asks anything of the reader's size,
// so a caller that doesn't know it can make one.
ghost use Rattle.std.specs.Prelude.{◌≤◌, OnErr};

use std::io;
use std::io::Read;

#[derive(Drop)]
pub struct Input<R: Read> {
    pub reader: R,
    pub buffer: [u8; 4096],
    // the bytes of the buffer that are still to come stand from `next` to before `end`
    pub next: usize,
    pub end: usize,
    ghost in_buffer: { end ≤ 4096 },
}

impl<R: Read> Input<R> {
    pub fn new(reader: R) -> Input<R>
        ensures none_to_come { result.end ≤ result.next }
    {
        Input {
            reader,
            buffer: [0u8; 4096],
            next: 0,
            end: 0,
        }
    }

    // The next byte; None where the input has ended. It fails where a read was needed and failed, and in no other case.
    pub fn next_byte(&mut self) -> io::Result<Option<u8>>
        ensures read_on_err { OnErr result (self.old.end ≤ self.old.next) }
    {
        if self.end <= self.next {
            let read = self.reader.read(&mut self.buffer)?;
            self.end = read;
            self.next = 0;
            if read == 0 {
                return Ok(None);
            }
        }
        let byte = self.buffer[self.next];
        self.next += 1;
        Ok(Some(byte))
    }
}

#[cfg(test)]
mod tests {
    use super::*;

    // Is each byte of a reader, of whatever size, the next of the list, and none behind the last?
    fn gives<R: Read + Drop>(reader: R, list: &[u8]) -> io::Result<bool> {
        let mut input = Input::new(reader);
        for &b in list {
            if input.next_byte()? != Some(b) {
                return Ok(false);
            }
        }
        Ok(input.next_byte()?.is_none())
    }

    // More bytes than the buffer has, one, and none.
    #[test]
    fn every_byte_comes(rt: HostRuntime) -> io::Result<()> {
        let mut list = [0u8; 5000];
        for (i, b) in list.iter_mut().enumerate() {
            *b = (i % 251) as u8;
        }
        for n in [5000, 1, 0] {
            let bytes = &list[..n];
            assert!(rt; gives(bytes, bytes)?);
        }
        Ok(())
    }
}

// Bytes to the numbers of a line.
use reading::numbers::read_number;

// Where the reading stands between two bytes.
#[derive(Clone, Copy)]
pub struct Reader {
    // bytes of the number, and numbers of the line
    pub bytes: usize,
    pub words: usize,
    // something in the line is no number, or there is no room for it
    pub bad: bool,
    // lines read, and lines that differ
    pub lines: u64,
    pub differ: u64,
}

pub fn start() -> Reader {
    Reader {
        bytes: 0,
        words: 0,
        bad: false,
        lines: 0,
        differ: 0,
    }
}

// The next line begins. No run reads as many lines as 64 bits can count.
pub fn next_line(r: Reader, differs: bool) -> Reader {
    Reader {
        bytes: 0,
        words: 0,
        bad: false,
        lines: r.lines.saturating_add(1),
        differ: r.differ.saturating_add(u64::from(differs)),
    }
}

// The first words of the line, or all of them.
pub fn first<'a>(line: &'a [u64], n: usize) -> &'a [u64] {
    &line[..n.min(line.len())]
}

fn spoilt(r: Reader) -> Reader {
    let mut next = r;
    next.bad = true;
    next
}

// One byte more of a number.
pub fn keep(r: Reader, b: u8, token: &mut [u8]) -> Reader {
    let at = r.bytes;
    if at >= token.len() {
        return spoilt(r);
    }
    token[at] = b;
    let mut next = r;
    next.bytes = at + 1;
    next
}

// One number more of the line.
fn put(r: Reader, v: u64, line: &mut [u64]) -> Reader {
    let at = r.words;
    if at >= line.len() {
        return spoilt(r);
    }
    line[at] = v;
    let mut next = r;
    next.words = at + 1;
    next.bytes = 0;
    next
}

fn number_of(token: &[u8], n: usize) -> Option<u64> {
    if n <= token.len() {
        return read_number(&token[..n]);
    }
    None
}

// The number's end.
pub fn end_number(r: Reader, token: &[u8], line: &mut [u64]) -> Reader {
    match number_of(token, r.bytes) {
        Some(v) => put(r, v, line),
        None => spoilt(r),
    }
}

// The numbers of a line. Parts stand behind its single numbers: `length m w1 .. wm f` is an area of that length whose first m words are said
// and whose others are f. Every call here answers for any numbers at all; whether a line is a whole one is asked once, by `is_whole`.

// No area is longer.
pub const ROOM: usize = 2048;

// Where a part's words stand, from `from` to before `end`, and where the next part begins.
#[derive(Clone, Copy)]
pub struct Part {
    pub length: usize,
    pub from: usize,
    pub end: usize,
    pub fill: u64,
    pub next: usize,
}

// A number of the line; 0 past its end.
pub fn number_at(line: &[u64], at: usize) -> u64 {
    if at < line.len() {
        return line[at];
    }
    0
}

// A number of 32 bits; 0 for what is none.
pub fn half_of(word: u64) -> u32 {
    if word <= 4294967295 {
        return word as u32;
    }
    0
}

// A place that many numbers further, which stays in 64 bits.
pub fn further(at: usize, more: u64) -> usize {
    at.saturating_add(more as usize)
}

fn part_at(line: &[u64], at: usize) -> Part {
    let from = further(at, 2);
    let end = further(from, number_at(line, further(at, 1)));
    Part {
        length: number_at(line, at) as usize,
        from,
        end,
        fill: number_at(line, end),
        next: further(end, 1),
    }
}

// Part k, counted from 0, of those that begin at `first`.
pub fn part_of(line: &[u64], first: usize, k: usize) -> Part {
    let mut p = part_at(line, first);
    for _ in 0..k {
        p = part_at(line, p.next);
    }
    p
}

// Word i of a part.
pub fn word_of(line: &[u64], p: Part, i: usize) -> u64 {
    let at = further(p.from, i as u64);
    if at < p.end {
        return number_at(line, at);
    }
    p.fill
}

// All words of a table are said.
fn is_good(p: Part, is_table: bool) -> bool {
    let end = further(p.from, p.length as u64);
    p.length <= ROOM && (p.end == end || !is_table && p.end < end)
}

// The line ends after that many parts, of which the first are tables.
pub fn is_whole(line: &[u64], first: usize, tables: usize, parts: usize) -> bool {
    let mut next = first;
    // a loop, and no `all`: each part says where the next begins
    for i in 0..parts {
        let p = part_at(line, next);
        if !is_good(p, i < tables) {
            return false;
        }
        next = p.next;
    }
    next == line.len()
}

// The words of a part that says all of them.
pub fn table<'a>(line: &'a [u64], first: usize, k: usize) -> &'a [u64] {
    let p = part_of(line, first, k);
    let from = p.from;
    let end = p.end;
    if end > line.len() || from > end {
        return &line[..0];
    }
    &line[from..end]
}

// The bytes of a line as they come, kept in a lent buffer without the zeros that lead a number.
ghost use Rattle.std.specs.Prelude.{◌≡◌, length, take, ◌&&◌, ◌≤◌};
ghost use Rattle.reading.specs.Numbers.{is_digit};
ghost use Rattle.reading.specs.Kept.{is_edge, lone_zero, after};

// What a number can stand behind.
fn is_edge(b: u8) -> bool
    ensures { result ≡ is_edge b }
{
    b == b' ' || b == b',' || b == b'-'
}

// Do the first `n` bytes end in a number that is a single 0?
fn is_lone_zero(line: &[u8], n: usize) -> bool
    requires { n ≤ length line.now }
    ensures { result ≡ lone_zero (take n line.now) }
{
    n >= 2 && line[n - 1] == b'0' && is_edge(line[n - 2])
}

// Does the byte take the place of a single 0?
fn replaces(line: &[u8], n: usize, b: u8) -> bool
    requires { n ≤ length line.now }
    ensures { result ≡ (is_digit b && lone_zero (take n line.now)) }
{
    b >= b'0' && b <= b'9' && is_lone_zero(line, n)
}

// One byte more of a line: how many bytes of the buffer hold it now. None: the line is too long for the buffer, and stays so.
pub fn take_byte(line: &mut [u8], kept: Option<usize>, b: u8) -> Option<usize>
    ensures count { result ≡ (after line.old kept b).kept }
    ensures bytes { line.new ≡ (after line.old kept b).bytes }
{
    let n = kept?;
    if line.len() < n {
        return None;
    }
    if replaces(line, n, b) {
        line[n - 1] = b;
        return Some(n);
    }
    if n == line.len() {
        return None;
    }
    line[n] = b;
    Some(n + 1)
}

// Where the parts of a text stand.
ghost use Rattle.std.specs.Prelude.{◌≡◌, ◌+◌, drop};
ghost use Rattle.reading.specs.Fields.{up_to, field};

// Where the part that begins at `from` ends: before a separator, or at the end.
pub fn end_of(text: &[u8], from: usize, separator: u8) -> usize
    ensures { result ≡ from + up_to separator (drop from text.now) }
{
    // a range, since `from` may lie past the end of the text, where a slice has no beginning
    for i in from..text.len() {
        if text[i] == separator {
            return i;
        }
    }
    from.max(text.len())
}

// A field by its number, from 0. A field that is not there reads as an empty one.
pub fn field_at(line: &[u8], number: usize) -> &[u8]
    ensures { result.now ≡ field line.now number }
{
    let mut from = 0;
    // a range: a field that is not there is the empty end of the line, which `split` does not answer
    for _ in 0..number {
        let to = end_of(line, from, b' ');
        if to == line.len() {
            return &line[to..];
        }
        from = to + 1;
    }
    let to = end_of(line, from, b' ');
    &line[from..to]
}

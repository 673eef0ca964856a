// The items of a list one by one: counted, and written.
ghost use Rattle.std.specs.Prelude.{◌≡◌, length};
ghost use Rattle.reading.specs.Lists.{items_of, numbers_of, listed, front, filled};

use crate::{numbers, spans};

pub fn count_items(field: &[u8], room: usize) -> Option<usize>
    ensures { result ≡ listed (numbers_of room (items_of field.now)) }
{
    let mut from = 0;
    // a range, since `room` bounds how many items are looked at
    for n in 0..room {
        let to = spans::end_of(field, from, b',');
        numbers::read_number(&field[from..to])?;
        if to == field.len() {
            return Some(n + 1);
        }
        from = to + 1;
    }
    None
}

// Writes up to the first item that is no number.
pub fn write_items(field: &[u8], words: &mut [u64])
    ensures { words.new ≡ filled words.old (front (length words.old) (items_of field.now)) }
{
    let mut from = 0;
    // a range: the law of `filled` counts the words that are written
    for n in 0..words.len() {
        let to = spans::end_of(field, from, b',');
        let Some(v) = numbers::read_number(&field[from..to]) else {
            return;
        };
        words[n] = v;
        if to == field.len() {
            return;
        }
        from = to + 1;
    }
}

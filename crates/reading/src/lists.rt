// Lists of numbers, which commas separate. A list is measured before a word is written, so that an unreadable one writes nothing.
ghost use Rattle.std.specs.Prelude.{◌≡◌, length};
ghost use Rattle.reading.specs.Fields.{field};
ghost use Rattle.reading.specs.Lists.{list_of, listed, list_words, filled};

use crate::{fields, items, spans};

// How long the list is, where it has at most `room` numbers.
#[tactic(auto, unfolding(crate::specs::Lists::list_of))]
pub fn list_length(field: &[u8], room: usize) -> Option<usize>
    ensures { result ≡ listed (list_of room field.now) }
{
    if fields::letter(field) == b'-' {
        return Some(0);
    }
    items::count_items(field, room)
}

// The list into the front of the words, where it is readable and has room there.
pub fn read_list(field: &[u8], words: &mut [u64]) -> Option<usize>
    ensures count { result ≡ listed (list_of (length words.old) field.now) }
    ensures written { words.new
        ≡ filled words.old (list_words (list_of (length words.old) field.now)) }
{
    let n = list_length(field, words.len())?;
    if 0 < n {
        items::write_items(field, words);
    }
    Some(n)
}

// The list in a field of a line.
pub fn length_at(line: &[u8], number: usize, room: usize) -> Option<usize>
    ensures { result ≡ listed (list_of room (field line.now number)) }
{
    list_length(spans::field_at(line, number), room)
}

pub fn list_at(line: &[u8], number: usize, words: &mut [u64])
    ensures { words.new
        ≡ filled words.old (list_words (list_of (length words.old) (field line.now number))) }
{
    read_list(spans::field_at(line, number), words);
}

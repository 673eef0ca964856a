// The fields of a line, which one space separates, and optional fields.
ghost use Rattle.std.specs.Prelude.{◌≡◌, length};
ghost use Rattle.reading.specs.Numbers.{number_of, code_of};
ghost use Rattle.reading.specs.Fields.{fields_of, field, letter_of, option_of};

use crate::{numbers, spans};
use types::records::Optional;

pub fn count_fields(line: &[u8]) -> usize
    ensures { result ≡ length (fields_of line.now) }
{
    1 + line.iter().filter(|&&b| b == b' ').count()
}

// The byte that a field of one byte is; 0 for any other field.
pub fn letter(field: &[u8]) -> u8
    ensures { result ≡ letter_of field.now }
{
    if field.len() == 1 { field[0] } else { 0 }
}

// An optional field: `-` or a number.
#[tactic(auto, unfolding(crate::specs::Fields::option_of))]
pub fn read_option(field: &[u8]) -> Option<Optional>
    ensures { result ≡ option_of field.now }
{
    if letter(field) == b'-' {
        return Some(Optional { flag: 0, word: 0 });
    }
    let word = numbers::read_number(field)?;
    Some(Optional { flag: 1, word })
}

// The fields of a line by their numbers, from 0. A field that is not there reads as an empty one.
pub fn letter_at(line: &[u8], number: usize) -> u8
    ensures { result ≡ letter_of (field line.now number) }
{
    letter(spans::field_at(line, number))
}

pub fn number_at(line: &[u8], number: usize) -> Option<u64>
    ensures { result ≡ number_of (field line.now number) }
{
    numbers::read_number(spans::field_at(line, number))
}

pub fn code_at(line: &[u8], number: usize) -> Option<u32>
    ensures { result ≡ code_of (field line.now number) }
{
    numbers::read_code(spans::field_at(line, number))
}

pub fn option_at(line: &[u8], number: usize) -> Option<Optional>
    ensures { result ≡ option_of (field line.now number) }
{
    read_option(spans::field_at(line, number))
}

// Numbers and codes, spelled in decimal. A number has at most 64 bits, a signed code 32.
ghost use Rattle.std.specs.Prelude.{◌≡◌};
ghost use Rattle.reading.specs.Numbers.{grown, number_of, code_of, plain_code, minus_code};

// The number with one digit more.
#[tactic(auto, using(crate::proofs::Digits::no_digit, crate::proofs::Digits::product_out, crate::proofs::Digits::sum_in))]
fn with_digit(number: u64, b: u8) -> Option<u64>
    ensures { result ≡ grown number b }
{
    if !b.is_ascii_digit() {
        return None;
    }
    number.checked_mul(10)?.checked_add(u64::from(b - b'0'))
}

pub fn read_number(field: &[u8]) -> Option<u64>
    ensures { result ≡ number_of field.now }
{
    if field.is_empty() {
        return None;
    }
    let mut number = 0;
    for &b in field {
        number = with_digit(number, b)?;
    }
    Some(number)
}

// A code without its sign.
fn plain_code(field: &[u8]) -> Option<u32>
    ensures { result ≡ plain_code (number_of field.now) }
{
    let v = read_number(field)?;
    if v < 2147483648 { Some(v as u32) } else { None }
}

// What stands after the code's `-`.
fn minus_code(digits: &[u8]) -> Option<u32>
    ensures { result ≡ minus_code (number_of digits.now) }
{
    match read_number(digits)? {
        0 => Some(0),
        v if v <= 2147483648 => Some((4294967296 - v) as u32),
        _ => None,
    }
}

// A signed code, as its 32 bits.
pub fn read_code(field: &[u8]) -> Option<u32>
    ensures { result ≡ code_of field.now }
{
    if field.is_empty() {
        return None;
    }
    if field[0] == b'-' {
        return minus_code(&field[1..]);
    }
    plain_code(field)
}

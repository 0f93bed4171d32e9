// Numbers in decimals, and those that do not fit into 64 bits.
ghost use Rattle.std.specs.Prelude.{◌≡◌, true};
ghost use Rattle.std.specs.Char.{is_ascii_digit};
ghost use Rattle.std.specs.List.{list_all};
ghost use Rattle.std.specs.Str.Parse.{signed_digits_value};
ghost use Rattle.lang_limits.specs.Tokens.{fits, is_counting, is_int, is_oversized_int};

// Returns whether all bytes are digits.
fn are_digits(bytes: &[u8]) -> bool
    ensures { result ≡ list_all is_ascii_digit bytes.now }
{
    bytes.iter().all(|b| b.is_ascii_digit())
}

// Returns whether the bytes are digits, the first of which is not 0.
fn is_counting(bytes: &[u8]) -> bool
    ensures { result ≡ is_counting bytes.now }
{
    match bytes.split_first() {
        None => false,
        Some((first, rest)) => first.is_ascii_digit() && *first != b'0' && are_digits(rest),
    }
}

/// Returns whether the bytes are a number of the notation.
pub fn is_int(bytes: &[u8]) -> bool
    ensures { result ≡ is_int bytes.now }
{
    match bytes.split_first() {
        None => false,
        Some((b'-', rest)) => is_counting(rest),
        Some(_) => bytes == b"0".as_slice() || is_counting(bytes),
    }
}

// Returns whether a number fits into 64 bits with a sign.
fn fits(digits: &[u8]) -> bool
    requires { is_int digits.now ≡ true }
    ensures { result ≡ fits (signed_digits_value 10 digits.now) }
{
    match std::str::from_utf8(digits) {
        Ok(text) => text.parse::<i64>().is_ok(),
        Err(_) => unreachable!(),
    }
}

/// Returns whether the bytes are a number that does not fit into 64 bits.
pub fn is_oversized_int(bytes: &[u8]) -> bool
    ensures { result ≡ is_oversized_int bytes.now }
{
    is_int(bytes) && !fits(bytes)
}

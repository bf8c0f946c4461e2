//! Numbers that are written with decimal digits.
ghost use Rattle.std.specs.Prelude.{◌≡◌, ◌≤◌, true, length};
ghost use Rattle.std.specs.List.{list_all};
ghost use Rattle.std.specs.Char.{is_ascii_digit};
ghost use Rattle.std.specs.Str.Parse.{digits_value};

/// Whether all of the bytes are decimal digits.
pub fn are_digits(bytes: &[u8]) -> bool
    ensures { result ≡ list_all is_ascii_digit bytes.now }
{
    bytes.iter().all(|byte| byte.is_ascii_digit())
}

/// The number that up to 18 decimal digits write: 0 where there are none. Zeros may stand in front.
pub fn decimal_value(digits: &[u8]) -> u64
    requires short { length digits.now ≤ 18 }
    requires digits { list_all is_ascii_digit digits.now ≡ true }
    ensures { result ≡ digits_value 10 digits.now }
{
    let mut n: u64 = 0;
    for b in digits {
        n = n * 10 + u64::from(*b - b'0');
    }
    n
}

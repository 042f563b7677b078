// A field's bytes as a number.
ghost use Rattle.std.specs.Prelude.{◌≡◌, ◌+◌, ◌-◌, ◌*◌};
ghost use Rattle.std.specs.Char.{is_ascii_digit};
ghost use Rattle.std.specs.List.{list_all};
ghost use Rattle.text.specs.Digits.{nought, value};
ghost use Rattle.text.specs.Model.{is_number, capped};

fn are_digits(s: &[u8]) -> bool
    ensures { result ≡ list_all is_ascii_digit s.now }
{
    s.iter().all(u8::is_ascii_digit)
}

// Whether the bytes are decimal digits with no leading zero.
pub fn is_number(s: &[u8]) -> bool
    ensures { result ≡ is_number s.now }
{
    match s.first() {
        Some(b'0') => s.len() == 1,
        Some(_) => are_digits(s),
        None => false,
    }
}

// The value with one digit more, as far as 64 bits hold it: the largest number that they hold stands for every
// larger one, since no field may be so large.
fn and_digit(v: u64, b: u8) -> u64
    ensures { result ≡ capped (v * 10 + (b - nought)) }
{
    let digit = b.saturating_sub(b'0');
    v.saturating_mul(10).saturating_add(u64::from(digit))
}

// The value of digits, as far as 64 bits hold it.
pub fn value_of(s: &[u8]) -> u64
    ensures { result ≡ capped (value s.now) }
{
    s.iter().fold(0, |v, b| and_digit(v, *b))
}

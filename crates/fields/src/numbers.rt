// Numbers in base ten.
ghost use Rattle.std.specs.Prelude.{◌≡◌, true};
ghost use Rattle.fields.specs.Grammar.{is_number, value_of};

const DIGIT_LIMIT: usize = 10;

// Whether a field is a number: 1 to 10 digits.
pub fn is_number(f: &[u8]) -> bool
    ensures { result ≡ is_number f.now }
{
    (1..=DIGIT_LIMIT).contains(&f.len()) && f.iter().all(|b| b.is_ascii_digit())
}

// The value of a number.
pub fn value(f: &[u8]) -> u64
    requires { is_number f.now ≡ true }
    ensures { result ≡ value_of f.now }
{
    let mut v = 0;
    for digit in f {
        v = v * 10 + u64::from(digit - b'0');
    }
    v
}

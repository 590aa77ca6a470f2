// Names of states and words of methods.
ghost use Rattle.std.specs.Prelude.{◌≡◌};
ghost use Rattle.fields.specs.Grammar.{all_between};
ghost use Rattle.fields.specs.Grammar.{is_name, is_method_field, method_named};

use apportionment::Method;

const WORD_LIMIT: usize = 32;

const BLANK: u8 = 32;

// Whether a field is a name. Whether its bytes may stand in one was seen when the field was cut.
pub fn is_name(f: &[u8], plain: bool) -> bool
    requires { plain ≡ all_between 32 126 f.now }
    ensures { result ≡ is_name f.now }
{
    (1..=WORD_LIMIT).contains(&f.len())
        & (f.first() != Some(&BLANK))
        & (f.last() != Some(&BLANK))
        & plain
}

// Whether a field can be a method's word.
pub fn is_method_field(f: &[u8]) -> bool
    ensures { result ≡ is_method_field f.now }
{
    (1..=WORD_LIMIT).contains(&f.len()) && f.iter().all(|b| b.is_ascii_graphic())
}

// The method that a field names.
pub fn method_named(f: &[u8]) -> Option<Method>
    ensures { result ≡ method_named f.now }
{
    Method::ALL
        .iter()
        .copied()
        .find(|method| f == method.word())
}

// Fingerprints of names. A name is compared with those before it only where its fingerprint is one of theirs.
ghost use Rattle.std.specs.Prelude.{◌≡◌};
ghost use Rattle.lines.specs.inner.Fingerprints.{field_read, holds};

// What a fingerprint is multiplied by at each byte: the prime of the FNV hash of 32 bits. It only has to part most names; names of one
// fingerprint are compared byte by byte.
const FACTOR: u64 = 16_777_619;

const SPAN: u64 = 4_294_967_296;

const COMMA: u8 = 44;

// The first field of a line, looked at once: where it ends, whether each of its bytes may stand in a name, and its fingerprint.
#[derive(Clone, Copy)]
pub struct Field {
    pub end: usize,
    pub plain: bool,
    pub print: u32,
}

// Looks at the first field of a line.
pub fn read_field(line: &[u8]) -> Field
    ensures { result ≡ field_read line.now }
{
    let mut plain = true;
    let mut h: u64 = 0;
    for (end, b) in line.iter().enumerate() {
        if *b == COMMA {
            return Field {
                end,
                plain,
                print: h as u32,
            };
        }
        plain &= (32..=126).contains(b);
        h = (h * FACTOR + u64::from(*b)) % SPAN;
    }
    Field {
        end: line.len(),
        plain,
        print: h as u32,
    }
}

// Whether a fingerprint is among others. It looks at all of them, so that the compiler can take several at a time.
pub fn holds(prints: &[u32], print: u32) -> bool
    ensures { result ≡ holds print prints.now }
{
    let mut found = false;
    for other in prints {
        found |= *other == print;
    }
    found
}

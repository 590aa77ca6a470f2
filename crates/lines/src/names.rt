// The names of the lines read so far, with which the name of a later line is compared.
ghost use Rattle.std.specs.Prelude.{◌≡◌, length};
ghost use Rattle.lines.specs.Lines.{used_in};
ghost use Rattle.lines.specs.inner.Fingerprints.{fingerprint_of};
ghost use Rattle.lines.specs.inner.Places.{part_of, Within, NamesKept};

use crate::NamePlace;
use crate::fingerprints::holds;

impl NamePlace {
    // The bytes that stand there.
    pub fn part(self, bytes: &[u8]) -> &[u8]
        requires { Within bytes.now self }
        ensures { result.now ≡ part_of bytes.now self.start self.end }
    {
        &bytes[self.start as usize..self.end as usize]
    }
}

// The names on lines that follow one another: the bytes from the first of them on, and for each name its fingerprint and where it stands
// among those bytes. The fingerprints are a list by themselves, so that `holds` can take several at a time.
#[derive(Clone, Copy)]
pub struct Names<'a> {
    pub first: &'a [u8],
    pub prints: &'a [u32],
    pub places: &'a [NamePlace],
    ghost kept: { NamesKept first.now prints.now places.now },
}

impl Names<'_> {
    // Whether a name with the given fingerprint is one of them. Most names are not, which their fingerprints show; bytes are compared only
    // where the fingerprints are equal.
    pub fn hold(self, name: &[u8], print: u32) -> bool
        requires { print ≡ fingerprint_of name.now }
        ensures { result ≡ used_in (length self.entry.prints.now) self.entry.first.now name.now }
    {
        if !holds(self.prints, print) {
            return false;
        }
        for (i, place) in self.places.iter().enumerate() {
            if self.prints[i] == print && place.part(self.first) == name {
                return true;
            }
        }
        false
    }
}

// Writing bytes and numbers on a page: a lent buffer, and the place up to which it is filled. Each method writes from the place on and
// moves it past what it wrote; once something did not fit, the place is one past the buffer's length, and every later call leaves it
// there and the buffer as it is. So a caller writes all that it has and asks once, at the end, whether it fitted. No method reads the
// place as an index before it is known to be one.
#![tactic(auto)]

ghost use Rattle.std.specs.Prelude.{◌≡◌, ◌∷◌, [], ◌+◌, ◌<◌, ◌≤◌, length};
ghost use Rattle.apportionment.specs.Text.{decimal, digit};

// Copies bytes over as many others. It is a loop and not the library's `copy_from_slice`: here the compiler cannot tell that the two lie
// apart, and would ask `memmove` of whoever links the archive for C.
fn lay(part: &[u8], over: &mut [u8])
    requires { length over.old ≡ length part.now }
    ensures { over.new ≡ part.now }
{
    for (i, byte) in part.iter().enumerate() {
        over[i] = *byte;
    }
}

// A lent buffer that is filled from a place on.
#[derive(Drop)]
pub struct Page<'a> {
    buffer: &'a mut [u8],
    place: usize,
    ghost within: { place ≤ length buffer.now + 1 },
}

impl<'a> Page<'a> {
    ghost use Rattle.writing.specs.inner.Page.{Appended, Begun};

    // A page on which nothing is written yet.
    pub fn new(buffer: &'a mut [u8]) -> Page<'a>
        ensures same { result.buffer.ghost_name ≡ buffer.entry.ghost_name }
        ensures begun { Begun buffer.old result }
    {
        Page { buffer, place: 0 }
    }

    // The place after what was written: the length of the whole text, unless something did not fit.
    pub fn place(&self) -> usize
        ensures { result ≡ self.now.place }
    {
        self.place
    }

    // One byte.
    pub fn put_byte(&mut self, byte: u8)
        ensures { Appended self.old (byte ∷ []) self.new }
    {
        if self.place < self.buffer.len() {
            self.buffer[self.place] = byte;
            self.place += 1;
        } else {
            self.place = self.buffer.len() + 1;
        }
    }

    // The bytes of a lent part; of one that does not fit, those for which there is room.
    pub fn put_bytes(&mut self, part: &[u8])
        ensures { Appended self.old part.now self.new }
    {
        if self.place > self.buffer.len() {
            return;
        }
        let room = self.buffer.len() - self.place;
        if part.len() <= room {
            let next = self.place + part.len();
            lay(part, &mut self.buffer[self.place..next]);
            self.place = next;
        } else {
            lay(&part[..room], &mut self.buffer[self.place..]);
            self.place += room + 1;
        }
    }

    // One digit.
    pub fn put_digit(&mut self, d: u64)
        requires { d < 10 }
        ensures { Appended self.old (digit d) self.new }
    {
        self.put_byte(b'0' + d as u8);
    }

    // A number in base ten, without leading zeros.
    pub fn put_decimal(&mut self, n: u64)
        ensures { Appended self.old (decimal n) self.new }
    {
        if n >= 10 {
            self.put_decimal(n / 10);
        }
        self.put_digit(n % 10);
    }
}

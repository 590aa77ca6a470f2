// Clean copies: each register that is read has one clean form, with LF and without leading zeros, which is written here.
#![tactic(auto)]

ghost use Rattle.std.specs.Prelude.{[], ◌≤◌, length};
ghost use Rattle.apportionment.specs.Refusals.{accepted};
ghost use Rattle.register.specs.Register.{reading_outcome, name_in_row};
ghost use Rattle.register.specs.inner.Rows.{Placed};
ghost use Rattle.writing.specs.inner.Page.{Appended};
ghost use Rattle.writing.specs.inner.Writing.{Wrote};
ghost use Rattle.handover.specs.Handover.{written_in, WritingIs};
ghost use Rattle.cleaning.specs.Clean.{pair_line, state_lines};
ghost use Rattle.cleaning.specs.Clean.{no_tail, clean_in, CleanIs, clean_printed};
ghost use Rattle.cleaning.specs.inner.Room.{room_for, clean_room, Cleanable};

use apportionment::STATE_LIMIT;
use apportionment::refusals::Refused;
use register::rows::name_placed;
use register::{NamePlace, Reading, rows};
use writing::Page;

// The room of the longest head, line of a state and closing line; specs/inner/Room.antt says what each is made of.
const HEAD_ROOM: usize = 30;

const LINE_ROOM: usize = 44;

const TOTAL_ROOM: usize = 17;

// Room for every clean form, as specs/inner/Room.antt shows; it is written on a page first, so that a buffer that is too short stays as it
// is.
pub const CLEAN_ROOM: usize = HEAD_ROOM + STATE_LIMIT * LINE_ROOM + TOTAL_ROOM;

// So few states are written on a small page: for a single one, clearing the large page takes longer than all else.
const FEW_STATES: usize = 150;

const FEW_ROOM: usize = HEAD_ROOM + FEW_STATES * LINE_ROOM + TOTAL_ROOM;

// A line of a word and a number: a state's name and population, or `total` and the sum.
fn put_pair(page: &mut Page, word: &[u8], number: u64)
    ensures { Appended page.old (pair_line word.now number []) page.new }
{
    page.put_bytes(word);
    page.put_byte(b',');
    page.put_decimal(number);
    page.put_byte(b'\n');
}

// The states' lines. Their names stand in the rows of the register, each at its place.
fn put_states(page: &mut Page, rows: &[u8], places: &[NamePlace], populations: &[u64])
    requires { Placed (length populations.now) rows.now places.now }
    ensures { Appended page.old (state_lines (name_in_row rows.now) no_tail 0 populations.now) page.new }
{
    for (k, population) in populations.iter().enumerate() {
        put_pair(page, name_placed(rows, places, k), *population);
    }
}

// The whole clean form of what was read, from the front of the buffer on; the place after it.
fn put_clean(out: &mut [u8], reading: &Reading, rows: &[u8], places: &[NamePlace]) -> usize
    requires cleanable { Cleanable (reading_outcome (Ok reading.now)) (name_in_row rows.now) }
    requires placed { Placed reading.now.states rows.now places.now }
    ensures { Wrote out.old 0 (clean_in (reading_outcome (Ok reading.now)) (name_in_row rows.now)) out.new result }
{
    let n = reading.states;
    let method = reading.method;
    let mut page = Page::new(out);
    text::put_head(&mut page, b"register", method, reading.house, n as u64);
    put_states(&mut page, rows, places, &reading.populations[..n]);
    put_pair(&mut page, b"total", reading.total);
    page.place()
}

// Writes the clean form of what was read on a page of ROOM bytes, which has room for it, and hands it over to the buffer, if it fits. It
// stays a function of its own, so that only the page that is written on lies on the stack.
#[inline(never)]
fn copy_by<const ROOM: usize>(
    reading: &Reading,
    rows: &[u8],
    places: &[NamePlace],
    out: &mut [u8],
) -> Result<usize, Refused>
    requires cleanable { Cleanable (reading_outcome (Ok reading.now)) (name_in_row rows.now)
        × (room_for reading.now.states ≤ ROOM) × (ROOM ≤ clean_room) }
    requires placed { Placed reading.now.states rows.now places.now }
    ensures { WritingIs accepted 0 (clean_in (reading_outcome (Ok reading.now)) (name_in_row rows.now))
        out.old (written_in result) out.new }
{
    let mut page = [0u8; ROOM];
    let size = put_clean(&mut page[..], reading, rows, places);
    Ok(handover::hand_over(&page[..size], out)?)
}

// Writes the clean form of a register into the buffer and answers its length: reading's refusals, then 31 exactly if the clean form is
// longer than the buffer. Refused, the buffer keeps every byte; otherwise it keeps those after the clean form.
pub fn write_clean(register: &[u8], out: &mut [u8]) -> Result<usize, Refused>
    ensures { CleanIs register.now out.old (written_in result) out.new }
{
    let mut places = [NamePlace { start: 0, end: 0 }; STATE_LIMIT];
    // The reading is looked at where it lies: by `?` it would be copied.
    let read = register::read_places(register, &mut places[..]);
    let reading = match &read {
        Ok(reading) => reading,
        Err(refused) => return Err(*refused),
    };
    let rows = rows::of(register);
    if reading.states <= FEW_STATES {
        return copy_by::<FEW_ROOM>(reading, rows, &places[..], out);
    }
    copy_by::<CLEAN_ROOM>(reading, rows, &places[..], out)
}

// What the clean program prints: the clean form, or a refusal's one line. The page has room for either, and keeps its bytes after it.
pub fn print(register: &[u8], page: &mut [u8; CLEAN_ROOM]) -> usize
    ensures wrote { Wrote page.old 0 (clean_printed register.now) page.new result }
    ensures fits { length (clean_printed register.now) ≤ length page.old }
{
    match write_clean(register, &mut page[..]) {
        Ok(size) => size,
        Err(refused) => {
            let mut told = Page::new(&mut page[..]);
            text::put_refusal(&mut told, refused.refusal.number(), refused.line);
            told.place()
        }
    }
}

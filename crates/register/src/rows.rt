// The rows of a register's states, one line for each, and the names on them: for crates that walk the rows of a register that was read, or
// that look names up by the places where reading found them.
ghost use Rattle.std.specs.Prelude.{◌≡◌};
ghost use Rattle.register.specs.Register.{rows_of, lines_after, name_in_row};
ghost use Rattle.register.specs.inner.Rows.{PlacedAt};

use fields::cut;
use lines::{NamePlace, pairs};

// The rows of a register: what is left after its head.
pub fn of(bytes: &[u8]) -> &[u8]
    ensures { result.now ≡ rows_of bytes.now }
{
    cut::rest(bytes)
}

// What is left after the first row.
pub fn rest(rows: &[u8]) -> &[u8]
    ensures { result.now ≡ lines_after 1 rows.now }
{
    cut::rest(rows)
}

// What is left after `k` rows.
pub fn after(rows: &[u8], k: usize) -> &[u8]
    ensures { result.now ≡ lines_after k rows.now }
{
    let mut t = rows;
    for _ in 0..k {
        t = cut::rest(t);
    }
    t
}

// The name on the first row.
pub fn first_name(rows: &[u8]) -> &[u8]
    ensures { result.now ≡ name_in_row rows.now 0 }
{
    pairs::name_at(rows)
}

// The name on the row with a place, counted from 0. It passes the rows before it one by one.
pub fn name_on(rows: &[u8], place: usize) -> &[u8]
    ensures { result.now ≡ name_in_row rows.now place }
{
    pairs::name_at(after(rows, place))
}

// The same by the places that `register::read_places` filled in: no row is cut again.
pub fn name_placed<'a>(rows: &'a [u8], places: &[NamePlace], place: usize) -> &'a [u8]
    requires { PlacedAt place rows.now places.now }
    ensures { result.now ≡ name_in_row rows.now place }
{
    places[place].part(rows)
}

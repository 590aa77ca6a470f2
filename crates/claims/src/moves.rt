// What a move makes of a state's seats, whichever method makes it.
ghost use Rattle.std.specs.Prelude.{◌≡◌, ◌+◌, ◌^◌, ◌<◌};
ghost use Rattle.claims.specs.inner.Moves.{moved_by};

// A state's seats after a move: one more where `up` is true, and otherwise one less, or none of none.
pub fn moved(up: bool, seats: u64) -> u64
    requires { seats + 1 < 2 ^ 64 }
    ensures { result ≡ moved_by up seats }
{
    if up {
        seats + 1
    } else {
        seats.saturating_sub(1)
    }
}

// The lines after the head: a line for each state, the closing line, and nothing after it.
ghost use Rattle.std.specs.Prelude.{◌≡◌, ◌≤◌, length, OnOk};
ghost use Rattle.apportionment.specs.Limits.{state_limit, register_limit};
ghost use Rattle.lines.specs.Lines.{head_accepted};
ghost use Rattle.register.specs.Register.{closing_of, states_of, reading_outcome};
ghost use Rattle.register.specs.inner.Rows.{PlacesRoom, Placed};

use crate::{NamePlace, Reading};
use apportionment::STATE_LIMIT;
use apportionment::refusals::{Refusal, Refused};
use fields::cut;
use lines::head::Head;
use lines::names::Names;
use lines::pairs;

// The closing line, after which nothing may follow.
fn close(
    head: Head,
    total: u64,
    populations: [u64; STATE_LIMIT],
    s: &[u8],
) -> Result<Reading, Refused>
    requires { head.states ≤ state_limit }
    ensures { reading_outcome result ≡ closing_of (head_accepted head) total populations s.now }
{
    let line = head.states as u64 + 2;
    pairs::check_closing(total, s).map_err(|refusal| Refused { refusal, line })?;
    let extra = cut::rest(s);
    if 0 < extra.len() {
        return Err(Refused {
            refusal: Refusal::LineIllFormed,
            line: line + 1,
        });
    }
    Ok(Reading {
        method: head.method,
        house: head.house,
        states: head.states,
        total,
        populations,
    })
}

// The lines of the states, which start at `first`, and what follows them. Each name is kept for the lines after it: its fingerprint, and
// where it starts and ends.
pub fn read_states(head: Head, first: &[u8], places: &mut [NamePlace]) -> Result<Reading, Refused>
    requires { (head.states ≤ state_limit) × (length first.now ≤ register_limit) × PlacesRoom places.old }
    ensures reading { reading_outcome result ≡ states_of (head_accepted head) first.now }
    ensures placed { OnOk result (Placed head.states first.now places.new) }
{
    let mut populations = [0u64; STATE_LIMIT];
    let mut prints = [0u32; STATE_LIMIT];
    let mut sum: u64 = 0;
    let mut t = first;
    for k in 0..head.states {
        let names = Names {
            first,
            prints: &prints[..k],
            places: &places[..k],
        };
        let at = k as u64 + 2;
        let line = pairs::read_state(names, sum, t).map_err(|refusal| Refused {
            refusal,
            line: at,
        })?;
        populations[k] = line.population;
        prints[k] = line.print;
        let start = first.len() - t.len();
        places[k] = NamePlace {
            start: start as u32,
            end: (start + line.width) as u32,
        };
        sum += line.population;
        t = cut::rest_from(t, line.end);
    }
    close(head, sum, populations, t)
}

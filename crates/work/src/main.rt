// The work program: shows leximin's work for a register, whatever method the register names: each state's own nearest seats, then before
// each step every state as it is and as it would be, the step, and at last the house. docs/PROGRAMS.md has the format. The register comes
// on standard input, or from each file that the arguments name, in turn; a refused one prints `refused`, a number and a line alone. All
// that is shown is written by crate `showing`; this file only moves bytes and placings.
#![tactic(auto)]

ghost use Rattle.std.specs.Prelude.{◌≡◌, IfOk};
ghost use Rattle.showing.specs.inner.Showable.{Showable, ShowableStep};
ghost use Rattle.work.specs.inner.Way.{Begun, on_the_way, way_of};

use apportionment::STATE_LIMIT;
use apportionment::refusals::ACCEPTED;
use placing::Placing;
use register::rows;
use showing::PAGE_ROOM;
use std::rt::{Env, Files};
use streams::{Told, print_page};
use writing::Page;

// Room for the line of a refusal.
const REFUSAL_ROOM: usize = 64;

fn print_refusal(rt: &(impl Print + Eprint), number: u64, line: u64) -> Result<(), Told> {
    print_page(rt, &mut [0u8; REFUSAL_ROOM], |bytes| {
        let mut page = Page::new(bytes);
        text::put_refusal(&mut page, number, line);
        page.place()
    })
}

// Moves by one seat until none is moved, as at the house, and prints each step. From the start the house is fewer steps away than there are
// states, so that the turns never run out.
fn print_steps(
    rt: &(impl Print + Eprint),
    rows: &[u8],
    start: Placing,
    sum: u64,
) -> Result<Placing, Told>
    requires { Begun rows.now start sum }
    ensures { IfOk result (λ placing. placing ≡ on_the_way start (way_of start)) }
{
    let mut placing = start;
    for _ in 0..STATE_LIMIT {
        let on = placing.moved_on(1);
        let answer = on.answer;
        if answer.moved == 0 {
            return Ok(placing);
        }
        let next = on.placing;
        print_page(
            rt,
            &mut [0u8; PAGE_ROOM],
            |page| showing::put_move(page, rows, placing, next, sum),
        )?;
        placing = next;
    }
    Ok(placing)
}

// Shows the work from the start on. After a block that was not taken, nothing more is printed.
fn show_way(rt: &(impl Print + Eprint), rows: &[u8], start: Placing, sum: u64) -> Result<(), Told>
    requires { Begun rows.now start sum }
{
    print_page(
        rt,
        &mut [0u8; PAGE_ROOM],
        |page| showing::put_start(page, rows, start, sum),
    )?;
    let end = print_steps(rt, rows, start, sum)?;
    print_page(
        rt,
        &mut [0u8; PAGE_ROOM],
        |page| showing::put_end(page, rows, end, sum),
    )
}

// Shows the work of a register.
fn show(rt: &(impl Print + Eprint), register: &[u8]) -> Result<(), Told> {
    let reading = match register::read(register) {
        Ok(reading) => reading,
        Err(refused) => return print_refusal(rt, refused.refusal.number(), refused.line),
    };
    let n = reading.states;
    let populations = reading.populations;
    let opened = Placing::open(&populations[..n], reading.house);
    if opened.refusal != ACCEPTED {
        return print_refusal(rt, opened.refusal, 0);
    }
    show_way(rt, rows::of(register), opened.placing, reading.total)
}

fn show_standard_input(rt: &(impl Input + Print + Eprint)) -> Result<(), Told> {
    let mut register = [0u8; streams::REGISTER_ROOM];
    let size = streams::read_standard_input(rt, &mut register)?;
    show(rt, &register[..size])
}

// Shows the work of the register in the file that an argument names. A file that could not be read was told, and printing goes on with the
// next one.
fn show_file(rt: &(impl Env + Files + Print + Eprint), argument: usize) -> Result<(), Told> {
    let mut register = [0u8; streams::REGISTER_ROOM];
    match streams::read_argument(rt, argument, &mut register) {
        Ok(size) => show(rt, &register[..size]),
        Err(Told) => Ok(()),
    }
}

fn run(rt: &(impl Env + Files + Input + Print + Eprint)) -> Result<(), Told> {
    let count = streams::argument_count(rt);
    if count < 2 {
        return show_standard_input(rt);
    }
    for argument in 1..count {
        show_file(rt, argument)?;
    }
    Ok(())
}

fn main(rt: HostRuntime) {
    // What failed was told, and the program ends as ever.
    let _ = run(&rt);
}

// The operations of the desk, run on the arguments of a case, and their answers told.
ghost use Rattle.std.specs.Counts.{IsPrefixLen};

use crate::answers::Telling;
use crate::numbers::{number, read_list};
use crate::output::say;
use crate::parts::{after_bars, field};
use allot::allot;
use apportionment::refusals::{ACCEPTED, Refused};
use apportionment::{Method, STATE_LIMIT};
use departure::departure_of;
use fields::words::method_named;
use placing::Placing;

// Room for a list of more states than there may be, and for the longest buffer that is lent.
const LIST_ROOM: usize = STATE_LIMIT + 1;

const BUFFER_ROOM: usize = 300;

// What a lent buffer holds before the call.
const BEFORE: u8 = b'.';

// Runs the operation that a word names, by its first letter, and tells the answer.
pub fn answer(rt: &impl Print, operation: &[u8], arguments: &[u8], telling: &mut Telling<'_>) {
    match operation.first() {
        Some(b'a') => allots(rt, arguments, telling),
        Some(b'o') => opens(rt, arguments, telling),
        Some(b'm') => moves(rt, arguments, telling),
        Some(b'd') => departs(rt, arguments, telling),
        Some(b'r') => reads(rt, arguments, telling),
        Some(b'l') => lists(rt, arguments, telling),
        Some(b'n') => names(rt, arguments, telling),
        _ => telling.tell(rt, b"no operation"),
    }
}

// Arguments: method, house, populations and the lent list as it was. Answer: refusal, steps and the list as it is then.
fn allots(rt: &impl Print, arguments: &[u8], telling: &mut Telling<'_>) {
    let method = method_of(rt, field(arguments, 0));
    let house = number(rt, field(arguments, 1));
    let mut populations = [0u64; LIST_ROOM];
    let n = read_list(rt, field(arguments, 2), &mut populations);
    let mut seats = [0u64; LIST_ROOM];
    let places = read_list(rt, after_bars(arguments, 3), &mut seats);
    match allot(method, house, &populations[..n], &mut seats[..places]) {
        Ok(steps) => {
            telling.tell_number(rt, ACCEPTED);
            telling.tell_field(rt, steps);
        }
        Err(refusal) => {
            telling.tell_number(rt, refusal.number());
            telling.tell_field(rt, 0);
        }
    }
    telling.tell_list(rt, &seats[..places]);
}

fn method_of(rt: &impl Print, word: &[u8]) -> Method {
    match method_named(word) {
        Some(method) => method,
        None => {
            say(rt, b": THIS IS NO METHOD");
            Method::Leximin
        }
    }
}

// Arguments: populations and house. Answer: refusal and placing.
fn opens(rt: &impl Print, arguments: &[u8], telling: &mut Telling<'_>) {
    let mut populations = [0u64; LIST_ROOM];
    let n = read_list(rt, field(arguments, 0), &mut populations);
    let house = number(rt, after_bars(arguments, 1));
    let opened = Placing::open(&populations[..n], house);
    telling.tell_number(rt, opened.refusal);
    tell_placing(rt, telling, opened.placing);
}

// Arguments: a number of seats and a placing. Answer: refusal, seats moved, and the placing as it is then.
fn moves(rt: &impl Print, arguments: &[u8], telling: &mut Telling<'_>) {
    let mut populations = [0u64; STATE_LIMIT];
    read_list(rt, field(arguments, 2), &mut populations);
    let mut seats = [0u64; STATE_LIMIT];
    read_list(rt, field(arguments, 4), &mut seats);
    let placing = Placing {
        states: number(rt, field(arguments, 1)) as usize,
        house: number(rt, field(arguments, 3)),
        total: number(rt, field(arguments, 5)),
        steps: number(rt, after_bars(arguments, 6)),
        populations,
        seats,
    };
    let on = placing.moved_on(number(rt, field(arguments, 0)));
    let answer = on.answer;
    telling.tell_number(rt, answer.refusal);
    telling.tell_field(rt, answer.moved);
    tell_placing(rt, telling, on.placing);
}

// A placing is told as its states, populations, house, seats, total and steps, the lists without the zeros at their ends.
fn tell_placing(rt: &impl Print, telling: &mut Telling<'_>, placing: Placing) {
    let populations = placing.populations;
    let seats = placing.seats;
    telling.tell_field(rt, placing.states as u64);
    telling.tell_used(rt, &populations);
    telling.tell_field(rt, placing.house);
    telling.tell_used(rt, &seats);
    telling.tell_field(rt, placing.total);
    telling.tell_field(rt, placing.steps);
}

// Arguments: population, seats, total and house.
fn departs(rt: &impl Print, arguments: &[u8], telling: &mut Telling<'_>) {
    let population = number(rt, field(arguments, 0));
    let seats = number(rt, field(arguments, 1));
    let total = number(rt, field(arguments, 2));
    let house = number(rt, after_bars(arguments, 3));
    match departure_of(population, seats, total, house) {
        Ok(Some(exact)) => telling.tell_shown(rt, exact),
        Ok(None) => telling.tell(rt, b"none,none"),
        Err(_) => telling.tell(rt, b"refused,30"),
    }
}

// Argument: register. Answer: refusal, line, method, house, states, total and populations; what a refusal leaves open is leximin and 0.
fn reads(rt: &impl Print, arguments: &[u8], telling: &mut Telling<'_>) {
    match register::read(arguments) {
        Ok(reading) => {
            let populations = reading.populations;
            tell_accepted(rt, telling);
            telling.tell(rt, b"|");
            telling.tell(rt, reading.method.word());
            telling.tell_field(rt, reading.house);
            telling.tell_field(rt, reading.states as u64);
            telling.tell_field(rt, reading.total);
            telling.tell_used(rt, &populations);
        }
        Err(refused) => {
            tell_refused(rt, telling, refused);
            telling.tell(rt, b"|");
            telling.tell(rt, b"leximin");
            telling.tell_field(rt, 0);
            telling.tell_field(rt, 0);
            telling.tell_field(rt, 0);
            telling.tell_list(rt, &[]);
        }
    }
}

// No refusal and no line.
fn tell_accepted(rt: &impl Print, telling: &mut Telling<'_>) {
    telling.tell_number(rt, ACCEPTED);
    telling.tell_field(rt, 0);
}

fn tell_refused(rt: &impl Print, telling: &mut Telling<'_>, refused: Refused) {
    telling.tell_number(rt, refused.refusal.number());
    telling.tell_field(rt, refused.line);
}

// Arguments: length of the lent buffer, register. Answer: refusal, line, length of the listing, and the buffer.
fn lists(rt: &impl Print, arguments: &[u8], telling: &mut Telling<'_>) {
    let mut buffer = [BEFORE; BUFFER_ROOM];
    let length = within(rt, number(rt, field(arguments, 0)) as usize, &buffer);
    match listing::write_listing(after_bars(arguments, 1), &mut buffer[..length]) {
        Ok(size) => {
            tell_accepted(rt, telling);
            telling.tell_field(rt, size as u64);
        }
        Err(refused) => {
            tell_refused(rt, telling, refused);
            telling.tell_field(rt, 0);
        }
    }
    telling.tell(rt, b"|");
    telling.tell(rt, &buffer[..length]);
}

// A length, if the buffer is as long.
fn within(rt: &impl Print, length: usize, buffer: &[u8]) -> usize
    ensures { IsPrefixLen result buffer.now }
{
    if length <= buffer.len() {
        return length;
    }
    say(rt, b": THE BUFFER IS TOO LONG");
    buffer.len()
}

// Arguments: place, register. Answer: refusal, line and name.
fn names(rt: &impl Print, arguments: &[u8], telling: &mut Telling<'_>) {
    let place = number(rt, field(arguments, 0)) as usize;
    let bytes = after_bars(arguments, 1);
    match register::check_place(bytes, place) {
        Ok(()) => tell_accepted(rt, telling),
        Err(refused) => tell_refused(rt, telling, refused),
    }
    telling.tell(rt, b"|");
    telling.tell(rt, register::name(bytes, place));
}

// Registers in and text out, for the programs that people run. What the system cannot hand over or take is told on standard error.
#![tactic(auto)]

ghost use Rattle.std.specs.Counts.{IsPrefixLen};
ghost use Rattle.std.specs.Fn.{FnOnceReturnsAtMut};
ghost use Rattle.std.specs.Io.KnownBytes.{Consumes, IsAtEnd};
ghost use Rattle.streams.specs.inner.Pages.{WritesWithin};
ghost use Rattle.std.specs.Prelude.{◌≡◌, ◌<◌, ◌≤◌, ℕ, length, take, IfOk, IsErr, MatchResult, OnErr};

use apportionment::REGISTER_LIMIT;
use std::convert::AsSlice;
use std::env::FillError;
use std::io::{Read, Write};
use std::rt::{Env, Files};
use std::str::Utf8Error;
use std::{fmt, fs, io};

// Room for a register and one byte more, so that a longer input is told from one that just fits.
pub const REGISTER_ROOM: usize = REGISTER_LIMIT + 1;

// Room for the path that an argument names: the system takes none that is as long.
const PATH_ROOM: usize = 4096;

// Room for what is told of an error.
const REASON_ROOM: usize = 128;

// The error of a step that failed and was told on standard error, so that whoever meets it has nothing left to say.
#[derive(Clone, Copy, Debug, PartialEq, Eq)]
pub struct Told;

// Why a step failed.
#[derive(Clone, Copy)]
enum Failure {
    System(io::Error),
    NotText,
    PathTooLong,
    NoSuchArgument,
}

impl From<io::Error> for Failure {
    fn from(error: io::Error) -> Failure {
        Failure::System(error)
    }
}

impl From<Utf8Error> for Failure {
    fn from(_error: Utf8Error) -> Failure {
        Failure::NotText
    }
}

impl From<FillError> for Failure {
    fn from(error: FillError) -> Failure {
        match error {
            FillError::TooLong => Failure::PathTooLong,
            FillError::NotPresent => Failure::NoSuchArgument,
        }
    }
}

// The system's own words for each: those that `io::Error` prints stand before the number that it adds to them.
impl fmt::Display for Failure {
    fn fmt<W: fmt::Write>(&self, f: &mut fmt::Formatter<W>) -> fmt::Result {
        match self {
            Failure::System(error) => {
                let mut page = [0u8; REASON_ROOM];
                let mut free = &mut page[..];
                let _ = write!(free, "{error}");
                let words = str::from_utf8(&page).unwrap_or("");
                f.write_str(before(before(words, "\0"), " (os error "))
            }
            Failure::NotText => f.write_str("Invalid or incomplete multibyte or wide character"),
            Failure::PathTooLong => f.write_str("File name too long"),
            Failure::NoSuchArgument => f.write_str("Invalid argument"),
        }
    }
}

// What stands before a mark, or all of the text where it has none.
fn before<'a>(text: &'a str, mark: &str) -> &'a str {
    text.split_once(mark).map_or(text, |(front, _)| front)
}

// Tells on standard error what failed, if it did: what it was about, a colon and why.
fn or_tell<T>(rt: &impl Eprint, source: &str, outcome: Result<T, Failure>) -> Result<T, Told>
    ensures { MatchResult outcome (λ value. result ≡ Ok value) (λ _. IsErr result) }
{
    match outcome {
        Ok(value) => Ok(value),
        Err(reason) => {
            let _ = eprintln!(rt; "{source}: {reason}");
            Err(Told)
        }
    }
}

// Reads what a reader gives, in however many pieces it comes, until the buffer is full or the input ends, and hands back how much that
// was. The system's own answer tells a read that failed from the end of the input, and what was read before it failed is not taken for
// the whole. Where it is known what a reader has left, that is what was read, and the whole of it unless the buffer is full.
fn read_from<R: Read>(reader: &mut R, bytes: &mut [u8]) -> Result<usize, Failure>
    ensures within { IfOk result (λ size. IsPrefixLen size bytes.new) }
    ensures taken { IfOk result (λ size. Consumes (R.remaining reader.old) (R.remaining reader.new) (take size bytes.new)) }
    ensures whole { IfOk result (λ size. size < length bytes.new → IsAtEnd (R.remaining reader.new)) }
    ensures failed { OnErr result ((size : ℕ) × (size ≤ length bytes.new)
        × Consumes (R.remaining reader.old) (R.remaining reader.new) (take size bytes.new)) }
{
    let mut length = 0;
    while length < bytes.len() {
        match reader.read(&mut bytes[length..])? {
            0 => return Ok(length),
            more => length += more,
        }
    }
    Ok(length)
}

// Reads standard input.
pub fn read_standard_input(rt: &(impl io::Input + Eprint), bytes: &mut [u8]) -> Result<usize, Told>
    ensures { IfOk result (λ size. IsPrefixLen size bytes.new) }
{
    or_tell(rt, "standard input", read_from(&mut rt.reader(), bytes))
}

// Reads the file at a path.
fn read_file(rt: &impl Files, path: &str, bytes: &mut [u8]) -> Result<usize, Failure>
    ensures { IfOk result (λ size. IsPrefixLen size bytes.new) }
{
    read_from(&mut fs::open(rt, path)?, bytes)
}

// The path that an argument of the program names. It has to be text, since a path is.
fn path_in<'a>(rt: &impl Env, argument: usize, room: &'a mut [u8]) -> Result<&'a str, Failure> {
    let size = rt.arg(argument, room)?;
    Ok(str::from_utf8(&room[..size])?)
}

// Reads the file that an argument of the program names.
pub fn read_argument(
    rt: &(impl Env + Files + Eprint),
    argument: usize,
    bytes: &mut [u8],
) -> Result<usize, Told>
    ensures { IfOk result (λ size. IsPrefixLen size bytes.new) }
{
    let mut room = [0u8; PATH_ROOM];
    let path = or_tell(rt, "the argument", path_in(rt, argument, &mut room))?;
    or_tell(rt, path, read_file(rt, path, bytes))
}

// How many arguments the program was started with, its own name among them.
pub fn argument_count(rt: &impl Env) -> usize {
    (0..usize::MAX)
        .take_while(|&argument| has_argument(rt, argument))
        .count()
}

// An argument that has no room here is there all the same.
fn has_argument(rt: &impl Env, argument: usize) -> bool {
    !matches!(rt.arg(argument, &mut []), Err(FillError::NotPresent))
}

// Reads the one register that a program takes: from the file that its argument names, or from standard input where there is none. Given
// more arguments it reads nothing and tells the usage.
pub fn read_register(
    rt: &(impl Env + Files + io::Input + Eprint),
    usage: &[u8],
    bytes: &mut [u8],
) -> Result<usize, Told>
    ensures { IfOk result (λ size. IsPrefixLen size bytes.new) }
{
    match argument_count(rt) {
        0 | 1 => read_standard_input(rt, bytes),
        2 => read_argument(rt, 1, bytes),
        _ => {
            // What is told is text; every usage is.
            let _ = rt.eprint(str::from_utf8(usage).unwrap_or(""));
            Err(Told)
        }
    }
}

// Writes text to standard output. A caller that has more to write stops where it was not taken, so that the error is told once.
pub fn print(rt: &(impl Print + Eprint), text: &[u8]) -> Result<(), Told> {
    or_tell(
        rt,
        "standard output",
        rt.write_all(text).map_err(Failure::from),
    )
}

// Prints what is written to the front of a blank page.
pub fn print_page<P: AsSlice<u8>, F: FnOnce(&mut P) -> usize>(
    rt: &(impl Print + Eprint),
    page: &mut P,
    write: F,
) -> Result<(), Told>
    requires callable { F.IsAlwaysCallable write }
    requires fits { (size : ℕ) (written : P) → FnOnceReturnsAtMut F.FnOnce write page.old size written
        → size ≤ length (P.items written) }
{
    let size = write(page);
    print(rt, &page.as_slice()[..size])
}

// Answers the one register that a program takes: reads it, and prints what is written of it to the front of a blank page.
pub fn answer_register<P: AsSlice<u8>, F: FnOnce(&[u8], &mut P) -> usize>(
    rt: &(impl Env + Files + io::Input + Print + Eprint),
    usage: &[u8],
    page: &mut P,
    write: F,
) -> Result<(), Told>
    requires callable { F.IsAlwaysCallable write }
    requires fits { WritesWithin F.FnOnce P.items write page.old }
{
    let mut register = [0u8; REGISTER_ROOM];
    let size = read_register(rt, usage, &mut register)?;
    print_page(rt, page, |page| write(&register[..size], page))
}

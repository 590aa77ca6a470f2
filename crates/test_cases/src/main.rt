// Runs the cases of the file `stdin`, a line each, and compares. Each line is written as it stands there, then `: as expected`; or
// `: not so, `, what the desk answered from the first difference on, and `: DIFFERS`. The last line has the number of cases. The file's
// first lines say how a case is written; what is ill-formed or too long is told in capitals.
#![tactic(auto)]

mod answers;
mod cases;
mod numbers;
mod operations;
mod output;
mod parts;
mod signs;

ghost use Rattle.std.specs.Counts.{IsPrefixLen};

use output::say;
use std::io::Read;

// Room for the file of cases.
const INPUT_ROOM: usize = 65_536;

fn main(rt: HostRuntime) {
    let mut input = [0u8; INPUT_ROOM];
    let length = read_full(&mut rt.reader(), &mut input);
    let count = cases::run_all(&rt, &input[..length]);
    let _ = rt.print(count);
    write_end(&rt, length);
}

// Reads until the buffer is full, the input ends or a read fails.
fn read_full(input: &mut impl Read, bytes: &mut [u8]) -> usize
    ensures { IsPrefixLen result bytes.new }
{
    let mut length = 0;
    while let Ok(more @ 1..) = input.read(&mut bytes[length..]) {
        length += more;
    }
    length
}

// The last words; of input that fills all the room there may be more.
fn write_end(rt: &impl Print, length: usize) {
    if length == INPUT_ROOM {
        say(rt, b" cases, AND THERE MAY BE MORE\n");
    } else {
        say(rt, b" cases\n");
    }
}

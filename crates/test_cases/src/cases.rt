// A case is a line: the operation, what the case is, its arguments, `=` and the expected answer.
use crate::answers::Telling;
use crate::output::say;
use crate::parts::{BAR, after_bars, front, split_once};
use crate::{operations, signs};
use writing::Page;

// Room for a line once its signs are replaced: a register that is too long, and its case.
const LINE_ROOM: usize = 70_000;

// Runs the case of each line, and counts them.
pub fn run_all(rt: &impl Print, lines: &[u8]) -> u64 {
    let mut count = 0u64;
    for line in lines.split_inclusive(|&b| b == b'\n') {
        count = count.wrapping_add(run(rt, split_once(line, b'\n').0));
    }
    count
}

// Runs the case of a line; how many cases it has, which is none where the line is empty or starts with `#`.
fn run(rt: &impl Print, case: &[u8]) -> u64 {
    say(rt, case);
    if case.is_empty() || case.starts_with(b"#") {
        say(rt, b"\n");
        return 0;
    }
    let mut line = [0u8; LINE_ROOM];
    let mut page = Page::new(&mut line);
    signs::put_line(rt, &mut page, case);
    let size = page.place();
    run_case(rt, front(rt, &line, size));
    1
}

fn run_case(rt: &impl Print, case: &[u8]) {
    let operation = split_once(case, BAR).0;
    let (arguments, expected) = split_once(after_bars(case, 2), b'=');
    let mut telling = Telling::new(expected);
    operations::answer(rt, operation, arguments, &mut telling);
    if telling.is_whole() {
        say(rt, b": as expected\n");
    } else {
        say(rt, b": DIFFERS\n");
    }
}

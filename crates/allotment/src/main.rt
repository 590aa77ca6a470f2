// The allotment program: a register on standard input, or the file that the one argument names; on standard output its listing, or
// `refused`, a number and a line. All that matters is `listing::print`; this file only moves bytes. A register that could only be read in
// part is not listed: it would look like one that was cut short.
#![tactic(auto)]

use listing::LISTING_ROOM;

const USAGE: &[u8] = b"usage: allotment [REGISTER]\n";

fn main(rt: HostRuntime) {
    // What failed was told, and the program ends as ever.
    let _ = streams::answer_register(&rt, USAGE, &mut [0u8; LISTING_ROOM], listing::print);
}

// The clean program: a register on standard input, or the file that the one argument names; on standard output its clean copy, or
// `refused`, a number and a line. All that matters is `cleaning::print`; this file only moves bytes. A register that could only be read in
// part is not copied: its copy would look like that of one that was cut short.
#![tactic(auto)]

use cleaning::CLEAN_ROOM;

const USAGE: &[u8] = b"usage: clean [REGISTER]\n";

fn main(rt: HostRuntime) {
    // What failed was told, and the program ends as ever.
    let _ = streams::answer_register(&rt, USAGE, &mut [0u8; CLEAN_ROOM], cleaning::print);
}

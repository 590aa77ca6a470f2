// What is written to standard output. Where it takes nothing, that is lost, and so the output differs.
pub fn say(rt: &impl Print, text: &[u8]) {
    let _ = rt.write_all(text);
}

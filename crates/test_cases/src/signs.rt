// The signs of a line. `/` stands for LF, `\` for CR, `<` for byte 31 and `>` for byte 127; `{3:TEXT}` for TEXT three times, where `@` in
// TEXT is the number of the time, counted from 1.
use crate::numbers::number;
use crate::parts::split_once;
use writing::Page;

// A line whose signs are replaced by what they stand for.
pub fn put_line(rt: &impl Print, page: &mut Page<'_>, line: &[u8]) {
    let mut left = line;
    while !left.is_empty() {
        let (plain, braced) = split_once(left, b'{');
        let (group, others) = split_once(braced, b'}');
        put_bytes(page, plain);
        put_group(rt, page, group);
        left = others;
    }
}

// A text so many times; nothing where there is none.
fn put_group(rt: &impl Print, page: &mut Page<'_>, group: &[u8]) {
    if group.is_empty() {
        return;
    }
    let (times, part) = split_once(group, b':');
    let count = number(rt, times);
    // No text stays none, however often it stands.
    if part.is_empty() {
        return;
    }
    for time in 1..=count {
        put_numbered(page, part, time);
    }
}

// A text with a number for its `@`, if it has one.
fn put_numbered(page: &mut Page<'_>, part: &[u8], number: u64) {
    let (front, back) = split_once(part, b'@');
    put_bytes(page, front);
    if part.contains(&b'@') {
        page.put_decimal(number);
        put_bytes(page, back);
    }
}

fn put_bytes(page: &mut Page<'_>, part: &[u8]) {
    for &sign in part {
        page.put_byte(meant(sign));
    }
}

fn meant(sign: u8) -> u8 {
    match sign {
        b'/' => b'\n',
        b'\\' => b'\r',
        b'<' => 31,
        b'>' => 127,
        _ => sign,
    }
}

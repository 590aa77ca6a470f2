// Numbers and lists of numbers in a line. What is none is told at once, and so the output differs.
ghost use Rattle.std.specs.Prelude.{◌<◌};
ghost use Rattle.std.specs.Counts.{IsPrefixLen};

use crate::output::say;
use crate::parts::split_once;

// The number that a word spells; the highest there is for anything that is as high.
pub fn number(rt: &impl Print, word: &[u8]) -> u64 {
    if word.is_empty() {
        say(rt, b": A NUMBER IS MISSING");
    }
    word.iter()
        .fold(0, |value, &digit| with_digit(rt, value, digit))
}

fn with_digit(rt: &impl Print, value: u64, digit: u8) -> u64 {
    if value < u64::MAX / 10 {
        return value * 10 + digit_value(rt, digit);
    }
    u64::MAX
}

fn digit_value(rt: &impl Print, digit: u8) -> u64
    ensures { result < 10 }
{
    match digit {
        b'0'..=b'9' => u64::from(digit - b'0'),
        _ => {
            say(rt, b": THIS IS NO NUMBER");
            0
        }
    }
}

// Reads numbers parted by blanks to the front of a list, and hands back how many they are.
pub fn read_list(rt: &impl Print, list: &[u8], out: &mut [u64]) -> usize
    ensures { IsPrefixLen result out.new }
{
    for (place, word) in out.iter_mut().zip(list.split_inclusive(is_blank)) {
        *place = number(rt, split_once(word, b' ').0);
    }
    let count = list.split_inclusive(is_blank).count();
    if count <= out.len() {
        return count;
    }
    say(rt, b": THESE ARE TOO MANY NUMBERS");
    out.len()
}

fn is_blank(sign: &u8) -> bool {
    *sign == b' '
}

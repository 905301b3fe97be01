// Standard input as changes of a memory, with the test asked after each: words that are well-formed stay, others are put back. So one rule is broken at a time.
// The input is how many changes there are, and each: how many runs of words it has, each run as its first place, how many words and the words; then a line of text that says what it is. A change
// of no run empties the memory. A number is five digits and a byte after them.
// The small memory holds a1, a2, a1⊗a2, !(a1⊗a2), ?a1 and 1, and the failures a1; nothing; a2, a2 and ?(a1⊗a2); a1 and ?a1. Then come the highest formula and one level more, and the longest
// and one that is longer: !..!a1, and each a product of the one before with itself.
ghost use Rattle.std.specs.Prelude.{◌<◌};

use super::words::{Words, put, say, tested};
use std::io;
use std::io::Read;
use stored::byte;

// The next digit; 0 where the next byte is none.
fn digit(input: &mut impl Read) -> usize
    ensures { result < 10 }
{
    let b = byte(input);
    if b.is_ascii_digit() {
        usize::from(b - b'0')
    } else {
        0
    }
}

// Digit by digit: so its bound is seen without an invariant.
fn number(input: &mut impl Read) -> usize
    ensures { result < 100000 }
{
    let a = digit(input);
    let b = digit(input);
    let c = digit(input);
    let d = digit(input);
    let e = digit(input);
    byte(input);
    10000 * a + 1000 * b + 100 * c + 10 * d + e
}

// A number that fits a word; 0 for any other.
fn word(input: &mut impl Read) -> u16 {
    u16::try_from(number(input)).unwrap_or(0)
}

fn run(input: &mut impl Read, mem: &mut [u16]) {
    let at = number(input);
    let n = number(input);
    for k in 0..n {
        put(mem, at + k, word(input));
    }
}

// All runs of a change.
fn change(input: &mut impl Read, mem: &mut [u16]) {
    let n = number(input);
    if n == 0 {
        memory::reset(mem);
        return;
    }
    for _ in 0..n {
        run(input, mem);
    }
}

// The rest of the line, of at most 100 bytes, as it stands.
fn say_line(rt: &impl Print, input: &mut impl Read) -> io::Result<()> {
    for _ in 0..100 {
        let b = byte(input);
        if b == b'\n' {
            return Ok(());
        }
        rt.write_all(&[b])?;
    }
    Ok(())
}

fn tried(
    rt: &impl Print,
    input: &mut impl Read,
    good: &mut Words,
    mem: &mut Words,
) -> io::Result<()> {
    change(input, mem);
    say_line(rt, input)?;
    let answer = tested(mem);
    say(rt, "", answer)?;
    if answer == 0 {
        *good = *mem;
    } else {
        *mem = *good;
    }
    Ok(())
}

pub fn each(rt: &impl Print, input: &mut impl Read, mem: &mut Words) -> io::Result<()> {
    let mut good = [0u16; memory::WORDS];
    let n = number(input);
    for _ in 0..n {
        tried(rt, input, &mut good, mem)?;
    }
    Ok(())
}

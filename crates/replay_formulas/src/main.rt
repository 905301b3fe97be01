// Replays the oracle's answers on formulas (docs/ORACLE.md): every formula of the list is negated, spelled out, judged positive or not and printed twice, and each answer is compared with
// what the Rust said, byte for byte. Then formulas at the limits of document 01, whose answers are settled.
#![tactic(auto)]

use formula::Refusal;
use std::io;
use std::io::Read;
use stored::{MOST_RECORDS, Tally};

// The call writes what the list has next.
fn writes<F>(input: &mut impl Read, call: F, s: &[u8]) -> bool
where
    F: FnOnce(&[u8], &mut [u8]) -> Result<usize, Refusal>,
    requires { F.IsAlwaysCallable call }
{
    let mut said = stored::large_buffer();
    let bytes = stored::item(input, &mut said);
    let mut out = stored::large_buffer();
    let Ok(n) = call(s, &mut out) else {
        return false;
    };
    stored::starts(&out, n, bytes)
}

// `is_positive` says what the list has next.
fn judges(input: &mut impl Read, s: &[u8]) -> bool {
    let said = stored::byte(input);
    formula::is_positive(s).map(u8::from) == Ok(said)
}

// All five answers on the formula are the list's.
fn agrees(input: &mut impl Read, s: &[u8]) -> bool {
    let negates = writes(input, formula::negate, s);
    let desugars = writes(input, formula::desugar, s);
    let is_judged = judges(input, s);
    let prints = writes(input, print::pretty, s);
    let prints_ascii = writes(input, print::pretty_ascii, s);
    negates && desugars && is_judged && prints && prints_ascii
}

fn replay(input: &mut impl Read) -> Tally {
    let mut tally = Tally::new();
    for _ in 0..MOST_RECORDS {
        let mut buf = stored::large_buffer();
        let s = stored::item(input, &mut buf);
        if s.is_empty() {
            return tally;
        }
        tally = tally.with(agrees(input, s));
    }
    tally
}

// What a settled formula may need of room: its bytes, or its text.
const ROOM: usize = 66;

// Document 01's number of the call's answer, with so much room for what it writes.
fn tells<F>(call: F, s: &[u8], room: usize) -> u8
where
    F: FnOnce(&[u8], &mut [u8]) -> Result<usize, Refusal>,
    requires { F.IsAlwaysCallable call }
{
    let mut out = [0u8; ROOM];
    let n = room.min(ROOM);
    call(s, &mut out[..n]).err().map_or(0, u8::from)
}

// Every call that writes gives this answer, and `is_positive` does where the answer is not for the room.
fn row(s: &[u8], room: usize, expected: u8) -> bool {
    let judged = formula::is_positive(s).err().map_or(0, u8::from);
    let negates = tells(formula::negate, s, room) == expected;
    let desugars = tells(formula::desugar, s, room) == expected;
    let prints = tells(print::pretty, s, room) == expected;
    let prints_ascii = tells(print::pretty_ascii, s, room) == expected;
    (expected == 10 || judged == expected) && negates && desugars && prints && prints_ascii
}

// Bytes, the room, and the answer. Where a formula is wanted: no byte 3, tag 4, height 5, cut number 3; leftover bytes 3; then 10. Then the same in a formula's parts.
const SHORT: [(&[u8], usize, u8); 11] = [
    (b"", ROOM, 3),
    (b"\x00", 1, 0),
    (b"\x00", 0, 10),
    (b"\x00\x0D", ROOM, 3),
    (b"\x00\x00", 0, 3),
    (b"\x0D", 0, 4),
    (b"\x04\x00", ROOM, 3),
    (b"\x06\x00", ROOM, 3),
    (b"\x06\x0D", ROOM, 4),
    (b"\x06\x00\x0D", ROOM, 4),
    (b"\x06\x04\x00", ROOM, 3),
];

fn short_rows() -> Tally {
    let mut t = Tally::new();
    for (s, room, expected) in SHORT {
        t = t.with(row(s, room, expected));
    }
    t
}

// `levels` times `!`, then two bytes; the first `length` of them.
fn high_row(levels: usize, end: [u8; 2], length: usize, room: usize, expected: u8) -> bool {
    let mut s = [11u8; ROOM];
    if levels > 64 {
        return false;
    }
    s[levels..levels + 2].copy_from_slice(&end);
    row(&s[..length.min(ROOM)], room, expected)
}

// The same at the highest level, and past it, where the tag is told before the height, and that before a cut number.
const HIGH: [(usize, [u8; 2], usize, usize, u8); 8] = [
    (63, [0, 0], 64, 64, 0),
    (63, [0, 0], 64, 63, 10),
    (64, [0, 0], 65, 65, 5),
    (64, [0, 0], 64, ROOM, 3),
    (64, [13, 0], 65, ROOM, 4),
    (64, [4, 0], 66, ROOM, 5),
    (63, [4, 0], 65, ROOM, 3),
    (63, [0, 13], 65, ROOM, 3),
];

fn high_rows() -> Tally {
    let mut t = Tally::new();
    for (levels, end, length, room, expected) in HIGH {
        t = t.with(high_row(levels, end, length, room, expected));
    }
    t
}

fn main(rt: HostRuntime) -> io::Result<()> {
    replay(&mut rt.reader()).print(&rt, b" formulas")?;
    short_rows().print(&rt, b" settled answers at short formulas")?;
    high_rows().print(&rt, b" settled answers at the highest level")
}

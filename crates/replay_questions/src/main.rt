// Replays the list of two-sided questions (docs/ORACLE.md): each is made one-sided, and every byte is compared with what sequent.rs's `to_one_sided` made of it; made one-sided again, it stays as it is. Then questions
// whose answers are settled: at the limits of document 01, and in the order of its refusals.
#![tactic(auto)]

use std::io;
use std::io::Read;
use stored::{MOST_RECORDS, Tally};

// The question is written as these bytes.
fn becomes(s: &[u8], bytes: &[u8]) -> bool {
    let mut out = stored::large_buffer();
    let Ok(n) = question::to_one_sided(s, &mut out) else {
        return false;
    };
    stored::starts(&out, n, bytes)
}

// The question becomes what the list has next, which stays as it is.
fn agrees(input: &mut impl Read, s: &[u8]) -> bool {
    let mut said = stored::large_buffer();
    let one_sided = stored::item(input, &mut said);
    becomes(s, one_sided) & becomes(one_sided, one_sided)
}

fn replay(input: &mut impl Read) -> Tally {
    let mut tally = Tally::new();
    for _ in 0..MOST_RECORDS {
        let mut buf = stored::large_buffer();
        let s = stored::item(input, &mut buf);
        if s.is_empty() {
            return tally;
        }
        tally = tally.with(agrees(input, s));
    }
    tally
}

// What a settled question may need of room.
const ROOM: usize = 80;

// With so much room, the answer has this number of document 01.
fn row(s: &[u8], room: usize, expected: u8) -> bool {
    let mut out = [0u8; ROOM];
    let answer = question::to_one_sided(s, &mut out[..room.min(ROOM)]);
    answer.err().map_or(0, u8::from) == expected
}

// Bytes, the room, and the answer.
type Row = (&'static [u8], usize, u8);

fn tally(rows: &[Row]) -> Tally {
    let mut t = Tally::new();
    for &(s, room, expected) in rows {
        t = t.with(row(s, room, expected));
    }
    t
}

// Fewer than three bytes 3, version 2, length 3, no kind 3; an unknown kind 2, no zone 3, bytes left over 3.
const HEADS: [Row; 10] = [
    (b"", 0, 3),
    (b"\x02\x00", 0, 3),
    (b"\x02\x00\x09", 0, 2),
    (b"\x01\x00\x09", 0, 3),
    (b"\x01\x00\x00", 0, 3),
    (b"\x01\x00\x01\x00", 0, 2),
    (b"\x01\x00\x01\x03", 0, 2),
    (b"\x01\x00\x01\x01", 0, 3),
    (b"\x01\x00\x05\x01\x00\x00\x00\x00", 8, 0),
    (b"\x01\x00\x05\x01\x00\x00\x00\x00\x00", ROOM, 3),
];

// Both zones' lengths and bytes left over 3, before any formula. The formulas in byte order, each up to its own zone's end; then 10.
const ZONES: [Row; 10] = [
    (b"\x01\x00\x07\x01\x00\x01\x0D\x00\x00\x00", 0, 3),
    (b"\x01\x00\x06\x01\x00\x01\x0D\x00\x00", 0, 4),
    (b"\x01\x00\x06\x01\x00\x01\x0D\x00\x01", 0, 3),
    (b"\x01\x00\x08\x01\x00\x01\x06\x00\x02\x00\x00", 0, 3),
    (b"\x01\x00\x07\x01\x00\x02\x04\x00\x00\x00", 0, 3),
    (b"\x01\x00\x07\x01\x00\x01\x04\x00\x01\x0D", 0, 3),
    (b"\x01\x00\x07\x02\x00\x01\x0D\x00\x01\x04", 0, 4),
    (b"\x01\x00\x06\x01\x00\x01\x00\x00\x00", 9, 0),
    (b"\x01\x00\x06\x01\x00\x01\x00\x00\x00", 8, 10),
    (b"\x01\x00\x06\x02\x00\x01\x00\x00\x00", 8, 10),
];

// A question of so many Ones in each zone, and behind them, in the second zone, one more tag.
fn ones(kind: u8, first: usize, second: usize, more: u8, expected: u8) -> bool {
    let mut s = [0u8; ROOM];
    if first > 32 || second > 32 {
        return false;
    }
    let middle = 6 + first;
    let last = middle + 2 + second;
    s[..6].copy_from_slice(&[1, 0, (last - 2) as u8, kind, 0, first as u8]);
    s[middle + 1] = (second + 1) as u8;
    s[last] = more;
    row(&s[..last + 1], ROOM, expected)
}

// 31 formulas and 32, told after all formulas, in both kinds.
fn widths() -> Tally {
    let mut t = Tally::new();
    for (kind, first, second, more, expected) in [
        (1, 30, 0, 0, 0),
        (1, 31, 0, 0, 6),
        (1, 15, 16, 0, 6),
        (2, 15, 15, 0, 0),
        (2, 16, 15, 0, 6),
        (1, 32, 0, 13, 4),
        (2, 0, 31, 13, 4),
    ] {
        t = t.with(ones(kind, first, second, more, expected));
    }
    t
}

// A question of one formula, so many `!` and a tag.
fn high(kind: u8, levels: usize, tag: u8, expected: u8) -> bool {
    let mut s = [11u8; ROOM];
    if levels > 64 {
        return false;
    }
    let length = levels as u8;
    s[..6].copy_from_slice(&[1, 0, 6 + length, kind, 0, 1 + length]);
    s[6 + levels..9 + levels].copy_from_slice(&[tag, 0, 0]);
    row(&s[..9 + levels], ROOM, expected)
}

// Heights 64 and 65; past the last level no byte is told first, then the tag, the height, and a cut number.
fn heights() -> Tally {
    let mut t = Tally::new();
    for (kind, levels, tag, expected) in [
        (1, 63, 0, 0),
        (2, 63, 0, 0),
        (1, 64, 0, 5),
        (2, 64, 0, 5),
        (1, 63, 11, 3),
        (1, 64, 13, 4),
        (1, 64, 4, 5),
        (1, 63, 4, 3),
    ] {
        t = t.with(high(kind, levels, tag, expected));
    }
    t
}

fn main(rt: HostRuntime) -> io::Result<()> {
    replay(&mut rt.reader()).print(&rt, b" questions")?;
    tally(&HEADS).print(&rt, b" settled answers at the head")?;
    tally(&ZONES).print(&rt, b" settled answers at zones")?;
    widths().print(&rt, b" settled answers at wide questions")?;
    heights().print(&rt, b" settled answers at high formulas")
}

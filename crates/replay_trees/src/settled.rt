// Trees whose answers are settled, as rows of bytes and answer: at the limits of document 01, and in the order of its refusals.
ghost use Rattle.std.specs.Prelude.{◌≡◌, length};

use super::verdict::{Verdict, bare, failed, told};
use stored::Tally;

// What `depth` answers where the verdict is this: only what cannot be read is refused.
fn unread(answer: u8) -> u8 {
    if answer < 13 { answer } else { 0 }
}

// The verdict on the tree is this, and `depth` refuses it where reading does.
fn row(s: &[u8], expected: Verdict) -> bool {
    let measured = tree::depth(s).err().map_or(0, u8::from);
    measured == unread(expected.answer) && told(verify::verify(s)) == expected
}

// 14, at the root.
fn wrong_count(rule: u8, expected: usize, got: usize) -> Verdict {
    Verdict {
        answer: 14,
        rule,
        node: 0,
        wrappers: 0,
        expected,
        got,
    }
}

// Rows of bytes and an answer that tells of no node.
fn bare_rows(rows: &[(&[u8], u8)]) -> Tally {
    let mut t = Tally::new();
    for &(s, answer) in rows {
        t = t.with(row(s, bare(answer)));
    }
    t
}

// Fewer than three bytes 3, version 2, no node 3; length 3, leftover bytes 3 after all else.
const FRAMES: [(&[u8], u8); 10] = [
    (b"", 3),
    (b"\x02\x00", 3),
    (b"\x02\x00\x00", 2),
    (b"\x02\x00\x01\x00", 2),
    (b"\x01\x00\x00", 3),
    (b"\x01\x00\x01", 3),
    (b"\x01\x00\x04\x02\x00\x01\x0D\x00", 3),
    (b"\x01\x00\x05\x02\x00\x01\x0D\x00", 4),
    (b"\x01\x00\x07\x02\x00\x01\x00\x00\x00\x00", 0),
    (b"\x01\x00\x08\x02\x00\x01\x00\x00\x00\x00\x00", 3),
];

// Messages whose frame is wrong.
pub fn frames() -> Tally {
    bare_rows(&FRAMES)
}

// Rule 2, the argument. Each zone's end 3 and its formulas, premise count 3. All reading ends before any checking.
const NODES: [(&[u8], u8); 11] = [
    (b"\x01\x00\x01\x12", 2),
    (b"\x01\x00\x01\x02", 3),
    (b"\x01\x00\x02\x01\x06", 3),
    (b"\x01\x00\x02\x01\x0D", 4),
    (b"\x01\x00\x02\x0F\x00", 3),
    (b"\x01\x00\x04\x02\x00\x01\x0D", 4),
    (b"\x01\x00\x04\x02\x00\x02\x0D", 3),
    (b"\x01\x00\x09\x02\x00\x01\x06\x00\x02\x00\x00\x00", 3),
    (b"\x01\x00\x08\x02\x00\x02\x04\x00\x00\x00\x00", 3),
    (b"\x01\x00\x05\x02\x00\x00\x00\x00", 3),
    (
        b"\x01\x00\x0D\x02\x00\x03\x04\x00\x01\x00\x00\x01\x02\x00\x01\x0D",
        4,
    ),
];

// Nodes that cannot be read.
pub fn nodes() -> Tally {
    bare_rows(&NODES)
}

// Trees that can be read. OneIntro over a1 with one premise; TensorIntro with one premise and no tensor; Cut with none; ParIntro over a lone implication; Blur and FocusPositive over empty zones, and over a failing node.
pub fn verdicts() -> Tally {
    let mut t = Tally::new();
    for (s, expected) in [
        (
            b"\x01\x00\x10\x02\x00\x03\x04\x00\x01\x00\x00\x01\x02\x00\x01\x00\x00\x00\x00".as_slice(),
            failed(13, 2, 0, 0),
        ),
        (
            b"\x01\x00\x10\x04\x00\x03\x04\x00\x01\x00\x00\x01\x02\x00\x01\x00\x00\x00\x00".as_slice(),
            wrong_count(4, 2, 1),
        ),
        (
            b"\x01\x00\x07\x01\x00\x00\x00\x00\x00\x00".as_slice(),
            wrong_count(1, 2, 0),
        ),
        (
            b"\x01\x00\x14\x05\x00\x07\x0A\x04\x00\x01\x04\x00\x01\x00\x00\x01\x02\x00\x01\x00\x00\x00\x00".as_slice(),
            failed(13, 5, 0, 0),
        ),
        (b"\x01\x00\x06\x11\x00\x00\x00\x00\x00".as_slice(), bare(0)),
        (
            b"\x01\x00\x08\x0F\x00\x01\x00\x00\x00\x00\x00".as_slice(),
            bare(0),
        ),
        (
            b"\x01\x00\x0C\x11\x00\x00\x00\x00\x01\x02\x00\x00\x00\x00\x00".as_slice(),
            failed(13, 2, 1, 1),
        ),
    ] {
        t = t.with(row(s, expected));
    }
    t
}

// Steps in both modes: ParIntro that takes an implication beside a Par; Blur, which is no step; a step that is not legal over a node of the wrong shape; Cut at (a1⊸a2)⊸a3 with its plain negation, and with its premises in
// the other order; Dereliction that keeps a copy, and that keeps none.
pub fn steps() -> Tally {
    let mut t = Tally::new();
    for (s, expected, in_strict) in [
        (
            b"\x01\x00\x29\x05\x00\x0F\x07\x04\x00\x02\x04\x00\x03\x0A\x04\x00\x01\x04\x00\x01\x02\x00\x00\x01\x06\x00\x0E\x07\x04\x00\x02\x04\x00\x03\x05\x00\x01\x04\x00\x01\x02\x00\x00\x00".as_slice(),
            bare(0),
            bare(0),
        ),
        (
            b"\x01\x00\x06\x11\x00\x00\x00\x00\x00".as_slice(),
            bare(0),
            failed(15, 17, 0, 0),
        ),
        (
            b"\x01\x00\x10\x03\x00\x01\x01\x00\x00\x01\x00\x00\x03\x04\x00\x01\x00\x00\x00".as_slice(),
            failed(13, 0, 1, 1),
            failed(15, 3, 0, 0),
        ),
        (
            b"\x01\x00\x37\x01\x0A\x0A\x04\x00\x01\x04\x00\x02\x04\x00\x03\x00\x02\x02\x02\x00\x00\x02\x06\x00\x0C\x0A\x0A\x04\x00\x01\x04\x00\x02\x04\x00\x03\x02\x00\x00\x00\x06\x00\x0C\x06\x0A\x04\x00\x01\x04\x00\x02\x05\x00\x03\x02\x00\x00\x00".as_slice(),
            bare(0),
            bare(0),
        ),
        (
            b"\x01\x00\x37\x01\x0A\x0A\x04\x00\x01\x04\x00\x02\x04\x00\x03\x00\x02\x02\x02\x00\x00\x02\x06\x00\x0C\x06\x0A\x04\x00\x01\x04\x00\x02\x05\x00\x03\x02\x00\x00\x00\x06\x00\x0C\x0A\x0A\x04\x00\x01\x04\x00\x02\x04\x00\x03\x02\x00\x00\x00".as_slice(),
            bare(0),
            failed(15, 1, 0, 0),
        ),
        (
            b"\x01\x00\x1B\x0E\x00\x03\x05\x00\x01\x00\x03\x04\x00\x01\x01\x00\x00\x06\x05\x00\x01\x04\x00\x01\x00\x03\x04\x00\x01\x00".as_slice(),
            bare(0),
            failed(15, 14, 0, 0),
        ),
        (
            b"\x01\x00\x18\x0E\x00\x03\x05\x00\x01\x00\x03\x04\x00\x01\x01\x00\x00\x06\x05\x00\x01\x04\x00\x01\x00\x00\x00".as_slice(),
            bare(0),
            bare(0),
        ),
    ] {
        let is_strict = told(verify::verify_strict(s)) == in_strict;
        t = t.with(row(s, expected) && is_strict);
    }
    t
}

// Blur over so many Ones in each zone; the message ends with its premise count or before it.
fn ones(linear: usize, unrestricted: usize, count: usize, answer: u8) -> bool {
    let mut s = [0u8; 80];
    if linear > 32 || unrestricted > 32 || count > 1 {
        return false;
    }
    let body = 5 + linear + unrestricted + count;
    s[..6].copy_from_slice(&[1, 0, body as u8, 17, 0, linear as u8]);
    s[6 + linear + 1] = unrestricted as u8;
    row(&s[..3 + body], bare(answer))
}

// A sequent of 31 formulas and of 32, which is told before the premise count.
pub fn widths() -> Tally {
    let mut t = Tally::new();
    for (linear, unrestricted, count, answer) in [
        (31, 0, 1, 0),
        (32, 0, 1, 6),
        (16, 15, 1, 0),
        (16, 16, 1, 6),
        (0, 32, 1, 6),
        (31, 0, 0, 3),
        (32, 0, 0, 6),
    ] {
        t = t.with(ones(linear, unrestricted, count, answer));
    }
    t
}

// 66 Blur nodes, each the premise of the one before, six bytes a node.
fn blurs() -> [u8; 402]
    ensures { 402 ≡ length result }
{
    let mut s = [0u8; 402];
    for k in 0..66 {
        s[3 + 6 * k] = 17;
        s[8 + 6 * k] = 1;
    }
    s
}

// So many of them, the last with this premise count; then so many bytes more, a rule 18.
fn chain(nodes: usize, count: u8, more: usize, answer: u8) -> bool {
    let mut s = blurs();
    if nodes > 66 || more > 1 {
        return false;
    }
    let body = nodes * 6 + more;
    s[..3].copy_from_slice(&[1, (body / 256) as u8, (body % 256) as u8]);
    s[2 + nodes * 6] = count;
    s[3 + nodes * 6] = 18;
    row(&s[..3 + body], bare(answer))
}

// A tree of height 65, and of 66, where no byte is told before the height, and the height before the rule.
pub fn chains() -> Tally {
    let mut t = Tally::new();
    for (nodes, count, more, answer) in [
        (65, 0, 0, 0),
        (66, 0, 0, 5),
        (65, 1, 0, 3),
        (65, 1, 1, 5),
        (65, 0, 1, 3),
    ] {
        t = t.with(chain(nodes, count, more, answer));
    }
    t
}

// Blur over so many `!` and a 1.
fn high_zone(levels: usize, answer: u8) -> bool {
    let mut s = [11u8; 80];
    if levels > 64 {
        return false;
    }
    let length = levels as u8;
    s[..6].copy_from_slice(&[1, 0, 7 + length, 17, 0, 1 + length]);
    s[6 + levels..10 + levels].fill(0);
    row(&s[..10 + levels], bare(answer))
}

// Cut at so many `!` and a 1, over empty zones, with no premise.
fn high_cut(levels: usize, expected: Verdict) -> bool {
    let mut s = [11u8; 80];
    if levels > 64 {
        return false;
    }
    s[..4].copy_from_slice(&[1, 0, 7 + levels as u8, 1]);
    s[4 + levels..10 + levels].fill(0);
    row(&s[..10 + levels], expected)
}

// Formulas of height 64 and 65, each counted from 1.
pub fn heights() -> Tally {
    let mut t = Tally::new();
    t = t.with(high_zone(63, 0));
    t = t.with(high_zone(64, 5));
    t = t.with(high_cut(63, wrong_count(1, 2, 0)));
    t.with(high_cut(64, bare(5)))
}

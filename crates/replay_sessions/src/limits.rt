// What passes at a limit of document 01, and what is refused past it: the unstarred settled runs, and the order of the refusals at entry.
ghost use Rattle.std.specs.Prelude.{◌≤◌};

use crate::asking::{
    BUDGET, MESSAGE, Said, Settings, ask, ask_only, fresh, room, to, uncached, usual,
};
use crate::message::Message;
use crate::settled::{Expected, alone, is, left, next, wanted};
use stored::Tally;

// Room for the questions put together here.
pub const ROOM: usize = 2048;

// a1, a1⊥. The tree is Axiom alone, of 15 bytes.
pub const PAIR: [u8; 14] = *b"\x01\x00\x0B\x01\x00\x06\x04\x00\x01\x05\x00\x01\x00\x00";

pub const PAIR_TREE: usize = 15;

// 0⊕1: the first premise fails and is recorded, the second is proved.
pub const CHOICE: [u8; 11] = *b"\x01\x00\x08\x01\x00\x03\x09\x03\x00\x00\x00";

// Refused in reading: no counters, nothing held.
fn refused(answer: u8) -> Expected {
    wanted(answer, 0, 0, 0, 0, 0)
}

// So many atoms in the linear zone.
fn wide(count: u16, e: Expected) -> bool {
    let mut buf = [0u8; ROOM];
    let mut m = Message::new(&mut buf);
    m.atoms(0, count);
    alone(m.linear(), usual(), MESSAGE, e)
}

// One formula of so many ! over 1.
fn high(levels: usize, e: Expected) -> bool {
    let mut buf = [0u8; ROOM];
    let mut m = Message::new(&mut buf);
    m.tower(levels);
    alone(m.linear(), to(64, true), MESSAGE, e)
}

// Fewer than three bytes, version, length, kind; the zones' lengths, bytes left over, formulas.
const READS: [(&[u8], u8); 11] = [
    (b"", 3),
    (b"\x02\x00", 3),
    (b"\x02\x00\x01", 2),
    (b"\x01\x00\x01", 3),
    (b"\x01\x00\x00", 3),
    (b"\x01\x00\x05\x03\x00\x00\x00\x00", 2),
    (b"\x01\x00\x03\x01\x00\x00", 3),
    (b"\x01\x00\x06\x01\x00\x01\x0D\x00\x01", 3),
    (b"\x01\x00\x07\x01\x00\x01\x0D\x00\x00\x00", 3),
    (b"\x01\x00\x06\x01\x00\x01\x0D\x00\x00", 4),
    (b"\x01\x00\x06\x02\x00\x00\x00\x01\x04", 3),
];

// What reading refuses, in its order; then widths and heights.
pub fn reading() -> Tally {
    let mut t = Tally::new();
    for (message, answer) in READS {
        t = t.with(alone(message, usual(), MESSAGE, refused(answer)));
    }
    t = t.with(wide(31, wanted(1, 1, 0, 0, 31, 1)));
    t = t.with(wide(32, refused(6)));
    t = t.with(high(63, wanted(0, 64, 0, 63, 64, 0)));
    t.with(high(64, refused(5)))
}

// The most words that are lent to work in: one more than the longest budget.
const WORK: usize = 16385;

// The pair, with so many words to work in.
fn pair_by(by: Settings, words: usize, mem: &mut [u16]) -> Said
    requires { words ≤ 16385 }
{
    let mut work = [0u64; WORK];
    let mut out = room();
    ask(&PAIR, by, mem, &mut work[..words], &mut out)
}

// The same, on a memory that holds nothing.
fn set(limit: usize, budget: usize, words: usize, e: Expected) -> bool {
    if words > WORK {
        return false;
    }
    let mut mem = fresh();
    let by = Settings {
        limit,
        budget,
        cache: true,
    };
    let said = pair_by(by, words, &mut mem);
    is(said, &mem, e)
}

fn found() -> Expected {
    wanted(0, 1, 0, 0, 2, 0)
}

// Depth limits, budgets, and work slices of just the budget and one word fewer.
pub fn settings() -> Tally {
    let mut t = Tally::new();
    for (limit, budget, words, e) in [
        (64, BUDGET, BUDGET, found()),
        (65, BUDGET, BUDGET, refused(11)),
        (0, BUDGET, BUDGET, found()),
        (32, 16385, 16385, refused(11)),
        (32, 0, BUDGET, refused(11)),
        (32, BUDGET, 16385, found()),
        (32, BUDGET, 16383, refused(11)),
        (32, 16383, 16383, found()),
        (32, 1, 1, found()),
        (32, 1, 0, refused(11)),
    ] {
        t = t.with(set(limit, budget, words, e));
    }
    t
}

// One word more than a memory has.
const TOO_LONG: usize = memory::WORDS + 1;

// The pair, on so many words that hold nothing.
fn long(words: usize, answer: u8) -> bool {
    let mut mem = [0u16; TOO_LONG];
    if mem.len() < words {
        return false;
    }
    let said = ask_only(&PAIR, usual(), &mut mem[..words]);
    said.answer == answer
}

fn changed(mem: &mut [u16], at: usize, word: u16) {
    if let Some(place) = mem.get_mut(at) {
        *place = word;
    }
}

// A question asked after the pair in a memory where one word was changed. It is refused with the counters at 0.
fn spoilt(at: usize, word: u16, message: &[u8], limit: usize, answer: u8) -> bool {
    let mut mem = fresh();
    ask_only(&PAIR, usual(), &mut mem);
    changed(&mut mem, at, word);
    let said = ask_only(message, to(limit, true), &mut mem);
    left(said, 0, 0) == refused(answer)
}

// The pair, in a memory that was lent before.
fn asks_pair(mem: &mut [u16], e: Expected) -> bool {
    next(&PAIR, usual(), MESSAGE, mem, e)
}

// A spoilt memory is well-formed again after `reset`.
fn mended() -> bool {
    let mut mem = fresh();
    changed(&mut mem, 0, 2049);
    memory::reset(&mut mem);
    asks_pair(&mut mem, found())
}

// A count, a tag, a name, a height, a size, an order word, a word past what is held, and the same of the failures.
const WRONG: [(usize, u16); 13] = [
    (0, 2049),
    (0, 3),
    (1, 13),
    (1, 5),
    (3, 1),
    (4, 2),
    (5, 1),
    (11, 1),
    (held::ORDER, 1),
    (held::ORDER + 2, 1),
    (memory::FORMULAS, 1001),
    (memory::FORMULAS + 1, 1),
    (memory::WORDS - 1, 1),
];

// The wrong length; a wrong word; 11 before 12 before reading.
pub fn memories() -> Tally {
    let mut t = Tally::new();
    t = t.with(long(memory::WORDS, 0));
    t = t.with(long(memory::WORDS - 1, 12));
    t = t.with(long(TOO_LONG, 12));
    t = t.with(long(0, 12));
    for (at, word) in WRONG {
        t = t.with(spoilt(at, word, &PAIR, 32, 12));
    }
    t = t.with(spoilt(0, 2049, b"", 32, 12));
    t = t.with(spoilt(0, 2049, b"", 65, 11));
    t = t.with(spoilt(0, 2, b"", 32, 3));
    t.with(mended())
}

// The question of one atom.
fn lone_atom(buf: &mut [u8], name: u16) -> &[u8] {
    let mut m = Message::new(buf);
    m.atom(name);
    m.linear()
}

// The atoms from one name up to another are entered into a memory, each by its question. With the cache off it leaves no failure.
pub fn fill(from: u16, to: u16, mem: &mut [u16]) {
    for name in from..to {
        let mut buf = [0u8; ROOM];
        ask_only(lone_atom(&mut buf, name), uncached(), mem);
    }
}

fn asks_atom(name: u16, mem: &mut [u16], e: Expected) -> bool {
    let mut buf = [0u8; ROOM];
    next(lone_atom(&mut buf, name), usual(), MESSAGE, mem, e)
}

// 2,048 formulas are held, and the question that needs one more enters none.
pub fn formulas() -> Tally {
    let mut mem = fresh();
    fill(1000, 3047, &mut mem);
    let mut t = Tally::new();
    t = t.with(asks_pair(&mut mem, wanted(7, 0, 0, 0, 2047, 0)));
    t = t.with(asks_atom(1, &mut mem, wanted(1, 1, 0, 0, 2048, 1)));
    t = t.with(asks_pair(&mut mem, wanted(7, 0, 0, 0, 2048, 1)));
    t = t.with(asks_atom(2, &mut mem, wanted(7, 0, 0, 0, 2048, 1)));
    t.with(asks_atom(1, &mut mem, wanted(1, 1, 1, 0, 2048, 1)))
}

// So many failures are recorded, one of each atom.
fn fail(count: u16, mem: &mut [u16]) -> Tally {
    let mut tally = Tally::new();
    for name in 0..count {
        let held = usize::from(name) + 1;
        tally = tally.with(asks_atom(name, mem, wanted(1, 1, 0, 0, held, held)));
    }
    tally
}

// 0⊕1, in a memory that was lent before.
fn asks_choice(by: Settings, mem: &mut [u16], e: Expected) -> bool {
    next(&CHOICE, by, MESSAGE, mem, e)
}

// 1,000 failures are held, and the next that is new is refused in the middle of the search. One that is held is still a hit, and with the cache off nothing is recorded.
pub fn failures() -> Tally {
    let mut mem = fresh();
    let mut t = fail(1000, &mut mem);
    t = t.with(asks_choice(usual(), &mut mem, wanted(9, 2, 0, 1, 1003, 1000)));
    t = t.with(asks_atom(7, &mut mem, wanted(1, 1, 1, 0, 1003, 1000)));
    t.with(asks_choice(uncached(), &mut mem, wanted(0, 3, 0, 1, 1003, 1000)))
}

// ⊤&(⊤&(.. ⊤)) with 32 & beside formulas of 64 bytes 15 times and one more: the tree's body has 65 nodes.
fn body(last: usize, e: Expected) -> bool {
    let mut buf = [0u8; ROOM];
    let mut m = Message::new(&mut buf);
    m.comb(32);
    for _ in 0..15 {
        m.tower(63);
    }
    m.tower(last);
    alone(m.linear(), usual(), MESSAGE, e)
}

// The pair, with so much room for its tree.
fn into(room: usize, e: Expected) -> bool {
    alone(&PAIR, usual(), room, e)
}

// The buffer just long enough, one byte short, and empty; a body of 65,471 bytes and one of 65,536.
pub fn trees() -> Tally {
    let mut t = Tally::new();
    t = t.with(into(PAIR_TREE, found()));
    t = t.with(into(PAIR_TREE - 1, wanted(10, 1, 0, 0, 2, 0)));
    t = t.with(into(0, wanted(10, 1, 0, 0, 2, 0)));
    t = t.with(body(23, wanted(0, 65, 0, 32, 97, 0)));
    t.with(body(24, wanted(10, 65, 0, 32, 97, 0)))
}

// Refusals in the middle of a search: each keeps the counters, the formulas and the failures reached by then.
use crate::asking::{MESSAGE, Settings, fresh, to, usual};
use crate::limits::{CHOICE, ROOM, fill};
use crate::message::Message;
use crate::settled::{Expected, alone, next, wanted};
use stored::Tally;

const ZERO: u8 = 3;

const PAR: u8 = 7;

const PLUS: u8 = 9;

const LOLLI: u8 = 10;

// A sign between two atoms; behind 0⊕ where it is a choice.
fn joined(m: &mut Message, is_choice: bool, sign: u8, left: u16, right: u16) {
    if is_choice {
        m.byte(PLUS);
        m.byte(ZERO);
    }
    m.byte(sign);
    m.atom(left);
    m.atom(right);
}

// a1⅋a2 beside 30 atoms: its premise would have 32 formulas. Behind 0⊕, one failure comes before.
fn wide(is_choice: bool, limit: usize, e: Expected) -> bool {
    let mut buf = [0u8; ROOM];
    let mut m = Message::new(&mut buf);
    joined(&mut m, is_choice, PAR, 1, 2);
    m.atoms(0, 30);
    alone(m.linear(), to(limit, true), MESSAGE, e)
}

// a1⊸a1, in a memory that was lent before.
fn implies(is_choice: bool, mem: &mut [u16], e: Expected) -> bool {
    let mut buf = [0u8; ROOM];
    let mut m = Message::new(&mut buf);
    joined(&mut m, is_choice, LOLLI, 1, 1);
    next(m.linear(), usual(), MESSAGE, mem, e)
}

// The memory holds the atoms from a1000 up to a name, and has room for the question and one formula more: a1⊥ and a1⊥⅋a1 are two.
fn spelt(is_choice: bool, before: u16, e: Expected) -> bool {
    let mut mem = fresh();
    fill(1000, before, &mut mem);
    implies(is_choice, &mut mem, e)
}

// 0⊕1 with so small a budget, and so little room.
fn choose(budget: usize, room: usize, e: Expected) -> bool {
    let by = Settings {
        limit: 32,
        budget,
        cache: true,
    };
    alone(&CHOICE, by, room, e)
}

// 6, 7, 8 and 10, each after none and after one failure; the depth limit does not come before 6.
pub fn refusals() -> Tally {
    let mut t = Tally::new();
    t = t.with(wide(false, 0, wanted(6, 1, 0, 0, 31, 0)));
    t = t.with(wide(true, 32, wanted(6, 3, 0, 1, 33, 1)));
    t = t.with(spelt(false, 3045, wanted(7, 1, 0, 0, 2047, 0)));
    t = t.with(spelt(true, 3043, wanted(7, 3, 0, 1, 2047, 1)));
    t = t.with(choose(1, MESSAGE, wanted(8, 1, 0, 0, 3, 0)));
    t = t.with(choose(2, MESSAGE, wanted(8, 2, 0, 1, 3, 1)));
    t = t.with(choose(3, MESSAGE, wanted(0, 3, 0, 1, 3, 1)));
    t.with(choose(3, 3, wanted(10, 3, 0, 1, 3, 1)))
}

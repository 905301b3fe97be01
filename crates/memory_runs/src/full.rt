// A memory filled with formulas, and with failures: what is answered where there is no room, and that no word changes then.
use super::words::{Words, put, put_failure, put_formula, put_order, say, say_both, tested};
use memory::shape::{Shape, shape_at};
use std::io;
use zones::Zones;

// No answer of document 01: the formula is not held, or no implication.
pub const UNASKED: u8 = 255;

// An implication spelled out at its top: 0, or 7 where there is no room.
fn spell(mem: &mut [u16], x: u16) -> u8 {
    if !memory::well_formed(mem) {
        return memory::WRONG_MEMORY;
    }
    if mem[0] <= x {
        return UNASKED;
    }
    let Shape::Lolli(_, _) = shape_at(mem, x) else {
        return UNASKED;
    };
    if memory::shape::spell(mem, x).is_some() {
        0
    } else {
        7
    }
}

// The sequent of one formula recorded as a failure: 0, or 9 where there is no room.
fn record_one(mem: &mut [u16], x: u16) -> u8 {
    if !memory::well_formed(mem) {
        return memory::WRONG_MEMORY;
    }
    if mem[0] <= x {
        return UNASKED;
    }
    let z = Zones::empty().pushed(x);
    if memory::failed::record_failure(mem, z) {
        0
    } else {
        9
    }
}

// a0 up to a2043.
fn write_names(mem: &mut [u16]) {
    memory::reset(mem);
    for i in 0..2044 {
        put_formula(mem, i, [4, i, 0, 1, 3]);
        put_order(mem, i, i);
    }
}

// a0⊸a1 and a1⊸a0: 2,046 formulas.
fn write_implications(mem: &mut [u16]) {
    put_formula(mem, 2044, [10, 0, 1, 2, 7]);
    put_formula(mem, 2045, [10, 1, 0, 2, 7]);
    put_order(mem, 2044, 2044);
    put_order(mem, 2045, 2045);
    put(mem, 0, 2046);
}

// a0⊸a1 wants two formulas more, the negation of a0 and its own spelling.
fn formulas(rt: &impl Print, mem: &mut [u16]) -> io::Result<()> {
    write_names(mem);
    write_implications(mem);
    say(rt, "2,046 formulas", tested(mem))?;
    say(rt, "the 2,047th and 2,048th formula", spell(mem, 2044))?;
    say(rt, "2,048 formulas", tested(mem))
}

// a1⊸a0 wants two more again.
fn one_formula_more(rt: &impl Print, mem: &mut Words) -> io::Result<()> {
    let before = *mem;
    say_both(rt, "the same again", spell(mem, 2044), mem, &before)?;
    say_both(rt, "the 2,049th formula", spell(mem, 2045), mem, &before)
}

// The sequents a1 up to a999, each of one formula.
fn write_failures(mem: &mut [u16]) {
    for i in 0..999 {
        put_failure(mem, i, 2 * i + 2);
    }
    put(mem, 12289, 999);
}

// a0 comes before all of them: every order word moves.
fn failures(rt: &impl Print, mem: &mut [u16]) -> io::Result<()> {
    write_failures(mem);
    say(rt, "999 failures", tested(mem))?;
    say(rt, "the 1,000th failure", record_one(mem, 0))?;
    say(rt, "1,000 failures", tested(mem))
}

fn one_failure_more(rt: &impl Print, mem: &mut Words) -> io::Result<()> {
    let before = *mem;
    say_both(rt, "one that is known", record_one(mem, 17), mem, &before)?;
    say_both(
        rt,
        "the 1,001st failure",
        record_one(mem, 1000),
        mem,
        &before,
    )
}

pub fn fill(rt: &impl Print, mem: &mut Words) -> io::Result<()> {
    formulas(rt, mem)?;
    one_formula_more(rt, mem)?;
    failures(rt, mem)?;
    one_failure_more(rt, mem)
}

// A lent memory's words, writing them, and saying an answer. A place that a memory has not is not written.
use std::io;

pub type Words = [u16; memory::WORDS];

pub fn put(mem: &mut [u16], at: usize, v: u16) {
    if let Some(word) = mem.get_mut(at) {
        *word = v;
    }
}

// The five words of formula i: tag, left part or name, right part, height, size.
pub fn put_formula(mem: &mut [u16], i: u16, words: [u16; 5]) {
    let at = 1 + 5 * usize::from(i);
    for (k, v) in words.into_iter().enumerate() {
        put(mem, at + k, v);
    }
}

// Order word j of the formulas.
pub fn put_order(mem: &mut [u16], j: u16, i: u16) {
    put(mem, 10241 + usize::from(j), i);
}

// Failure i with the one item x, the i-th in order too.
pub fn put_failure(mem: &mut [u16], i: u16, x: u16) {
    let at = 12290 + 32 * usize::from(i);
    put(mem, at, 1);
    put(mem, at + 1, x);
    put(mem, 44290 + usize::from(i), i);
}

// The answer of the test, as document 01 numbers it.
pub fn tested(mem: &[u16]) -> u8 {
    if memory::well_formed(mem) {
        0
    } else {
        memory::WRONG_MEMORY
    }
}

pub fn say(rt: &impl Print, what: &str, answer: u8) -> io::Result<()> {
    println!(rt; "{what}: {answer}")
}

// An answer, and whether all words are as before.
pub fn say_both(
    rt: &impl Print,
    what: &str,
    answer: u8,
    mem: &[u16],
    before: &[u16],
) -> io::Result<()> {
    say(rt, what, answer)?;
    if mem == before {
        println!(rt; "  every word as before")
    } else {
        println!(rt; "  words changed")
    }
}

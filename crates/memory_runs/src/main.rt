// Lends memories that break one rule each and prints what the test answers: 0, or 12 where the words are not well-formed. Then fills a memory with formulas and with failures, and prints what is
// answered where there is no room, and whether a word has changed.
#![tactic(auto)]

pub mod words; // words.rt: a memory's words, writing them, and saying an answer
pub mod changes; // changes.rt: the changes that standard input lists: a small memory, one rule broken at a time, the highest and the longest formula and one more
pub mod full; // full.rt: no room for a formula, and none for a failure

use std::io;

// One word less: neither the test nor reset takes it, and no word changes.
fn one_word_less(rt: &impl Print) -> io::Result<()> {
    let mem = [0u16; 45289];
    words::say(rt, "one word less", words::tested(&mem))
}

fn reset_of_one_word_less(rt: &impl Print) -> io::Result<()> {
    let before = [7u16; 45289];
    let mut mem = [7u16; 45289];
    let answer = memory::reset(&mut mem);
    words::say_both(rt, "reset of one word less", answer, &mem, &before)
}

fn main(rt: HostRuntime) -> io::Result<()> {
    let mut mem = [7u16; memory::WORDS];
    words::say(&rt, "any words", words::tested(&mem))?;
    words::say(&rt, "reset", memory::reset(&mut mem))?;
    changes::each(&rt, &mut rt.reader(), &mut mem)?;
    one_word_less(&rt)?;
    reset_of_one_word_less(&rt)?;
    full::fill(&rt, &mut mem)
}

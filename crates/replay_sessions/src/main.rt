// Replays the oracle's sessions (docs/ORACLE.md): every question of the list is asked of `prove`, the questions of one session in one memory, and the answer, the counters, the tree's bytes and the
// failures held are compared with what the Rust said. Then questions at the limits of document 01, whose answers are settled.
#![tactic(auto)]

mod asking; // asking.rt: one call of `prove`, and what it said
mod message; // message.rt: questions put together byte by byte
mod replay; // replay.rt: the list
mod settled; // settled.rt: a call whose answer is settled
mod limits; // limits.rt: what passes at a limit, and what is refused past it
mod middle; // middle.rt: refusals in the middle of a search

use std::io;

// What is refused before a search.
fn print_entry(rt: &impl Print) -> io::Result<()> {
    limits::reading().print(rt, b" settled answers at reading")?;
    limits::settings().print(rt, b" settled answers at the settings")?;
    limits::memories().print(rt, b" settled answers at the lent memory")
}

fn main(rt: HostRuntime) -> io::Result<()> {
    replay::replay(&rt, &mut rt.reader())?;
    print_entry(&rt)?;
    limits::formulas().print(&rt, b" settled answers at full formulas")?;
    limits::failures().print(&rt, b" settled answers at full failures")?;
    limits::trees().print(&rt, b" settled answers at long trees")?;
    middle::refusals().print(&rt, b" settled refusals in the middle of a search")
}

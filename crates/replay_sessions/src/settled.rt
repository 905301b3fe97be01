// A settled call: what it has to answer and to leave, on a memory that holds nothing or one that was filled.
ghost use Rattle.std.specs.Prelude.{◌≡◌, length};

use crate::asking::{MESSAGE, Said, Settings, ask_into, failures_held, formulas_held, fresh};

// Document 01's number and the counters; how many formulas and failures are held afterwards.
#[derive(Clone, Copy, Debug, PartialEq, Eq)]
pub struct Expected {
    pub answer: u8,
    pub explored: usize,
    pub hits: usize,
    pub reached: usize,
    pub formulas: usize,
    pub failures: usize,
}

pub fn wanted(
    answer: u8,
    explored: usize,
    hits: usize,
    reached: usize,
    formulas: usize,
    failures: usize,
) -> Expected {
    Expected {
        answer,
        explored,
        hits,
        reached,
        formulas,
        failures,
    }
}

// What was said, with so many formulas and failures held.
pub fn left(said: Said, formulas: usize, failures: usize) -> Expected {
    wanted(
        said.answer,
        said.explored,
        said.hits,
        said.reached,
        formulas,
        failures,
    )
}

pub fn is(said: Said, mem: &[u16], e: Expected) -> bool {
    left(said, formulas_held(mem), failures_held(mem)) == e
}

// What the output buffer is filled with before a call.
const BLANK: u8 = 170;

fn blank() -> [u8; MESSAGE]
    ensures { 65539 ≡ length result }
{
    [BLANK; MESSAGE]
}

// The output buffer changes on 0 only.
fn is_kept(answer: u8, out: &[u8]) -> bool {
    answer == 0 || out == blank().as_slice()
}

// A call on a memory that was lent before, with so much room for the tree.
pub fn next(message: &[u8], by: Settings, room: usize, mem: &mut [u16], e: Expected) -> bool {
    let mut out = blank();
    let said = ask_into(message, by, mem, &mut out[..room.min(MESSAGE)]);
    is_kept(said.answer, &out) && is(said, mem, e)
}

// The same on a memory that holds nothing.
pub fn alone(message: &[u8], by: Settings, room: usize, e: Expected) -> bool {
    let mut mem = fresh();
    next(message, by, room, &mut mem, e)
}

// One call of `prove`: what it is asked with, and what it said.
ghost use Rattle.std.specs.Prelude.{◌≡◌, length};
ghost use Rattle.memory.specs.Meaning.{words};

use prover::Answer;
use search::counters::Counters;

pub const BUDGET: usize = 16384;

// The longest message has 65,538 bytes.
pub const MESSAGE: usize = 65539;

// Document 01's number of the answer, the counters, and how many bytes of a tree were written.
#[derive(Clone, Copy)]
pub struct Said {
    pub answer: u8,
    pub explored: usize,
    pub hits: usize,
    pub reached: usize,
    pub written: usize,
}

fn counted(answer: u8, c: Counters, written: usize) -> Said {
    Said {
        answer,
        explored: c.explored,
        hits: c.hits,
        reached: c.reached,
        written,
    }
}

fn told(answer: Answer) -> Said {
    match answer {
        Answer::Found(written, c) => counted(0, c, written),
        Answer::Nothing(c) => counted(1, c, 0),
        Answer::Refused(why, c) => counted(u8::from(why), c, 0),
    }
}

// How a question is asked.
#[derive(Clone, Copy)]
pub struct Settings {
    pub limit: usize,
    pub budget: usize,
    pub cache: bool,
}

// Document 01's usual settings, but for the depth limit and the cache.
pub fn to(limit: usize, cache: bool) -> Settings {
    Settings {
        limit,
        budget: BUDGET,
        cache,
    }
}

pub fn usual() -> Settings {
    to(32, true)
}

pub fn uncached() -> Settings {
    to(32, false)
}

// Room for the longest message.
pub fn room() -> [u8; MESSAGE]
    ensures { 65539 ≡ length result }
{
    [0; MESSAGE]
}

pub fn ask(
    message: &[u8],
    by: Settings,
    mem: &mut [u16],
    work: &mut [u64],
    out: &mut [u8],
) -> Said {
    told(prover::prove(message, by.limit, by.budget, by.cache, mem, work, out))
}

// The same, with a work slice of the longest budget.
pub fn ask_into(message: &[u8], by: Settings, mem: &mut [u16], out: &mut [u8]) -> Said {
    let mut work = [0u64; BUDGET];
    ask(message, by, mem, &mut work, out)
}

// The same, where no tree is looked at.
pub fn ask_only(message: &[u8], by: Settings, mem: &mut [u16]) -> Said {
    let mut out = room();
    ask_into(message, by, mem, &mut out)
}

// A memory that holds nothing.
pub fn fresh() -> [u16; memory::WORDS]
    ensures { words ≡ length result }
{
    let mut mem = [0u16; memory::WORDS];
    memory::reset(&mut mem);
    mem
}

fn word(mem: &[u16], at: usize) -> usize {
    mem.get(at).copied().map_or(0, usize::from)
}

// How many formulas and how many failures the memory holds (docs/MEMORY.md).
pub fn formulas_held(mem: &[u16]) -> usize {
    word(mem, 0)
}

pub fn failures_held(mem: &[u16]) -> usize {
    word(mem, memory::FORMULAS)
}

// The whole lent memory: the words of the formulas, then those of the failures, in one slice of WORDS words. What the search asks of it, by the number of a held formula or by a sequent of
// such numbers. For callers: `reset` and `well_formed`, on any words.
#![tactic(auto)]

pub mod shape; // shape.rt: a formula's sign and its parts, and an implication spelled out
pub mod failed; // failed.rt: looking a sequent up among the failures, and recording it

ghost use Rattle.held.specs.Answers.{Tells};
ghost use Rattle.memory.specs.Meaning.{Wf, ResetTo};

// How many words the formulas take, and how many there are together.
pub const FORMULAS: usize = 12289;

pub const WORDS: usize = 45290;

// Document 01's number of the refusal of a lent memory.
pub const WRONG_MEMORY: u8 = 12;

// Whether the words are well-formed. Any words may be lent.
pub fn well_formed(mem: &[u16]) -> bool
    ensures { Tells result (Wf mem.now) }
{
    mem.len() == WORDS
        && held::entry::well_formed(&mem[..FORMULAS])
        && failures::form::well_formed(&mem[..FORMULAS], &mem[FORMULAS..])
}

// No formula and no failure is held: 0. Any words of the right length may be lent; words of another length stay as they are: 12. The number itself: the C interface passes it on.
pub fn reset(mem: &mut [u16]) -> u8
    ensures { ResetTo mem.old result mem.new }
{
    if mem.len() != WORDS {
        return WRONG_MEMORY;
    }
    held::entry::reset(&mut mem[..FORMULAS]);
    failures::form::reset(&mut mem[FORMULAS..]);
    0
}

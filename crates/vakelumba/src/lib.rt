// The library for C and Rust: each public call under a plain name, over numbers, references and slices alone. Any bytes, words and places may be lent. A call returns document 01's number of its
// answer, and every place that is lent for a value is settled on every answer: 0 where there is nothing to say.
#![tactic(auto)]

mod proved; // proved.rt: the search's answer as its number, a length and the counters
mod said; // said.rt: an answer as its number and its value
mod shorts; // shorts.rt: what the calls of short trees answer, as its number and a length
mod verdict; // verdict.rt: the verifier's answer as its number and a record of the fault

ghost use Rattle.std.specs.Prelude.{◌≡◌};
ghost use Rattle.logic.specs.Formula as of;
ghost use Rattle.logic.specs.Text as as_text;
ghost use Rattle.wire.specs.Write.{write_formula};
ghost use Rattle.wire.specs.Read.{read_one, read_tree};
ghost use Rattle.formula.specs.Calls as calls;
ghost use Rattle.tree.specs.Answers.{depth_of};
ghost use Rattle.verify.specs.Verdicts.{checked};
ghost use Rattle.verify.specs.Walks.{mode_test};
ghost use Rattle.prover.specs.Promise.{call_of};
ghost use Rattle.memory.specs.Meaning.{words, ResetTo};
ghost use Rattle.short_trees.specs.Promise as promise;
ghost use Rattle.vakelumba.specs.Says.{of_written, of_positive, Says, TextSaid, TurnedSaid, FormedSaid};
ghost use Rattle.vakelumba.specs.Judged.{JudgedSaid};
ghost use Rattle.vakelumba.specs.Proved.{ProvedSaid};
ghost use Rattle.vakelumba.specs.Shorts.{ShortSaid};

use proved::{Counters, asked};
use said::{Said, tell, tell_positive};
use verdict::{Fault, judged};

// formula.rs: `negate`, of one formula.
#[unsafe(no_mangle)]
pub extern "C" fn vk_negate(s: &[u8], out: &mut [u8], written: &mut usize) -> u8
    ensures { TextSaid (λ f. write_formula (of.negate f)) s.now out.old result written.new out.new }
{
    tell(Said::from(formula::negate(s, out)), written)
}

// formula.rs: `desugar`, of one formula.
#[unsafe(no_mangle)]
pub extern "C" fn vk_desugar(s: &[u8], out: &mut [u8], written: &mut usize) -> u8
    ensures { TextSaid (λ f. write_formula (of.desugar f)) s.now out.old result written.new out.new }
{
    tell(Said::from(formula::desugar(s, out)), written)
}

// formula.rs: `pretty`, of one formula, in UTF-8.
#[unsafe(no_mangle)]
pub extern "C" fn vk_pretty(s: &[u8], out: &mut [u8], written: &mut usize) -> u8
    ensures { TextSaid as_text.pretty s.now out.old result written.new out.new }
{
    tell(Said::from(print::pretty(s, out)), written)
}

// formula.rs: `pretty_ascii`, of one formula.
#[unsafe(no_mangle)]
pub extern "C" fn vk_pretty_ascii(s: &[u8], out: &mut [u8], written: &mut usize) -> u8
    ensures { TextSaid as_text.pretty_ascii s.now out.old result written.new out.new }
{
    tell(Said::from(print::pretty_ascii(s, out)), written)
}

// formula.rs: `is_positive`, of one formula: 1 or 0.
#[unsafe(no_mangle)]
pub extern "C" fn vk_is_positive(s: &[u8], positive: &mut u8) -> u8
    ensures { Says (of_positive (calls.positive (read_one s.now))) result positive.new }
{
    tell_positive(formula::is_positive(s), positive)
}

// sequent.rs: `to_one_sided`, of one question.
#[unsafe(no_mangle)]
pub extern "C" fn vk_to_one_sided(s: &[u8], out: &mut [u8], written: &mut usize) -> u8
    ensures { TurnedSaid s.now out.old result written.new out.new }
{
    tell(Said::from(question::to_one_sided(s, out)), written)
}

// proof.rs: `depth`, of one tree.
#[unsafe(no_mangle)]
pub extern "C" fn vk_depth(s: &[u8], depth: &mut usize) -> u8
    ensures { Says (of_written (depth_of (read_tree s.now))) result depth.new }
{
    tell(Said::from(tree::depth(s)), depth)
}

// verify.rs: `verify_proof`, of one tree, in shape mode or in strict mode: where it is wrong, and why.
#[unsafe(no_mangle)]
pub extern "C" fn vk_verify(s: &[u8], strict: bool, fault: &mut Fault) -> u8
    ensures { JudgedSaid (checked (mode_test strict) (read_tree s.now)) result fault.new }
{
    let v = judged(s, strict);
    *fault = v.fault;
    v.number
}

// How many words a lent memory has.
#[unsafe(no_mangle)]
pub extern "C" fn vk_memory_words() -> usize
    ensures { result ≡ words }
{
    memory::WORDS
}

// No formula and no failure is held: 0. Words of another number stay as they are: 12.
#[unsafe(no_mangle)]
pub extern "C" fn vk_reset(mem: &mut [u16]) -> u8
    ensures { ResetTo mem.old result mem.new }
{
    memory::reset(mem)
}

// Whether the words are well-formed: 0 or 12.
#[unsafe(no_mangle)]
pub extern "C" fn vk_well_formed(mem: &[u16]) -> u8
    ensures { FormedSaid mem.now result }
{
    if memory::well_formed(mem) {
        0
    } else {
        memory::WRONG_MEMORY
    }
}

// search.rs: `Prover::prove`, of one question: the tree into `out`, its length into `written`, and explored, hits and depth reached into the lent counters. `mem` keeps formulas and failures for
// later calls until `vk_reset`; `work` has at least `budget` words.
#[unsafe(no_mangle)]
pub extern "C" fn vk_prove_into(
    counters: &mut Counters,
    question: &[u8],
    limit: usize,
    budget: usize,
    cache: bool,
    mem: &mut [u16],
    work: &mut [u64],
    out: &mut [u8],
    written: &mut usize,
) -> u8
    ensures { ProvedSaid (call_of question.now limit budget cache mem.old work.old out.old) result counters.new written.new mem.new work.new out.new }
{
    let t = asked(question, limit, budget, cache, mem, work, out, written);
    *counters = t.counters;
    t.number
}

// Document 02, 11/12: a full tree of a question, shortened: the short message into `out`, its length into `written`. `mem` keeps the formulas entered.
#[unsafe(no_mangle)]
pub extern "C" fn vk_shorten(
    question: &[u8],
    tree: &[u8],
    mem: &mut [u16],
    out: &mut [u8],
    written: &mut usize,
) -> u8
    ensures { ShortSaid promise.shortening (promise.call_of question.now tree.now mem.old out.old) result written.new mem.new out.new }
{
    tell(
        Said::from(short_trees::shorten(question, tree, mem, out)),
        written,
    )
}

// Document 02, 11/12: a short tree of a question, expanded: the full message into `out`, its length into `written`. `mem` keeps the formulas entered.
#[unsafe(no_mangle)]
pub extern "C" fn vk_expand(
    question: &[u8],
    short: &[u8],
    mem: &mut [u16],
    out: &mut [u8],
    written: &mut usize,
) -> u8
    ensures { ShortSaid promise.expanding (promise.call_of question.now short.now mem.old out.old) result written.new mem.new out.new }
{
    tell(
        Said::from(short_trees::expand(question, short, mem, out)),
        written,
    )
}

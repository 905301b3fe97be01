// The public call `prove` (search.rs: `Prover::prove`): a question in bytes, a lent memory, and a tree in bytes. Any bytes, settings and words may be lent; the answers are document 01's, in its
// order: 11, 12, reading, then what the search answers.
#![tactic(auto)]

ghost use Rattle.std.specs.Prelude.{◌≡◌};
ghost use Rattle.held.specs.Answers.{Tells};
ghost use Rattle.search.specs.Asked.{Asked};
ghost use Rattle.prover.specs.declared.Answer.TheVariants as answer;
ghost use Rattle.prover.specs.Promise.{Fit, zeroes, call_of, left_of, Promise};
ghost use Rattle.prover.specs.Steps.{Writable, Writes, Searches};

use ask::whole::read_into;
use expand::nodes::write_tree;
use formula::Refusal;
use memory::FORMULAS;
use search::counters::Counters;
use search::{Outcome, Prover};
use zones::Zones;

// What `prove` answers: how many bytes of a tree stand in the front of the output; that none was found; or a refusal. Three cases, as document 01 has them.
#[derive(Clone, Copy)]
pub enum Answer {
    Found(usize, Counters),
    Nothing(Counters),
    Refused(Refusal, Counters),
}

// Whether the settings fit (11).
fn settings_fit(limit: usize, budget: usize, room: usize) -> bool
    ensures { Tells result (Fit limit budget room) }
{
    limit <= Prover::MAX_DEPTH && 0 < budget && budget <= Prover::MAX_BUDGET && budget <= room
}

// A refusal before the search.
fn refused(why: Refusal) -> Answer
    ensures { result ≡ answer.Refused why zeroes }
{
    Answer::Refused(why, Counters::zero())
}

// A found tree's bytes, where there is room for them (10).
fn written(mem: &[u16], work: &[u64], z: Zones, c: Counters, out: &mut [u8]) -> Answer
    requires { Writable mem.now work.now z }
    ensures { Writes mem.now work.now z c out.old result out.new }
{
    match write_tree(&mem[..FORMULAS], work, z, out) {
        Some(n) => Answer::Found(n, c),
        None => Answer::Refused(Refusal::OutputShort, c),
    }
}

// A sequent of held formulas, searched.
fn search(p: Prover, z: Zones, mem: &mut [u16], work: &mut [u64], out: &mut [u8]) -> Answer
    requires { Asked p z mem.old work.old }
    ensures { Searches p z mem.old work.old out.old (left_of result mem.new work.new out.new) }
{
    match p.prove(z, mem, work) {
        Outcome::Found(_, c) => written(mem, work, z, c, out),
        Outcome::Nothing(c) => Answer::Nothing(c),
        Outcome::Refused(why, c) => Answer::Refused(why, c),
    }
}

// search.rs: `Prover::prove`, for a question in bytes. The memory's failures stay for later calls until `memory::reset`.
pub fn prove(
    question: &[u8],
    limit: usize,
    budget: usize,
    cache: bool,
    mem: &mut [u16],
    work: &mut [u64],
    out: &mut [u8],
) -> Answer
    ensures { Promise (call_of question.now limit budget cache mem.old work.old out.old) (left_of result mem.new work.new out.new) }
{
    if !settings_fit(limit, budget, work.len()) {
        return refused(Refusal::WrongSetting);
    }
    if !memory::well_formed(mem) {
        return refused(Refusal::WrongMemory);
    }
    let z = match read_into(mem, question) {
        Ok(z) => z,
        Err(why) => return refused(why),
    };
    let p = Prover {
        limit,
        budget,
        cache,
    };
    search(p, z, mem, work, out)
}

// The search's answer as document 01's number and the counters, with the tree's length stored where the caller lent a place for it.
ghost use Rattle.std.specs.Prelude.{◌≡◌};
ghost use Rattle.prover.specs.Promise.{call_of};
ghost use Rattle.vakelumba.specs.Proved.{counters_said, ReportSaid};

use prover::Answer;

// search.rs: `ProverStats`: the visits, the failures met again, and the greatest depth.
#[repr(C)]
#[derive(Clone, Copy, Debug, PartialEq, Eq)]
pub struct Counters {
    pub explored: usize,
    pub hits: usize,
    pub reached: usize,
}

#[derive(Clone, Copy, Debug, PartialEq, Eq)]
pub struct Report {
    pub number: u8,
    pub counters: Counters,
}

impl From<search::counters::Counters> for Counters {
    ghost from_gives = { λ c d. d ≡ counters_said c };

    fn from(c: search::counters::Counters) -> Counters {
        Counters {
            explored: c.explored,
            hits: c.hits,
            reached: c.reached,
        }
    }
}

fn reported(number: u8, c: search::counters::Counters) -> Report
    ensures { (result.number ≡ number) × (result.counters ≡ counters_said c) }
{
    Report {
        number,
        counters: Counters::from(c),
    }
}

// A question in bytes, searched: `prover::prove`, told by value. The length is 0 unless a tree was found.
pub fn asked(
    question: &[u8],
    limit: usize,
    budget: usize,
    cache: bool,
    mem: &mut [u16],
    work: &mut [u64],
    out: &mut [u8],
    written: &mut usize,
) -> Report
    ensures { ReportSaid (call_of question.now limit budget cache mem.old work.old out.old) result written.new mem.new work.new out.new }
{
    // Stored once, after the search, as the counters are.
    match prover::prove(question, limit, budget, cache, mem, work, out) {
        Answer::Found(n, c) => {
            *written = n;
            reported(0, c)
        }
        Answer::Nothing(c) => {
            *written = 0;
            reported(1, c)
        }
        Answer::Refused(why, c) => {
            *written = 0;
            reported(u8::from(why), c)
        }
    }
}

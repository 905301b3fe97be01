// The search of search.rs over a lent memory: `Prover`, its counters and its ring.
#![tactic(auto)]

pub mod counters; // counters.rt: `ProverStats`, by value
pub mod plan; // plan.rt: which rule comes next, and on what
pub mod ring; // ring.rt: visit, decomposition, focusing and the unrestricted rules, which call one another

ghost use Rattle.std.specs.Prelude.{◌≡◌};
ghost use Rattle.search.specs.Asked.{fresh, Asked, Proves};

use counters::Counters;
use formula::Refusal;
use ring::Spot;
use zones::Zones;

// What a search answers: a tree, as the words of its nodes, up to the next free word of the work slice; none; or a refusal.
// Three cases, as document 01 has them: let-else passes a refusal up, and if-let goes on.
#[derive(Clone, Copy)]
pub enum Outcome {
    Found(usize, Counters),
    Nothing(Counters),
    Refused(Refusal, Counters),
}

// search.rs: `Prover`. The failures stand in the lent memory.
#[derive(Clone, Copy)]
pub struct Prover {
    pub limit: usize,
    pub budget: usize,
    pub cache: bool,
}

impl Prover {
    pub const MAX_DEPTH: usize = 64;

    pub const MAX_FORMULAS: usize = 2048;

    pub const MAX_FAILURES: usize = 1000;

    pub const MAX_BUDGET: usize = 16384;

    pub const MAX_SEQUENT: usize = 31;

    // search.rs: `Prover::new`, with the whole budget and the cache on.
    pub fn new(limit: usize) -> Self
        ensures { result ≡ fresh limit }
    {
        Self {
            limit,
            budget: Self::MAX_BUDGET,
            cache: true,
        }
    }

    // search.rs: `Prover::prove`. The counters start at 0, the memory stays. At the limit it still searches.
    pub fn prove(self, z: Zones, mem: &mut [u16], work: &mut [u64]) -> Outcome
        requires { Asked self z mem.old work.old }
        ensures { Proves self z mem.old work.old result mem.new work.new }
    {
        let spot = Spot {
            left: self.limit + 1,
            depth: 0,
            at: 0,
        };
        self.visit(z, spot, Counters::zero(), mem, work)
    }
}

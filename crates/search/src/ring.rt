// The ring of search.rs: visit, decomposition, focusing and the unrestricted rules call one another. A node's word comes first, its premises' words after it, left to right.
ghost use Rattle.std.specs.Prelude.{◌≡◌, ◌+◌, ◌<◌, length};
ghost use Rattle.logic.specs.Formula.{Tensor, Plus};
ghost use Rattle.memory.specs.Meaning.{Wf, StandsIn, failed};
ghost use Rattle.search.specs.Walk.{seen};
ghost use Rattle.search.specs.Plans.{sequent, Two, FirstLolli};
ghost use Rattle.search.specs.Contract.{Leaf, FiledOr, Ready, Visits, Decomposes, Syncs, Chooses, Focuses, Splits, Pluses, Exponentials, Copies, Uses, Takes, Puts, PutsBoth};

use super::counters::Counters;
use super::plan::{
    Exponential, Focus, Plan, first_plan, focus_on, masks_over, node, premise, too_long,
};
use super::{Outcome, Prover};
use formula::Refusal;
use memory::failed::{known, record_failure};
use memory::shape::spell;
use rule::Rule;
use zones::Zones;

// Where a visit stands: how many depths are left, its depth, and the next free word of the work slice. The counters stay beside it: each call answers new ones. Memory and work stay two
// slices: each is lent on by itself.
#[derive(Clone, Copy)]
pub struct Spot {
    pub left: usize,
    pub depth: usize,
    pub at: usize,
}

// A node without premises.
fn leaf(x: u64, at: usize, c: Counters, work: &mut [u64]) -> Outcome
    requires { at < length work.old }
    ensures { Leaf x at c work.old result work.new }
{
    work[at] = x;
    Outcome::Found(at + 1, c)
}

impl Prover {
    // A recorded failure, where the cache is on.
    fn seen(self, z: Zones, mem: &[u16]) -> bool
        requires { Wf mem.now × StandsIn mem.now z }
        ensures { result ≡ seen self.cache self.budget (failed mem.now) (sequent mem.now z) }
    {
        self.cache && known(mem, z)
    }

    // A no after the rules is recorded, where the cache is on. False: there is no room.
    fn file(self, z: Zones, mem: &mut [u16]) -> bool
        requires { Wf mem.old × StandsIn mem.old z }
        ensures { FiledOr self mem.old z result mem.new }
    {
        !self.cache || record_failure(mem, z)
    }

    // search.rs: `prove_with_depth`
    #[cycle(ring)]
    pub fn visit(
        self,
        z: Zones,
        spot: Spot,
        c: Counters,
        mem: &mut [u16],
        work: &mut [u64],
    ) -> Outcome
        requires { Ready 0 z (spot.depth + spot.left) spot.at self c mem.old work.old }
        ensures { Visits self spot.left spot.depth z spot.at c mem.old work.old result mem.new work.new }
    {
        if self.budget <= c.explored {
            return Outcome::Refused(Refusal::BudgetSpent, c);
        }
        let c1 = c.visit();
        let c2 = c1.reach(spot.depth);
        if spot.left == 0 {
            return Outcome::Nothing(c2);
        }
        if self.seen(z, mem) {
            return Outcome::Nothing(c2.hit());
        }
        let a = self.prove_async(
            z,
            Spot {
                left: spot.left - 1,
                ..spot
            },
            c2,
            mem,
            work,
        );
        let Outcome::Nothing(c3) = a else {
            return a;
        };
        if self.file(z, mem) {
            Outcome::Nothing(c3)
        } else {
            Outcome::Refused(Refusal::FailuresFull, c3)
        }
    }

    // search.rs: `prove_async`
    #[cycle(ring)]
    fn prove_async(
        self,
        z: Zones,
        spot: Spot,
        c: Counters,
        mem: &mut [u16],
        work: &mut [u64],
    ) -> Outcome
        requires { Ready 1 z (spot.depth + (spot.left + 1)) spot.at self c mem.old work.old }
        ensures { Decomposes self spot.left spot.depth z spot.at c mem.old work.old result mem.new work.new }
    {
        let p = first_plan(mem, z);
        match p {
            Plan::Empty => Outcome::Nothing(c),
            Plan::Par(i, a, b) => {
                if z.count() == Self::MAX_SEQUENT {
                    return Outcome::Refused(Refusal::TooMany, c);
                }
                let y = z.without(i).pushed(a).pushed(b);
                self.under(y, node(Rule::ParIntro, i, 0), spot, c, mem, work)
            }
            Plan::Bottom(i) => {
                let y = z.without(i);
                self.under(y, node(Rule::BottomIntro, i, 0), spot, c, mem, work)
            }
            Plan::Top(i) => leaf(node(Rule::TopIntro, i, 0), spot.at, c, work),
            Plan::With(i, a, b) => {
                let y = z.without(i);
                self.both(
                    y.pushed(a),
                    y.pushed(b),
                    node(Rule::WithIntro, i, 0),
                    spot,
                    c,
                    mem,
                    work,
                )
            }
            Plan::WhyNot(i, a) => {
                let y = z.without(i).pushed_unrestricted(a);
                self.under(y, node(Rule::WhyNotIntro, i, 0), spot, c, mem, work)
            }
            Plan::Lolli(i, x) => self.spelled(z, i, x, spot, c, mem, work),
            Plan::Rest => self.prove_sync(z, spot, c, mem, work),
        }
    }

    // An implication is spelled out in its place, and visited at the same depth, with no node.
    #[cycle(ring)]
    fn spelled(
        self,
        z: Zones,
        i: usize,
        x: u16,
        spot: Spot,
        c: Counters,
        mem: &mut [u16],
        work: &mut [u64],
    ) -> Outcome
        requires { (Ready 1 z (spot.depth + (spot.left + 1)) spot.at self c mem.old work.old) × FirstLolli mem.old z i x }
        ensures { Decomposes self spot.left spot.depth z spot.at c mem.old work.old result mem.new work.new }
    {
        let Some(y) = spell(mem, x) else {
            return Outcome::Refused(Refusal::HeldFull, c);
        };
        self.visit(
            z.replaced(i, y),
            Spot {
                left: spot.left + 1,
                ..spot
            },
            c,
            mem,
            work,
        )
    }

    // search.rs: `prove_sync`. The pass over negated atoms finds nothing that the positives' pass did not.
    #[cycle(ring)]
    fn prove_sync(
        self,
        z: Zones,
        spot: Spot,
        c: Counters,
        mem: &mut [u16],
        work: &mut [u64],
    ) -> Outcome
        requires { Ready 1 z (spot.depth + (spot.left + 1)) spot.at self c mem.old work.old }
        ensures { Syncs self spot.left spot.depth z spot.at c mem.old work.old result mem.new work.new }
    {
        let a = self.positives(z, spot, c, mem, work);
        let Outcome::Nothing(c1) = a else {
            return a;
        };
        self.exponentials(z, spot, c1, mem, work)
    }

    // `prove_sync`'s loop over the positive formulas.
    #[cycle(ring)]
    fn positives(
        self,
        z: Zones,
        spot: Spot,
        c: Counters,
        mem: &mut [u16],
        work: &mut [u64],
    ) -> Outcome
        requires { Ready 1 z (spot.depth + (spot.left + 1)) spot.at self c mem.old work.old }
        ensures { Chooses self spot.left spot.depth z spot.at c mem.old work.old result mem.new work.new }
    {
        let n = z.linear_len;
        let mut c1 = c;
        for i in 0..n {
            let a = self.prove_focused(z, i, spot, c1, mem, work);
            if let Outcome::Nothing(c2) = a {
                c1 = c2;
            } else {
                return a;
            }
        }
        Outcome::Nothing(c1)
    }

    // search.rs: `prove_focused`
    #[cycle(ring)]
    fn prove_focused(
        self,
        z: Zones,
        i: usize,
        spot: Spot,
        c: Counters,
        mem: &mut [u16],
        work: &mut [u64],
    ) -> Outcome
        requires { (Ready 1 z (spot.depth + (spot.left + 1)) spot.at self c mem.old work.old) × (i < z.linear_len) }
        ensures { Focuses self spot.left spot.depth z spot.at c mem.old work.old result mem.new work.new i }
    {
        let f = focus_on(mem, z, i);
        match f {
            Focus::Axiom => leaf(node(Rule::Axiom, 0, 0), spot.at, c, work),
            Focus::One => leaf(node(Rule::OneIntro, 0, 0), spot.at, c, work),
            Focus::Tensor(a, b) => self.masks(z, i, a, b, spot, c, mem, work),
            Focus::Plus(a, b) => self.plus(z, i, a, b, spot, c, mem, work),
            Focus::OfCourse(a) => self.under(
                z.only(a),
                node(Rule::OfCourseIntro, i, 0),
                spot,
                c,
                mem,
                work,
            ),
            Focus::Nothing => Outcome::Nothing(c),
        }
    }

    // `prove_focused` at a Tensor: its loop over `all_splits`, one mask at a time.
    #[cycle(ring)]
    fn masks(
        self,
        z: Zones,
        i: usize,
        a: u16,
        b: u16,
        spot: Spot,
        c: Counters,
        mem: &mut [u16],
        work: &mut [u64],
    ) -> Outcome
        requires { (Ready 1 z (spot.depth + (spot.left + 1)) spot.at self c mem.old work.old) × Two Tensor mem.old z i a b }
        ensures { Splits self spot.left spot.depth z spot.at c mem.old work.old result mem.new work.new i a b }
    {
        let n = masks_over(z.linear_len - 1);
        let mut c1 = c;
        for m in 0..n {
            let r = self.both(
                z.left_part(i, m, a),
                z.right_part(i, m, b),
                node(Rule::TensorIntro, i, m),
                spot,
                c1,
                mem,
                work,
            );
            if let Outcome::Nothing(c2) = r {
                c1 = c2;
            } else {
                return r;
            }
        }
        Outcome::Nothing(c1)
    }

    // `prove_focused` at a Plus: left, then right.
    #[cycle(ring)]
    fn plus(
        self,
        z: Zones,
        i: usize,
        a: u16,
        b: u16,
        spot: Spot,
        c: Counters,
        mem: &mut [u16],
        work: &mut [u64],
    ) -> Outcome
        requires { (Ready 1 z (spot.depth + (spot.left + 1)) spot.at self c mem.old work.old) × Two Plus mem.old z i a b }
        ensures { Pluses self spot.left spot.depth z spot.at c mem.old work.old result mem.new work.new i a b }
    {
        let r = self.under(
            z.replaced(i, a),
            node(Rule::PlusIntroLeft, i, 0),
            spot,
            c,
            mem,
            work,
        );
        let Outcome::Nothing(c1) = r else {
            return r;
        };
        self.under(
            z.replaced(i, b),
            node(Rule::PlusIntroRight, i, 0),
            spot,
            c1,
            mem,
            work,
        )
    }

    // `prove_sync` at the unrestricted zone: Dereliction over the whole zone, then the other two.
    #[cycle(ring)]
    fn exponentials(
        self,
        z: Zones,
        spot: Spot,
        c: Counters,
        mem: &mut [u16],
        work: &mut [u64],
    ) -> Outcome
        requires { Ready 1 z (spot.depth + (spot.left + 1)) spot.at self c mem.old work.old }
        ensures { Exponentials self spot.left spot.depth z spot.at c mem.old work.old result mem.new work.new }
    {
        let a = self.unrestricted(Exponential::Dereliction, z, spot, c, mem, work);
        let Outcome::Nothing(c1) = a else {
            return a;
        };
        self.copies(z, spot, c1, mem, work)
    }

    // Contraction over the whole zone, then Weakening.
    #[cycle(ring)]
    fn copies(self, z: Zones, spot: Spot, c: Counters, mem: &mut [u16], work: &mut [u64]) -> Outcome
        requires { Ready 1 z (spot.depth + (spot.left + 1)) spot.at self c mem.old work.old }
        ensures { Copies self spot.left spot.depth z spot.at c mem.old work.old result mem.new work.new }
    {
        let a = self.unrestricted(Exponential::Contraction, z, spot, c, mem, work);
        let Outcome::Nothing(c1) = a else {
            return a;
        };
        self.unrestricted(Exponential::Weakening, z, spot, c1, mem, work)
    }

    // search.rs: `try_dereliction`, `try_contraction`, `try_weakening`
    #[cycle(ring)]
    fn unrestricted(
        self,
        rule: Exponential,
        z: Zones,
        spot: Spot,
        c: Counters,
        mem: &mut [u16],
        work: &mut [u64],
    ) -> Outcome
        requires { Ready 1 z (spot.depth + (spot.left + 1)) spot.at self c mem.old work.old }
        ensures { Uses self spot.left spot.depth z spot.at c mem.old work.old result mem.new work.new rule }
    {
        let n = z.unrestricted_len;
        let mut c1 = c;
        for i in 0..n {
            let a = self.taken(rule, z, i, spot, c1, mem, work);
            if let Outcome::Nothing(c2) = a {
                c1 = c2;
            } else {
                return a;
            }
        }
        Outcome::Nothing(c1)
    }

    // One of the three at place i of the unrestricted zone.
    #[cycle(ring)]
    fn taken(
        self,
        rule: Exponential,
        z: Zones,
        i: usize,
        spot: Spot,
        c: Counters,
        mem: &mut [u16],
        work: &mut [u64],
    ) -> Outcome
        requires { (Ready 1 z (spot.depth + (spot.left + 1)) spot.at self c mem.old work.old) × (i < z.unrestricted_len) }
        ensures { Takes self spot.left spot.depth z spot.at c mem.old work.old result mem.new work.new rule i }
    {
        if too_long(rule, z) {
            return Outcome::Refused(Refusal::TooMany, c);
        }
        self.under(
            premise(rule, z, i),
            node(Rule::from(rule), i, 0),
            spot,
            c,
            mem,
            work,
        )
    }

    // A rule of one premise.
    #[cycle(ring)]
    fn under(
        self,
        y: Zones,
        x: u64,
        spot: Spot,
        c: Counters,
        mem: &mut [u16],
        work: &mut [u64],
    ) -> Outcome
        requires { Ready 1 y (spot.depth + (spot.left + 1)) spot.at self c mem.old work.old }
        ensures { Puts self spot.left spot.depth y spot.at c mem.old work.old result mem.new work.new x }
    {
        let a = self.visit(
            y,
            Spot {
                depth: spot.depth + 1,
                at: spot.at + 1,
                ..spot
            },
            c,
            mem,
            work,
        );
        let Outcome::Found(end, c1) = a else {
            return a;
        };
        work[spot.at] = x;
        Outcome::Found(end, c1)
    }

    // A rule of two premises, left first.
    #[cycle(ring)]
    fn both(
        self,
        y: Zones,
        u: Zones,
        x: u64,
        spot: Spot,
        c: Counters,
        mem: &mut [u16],
        work: &mut [u64],
    ) -> Outcome
        requires { (Ready 1 y (spot.depth + (spot.left + 1)) spot.at self c mem.old work.old) × StandsIn mem.old u }
        ensures { PutsBoth self spot.left spot.depth y spot.at c mem.old work.old result mem.new work.new x u }
    {
        let a = self.visit(
            y,
            Spot {
                depth: spot.depth + 1,
                at: spot.at + 1,
                ..spot
            },
            c,
            mem,
            work,
        );
        let Outcome::Found(middle, c1) = a else {
            return a;
        };
        let b = self.visit(
            u,
            Spot {
                depth: spot.depth + 1,
                at: middle,
                ..spot
            },
            c1,
            mem,
            work,
        );
        let Outcome::Found(end, c2) = b else {
            return b;
        };
        work[spot.at] = x;
        Outcome::Found(end, c2)
    }
}

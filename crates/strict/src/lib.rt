// Legal steps, document 01: whether a node follows from its premises by its rule. Zones are compared as multisets, the linear zone with each implication at the top of a formula spelled
// out; the principal formula is looked for at every place of its zone.
#![tactic(auto)]

ghost use Rattle.std.specs.Prelude.{◌≡◌, ◌≤◌, ◌<◌, length};
ghost use Rattle.bags.specs.Runs.{Short, RunWithin};
ghost use Rattle.tree.specs.Places.{Within};
ghost use Rattle.strict.specs.Zones.{part_how, LinearRun, UnrestrictedRun, NodeInside, PartEnds, PrincipalAt, PlainRun, StandsIn};
ghost use Rattle.strict.specs.Steps.{bottom_step, par_step, with_step, tensor_step, of_course_step, why_not_step, takes_out, weakening_step, contraction_step, dereliction_step};
ghost use Rattle.strict.specs.Steps.{Ready, Keeps, Replaced, StepIs, PartStepIs, TwoStepsAre, StepAt, SomeStep, CutIs, OnePremise, TwoPremises, LegalStep};

use bags::{How, Place, Run};
use rule::Rule;
use tree::{Node, Span};

// The linear zone, as strict mode reads it, and the unrestricted zone. Two functions: the steps below say by name which zone they compare.
fn linear(n: Node) -> Run
    ensures { LinearRun n result }
{
    Run {
        at: n.linear.start,
        end: n.linear.end,
        how: How::Spelled,
    }
}

fn unrestricted(n: Node) -> Run
    ensures { UnrestrictedRun n result }
{
    Run {
        at: n.unrestricted.start,
        end: n.unrestricted.end,
        how: How::Plain,
    }
}

// A formula of a zone with its parts, spelled out at the top: its tag, the whole, the left part and the right.
#[derive(Clone, Copy)]
pub struct Principal {
    pub tag: u8,
    pub whole: Run,
    pub left: Run,
    pub right: Run,
}

// The place after the formula at a place, where there is one before `end`.
fn part_end(s: &[u8], at: usize, end: usize) -> usize
    requires { end ≤ length s.now }
    ensures { PartEnds s.now at end result }
{
    if at < end {
        tree::next_formula(s, at, end)
    } else {
        end
    }
}

// How the left part of a formula with this tag is read. That of an implication is negated.
fn part_how(tag: u8) -> How
    ensures { result ≡ part_how tag }
{
    if tag == 10 {
        How::Negated
    } else {
        How::Spelled
    }
}

// The formula at a place, which ends at `end`.
fn principal_at(s: &[u8], at: usize, end: usize) -> Principal
    requires { (at < end) × (end ≤ length s.now) }
    ensures { PrincipalAt s.now at end result }
{
    let tag = tree::byte_at(s, at);
    let next = tree::after(s, at, 1);
    let middle = part_end(s, next, end);
    Principal {
        tag: bags::sign(tag, How::Spelled),
        whole: Run {
            at,
            end,
            how: How::Spelled,
        },
        left: Run {
            at: next,
            end: middle,
            how: part_how(tag),
        },
        right: Run {
            at: middle,
            end,
            how: How::Spelled,
        },
    }
}

// The same formulas, as they stand.
fn plain(run: Run) -> Run
    ensures { PlainRun run result }
{
    Run {
        how: How::Plain,
        ..run
    }
}

// The formula of a run, which has one, stands in a zone.
fn stands_in(s: &[u8], f: Run, zone: Run) -> bool
    requires { RunWithin (length s.now) f × RunWithin (length s.now) zone }
    ensures { StandsIn s.now f zone result }
{
    let x = Place {
        at: f.at,
        how: f.how,
    };
    bags::times(s, zone, x) > 0
}

// A node of a message, `q`, and its premises, `p` and `p2`. One premise alone stands here twice.
#[derive(Clone, Copy)]
struct Premises<'a> {
    s: &'a [u8],
    q: Node,
    p: Node,
    p2: Node,
    ghost short: { Short s.now },
    ghost conclusion_inside: { NodeInside (length s.now) q },
    ghost premise_inside: { NodeInside (length s.now) p },
    ghost second_inside: { NodeInside (length s.now) p2 },
}

// The same with a principal formula, `f`.
#[derive(Clone, Copy)]
struct Step<'a> {
    of: Premises<'a>,
    f: Principal,
    ghost ready: { Ready of.s.now f of.q of.p },
}

impl<'a> Premises<'a> {
    fn keeps_zone(&self, p: Node) -> bool
        requires { NodeInside (length self.now.s.now) p }
        ensures { Keeps self.now.s.now self.now.q p result }
    {
        bags::same_bag(self.s, &[unrestricted(p)], &[unrestricted(self.q)])
    }

    // Some formula of the zone makes the step legal.
    fn some_step(&self, zone: Span) -> bool
        requires { Within (length self.now.s.now) zone }
        ensures { SomeStep self.now.s.now zone self.now.q self.now.p self.now.p2 result }
    {
        let mut x = zone.start;
        // From formula to formula: no `for` over the bytes.
        while x < zone.end {
            let next = tree::next_formula(self.s, x, zone.end);
            let step = Step {
                of: *self,
                f: principal_at(self.s, x, next),
            };
            if step.is_legal() {
                return true;
            }
            x = next;
        }
        false
    }

    fn cut_step(&self) -> bool
        ensures { CutIs self.now.s.now self.now.q self.now.p self.now.p2 result }
    {
        let at = self.q.argument;
        let end = part_end(self.s, at, self.s.len());
        let cut = Run {
            at,
            end,
            how: How::Spelled,
        };
        let dual = Run {
            how: How::Negated,
            ..cut
        };
        stands_in(self.s, cut, linear(self.p))
            && stands_in(self.s, dual, linear(self.p2))
            && bags::same_bag(
                self.s,
                &[linear(self.p), linear(self.p2)],
                &[cut, dual, linear(self.q)],
            )
    }
}

impl<'a> Step<'a> {
    fn bottom_step(&self) -> bool
        ensures { StepIs self.now.of.s.now self.now.f self.now.of.q self.now.of.p bottom_step result }
    {
        self.f.tag == 1
            && bags::same_bag(
                self.of.s,
                &[linear(self.of.q)],
                &[self.f.whole, linear(self.of.p)],
            )
    }

    fn par_step(&self) -> bool
        ensures { StepIs self.now.of.s.now self.now.f self.now.of.q self.now.of.p par_step result }
    {
        self.f.tag == 7
            && bags::same_bag(
                self.of.s,
                &[self.f.whole, linear(self.of.p)],
                &[self.f.left, self.f.right, linear(self.of.q)],
            )
    }

    // One part in the place of the whole.
    fn is_replaced(&self, part: Run, p: Node) -> bool
        requires { RunWithin (length self.now.of.s.now) part × NodeInside (length self.now.of.s.now) p }
        ensures { Replaced self.now.of.s.now self.now.f.whole part self.now.of.q p result }
    {
        bags::same_bag(
            self.of.s,
            &[self.f.whole, linear(p)],
            &[part, linear(self.of.q)],
        )
    }

    fn with_step(&self) -> bool
        ensures { TwoStepsAre self.now.of.s.now self.now.f self.now.of.q self.now.of.p self.now.of.p2 with_step result }
    {
        self.f.tag == 8
            && self.is_replaced(self.f.left, self.of.p)
            && self.is_replaced(self.f.right, self.of.p2)
    }

    fn plus_step(&self, part: Run) -> bool
        requires { RunWithin (length self.now.of.s.now) part }
        ensures { PartStepIs self.now.of.s.now self.now.f self.now.of.q self.now.of.p part result }
    {
        self.f.tag == 9 && self.is_replaced(part, self.of.p)
    }

    fn tensor_step(&self) -> bool
        ensures { TwoStepsAre self.now.of.s.now self.now.f self.now.of.q self.now.of.p self.now.of.p2 tensor_step result }
    {
        self.f.tag == 6
            && stands_in(self.of.s, self.f.left, linear(self.of.p))
            && stands_in(self.of.s, self.f.right, linear(self.of.p2))
            && bags::same_bag(
                self.of.s,
                &[self.f.whole, linear(self.of.p), linear(self.of.p2)],
                &[self.f.left, self.f.right, linear(self.of.q)],
            )
    }

    fn of_course_step(&self) -> bool
        ensures { StepIs self.now.of.s.now self.now.f self.now.of.q self.now.of.p of_course_step result }
    {
        self.f.tag == 11
            && bags::same_bag(self.of.s, &[linear(self.of.q)], &[self.f.whole])
            && bags::same_bag(self.of.s, &[linear(self.of.p)], &[self.f.left])
    }

    fn why_not_step(&self) -> bool
        ensures { StepIs self.now.of.s.now self.now.f self.now.of.q self.now.of.p why_not_step result }
    {
        self.f.tag == 12
            && bags::same_bag(
                self.of.s,
                &[linear(self.of.q)],
                &[self.f.whole, linear(self.of.p)],
            )
            && bags::same_bag(
                self.of.s,
                &[unrestricted(self.of.p)],
                &[plain(self.f.left), unrestricted(self.of.q)],
            )
    }

    // The formula is taken out of the unrestricted zone.
    fn takes_out(&self) -> bool
        ensures { StepIs self.now.of.s.now self.now.f self.now.of.q self.now.of.p takes_out result }
    {
        bags::same_bag(
            self.of.s,
            &[unrestricted(self.of.q)],
            &[plain(self.f.whole), unrestricted(self.of.p)],
        )
    }

    // Three rules, each with its own premise's linear zone: one function would only be passed that zone.
    fn weakening_step(&self) -> bool
        ensures { StepIs self.now.of.s.now self.now.f self.now.of.q self.now.of.p weakening_step result }
    {
        bags::same_bag(self.of.s, &[linear(self.of.p)], &[linear(self.of.q)]) && self.takes_out()
    }

    fn contraction_step(&self) -> bool
        ensures { StepIs self.now.of.s.now self.now.f self.now.of.q self.now.of.p contraction_step result }
    {
        bags::same_bag(
            self.of.s,
            &[linear(self.of.p)],
            &[self.f.whole, self.f.whole, linear(self.of.q)],
        ) && self.takes_out()
    }

    fn dereliction_step(&self) -> bool
        ensures { StepIs self.now.of.s.now self.now.f self.now.of.q self.now.of.p dereliction_step result }
    {
        bags::same_bag(
            self.of.s,
            &[linear(self.of.p)],
            &[self.f.whole, linear(self.of.q)],
        ) && self.takes_out()
    }

    // The step is legal with this formula as the principal one, but for the unrestricted zones that it keeps.
    fn is_legal(&self) -> bool
        ensures { StepAt self.now.of.s.now self.now.f self.now.of.q self.now.of.p self.now.of.p2 result }
    {
        let Ok(rule) = Rule::try_from(self.of.q.rule) else {
            return false;
        };
        match rule {
            Rule::BottomIntro => self.bottom_step(),
            Rule::TensorIntro => self.tensor_step(),
            Rule::ParIntro => self.par_step(),
            Rule::WithIntro => self.with_step(),
            Rule::PlusIntroLeft => self.plus_step(self.f.left),
            Rule::PlusIntroRight => self.plus_step(self.f.right),
            Rule::OfCourseIntro => self.of_course_step(),
            Rule::WhyNotIntro => self.why_not_step(),
            Rule::Weakening => self.weakening_step(),
            Rule::Contraction => self.contraction_step(),
            Rule::Dereliction => self.dereliction_step(),
            _ => false,
        }
    }
}

fn one_premise(s: &[u8], q: Node) -> bool
    requires { Short s.now × NodeInside (length s.now) q }
    ensures { OnePremise s.now q result }
{
    let p = tree::node_at(s, q.next);
    let premises = Premises { s, q, p, p2: p };
    // The rules past WhyNotIntro work on the unrestricted zone.
    let why_not = u8::from(Rule::WhyNotIntro);
    if q.rule > why_not {
        return premises.some_step(q.unrestricted);
    }
    (q.rule == why_not || premises.keeps_zone(p)) && premises.some_step(q.linear)
}

fn two_premises(s: &[u8], q: Node) -> bool
    requires { Short s.now × NodeInside (length s.now) q }
    ensures { TwoPremises s.now q result }
{
    let p = tree::node_at(s, q.next);
    let p2 = tree::node_at(s, tree::after_tree(s, q.next));
    let premises = Premises { s, q, p, p2 };
    if !premises.keeps_zone(p) || !premises.keeps_zone(p2) {
        return false;
    }
    if q.rule == u8::from(Rule::Cut) {
        premises.cut_step()
    } else {
        premises.some_step(q.linear)
    }
}

// The step at a node that shape mode passes is legal. Shape mode has then tested the leaves, and each rule's premises are as many as it wants; focus rules and Blur are no steps.
pub fn legal(s: &[u8], q: Node) -> bool
    requires { Short s.now × NodeInside (length s.now) q }
    ensures { LegalStep s.now q result }
{
    if q.rule > u8::from(Rule::Dereliction) {
        return false;
    }
    match q.premises {
        0 => true,
        1 => one_premise(s, q),
        _ => two_premises(s, q),
    }
}

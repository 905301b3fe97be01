// Which rule comes next, and on what. Formulas are numbers of held ones.
ghost use Rattle.std.specs.Prelude.{◌≡◌, false, ◌^◌, ◌<◌, ◌≤◌};
ghost use Rattle.logic.specs.Formula.{Atom};
ghost use Rattle.zones.specs.Zones.{Fits};
ghost use Rattle.memory.specs.Meaning.{Wf, StandsIn, held_count};
ghost use Rattle.expand.specs.Short as short;
ghost use Rattle.rule.specs.Numbers as rules;
ghost use Rattle.search.specs.Plans.{PlannedAt, Planned, Focused, linear_formula, number_of, long, Premise};

use super::Prover;
use memory::shape::{Shape, shape_at};
use rule::Rule;
use zones::Zones;

// search.rs: `prove_async`: the first decomposable formula from the left, its place and its parts.
#[derive(Clone, Copy)]
pub enum Plan {
    Empty,
    Par(usize, u16, u16),
    Bottom(usize),
    Top(usize),
    With(usize, u16, u16),
    WhyNot(usize, u16),
    Lolli(usize, u16),
    Rest,
}

// What one formula, at place i, gives there; `Rest` where it is not decomposable.
fn plan_at(mem: &[u16], x: u16, i: usize) -> Plan
    requires { Wf mem.now × (x < held_count mem.now) }
    ensures { PlannedAt mem.now x i result }
{
    let s = shape_at(mem, x);
    match s {
        Shape::Par(a, b) => Plan::Par(i, a, b),
        Shape::Bottom => Plan::Bottom(i),
        Shape::Top => Plan::Top(i),
        Shape::With(a, b) => Plan::With(i, a, b),
        Shape::WhyNot(a) => Plan::WhyNot(i, a),
        Shape::Lolli(_, _) => Plan::Lolli(i, x),
        _ => Plan::Rest,
    }
}

pub fn first_plan(mem: &[u16], z: Zones) -> Plan
    requires { Wf mem.now × StandsIn mem.now z }
    ensures { Planned mem.now z result }
{
    let n = z.linear_len;
    if n == 0 {
        return Plan::Empty;
    }
    for i in 0..n {
        let p = plan_at(mem, z.linear[i], i);
        let Plan::Rest = p else {
            return p;
        };
    }
    Plan::Rest
}

// search.rs: `prove_focused`: what focusing on a formula gives.
#[derive(Clone, Copy)]
pub enum Focus {
    Axiom,
    One,
    Tensor(u16, u16),
    Plus(u16, u16),
    OfCourse(u16),
    Nothing,
}

// The axiom's test: beside the atom at place i stands its negation, and nothing else.
fn axiom_at(mem: &[u16], z: Zones, i: usize, name: u16) -> Focus
    requires { (Wf mem.now × StandsIn mem.now z) × ((i < z.linear_len) × (linear_formula mem.now z i ≡ Atom name)) }
    ensures { Focused mem.now z i result }
{
    if z.linear_len == 2 {
        let s = shape_at(mem, z.linear[1 - i]);
        if let Shape::NegAtom(other) = s {
            if other == name {
                return Focus::Axiom;
            }
        }
    }
    Focus::Nothing
}

pub fn focus_on(mem: &[u16], z: Zones, i: usize) -> Focus
    requires { (Wf mem.now × StandsIn mem.now z) × (i < z.linear_len) }
    ensures { Focused mem.now z i result }
{
    let s = shape_at(mem, z.linear[i]);
    match s {
        Shape::Atom(name) => axiom_at(mem, z, i, name),
        Shape::One => if z.linear_len == 1 {
            Focus::One
        } else {
            Focus::Nothing
        },
        Shape::Tensor(a, b) => Focus::Tensor(a, b),
        Shape::Plus(a, b) => Focus::Plus(a, b),
        Shape::OfCourse(a) => if z.linear_len == 1 {
            Focus::OfCourse(a)
        } else {
            Focus::Nothing
        },
        _ => Focus::Nothing,
    }
}

// The rules on the unrestricted zone. All three take the formula out; the first adds one copy, the second two.
#[derive(Clone, Copy)]
pub enum Exponential {
    Dereliction,
    Contraction,
    Weakening,
}

impl From<Exponential> for Rule {
    ghost from_gives = { λ exponential rule. rules.number_of rule ≡ number_of exponential };

    fn from(exponential: Exponential) -> Rule {
        match exponential {
            Exponential::Dereliction => Rule::Dereliction,
            Exponential::Contraction => Rule::Contraction,
            Exponential::Weakening => Rule::Weakening,
        }
    }
}

// The premise would have more than 31 formulas.
pub fn too_long(rule: Exponential, z: Zones) -> bool
    requires { Fits z }
    ensures { result ≡ long rule z }
{
    match rule {
        Exponential::Contraction => z.count() == Prover::MAX_SEQUENT,
        _ => false,
    }
}

// The premise, where it is not too long.
pub fn premise(rule: Exponential, z: Zones, i: usize) -> Zones
    requires { Fits z × ((i < z.unrestricted_len) × (long rule z ≡ false)) }
    ensures { Premise rule z i result }
{
    let a = z.unrestricted[i];
    let y = z.without_unrestricted(i);
    match rule {
        Exponential::Dereliction => y.pushed(a),
        Exponential::Contraction => y.pushed(a).pushed(a),
        Exponential::Weakening => y,
    }
}

// A node's word: the rule's number, the place of the principal formula in its zone, the mask. As step's `node_word`: neither crate uses the other.
pub fn word(rule: u64, place: usize, mask: usize) -> u64
    requires { (rule < 32) × ((place < 32) × (mask < 1073741824)) }
    ensures { result ≡ short.word rule place mask }
{
    rule + 32 * (place as u64) + 1024 * (mask as u64)
}

// The word of a node of this rule.
pub fn node(rule: Rule, place: usize, mask: usize) -> u64
    requires { (place < 32) × (mask < 1073741824) }
    ensures { result ≡ short.word (rules.number_of rule) place mask }
{
    word(u64::from(u8::from(rule)), place, mask)
}

// How many masks there are over n items.
pub fn masks_over(n: usize) -> usize
    requires { n ≤ 30 }
    ensures { result ≡ 2 ^ n }
{
    1 << n
}

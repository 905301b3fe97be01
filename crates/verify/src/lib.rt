// `verify_proof` of verify.rs, on a tree in bytes, in shape mode and in strict mode. All reading ends before any checking: a tree that cannot be read is refused.
#![tactic(auto)]

ghost use Rattle.std.specs.Prelude.{◌≡◌, Bool, ◌+◌, ◌≤◌, length};
ghost use Rattle.logic.specs.Verify.{need_premises, shape_at};
ghost use Rattle.logic.specs.Strict.{strict_fault};
ghost use Rattle.wire.specs.Read.{read_tree};
ghost use Rattle.tree.specs.Places.{Within};
ghost use Rattle.bags.specs.Runs.{Short};
ghost use Rattle.strict.specs.Zones.{NodeInside};
ghost use Rattle.verify.specs.Shapes.{in_order, HasTag, IsAxiom, IsOne, ShapeFault};
ghost use Rattle.verify.specs.Verdicts.{no_fault, fault_of, told, checked};
ghost use Rattle.verify.specs.Walks.{mode_test, Faulted, Walk, PremisesWalk};
ghost use Rattle.verify.specs.declared.Rejected.TheVariants.{Refused};

use formula::Refusal;
use rule::Rule;
use std::error::Error;
use std::fmt;
use tree::{HIGHEST_TREE, Node, Span};

// Which test of a rule comes first: its shape or its premises' count.
#[derive(Clone, Copy, Debug, PartialEq, Eq)]
pub enum Order {
    Shape,
    Count,
}

// What is wrong at a node.
#[derive(Clone, Copy, Debug, PartialEq, Eq)]
pub enum Fault {
    Invalid,
    Count { expected: usize, got: usize },
    Mismatch,
}

// Why `verify` does not accept. A rule is its number; nodes are numbered in preorder, the root 0; wrappers are the steps below the root.
#[derive(Clone, Copy, Debug, PartialEq, Eq)]
pub enum Rejected {
    Refused(Refusal),
    Invalid {
        rule: u8,
        node: usize,
        wrappers: usize,
    },
    WrongCount {
        rule: u8,
        node: usize,
        wrappers: usize,
        expected: usize,
        got: usize,
    },
    Mismatch {
        rule: u8,
        node: usize,
        wrappers: usize,
    },
}

impl From<Refusal> for Rejected {
    ghost from_gives = { λ why r. r ≡ Refused why };

    fn from(why: Refusal) -> Rejected {
        Rejected::Refused(why)
    }
}

impl fmt::Display for Rejected {
    fn fmt<W: fmt::Write>(&self, f: &mut fmt::Formatter<W>) -> fmt::Result {
        match self {
            Rejected::Refused(why) => write!(f, "{why}"),
            Rejected::Invalid { rule, node, .. } => write!(
                f,
                "node {node}: rule {rule} does not fit"
            ),
            Rejected::WrongCount {
                rule,
                node,
                expected,
                got,
                ..
            } => write!(
                f,
                "node {node}: rule {rule} takes {expected} premises, not {got}"
            ),
            Rejected::Mismatch { rule, node, .. } => {
                write!(f, "node {node}: no step of rule {rule}")
            }
        }
    }
}

impl Error for Rejected {}

// How far a walk has passed: the next place and the next node's number.
#[derive(Clone, Copy, Debug, PartialEq, Eq)]
pub struct Passed {
    pub next: usize,
    pub number: usize,
}

// Some formula of the zone has this tag.
fn has_tag(s: &[u8], zone: Span, tag: u8) -> bool
    requires { Within (length s.now) zone }
    ensures { HasTag s.now zone tag result }
{
    let mut p = zone.start;
    // From formula to formula: no `for` over the bytes.
    while p < zone.end {
        if s[p] == tag {
            return true;
        }
        p = tree::next_formula(s, p, zone.end);
    }
    false
}

// The zone is a name and the same name negated, in either order.
fn is_axiom(s: &[u8], zone: Span) -> bool
    requires { Within (length s.now) zone }
    ensures { IsAxiom s.now zone result }
{
    let at = zone.start;
    zone.end - at == 6
        && matches!((s[at], s[at + 3]), (4, 5) | (5, 4))
        && tree::two_at(s, at + 1) == tree::two_at(s, at + 4)
}

// The zone is 1 alone.
fn is_one(s: &[u8], zone: Span) -> bool
    requires { Within (length s.now) zone }
    ensures { IsOne s.now zone result }
{
    let at = zone.start;
    zone.end - at == 1 && s[at] == 0
}

// The premises' count alone.
fn count_fault(expected: usize, got: usize) -> Option<Fault>
    ensures { result ≡ fault_of (need_premises expected got no_fault) }
{
    if got == expected {
        None
    } else {
        Some(Fault::Count { expected, got })
    }
}

// A rule's shape and its premises' count, in the rule's order.
fn ordered_fault(first: Order, is_shaped: bool, expected: usize, got: usize) -> Option<Fault>
    ensures { result ≡ fault_of (in_order first is_shaped expected got) }
{
    let shape = (!is_shaped).then_some(Fault::Invalid);
    let count = count_fault(expected, got);
    match first {
        Order::Shape => shape.or(count),
        Order::Count => count.or(shape),
    }
}

// verify.rs: `verify_rule_application`, with its order of tests for each rule.
fn shape_fault(s: &[u8], n: Node) -> Option<Fault>
    requires { Within (length s.now) n.linear }
    ensures { ShapeFault s.now n result }
{
    let got = n.premises;
    let zone = n.linear;
    let Ok(rule) = Rule::try_from(n.rule) else {
        return None;
    };
    match rule {
        Rule::Axiom => ordered_fault(Order::Shape, is_axiom(s, zone), 0, got),
        Rule::Cut => count_fault(2, got),
        Rule::OneIntro => ordered_fault(Order::Shape, is_one(s, zone), 0, got),
        Rule::BottomIntro => ordered_fault(Order::Shape, has_tag(s, zone, 1), 1, got),
        Rule::TensorIntro => ordered_fault(Order::Count, has_tag(s, zone, 6), 2, got),
        Rule::ParIntro => ordered_fault(Order::Count, has_tag(s, zone, 7), 1, got),
        Rule::TopIntro => ordered_fault(Order::Shape, has_tag(s, zone, 2), 0, got),
        Rule::WithIntro => ordered_fault(Order::Count, has_tag(s, zone, 8), 2, got),
        Rule::PlusIntroLeft | Rule::PlusIntroRight => ordered_fault(
            Order::Count,
            has_tag(s, zone, 9),
            1,
            got,
        ),
        Rule::OfCourseIntro => ordered_fault(Order::Count, has_tag(s, zone, 11), 1, got),
        Rule::WhyNotIntro | Rule::Weakening | Rule::Contraction | Rule::Dereliction => {
            count_fault(1, got)
        }
        Rule::FocusPositive | Rule::FocusNegative | Rule::Blur => None,
    }
}

// The fault at a node: shape mode's, and in strict mode, where there is none, a mismatch unless the step is legal. The mode is a flag, as the promise's `mode_test` takes it.
fn fault_at(s: &[u8], n: Node, is_strict: bool) -> Option<Fault>
    requires { Short s.now × NodeInside (length s.now) n }
    ensures { Faulted (mode_test is_strict) s.now n result }
{
    let fault = shape_fault(s, n);
    if fault.is_some() {
        return fault;
    }
    if is_strict && !strict::legal(s, n) {
        return Some(Fault::Mismatch);
    }
    None
}

// A fault, told of its node.
fn told(fault: Fault, rule: u8, node: usize, wrappers: usize) -> Rejected
    ensures { result ≡ told fault rule node wrappers }
{
    match fault {
        Fault::Invalid => Rejected::Invalid {
            rule,
            node,
            wrappers,
        },
        Fault::Count { expected, got } => Rejected::WrongCount {
            rule,
            node,
            wrappers,
            expected,
            got,
        },
        Fault::Mismatch => Rejected::Mismatch {
            rule,
            node,
            wrappers,
        },
    }
}

// verify.rs: `verify_proof`. The node's own test first, then its premises from the left.
#[cycle(verify_node_verify_premises)]
fn verify_node(
    s: &[u8],
    from: Passed,
    is_strict: bool,
    levels: usize,
    wrappers: usize,
) -> Result<Passed, Rejected>
    requires { (from.next ≤ length s.now) × (from.number ≤ from.next) × (wrappers + levels ≤ 65) × Short s.now }
    ensures { Walk (mode_test is_strict) s.now from.next levels from.number wrappers result }
{
    if levels == 0 || from.next == s.len() {
        return Ok(from);
    }
    let n = tree::node_at(s, from.next);
    if let Some(fault) = fault_at(s, n, is_strict) {
        return Err(told(fault, n.rule, from.number, wrappers));
    }
    let first = Passed {
        next: n.next,
        number: from.number + 1,
    };
    verify_premises(s, first, n.premises, is_strict, levels - 1, wrappers + 1)
}

#[cycle(verify_node_verify_premises)]
fn verify_premises(
    s: &[u8],
    from: Passed,
    count: usize,
    is_strict: bool,
    levels: usize,
    wrappers: usize,
) -> Result<Passed, Rejected>
    requires { (from.next ≤ length s.now) × (from.number ≤ from.next) × (wrappers + levels ≤ 65) × Short s.now }
    ensures { PremisesWalk (mode_test is_strict) s.now from.next count levels from.number wrappers result }
{
    let mut passed = from;
    for _ in 0..count {
        passed = verify_node(s, passed, is_strict, levels, wrappers)?;
    }
    Ok(passed)
}

// The tree is read, and then walked from its root.
fn verify_in(s: &[u8], is_strict: bool) -> Result<(), Rejected>
    ensures { result ≡ checked (mode_test is_strict) (read_tree s.now) }
{
    tree::read_tree(s)?;
    let root = Passed { next: 3, number: 0 };
    verify_node(s, root, is_strict, HIGHEST_TREE, 0)?;
    Ok(())
}

// Shape mode: verify.rs's own tests.
pub fn verify(s: &[u8]) -> Result<(), Rejected>
    ensures { result ≡ checked shape_at (read_tree s.now) }
{
    verify_in(s, false)
}

// Strict mode: every step is legal too.
pub fn verify_strict(s: &[u8]) -> Result<(), Rejected>
    ensures { result ≡ checked strict_fault (read_tree s.now) }
{
    verify_in(s, true)
}

// Trees in bytes: reading with document 01's refusals, `depth` of proof.rs, and where the parts of a node stand.
#![tactic(auto)]

ghost use Rattle.std.specs.Prelude.{◌≡◌, ◌+◌, ◌*◌, ◌≤◌, ◌<◌, max, min, length, get_or, drop};
ghost use Rattle.std.proofs.Math.Seq.{slice};
ghost use Rattle.wire.specs.Read.{read_all, read_zone, read_sequent, read_premises, read_node, read_tree};
ghost use Rattle.formula.specs.Answers.{reads};
ghost use Rattle.tree.specs.Head.{read_rule, read_head};
ghost use Rattle.tree.specs.Answers.{counted, zone_read, own_read, tree_read, trees_read, depth_of};
ghost use Rattle.tree.specs.Places.{Passed, ZoneFound, ArgumentPassed, NodeFound, TreePassed};

use formula::Refusal;
use rule::Rule;

pub const HIGHEST_FORMULA: usize = formula::HIGHEST;

pub const HIGHEST_TREE: usize = 65;

pub const MOST_FORMULAS: usize = 31;

// A tree read: the place after its last node and its depth.
#[derive(Clone, Copy, Debug, PartialEq, Eq)]
pub struct Subtree {
    pub next: usize,
    pub depth: usize,
}

// A zone read: how many formulas, and the place after it.
#[derive(Clone, Copy)]
pub struct Zone {
    pub count: usize,
    pub next: usize,
}

// A node's own bytes read: its premise count, and the place of its first premise.
#[derive(Clone, Copy)]
pub struct Own {
    pub premises: usize,
    pub next: usize,
}

// The formulas from `at` to `end`: how many.
pub fn read_formulas(s: &[u8], at: usize, end: usize) -> Result<usize, Refusal>
    requires { (at ≤ end) × (end ≤ length s.now) }
    ensures { result ≡ counted 0 (read_all (slice at end s.now)) }
{
    let mut count = 0;
    let mut p = at;
    // From formula to formula: no `for` over the bytes.
    while p < end {
        p = formula::read_formula(s, p, end, HIGHEST_FORMULA)?;
        count += 1;
    }
    Ok(count)
}

// A zone: its end, then its formulas.
fn read_zone(s: &[u8], at: usize) -> Result<Zone, Refusal>
    requires { at ≤ length s.now }
    ensures { result ≡ zone_read (length s.now) (read_zone (drop at s.now)) }
{
    if s.len() - at < 2 {
        return Err(Refusal::WrongLength);
    }
    let from = at + 2;
    let length = two_at(s, at);
    if s.len() - from < length {
        return Err(Refusal::WrongLength);
    }
    let next = from + length;
    let count = read_formulas(s, from, next)?;
    Ok(Zone { count, next })
}

// Both zones, and 6 where they hold too many formulas.
fn read_sequent(s: &[u8], at: usize) -> Result<usize, Refusal>
    requires { at ≤ length s.now }
    ensures { result ≡ reads (length s.now) (read_sequent (drop at s.now)) }
{
    let linear = read_zone(s, at)?;
    let unrestricted = read_zone(s, linear.next)?;
    if linear.count + unrestricted.count > MOST_FORMULAS {
        return Err(Refusal::TooMany);
    }
    Ok(unrestricted.next)
}

// A rule's number and its argument.
fn read_rule(s: &[u8], at: usize) -> Result<usize, Refusal>
    requires { at < length s.now }
    ensures { result ≡ reads (length s.now) (read_rule (drop at s.now)) }
{
    let next = at + 1;
    let Ok(rule) = Rule::try_from(s[at]) else {
        return Err(Refusal::WrongNumber);
    };
    match rule {
        Rule::Cut => formula::read_formula(s, next, s.len(), HIGHEST_FORMULA),
        Rule::FocusPositive | Rule::FocusNegative => {
            if s.len() - next < 2 {
                return Err(Refusal::WrongLength);
            }
            Ok(next + 2)
        }
        _ => Ok(next),
    }
}

// A node's own bytes: rule, argument, zones, premise count.
fn read_head(s: &[u8], at: usize) -> Result<Own, Refusal>
    requires { at < length s.now }
    ensures { result ≡ own_read (length s.now) (read_head (drop at s.now)) }
{
    let zones = read_rule(s, at)?;
    let last = read_sequent(s, zones)?;
    if last == s.len() {
        return Err(Refusal::WrongLength);
    }
    Ok(Own {
        premises: usize::from(s[last]),
        next: last + 1,
    })
}

// A node of at most so many levels, with its premises.
#[cycle(read_node_read_premises)]
fn read_node(s: &[u8], at: usize, levels: usize) -> Result<Subtree, Refusal>
    requires { (at ≤ length s.now) × (levels ≤ 65) }
    ensures { result ≡ tree_read (length s.now) (read_node levels (drop at s.now)) }
{
    if at == s.len() {
        return Err(Refusal::WrongLength);
    }
    if levels == 0 {
        return Err(Refusal::TooHigh);
    }
    let own = read_head(s, at)?;
    let below = read_premises(s, own.next, own.premises, levels - 1)?;
    Ok(Subtree {
        next: below.next,
        depth: below.depth + 1,
    })
}

// So many premises, one after another, and the depth of the deepest.
#[cycle(read_node_read_premises)]
fn read_premises(s: &[u8], at: usize, count: usize, levels: usize) -> Result<Subtree, Refusal>
    requires { (at ≤ length s.now) × (levels ≤ 65) }
    ensures { result ≡ trees_read (length s.now) 0 (read_premises (read_node levels) count (drop at s.now)) }
{
    let mut next = at;
    let mut depth = 0;
    for _ in 0..count {
        let tree = read_node(s, next, levels)?;
        next = tree.next;
        depth = depth.max(tree.depth);
    }
    Ok(Subtree { next, depth })
}

// A tree message: fewer than three bytes 3, version 2, length 3; one node; leftover bytes 3.
pub fn read_tree(s: &[u8]) -> Result<Subtree, Refusal>
    ensures { result ≡ tree_read (length s.now) (read_tree s.now) }
{
    if s.len() < 3 {
        return Err(Refusal::WrongLength);
    }
    if s[0] != 1 {
        return Err(Refusal::WrongNumber);
    }
    if s.len() - 3 != two_at(s, 1) {
        return Err(Refusal::WrongLength);
    }
    let tree = read_node(s, 3, HIGHEST_TREE)?;
    if tree.next < s.len() {
        return Err(Refusal::WrongLength);
    }
    Ok(tree)
}

// proof.rs: `depth`, of a tree in bytes.
pub fn depth(s: &[u8]) -> Result<usize, Refusal>
    ensures { result ≡ depth_of (read_tree s.now) }
{
    Ok(read_tree(s)?.depth)
}

// The byte at a place, and 0 past the end.
pub fn byte_at(s: &[u8], at: usize) -> u8
    ensures { result ≡ get_or s.now at 0 }
{
    s.get(at).copied().unwrap_or(0)
}

// The number of two bytes at a place.
pub fn two_at(s: &[u8], at: usize) -> usize
    requires { at ≤ length s.now }
    ensures { result ≡ get_or s.now at 0 * 256 + get_or s.now (at + 1) 0 }
{
    usize::from(u16::from_be_bytes([byte_at(s, at), byte_at(s, at + 1)]))
}

// The place so many bytes on, and the end where there are fewer.
pub fn after(s: &[u8], at: usize, count: usize) -> usize
    requires { at ≤ length s.now }
    ensures { result ≡ min (at + count) (length s.now) }
{
    at + count.min(s.len() - at)
}

// The place after the formula at a place, before `end`.
pub fn next_formula(s: &[u8], at: usize, end: usize) -> usize
    requires { (at < end) × (end ≤ length s.now) }
    ensures { Passed s.now at end result }
{
    formula::read_formula(s, at, end, HIGHEST_FORMULA).unwrap_or(end)
}

// A part of the message, from one place up to another.
#[derive(Clone, Copy, Debug, PartialEq, Eq)]
pub struct Span {
    pub start: usize,
    pub end: usize,
}

// Where the parts of a node stand: its argument, the formulas of its zones, its first premise.
#[derive(Clone, Copy, Debug, PartialEq, Eq)]
pub struct Node {
    pub rule: u8,
    pub argument: usize,
    pub linear: Span,
    pub unrestricted: Span,
    pub premises: usize,
    pub next: usize,
}

// The formulas of the zone at a place.
fn zone_at(s: &[u8], at: usize) -> Span
    requires { at ≤ length s.now }
    ensures { ZoneFound s.now at result }
{
    let start = after(s, at, 2);
    Span {
        start,
        end: after(s, start, two_at(s, at)),
    }
}

fn after_argument(s: &[u8], at: usize, rule: u8) -> usize
    requires { at ≤ length s.now }
    ensures { ArgumentPassed s.now at rule result }
{
    let Ok(known) = Rule::try_from(rule) else {
        return at;
    };
    match known {
        Rule::Cut => {
            if at == s.len() {
                return at;
            }
            next_formula(s, at, s.len())
        }
        Rule::FocusPositive | Rule::FocusNegative => after(s, at, 2),
        _ => at,
    }
}

// The node at a place where one was read.
pub fn node_at(s: &[u8], at: usize) -> Node
    requires { at ≤ length s.now }
    ensures { NodeFound s.now at result }
{
    let rule = byte_at(s, at);
    let argument = after(s, at, 1);
    let linear = zone_at(s, after_argument(s, argument, rule));
    let unrestricted = zone_at(s, linear.end);
    let last = unrestricted.end;
    Node {
        rule,
        argument,
        linear,
        unrestricted,
        premises: usize::from(byte_at(s, last)),
        next: after(s, last, 1),
    }
}

// The place after the tree at a place: each node passed takes one off what is awaited and adds its premises.
pub fn after_tree(s: &[u8], at: usize) -> usize
    requires { at ≤ length s.now }
    ensures { TreePassed s.now at result }
{
    let mut awaited = 1;
    let mut p = at;
    // Each node adds to what is awaited: no counted loop.
    while awaited > 0 {
        if s.len() - p < awaited {
            return p;
        }
        let n = node_at(s, p);
        awaited = awaited - 1 + n.premises;
        p = n.next;
    }
    p
}

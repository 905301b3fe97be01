// The least place, then the least mask, with which a step of the search's rules has the premises that stand in a tree.
#![tactic(auto)]

ghost use Rattle.std.specs.Prelude.{◌≡◌, ◌≤◌, ◌<◌, length};
ghost use Rattle.expand.specs.Writing.{Sound};
ghost use Rattle.step.specs.Taking.{Taken};
ghost use Rattle.least.specs.Finding.{Follows, FitsAt, Placing, PlaceFound, NodeInside, LeastFor};

use expand::steps::{first_premise, premises, second_premise};
use rule::Rule;
use shown::is_shown;
use split::least_tensor;
use step::{is_crowded, may_take, node_word};
use tree::{Node, after_tree};
use zones::Zones;

// A memory and zones of its formulas are passed as two, as expand takes them.

// Whether the tree's premises, which stand at `at`, conclude what the step at place i makes, by a rule other than TensorIntro.
fn follows(mem: &[u16], z: Zones, rule: usize, i: usize, s: &[u8], at: usize) -> bool
    requires { Taken mem.now z rule i 0 × (at ≤ length s.now) }
    ensures { Follows mem.now z rule i s.now at result }
{
    let w = node_word(rule, i, 0);
    let n = premises(w);
    if n == 0 {
        return true;
    }
    let p = first_premise(mem, z, w);
    if !is_shown(mem, p, s, at) {
        return false;
    }
    if n == 1 {
        return true;
    }
    let q = second_premise(mem, z, w);
    is_shown(mem, q, s, after_tree(s, at))
}

// Whether the step at place i is one of the search's and has the tree's premises.
fn fits_at(mem: &[u16], z: Zones, rule: usize, i: usize, s: &[u8], at: usize) -> bool
    requires { Sound mem.now z × (at ≤ length s.now) }
    ensures { FitsAt mem.now z rule i s.now at result }
{
    if !may_take(mem, z, rule, i, 0) {
        return false;
    }
    if is_crowded(z, rule) {
        return false;
    }
    follows(mem, z, rule, i, s, at)
}

// The least place at which it fits, of a rule other than TensorIntro.
fn least_place(mem: &[u16], z: Zones, rule: usize, s: &[u8], at: usize) -> Option<(usize, usize)>
    requires { Placing mem.now z rule s.now at }
    ensures { PlaceFound mem.now z rule s.now at result }
{
    for i in 0..z.count() {
        if fits_at(mem, z, rule, i, s, at) {
            return Some((i, 0));
        }
    }
    None
}

// The least place, then the least mask, of the node's step from its premises to the sequent z.
pub fn least_step(mem: &[u16], z: Zones, s: &[u8], node: Node) -> Option<(usize, usize)>
    requires { Sound mem.now z × NodeInside (length s.now) node }
    ensures { LeastFor mem.now z s.now node result }
{
    let rule = usize::from(node.rule);
    // The last rule by number that has a short form.
    if node.rule > u8::from(Rule::Dereliction) {
        return None;
    }
    if node.premises != premises(node_word(rule, 0, 0)) {
        return None;
    }
    if node.rule == u8::from(Rule::TensorIntro) {
        return least_tensor(mem, z, s, node.next);
    }
    least_place(mem, z, rule, s, node.next)
}

// A tree's length and its bytes (document 01, "Bytes"), from its node words. The words stand in preorder, and a node's premises are worked out from its own sequent.
ghost use Rattle.held.specs.Words.{told};
ghost use Rattle.zones.specs.Zones.{meant};
ghost use Rattle.expand.specs.Negations.{Negated};
ghost use Rattle.expand.specs.Writing.{Sound, Wrote};
ghost use Rattle.expand.specs.Trees.{most_levels, head, HeadLength, HeadRoom, Carries, OfTree, Counting, Counted, Writing, Written, Long, MessageRoom, Message, Answered};

use super::negations::negations;
use super::steps::{first_premise, premises, second_premise, spelled};
use super::writers::{items_length, two_bytes, zone_bytes};
use zones::Zones;

// The most bytes that a tree's body may have, and the most levels that a tree has.
pub const BODY: usize = 65535;

pub const LEVELS: usize = 65;

// A node's bytes beside its formulas and premises: the rule, two for the length of each zone, how many premises there are.
const HEAD: usize = 6;

// How far the words are used, and how far the bytes are counted or written.
#[derive(Clone, Copy)]
pub struct Place {
    pub at: usize,
    pub to: usize,
}

// A node without its premises: how many bytes it takes.
pub fn head_length(mem: &[u16], z: Zones) -> usize
    requires { Sound mem.now z }
    ensures { HeadLength mem.now z result }
{
    HEAD + items_length(mem, &z.linear[..z.linear_len])
        + items_length(mem, &z.unrestricted[..z.unrestricted_len])
}

// Its bytes: the rule, the zones, how many premises there are.
pub fn head_bytes(mem: &[u16], z: Zones, w: u64, out: &mut [u8], to: usize) -> usize
    requires { HeadRoom mem.now z w out.old to }
    ensures { Wrote out.old to (head w (meant (told mem.now) z)) out.new result }
{
    out[to] = (w % 32) as u8;
    let second = zone_bytes(mem, &z.linear[..z.linear_len], out, to + 1);
    let last = zone_bytes(mem, &z.unrestricted[..z.unrestricted_len], out, second);
    out[last] = premises(w) as u8;
    last + 1
}

// The bytes of the node whose words begin at place `at`, counted on from `sum`. Past the most that a body may have nothing more is counted.
fn node_length(
    mem: &[u16],
    negations: &[u16],
    words: &[u64],
    z: Zones,
    left: usize,
    at: usize,
    sum: usize,
) -> Place
    requires { Counting mem.now negations.now words.now z left at sum }
    ensures { OfTree mem.now words.now z left at (Counted words.now sum result) }
{
    let w = words[at];
    let after = at + 1;
    let s = spelled(mem, negations, z);
    let next = sum + head_length(mem, s);
    let here = Place {
        at: after,
        to: next,
    };
    let n = premises(w);
    if n == 0 || BODY < next {
        return here;
    }
    let p = first_premise(mem, s, w);
    let first = node_length(mem, negations, words, p, left - 1, after, next);
    if n == 1 || BODY < first.to {
        return first;
    }
    let q = second_premise(mem, s, w);
    node_length(mem, negations, words, q, left - 1, first.at, first.to)
}

// Writes it. Not one function with the count: that stops early, and this one writes.
fn node_bytes(
    mem: &[u16],
    negations: &[u16],
    words: &[u64],
    z: Zones,
    left: usize,
    at: usize,
    out: &mut [u8],
    to: usize,
) -> Place
    requires { Writing mem.now negations.now words.now z left at out.old to }
    ensures { OfTree mem.now words.now z left at (Written words.now out.old to out.new result) }
{
    let w = words[at];
    let after = at + 1;
    let s = spelled(mem, negations, z);
    let next = head_bytes(mem, s, w, out, to);
    let n = premises(w);
    if n == 0 {
        return Place {
            at: after,
            to: next,
        };
    }
    let p = first_premise(mem, s, w);
    let first = node_bytes(mem, negations, words, p, left - 1, after, out, next);
    if n == 1 {
        return first;
    }
    let q = second_premise(mem, s, w);
    node_bytes(mem, negations, words, q, left - 1, first.at, out, first.to)
}

// How many bytes the tree's body takes, or more than BODY.
pub fn tree_length(mem: &[u16], negations: &[u16], words: &[u64], z: Zones) -> usize
    requires { Negated mem.now negations.now × Carries mem.now words.now z most_levels 0 }
    ensures { OfTree mem.now words.now z most_levels 0 (Long result) }
{
    node_length(mem, negations, words, z, LEVELS, 0, 0).to
}

// Writes the whole message, whose body takes n bytes: the version, the length, the root.
pub fn tree_bytes(
    mem: &[u16],
    negations: &[u16],
    words: &[u64],
    z: Zones,
    out: &mut [u8],
    n: usize,
) -> usize
    requires { MessageRoom mem.now negations.now words.now z out.old n }
    ensures { OfTree mem.now words.now z most_levels 0 (Message out.old out.new result) }
{
    out[0] = 1;
    let body = two_bytes(out, 1, n);
    node_bytes(mem, negations, words, z, LEVELS, 0, out, body).to
}

// The tree's bytes, so many of the output; or none, where the output has no room for them or the body is too long (answer 10).
pub fn write_tree(mem: &[u16], words: &[u64], z: Zones, out: &mut [u8]) -> Option<usize>
    requires { Carries mem.now words.now z most_levels 0 }
    ensures { OfTree mem.now words.now z most_levels 0 (Answered out.old out.new result) }
{
    let mut table = [0u16; 2048];
    negations(mem, &mut table);
    let n = tree_length(mem, &table, words, z);
    if BODY < n || out.len() < n + 3 {
        return None;
    }
    Some(tree_bytes(mem, &table, words, z, out, n))
}

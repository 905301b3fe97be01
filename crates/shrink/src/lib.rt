// A full tree shortened against the sequent that it is to conclude (crates/short/specs/Shortening.antt: `shorten`).
#![tactic(auto)]

ghost use Rattle.std.specs.Prelude.{◌≡◌, ◌+◌, ◌≤◌, ◌<◌, length};
ghost use Rattle.short_bytes.specs.Write.{four_bytes};
ghost use Rattle.expand.specs.Writing.{Wrote};
ghost use Rattle.shrink.specs.Shrinking.{PutNode, Shrinking, Shrinks};

use expand::steps::{first_premise, premises, second_premise};
use expand::writers::two_bytes;
use least::least_step;
use rule::Rule;
use short_read::node_length;
use step::{node_word, spell_first};
use tree::node_at;
use zones::Zones;

// A part of the tree shortened: the places after it in the full message and in the short one.
#[derive(Clone, Copy, Debug, PartialEq, Eq)]
pub struct Shrunk {
    pub next: usize,
    pub to: usize,
}

// Why there is none: 7, 15.
#[derive(Clone, Copy, Debug, PartialEq, Eq)]
pub enum Stop {
    Full,
    Mismatch,
}

// A mask, in four bytes.
fn put_mask(out: &mut [u8], to: usize, mask: usize) -> usize
    requires { (mask < 4294967296) × (to + 4 ≤ length out.old) }
    ensures { Wrote out.old to (four_bytes mask) out.new result }
{
    let low = two_bytes(out, to, mask / 65536);
    two_bytes(out, low, mask % 65536)
}

// A node's bytes, written where there is room. The place after them.
fn put_node(out: &mut [u8], to: usize, rule: u8, place: usize, mask: usize) -> usize
    requires { (place < 256) × ((mask < 4294967296) × (to ≤ 700000)) }
    ensures { PutNode out.old to rule place mask out.new result }
{
    let next = to + node_length(rule);
    if out.len() < next {
        return next;
    }
    out[to] = rule;
    out[to + 1] = place as u8;
    if rule == u8::from(Rule::TensorIntro) {
        return put_mask(out, to + 2, mask);
    }
    next
}

// The node whose bytes begin at place `at`, which concludes the sequent z: its first decomposable formula is no implication. Its short bytes go to `out` from place `to` on, as far as there is room.
pub fn shrink(
    mem: &mut [u16],
    s: &[u8],
    at: usize,
    z: Zones,
    out: &mut [u8],
    to: usize,
) -> Result<Shrunk, Stop>
    requires { Shrinking mem.old s.now at z to }
    ensures { Shrinks mem.old s.now at z out.old to result mem.new out.new }
{
    // No tree stands at the end.
    if at == s.len() {
        return Err(Stop::Mismatch);
    }
    let node = node_at(s, at);
    let Some((place, mask)) = least_step(mem, z, s, node) else {
        return Err(Stop::Mismatch);
    };
    let written = put_node(out, to, node.rule, place, mask);
    let w = node_word(usize::from(node.rule), place, mask);
    let n = premises(w);
    if n == 0 {
        return Ok(Shrunk {
            next: node.next,
            to: written,
        });
    }
    let Some(p) = spell_first(mem, first_premise(mem, z, w)) else {
        return Err(Stop::Full);
    };
    let first = shrink(mem, s, node.next, p, out, written);
    if n == 1 {
        return first;
    }
    let left = first?;
    let Some(q) = spell_first(mem, second_premise(mem, z, w)) else {
        return Err(Stop::Full);
    };
    shrink(mem, s, left.next, q, out, left.to)
}

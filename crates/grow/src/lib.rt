// A short tree expanded against the sequent that it is to conclude: each node's conclusion and premises are worked out from the question downward, as search.rs
// makes them (crates/short/specs/Shortening.antt: `expand`).
#![tactic(auto)]

ghost use Rattle.std.specs.Prelude.{◌≡◌, ◌≤◌, ◌<◌, length};
ghost use Rattle.grow.specs.Growing.{MaskAt, NodeAt, Putting, PutHead, Growing, Grows};

use expand::nodes::{head_bytes, head_length};
use expand::steps::{first_premise, premises, second_premise};
use rule::Rule;
use short_read::{four_at, node_length};
use step::{is_crowded, may_take, node_word, spell_first};
use tree::{after, byte_at};
use zones::Zones;

// The longest tree message, and past it: no place is counted further, as the promise says (`on`).
pub const LONGEST: usize = 65538;

pub const TOO_LONG: usize = 65539;

// A part of the tree expanded: the places after it in the short message and in the full one, the latter at most TOO_LONG.
#[derive(Clone, Copy, Debug, PartialEq, Eq)]
pub struct Grown {
    pub next: usize,
    pub to: usize,
}

// Why there is none: 7, 15, 6.
#[derive(Clone, Copy, Debug, PartialEq, Eq)]
pub enum Stop {
    Full,
    Mismatch,
    TooMany,
}

// A node of the short message: its rule's number, its place and its mask, and the place after its bytes. A byte past the end is 0.
#[derive(Clone, Copy)]
pub struct Node {
    pub rule: usize,
    pub place: usize,
    pub mask: usize,
    pub next: usize,
}

// The mask of the node at a place; a node that is no tensor has none.
fn mask_at(s: &[u8], at: usize, rule: u8) -> usize
    requires { at ≤ 65538 }
    ensures { MaskAt s.now at rule result }
{
    if rule == u8::from(Rule::TensorIntro) {
        four_at(s, at + 2)
    } else {
        0
    }
}

fn node_at(s: &[u8], at: usize) -> Node
    requires { (at ≤ length s.now) × (length s.now ≤ 65538) }
    ensures { NodeAt s.now at result }
{
    let number = byte_at(s, at);
    Node {
        rule: usize::from(number),
        place: usize::from(byte_at(s, at + 1)),
        mask: mask_at(s, at, number),
        next: after(s, at, node_length(number)),
    }
}

// A node without its premises: its bytes are written where there is room, and else only counted.
fn put_head(mem: &[u16], z: Zones, w: u64, out: &mut [u8], to: usize) -> usize
    requires { Putting mem.now z w to }
    ensures { PutHead mem.now z w out.old to out.new result }
{
    let next = to + head_length(mem, z);
    if LONGEST < next {
        return TOO_LONG;
    }
    if out.len() < next {
        return next;
    }
    head_bytes(mem, z, w, out, to)
}

// The node whose bytes begin at place `at`, for the sequent z. Its full bytes go to `out` from place `to` on, as far as there is room.
pub fn grow(
    mem: &mut [u16],
    s: &[u8],
    at: usize,
    z: Zones,
    out: &mut [u8],
    to: usize,
) -> Result<Grown, Stop>
    requires { Growing mem.old s.now at z to }
    ensures { Grows mem.old s.now at z out.old to result mem.new out.new }
{
    let Some(c) = spell_first(mem, z) else {
        return Err(Stop::Full);
    };
    let node = node_at(s, at);
    // Both are asked first, and 15 is answered before 6.
    let takes = may_take(mem, c, node.rule, node.place, node.mask);
    let crowded = is_crowded(c, node.rule);
    if !takes {
        return Err(Stop::Mismatch);
    }
    if crowded {
        return Err(Stop::TooMany);
    }
    let w = node_word(node.rule, node.place, node.mask);
    let written = put_head(mem, c, w, out, to);
    let n = premises(w);
    if n == 0 {
        return Ok(Grown {
            next: node.next,
            to: written,
        });
    }
    let p = first_premise(mem, c, w);
    let first = grow(mem, s, node.next, p, out, written);
    if n == 1 {
        return first;
    }
    let left = first?;
    let q = second_premise(mem, c, w);
    grow(mem, s, left.next, q, out, left.to)
}

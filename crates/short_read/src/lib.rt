// Short trees in bytes (document 02, 11/12): version byte 2, two-byte length, then nodes in preorder: rule, place, and at TensorIntro a mask of four bytes.
// Reading with its refusals, and what a node says.
#![tactic(auto)]

ghost use Rattle.std.specs.Prelude.{◌≡◌, ◌+◌, ◌*◌, ◌≤◌, ◌<◌, length, get_or, drop};
ghost use Rattle.short_bytes.specs.Read.{read_short_node, read_short};
ghost use Rattle.short_read.specs.Reading.{premises_by, node_bytes, short_read, four, HeadRead};

use formula::Refusal;
use rule::Rule;
use tree::{HIGHEST_TREE, byte_at, two_at};

pub const VERSION: u8 = 2;

// How many premises a rule has, by its number; 3 for a number that has no short form, as the laws count it (`premises_by`).
const PREMISES: [usize; 15] = [0, 3, 0, 1, 2, 1, 0, 2, 1, 1, 1, 1, 1, 1, 1];

pub const NO_SHORT_FORM: usize = 3;

pub fn premises_of(rule: u8) -> usize
    ensures { result ≡ premises_by rule }
{
    if rule > 14 {
        return NO_SHORT_FORM;
    }
    PREMISES[rule as usize]
}

// How many bytes a node has.
pub fn node_length(rule: u8) -> usize
    ensures { result ≡ node_bytes rule }
{
    if rule == u8::from(Rule::TensorIntro) {
        6
    } else {
        2
    }
}

// The number of four bytes at a place; a byte past the end is 0.
pub fn four_at(s: &[u8], at: usize) -> usize
    requires { at ≤ 100000 }
    ensures { (result ≡ four s.now at) × (result < 4294967296) }
{
    u32::from_be_bytes([
        byte_at(s, at),
        byte_at(s, at + 1),
        byte_at(s, at + 2),
        byte_at(s, at + 3),
    ]) as usize
}

// A node's own bytes: no byte 3, height 5, rule 2, place and mask 3. The place after them.
fn read_head(s: &[u8], at: usize, levels: usize) -> Result<usize, Refusal>
    requires { at ≤ length s.now }
    ensures { HeadRead s.now at levels result }
{
    if at == s.len() {
        return Err(Refusal::WrongLength);
    }
    if levels == 0 {
        return Err(Refusal::TooHigh);
    }
    let rule = s[at];
    if premises_of(rule) == NO_SHORT_FORM {
        return Err(Refusal::WrongNumber);
    }
    let n = node_length(rule);
    if s.len() - at < n {
        return Err(Refusal::WrongLength);
    }
    Ok(at + n)
}

// A node of at most so many levels, with its premises.
fn read_node(s: &[u8], at: usize, levels: usize) -> Result<usize, Refusal>
    requires { (at ≤ length s.now) × (levels ≤ 65) }
    ensures { result ≡ short_read (length s.now) (read_short_node levels (drop at s.now)) }
{
    let next = read_head(s, at, levels)?;
    let n = premises_of(byte_at(s, at));
    if n == 0 {
        return Ok(next);
    }
    let first = read_node(s, next, levels - 1);
    if n == 1 {
        return first;
    }
    let second = first?;
    read_node(s, second, levels - 1)
}

// A message: fewer than three bytes 3, version 2, length 3; one node; leftover bytes 3.
pub fn read_short(s: &[u8]) -> Result<usize, Refusal>
    ensures { result ≡ short_read (length s.now) (read_short s.now) }
{
    if s.len() < 3 {
        return Err(Refusal::WrongLength);
    }
    if s[0] != VERSION {
        return Err(Refusal::WrongNumber);
    }
    if s.len() - 3 != two_at(s, 1) {
        return Err(Refusal::WrongLength);
    }
    let next = read_node(s, 3, HIGHEST_TREE)?;
    if next < s.len() {
        return Err(Refusal::WrongLength);
    }
    Ok(next)
}

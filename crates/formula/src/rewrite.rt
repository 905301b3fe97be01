// A formula's bytes rewritten: `negate` and `desugar` of formula.rs keep every byte's place, and change tags alone. So one walk does both, and writes each byte at the place where it read one.
ghost use Rattle.std.specs.Prelude.{◌≡◌, ◌<◌, length};
ghost use Rattle.logic.specs.Parts.{negated_tag};
ghost use Rattle.wire.specs.Write.{write_formula};
ghost use Rattle.formula.specs.Calls.{Writes};
ghost use Rattle.formula.specs.Rewriting.{rewritten, turned_of, left_of, Ready, Rewritten};

use super::{Form, Refusal, form_of, read_one};

// What becomes of a part: it stays, it is negated, its implications are spelled out, or those of its negation are.
#[derive(Clone, Copy, Debug, PartialEq, Eq)]
pub enum How {
    Copy,
    Negate,
    Spell,
    SpellNegated,
}

pub const LOLLI: u8 = 10;

// By tag: the negation's tag; the tag with an implication spelled out. Tables, since a tag's value is looked up at every byte.
const DUALS: [u8; 13] = [1, 0, 3, 2, 5, 4, 7, 6, 9, 8, 6, 12, 11];

const SPELLED: [u8; 13] = [0, 1, 2, 3, 4, 5, 6, 7, 8, 9, 7, 11, 12];

// The tag of the negation, and 0 for a tag that no formula has.
pub fn dual(tag: usize) -> u8
    ensures { result ≡ negated_tag tag }
{
    DUALS.get(tag).copied().unwrap_or(0)
}

fn turned(tag: u8, how: How) -> u8
    requires { tag < 13 }
    ensures { result ≡ turned_of tag how }
{
    match how {
        How::Copy => tag,
        How::Negate | How::SpellNegated => dual(tag as usize),
        How::Spell => SPELLED[tag as usize],
    }
}

// How the left part is rewritten: an implication's is turned the other way.
fn left(tag: u8, how: How) -> How
    ensures { result ≡ left_of tag how }
{
    if tag != LOLLI {
        return how;
    }
    match how {
        How::Copy => How::Copy,
        How::Negate => How::Copy,
        How::Spell => How::SpellNegated,
        How::SpellNegated => How::Spell,
    }
}

// Rewrites the formula at `at` into the same place of `out`, and answers the place after it.
fn rewrite(s: &[u8], at: usize, out: &mut [u8], how: How) -> usize
    requires { Ready s.now at out.old }
    ensures { Rewritten s.now at how out.old result out.new }
{
    let tag = s[at];
    out[at] = turned(tag, how);
    match form_of(tag) {
        Form::Unit => at + 1,
        Form::Named => {
            out[at + 1] = s[at + 1];
            out[at + 2] = s[at + 2];
            at + 3
        }
        Form::Binary => {
            let second = rewrite(s, at + 1, out, left(tag, how));
            rewrite(s, second, out, how)
        }
        Form::Unary => rewrite(s, at + 1, out, how),
        Form::Unknown => at,
    }
}

// The formula that the whole slice is, rewritten into the front of `out`.
pub fn rewrite_one(s: &[u8], out: &mut [u8], how: How) -> Result<usize, Refusal>
    ensures { Writes (λ f. write_formula (rewritten how f)) s.now out.old result out.new }
{
    let n = read_one(s)?;
    if out.len() < n {
        return Err(Refusal::OutputShort);
    }
    Ok(rewrite(s, 0, out, how))
}

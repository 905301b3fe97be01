// Formulas read from bytes, entered into the lent words of formulas with their parts: parts before wholes, left before right, each once. The bytes are known to be whole formulas: reading them
// with its refusals is the crate `question`'s.
#![tactic(auto)]

pub mod lists; // lists.rt: the formulas of a zone, one after another, and their negations

ghost use Rattle.std.specs.Prelude.{◌≡◌, ◌+◌, ◌*◌, ◌<◌, ◌≤◌, get_or, length};
ghost use Rattle.held.specs.Answers.{Next};
ghost use Rattle.enter.specs.Standing.{Standing, SignOf, StoredAs, Enterable, EnteredFrom};

use formula::{Form, form_of};
use held::entry::add;

// What a formula's tag is followed by: nothing or a name, and the place after it; one part; two parts.
#[derive(Clone, Copy)]
pub enum Sign {
    Leaf(usize, usize, usize),
    One(usize),
    Two(usize),
}

// The number of two bytes at a place.
fn two(s: &[u8], at: usize) -> usize
    requires { at + 1 < length s.now }
    ensures { (result ≡ get_or s.now at 0 * 256 + get_or s.now (at + 1) 0) × (result < 65536) }
{
    usize::from(u16::from_be_bytes([s[at], s[at + 1]]))
}

// What stands at a place where a formula stands.
fn sign_at(s: &[u8], at: usize) -> Sign
    requires { Standing s.now at }
    ensures { SignOf s.now at result }
{
    let tag = s[at] as usize;
    match form_of(s[at]) {
        Form::Unit => Sign::Leaf(tag, 0, at + 1),
        Form::Named => Sign::Leaf(tag, two(s, at + 1), at + 3),
        Form::Binary => Sign::Two(tag),
        Form::Unary => Sign::One(tag),
        Form::Unknown => Sign::One(0),
    }
}

// Enters a formula whose parts are held, and passes the place after it on.
fn store(mem: &mut [u16], tag: usize, a: usize, b: usize, next: usize) -> Option<(usize, usize)>
    requires { Next mem.old tag a b }
    ensures { StoredAs mem.old tag a b next result mem.new }
{
    let i = add(mem, tag, a, b)?;
    Some((i, next))
}

// Enters the formula whose bytes stand at `at`, with its parts: its number, and the place after its bytes; or there is no room for it with its parts.
pub fn enter_formula(mem: &mut [u16], s: &[u8], at: usize) -> Option<(usize, usize)>
    requires { Enterable mem.old s.now at }
    ensures { EnteredFrom mem.old s.now at result mem.new }
{
    match sign_at(s, at) {
        Sign::Leaf(t, n, next) => store(mem, t, n, 0, next),
        Sign::One(t) => {
            let (a, next) = enter_formula(mem, s, at + 1)?;
            store(mem, t, a, 0, next)
        }
        Sign::Two(t) => {
            let (a, second) = enter_formula(mem, s, at + 1)?;
            let (b, next) = enter_formula(mem, s, second)?;
            store(mem, t, a, b, next)
        }
    }
}

// Negating a held formula and spelling out an implication, over shared parts: each held part is turned once.
ghost use Rattle.std.specs.Prelude.{◌<◌};
ghost use Rattle.logic.specs.Formula.{negate, spell};
ghost use Rattle.held.specs.Words.{count, told, Wf};
ghost use Rattle.held.specs.Turn.{Turn, StepOf, Ready, Finished, Turned, EnteredOr, Implication};

use super::entry::{add, cut};
use super::words::field;
use formula::rewrite::dual;

// What negating a formula takes: nothing, no part, the right part, two parts, one part.
#[derive(Clone, Copy)]
pub enum Step {
    Known(usize),
    Leaf(usize, usize),
    Half(usize, usize),
    Two(usize, usize, usize),
    Single(usize, usize),
}

fn step_of(mem: &[u16], memo: &[u16], x: usize) -> Step
    requires { Turn mem.now memo.now x }
    ensures { StepOf mem.now x result }
{
    // Words and no options, as the memo is of fixed memory: 0 where the negation is not known.
    let known = memo[x] as usize;
    if known != 0 {
        return Step::Known(known - 1);
    }
    let tag = field(mem, x, 0);
    let a = field(mem, x, 1);
    let b = field(mem, x, 2);
    let turned = usize::from(dual(tag));
    if tag < 6 {
        return Step::Leaf(turned, a);
    }
    if tag < 10 {
        return Step::Two(turned, a, b);
    }
    if tag == 10 {
        return Step::Half(a, b);
    }
    Step::Single(turned, a)
}

// Enters the negation of formula x, whose parts are held, and notes its number.
fn finish(
    mem: &mut [u16],
    memo: &mut [u16],
    x: usize,
    tag: usize,
    a: usize,
    b: usize,
) -> Option<usize>
    requires { Ready mem.old memo.old x tag a b }
    ensures { Finished mem.old x result mem.new memo.new }
{
    let i = add(mem, tag, a, b)?;
    memo[x] = (i + 1) as u16;
    Some(i)
}

// Enters the negation of formula x with its parts (formula.rs: `negate`), each shared part once.
fn negated(mem: &mut [u16], memo: &mut [u16], x: usize) -> Option<usize>
    requires { Turn mem.old memo.old x }
    ensures { Turned mem.old (negate (told mem.old x)) result mem.new memo.new }
{
    match step_of(mem, memo, x) {
        Step::Known(i) => Some(i),
        Step::Leaf(t, a) => finish(mem, memo, x, t, a, 0),
        Step::Half(a, b) => {
            let nb = negated(mem, memo, b)?;
            finish(mem, memo, x, 6, a, nb)
        }
        Step::Two(t, a, b) => {
            let na = negated(mem, memo, a)?;
            let nb = negated(mem, memo, b)?;
            finish(mem, memo, x, t, na, nb)
        }
        Step::Single(t, a) => {
            let na = negated(mem, memo, a)?;
            finish(mem, memo, x, t, na, 0)
        }
    }
}

// Enters the negation of formula x with its parts, or leaves every word as it is. Never drawn into its caller: the memo's 4 kB would stand at each depth of a search with an implication.
#[inline(never)]
pub fn negate_held(mem: &mut [u16], x: usize) -> Option<usize>
    requires { (Wf mem.old) × (x < count mem.old) }
    ensures { EnteredOr mem.old (negate (told mem.old x)) result mem.new }
{
    let n = mem[0] as usize;
    let mut memo = [0u16; 2048];
    let r = negated(mem, &mut memo, x);
    if r.is_none() {
        cut(mem, n);
    }
    r
}

// Spells out the implication x at its top (search.rs: `prove_async` at a `Lolli`): enters `Par(left negated, right)` with its parts, or leaves every word as it is.
pub fn spell_held(mem: &mut [u16], x: usize) -> Option<usize>
    requires { Implication mem.old x }
    ensures { EnteredOr mem.old (spell (told mem.old x)) result mem.new }
{
    let n = mem[0] as usize;
    let a = field(mem, x, 1);
    let b = field(mem, x, 2);
    let na = negate_held(mem, a)?;
    let r = add(mem, 7, na, b);
    if r.is_none() {
        cut(mem, n);
    }
    r
}

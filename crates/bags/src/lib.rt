// Formulas compared where they stand in a message, and multisets of them, compared by counting. A formula is a place in the message and a way to read it.
#![tactic(auto)]

ghost use Rattle.std.specs.Prelude.{◌≡◌, ◌≤◌, length};
ghost use Rattle.bags.specs.Reading.{sign_of, left_how, right_how};
ghost use Rattle.bags.specs.Compared.{SignOf, LeftOf, RightOf, Names, TopsAre, Compares, Once};
ghost use Rattle.bags.specs.Runs.{Short, RunWithin, BagWithin, Counts, CountsIn, Agrees, Long, LongIn, BagsSame};

use formula::Form;
use formula::rewrite::{LOLLI, dual};
use tree::HIGHEST_FORMULA;

// How the formula at a place is read: as it stands, with an implication at the top spelled out, or negated.
#[derive(Clone, Copy, Debug, PartialEq, Eq)]
pub enum How {
    Plain,
    Spelled,
    Negated,
}

// A formula: where it stands, and how it is read.
#[derive(Clone, Copy, Debug, PartialEq, Eq)]
pub struct Place {
    pub at: usize,
    pub how: How,
}

// The formulas from one place to another, each read so. A multiset is a slice of runs: the formulas of them all.
#[derive(Clone, Copy, Debug, PartialEq, Eq)]
pub struct Run {
    pub at: usize,
    pub end: usize,
    pub how: How,
}

// What is known at two tags: the comparison, which gives the places after both formulas where they are the same, or that one part or two of each are still to be compared.
#[derive(Clone, Copy)]
pub enum Tops {
    Told(Option<(usize, usize)>),
    One,
    Two,
}

const PAR: u8 = 7;

// The tag of a formula read so.
#[tactic(auto, unfolding(crate::specs::Reading::sign_of))]
pub fn sign(tag: u8, how: How) -> u8
    ensures { result ≡ sign_of tag how }
{
    match how {
        How::Plain => tag,
        How::Spelled if tag == LOLLI => PAR,
        How::Spelled => tag,
        How::Negated => dual(tag as usize),
    }
}

// How the left part is read, where the whole is read so. Negation leaves the left of an implication as it stands.
#[tactic(auto, unfolding(crate::specs::Reading::left_how))]
pub fn left_how(tag: u8, how: How) -> How
    ensures { result ≡ left_how tag how }
{
    match how {
        How::Spelled if tag == LOLLI => How::Negated,
        How::Negated if tag != LOLLI => How::Negated,
        _ => How::Plain,
    }
}

#[tactic(auto, unfolding(crate::specs::Reading::right_how))]
pub fn right_how(how: How) -> How
    ensures { result ≡ right_how how }
{
    match how {
        How::Plain | How::Spelled => How::Plain,
        How::Negated => How::Negated,
    }
}

fn sign_at(s: &[u8], x: Place) -> u8
    ensures { SignOf s.now x result }
{
    sign(tree::byte_at(s, x.at), x.how)
}

// The left part of the formula at a place.
fn left(s: &[u8], x: Place) -> Place
    requires { x.at ≤ length s.now }
    ensures { LeftOf s.now x result }
{
    Place {
        at: tree::after(s, x.at, 1),
        how: left_how(tree::byte_at(s, x.at), x.how),
    }
}

// The right part, which stands at `at`.
fn right(x: Place, at: usize) -> Place
    ensures { RightOf x at result }
{
    Place {
        at,
        how: right_how(x.how),
    }
}

// Two names, each behind a tag.
fn names(s: &[u8], a: usize, b: usize) -> Option<(usize, usize)>
    requires { (a ≤ length s.now) × (b ≤ length s.now) }
    ensures { Names s.now a b result }
{
    if tree::two_at(s, tree::after(s, a, 1)) != tree::two_at(s, tree::after(s, b, 1)) {
        return None;
    }
    Some((tree::after(s, a, 3), tree::after(s, b, 3)))
}

// Two formulas at their tags.
fn compare_tops(s: &[u8], x: Place, y: Place) -> Tops
    requires { (x.at ≤ length s.now) × (y.at ≤ length s.now) }
    ensures { TopsAre s.now x y result }
{
    let tag = sign_at(s, x);
    if tag != sign_at(s, y) {
        return Tops::Told(None);
    }
    match formula::form_of(tag) {
        Form::Unit => Tops::Told(Some((tree::after(s, x.at, 1), tree::after(s, y.at, 1)))),
        Form::Named => Tops::Told(names(s, x.at, y.at)),
        Form::Binary => Tops::Two,
        Form::Unary | Form::Unknown => Tops::One,
    }
}

// Two formulas of at most `levels` levels, walked in step.
fn compare(s: &[u8], x: Place, y: Place, levels: usize) -> Option<(usize, usize)>
    requires { (x.at ≤ length s.now) × (y.at ≤ length s.now) }
    ensures { Compares s.now x y levels result }
{
    if levels == 0 {
        return None;
    }
    match compare_tops(s, x, y) {
        Tops::Told(r) => r,
        Tops::One => compare(s, left(s, x), left(s, y), levels - 1),
        Tops::Two => {
            let (a, b) = compare(s, left(s, x), left(s, y), levels - 1)?;
            compare(s, right(x, a), right(y, b), levels - 1)
        }
    }
}

// 1 where both formulas are the same, and else 0.
fn once(s: &[u8], x: Place, y: Place) -> usize
    requires { (x.at ≤ length s.now) × (y.at ≤ length s.now) }
    ensures { Once s.now x y result }
{
    usize::from(compare(s, x, y, HIGHEST_FORMULA).is_some())
}

// How often a formula stands in a run.
pub fn times(s: &[u8], run: Run, x: Place) -> usize
    requires { RunWithin (length s.now) run × (x.at ≤ length s.now) }
    ensures { Counts s.now run x result }
{
    let mut p = run.at;
    let mut n = 0;
    // From formula to formula: no `for` over the bytes.
    while p < run.end {
        n += once(
            s,
            x,
            Place {
                at: p,
                how: run.how,
            },
        );
        p = tree::next_formula(s, p, run.end);
    }
    n
}

// How often it stands in a multiset.
fn times_in(s: &[u8], bag: &[Run], x: Place) -> usize
    requires { Short s.now × BagWithin (length s.now) bag.now × (x.at ≤ length s.now) }
    ensures { CountsIn s.now bag.now x result }
{
    let mut n = 0;
    // A `for`, no `sum`: what is known of a run's count is no function of the run.
    for &run in bag {
        n += times(s, run, x);
    }
    n
}

// Each formula of a run stands in both equally often.
fn agree_on(s: &[u8], run: Run, x: &[Run], y: &[Run]) -> bool
    requires { Short s.now × RunWithin (length s.now) run × BagWithin (length s.now) x.now × BagWithin (length s.now) y.now }
    ensures { Agrees s.now run x.now y.now result }
{
    let mut p = run.at;
    // From formula to formula: no `for` over the bytes.
    while p < run.end {
        let f = Place {
            at: p,
            how: run.how,
        };
        if times_in(s, x, f) != times_in(s, y, f) {
            return false;
        }
        p = tree::next_formula(s, p, run.end);
    }
    true
}

// How many formulas a run has.
fn count(s: &[u8], run: Run) -> usize
    requires { RunWithin (length s.now) run }
    ensures { Long s.now run result }
{
    let mut p = run.at;
    let mut n = 0;
    // From formula to formula: no `for` over the bytes.
    while p < run.end {
        n += 1;
        p = tree::next_formula(s, p, run.end);
    }
    n
}

fn count_in(s: &[u8], bag: &[Run]) -> usize
    requires { Short s.now × BagWithin (length s.now) bag.now }
    ensures { LongIn s.now bag.now result }
{
    let mut n = 0;
    // A `for`, no `sum`: what is known of a run's count is no function of the run.
    for &run in bag {
        n += count(s, run);
    }
    n
}

// Two multisets have each formula equally often: as many formulas, and each formula of the one as often in the other.
pub fn same_bag(s: &[u8], x: &[Run], y: &[Run]) -> bool
    requires { Short s.now × BagWithin (length s.now) x.now × BagWithin (length s.now) y.now }
    ensures { BagsSame s.now x.now y.now result }
{
    if count_in(s, x) != count_in(s, y) {
        return false;
    }
    // A `for`, no `all`: for the same reason.
    for &run in x {
        if !agree_on(s, run, x, y) {
            return false;
        }
    }
    true
}

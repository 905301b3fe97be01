// Formulas in bytes (document 01, "Bytes"): reading them with its refusals, and the calls on one formula, formula.rs's `negate`, `desugar` and `is_positive`.
//
// A formula is a tag, then its parts in order. Every call takes any bytes whatever: the whole slice is one formula, or the answer is the refusal that comes first in document 01's order.
#![tactic(auto)]

pub mod rewrite; // rewrite.rt: the formula rewritten byte by byte in place: copied, negated, spelled out

ghost use Rattle.std.specs.Prelude.{◌≡◌, ◌≤◌, ◌<◌, length};
ghost use Rattle.std.proofs.Math.Seq.{slice};
ghost use Rattle.logic.specs.Formula as of;
ghost use Rattle.wire.specs.Write.{write_formula};
ghost use Rattle.wire.specs.Read.{read_formula, read_one};
ghost use Rattle.formula.specs.Answers.{reads, number_of};
ghost use Rattle.formula.specs.Calls.{Writes, positive};
ghost use Rattle.formula.specs.Reading.{form_of, above_of, positive_tag, Looked};

use rewrite::How;
use std::error::Error;
use std::fmt;

// Document 01's table "What a call can say", but for 0 and 1.
#[derive(Clone, Copy, Debug, PartialEq, Eq)]
pub enum Refusal {
    WrongNumber,
    WrongLength,
    WrongTag,
    TooHigh,
    TooMany,
    HeldFull,
    BudgetSpent,
    FailuresFull,
    OutputShort,
    WrongSetting,
    WrongMemory,
}

// Document 01's number of a refusal.
impl From<Refusal> for u8 {
    ghost from_gives = { λ k n. n ≡ number_of k };

    fn from(k: Refusal) -> u8 {
        match k {
            Refusal::WrongNumber => 2,
            Refusal::WrongLength => 3,
            Refusal::WrongTag => 4,
            Refusal::TooHigh => 5,
            Refusal::TooMany => 6,
            Refusal::HeldFull => 7,
            Refusal::BudgetSpent => 8,
            Refusal::FailuresFull => 9,
            Refusal::OutputShort => 10,
            Refusal::WrongSetting => 11,
            Refusal::WrongMemory => 12,
        }
    }
}

impl fmt::Display for Refusal {
    fn fmt<W: fmt::Write>(&self, f: &mut fmt::Formatter<W>) -> fmt::Result {
        f.write_str(match self {
            Refusal::WrongNumber => "wrong version, kind or rule",
            Refusal::WrongLength => "wrong length",
            Refusal::WrongTag => "wrong tag",
            Refusal::TooHigh => "too high",
            Refusal::TooMany => "too many formulas",
            Refusal::HeldFull => "no room for a formula",
            Refusal::BudgetSpent => "budget spent",
            Refusal::FailuresFull => "no room for a failure",
            Refusal::OutputShort => "output too short",
            Refusal::WrongSetting => "wrong setting",
            Refusal::WrongMemory => "memory not well-formed",
        })
    }
}

impl Error for Refusal {}

// What a tag is followed by.
#[derive(Clone, Copy, Debug, PartialEq, Eq)]
pub enum Form {
    Unit,
    Named,
    Binary,
    Unary,
    Unknown,
}

// What is known at a formula's tag: the answer, or that one part or two are still to be read.
#[derive(Clone, Copy, Debug, PartialEq, Eq)]
pub enum Look {
    Done(Result<usize, Refusal>),
    One,
    Two,
}

pub const HIGHEST: usize = 64;

// Document 01's table of tags.
pub fn form_of(tag: u8) -> Form
    ensures { result ≡ form_of tag }
{
    match tag {
        0..=3 => Form::Unit,
        4 | 5 => Form::Named,
        6..=10 => Form::Binary,
        11 | 12 => Form::Unary,
        _ => Form::Unknown,
    }
}

// Where no level is left: a tag that is none is told first.
fn above(form: Form) -> Refusal
    ensures { result ≡ above_of form }
{
    match form {
        Form::Unknown => Refusal::WrongTag,
        _ => Refusal::TooHigh,
    }
}

// A formula wanted at `at`, up to its own bytes: no byte 3, tag 4, height 5, cut number 3.
fn look_at(s: &[u8], at: usize, end: usize, levels: usize) -> Look
    requires { (at ≤ end) × (end ≤ length s.now) }
    ensures { Looked s.now at end levels result }
{
    if at == end {
        return Look::Done(Err(Refusal::WrongLength));
    }
    let form = form_of(s[at]);
    if levels == 0 {
        return Look::Done(Err(above(form)));
    }
    match form {
        Form::Unit => Look::Done(Ok(at + 1)),
        Form::Named => {
            if end - at < 3 {
                return Look::Done(Err(Refusal::WrongLength));
            }
            Look::Done(Ok(at + 3))
        }
        Form::Binary => Look::Two,
        Form::Unary => Look::One,
        Form::Unknown => Look::Done(Err(Refusal::WrongTag)),
    }
}

// Reads a formula of at most `levels` levels that starts at `at`; its bytes end at `end`, though more may follow.
pub fn read_formula(s: &[u8], at: usize, end: usize, levels: usize) -> Result<usize, Refusal>
    requires { (at ≤ end) × (end ≤ length s.now) }
    ensures { result ≡ reads end (read_formula levels (slice at end s.now)) }
{
    match look_at(s, at, end, levels) {
        Look::Done(r) => r,
        Look::One => read_formula(s, at + 1, end, levels - 1),
        Look::Two => {
            let second = read_formula(s, at + 1, end, levels - 1)?;
            read_formula(s, second, end, levels - 1)
        }
    }
}

// Reads one formula, the whole slice: leftover bytes are 3.
pub fn read_one(s: &[u8]) -> Result<usize, Refusal>
    ensures { result ≡ reads (length s.now) (read_one s.now) }
{
    let next = read_formula(s, 0, s.len(), HIGHEST)?;
    if next == s.len() {
        Ok(next)
    } else {
        Err(Refusal::WrongLength)
    }
}

// formula.rs: `negate`.
pub fn negate(s: &[u8], out: &mut [u8]) -> Result<usize, Refusal>
    ensures { Writes (λ f. write_formula (of.negate f)) s.now out.old result out.new }
{
    rewrite::rewrite_one(s, out, How::Negate)
}

// formula.rs: `desugar`.
pub fn desugar(s: &[u8], out: &mut [u8]) -> Result<usize, Refusal>
    ensures { Writes (λ f. write_formula (of.desugar f)) s.now out.old result out.new }
{
    rewrite::rewrite_one(s, out, How::Spell)
}

// By tag: whether a formula is positive.
const POSITIVE: [bool; 13] = [
    true, false, false, true, true, false, true, false, false, true, false, true, false,
];

fn positive_tag(tag: u8) -> bool
    requires { tag < 13 }
    ensures { result ≡ positive_tag tag }
{
    POSITIVE[tag as usize]
}

// formula.rs: `is_positive`.
pub fn is_positive(s: &[u8]) -> Result<bool, Refusal>
    ensures { result ≡ positive (read_one s.now) }
{
    read_one(s)?;
    Ok(positive_tag(s[0]))
}

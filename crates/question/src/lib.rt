// Questions in bytes (document 01, "Bytes"): where a question's zones stand, with the refusals of reading in their order, and sequent.rs's `to_one_sided`.
//
// A question is a message (the version 1, the length of all that follows), a kind and two zones. Every call takes any bytes whatever.
#![tactic(auto)]

ghost use Rattle.std.specs.Prelude.{◌≡◌, ◌⊎◌, ◌+◌, ◌-◌, ◌≤◌, ◌<◌, length, drop};
ghost use Rattle.std.proofs.Math.Seq.{slice};
ghost use Rattle.std.proofs.lemmas.List.Edits.{sets};
ghost use Rattle.wire.specs.Write.{two_bytes};
ghost use Rattle.wire.specs.Read.{read_all, read_question};
ghost use Rattle.question.specs.Answers.{answered, left_in, OneSided};
ghost use Rattle.question.specs.Stages.{make_of, formulas_of, KindRead, ZoneEnd, EndsRead};
ghost use Rattle.question.specs.Negating.{negated, Negatable};
ghost use Rattle.question.specs.Turning.{head_of, TwoSided};

use formula::{HIGHEST, Refusal};
use tree::{read_formulas, two_at};

pub const VERSION: u8 = 1;

pub const ONE_SIDED: u8 = 1;

pub const TWO_SIDED: u8 = 2;

pub const MOST_FORMULAS: usize = 31;

// The place of a question's first formula: behind version, length, kind and the first zone's length.
pub const FIRST: usize = 6;

// Where a question's zones stand: the bytes of each zone's formulas, from one place up to another, and how many formulas these are.
#[derive(Clone, Copy, Debug, PartialEq, Eq)]
pub struct Places {
    pub kind: u8,
    pub first: usize,
    pub first_end: usize,
    pub second: usize,
    pub second_end: usize,
    pub first_count: usize,
    pub second_count: usize,
}

// Up to the kind: fewer than three bytes 3, version 2, length 3; no kind 3, an unknown one 2.
fn read_kind(s: &[u8]) -> Result<u8, Refusal>
    ensures { KindRead s.now result }
{
    if s.len() < 3 {
        return Err(Refusal::WrongLength);
    }
    if s[0] != VERSION {
        return Err(Refusal::WrongNumber);
    }
    if s.len() - 3 != two_at(s, 1) || s.len() == 3 {
        return Err(Refusal::WrongLength);
    }
    let kind = s[3];
    if kind != ONE_SIDED && kind != TWO_SIDED {
        return Err(Refusal::WrongNumber);
    }
    Ok(kind)
}

// Where the zone at a place ends: its length, and that many bytes.
fn zone_end(s: &[u8], at: usize) -> Result<usize, Refusal>
    requires { at ≤ length s.now }
    ensures { ZoneEnd s.now at result }
{
    if s.len() - at < 2 {
        return Err(Refusal::WrongLength);
    }
    let from = at + 2;
    let size = two_at(s, at);
    if s.len() - from < size {
        return Err(Refusal::WrongLength);
    }
    Ok(from + size)
}

// Both zones' lengths, and bytes left over 3: where the first zone ends. The second ends with the bytes.
fn read_ends(s: &[u8]) -> Result<usize, Refusal>
    requires { 4 ≤ length s.now }
    ensures { EndsRead s.now result }
{
    let middle = zone_end(s, 4)?;
    let end = zone_end(s, middle)?;
    if end < s.len() {
        return Err(Refusal::WrongLength);
    }
    Ok(middle)
}

// The formulas of both zones in byte order, then 6.
fn read_zones(s: &[u8], kind: u8, middle: usize) -> Result<Places, Refusal>
    requires { ((kind ≡ 1) ⊎ (kind ≡ 2)) × ((6 ≤ middle) × (middle + 2 ≤ length s.now)) }
    ensures { result ≡ answered (formulas_of (make_of kind) (slice 6 middle s.now) (slice (middle + 2) (length s.now) s.now)) }
{
    let second = middle + 2;
    let first_count = read_formulas(s, FIRST, middle)?;
    let second_count = read_formulas(s, second, s.len())?;
    if MOST_FORMULAS < first_count + second_count {
        return Err(Refusal::TooMany);
    }
    Ok(Places {
        kind,
        first: FIRST,
        first_end: middle,
        second,
        second_end: s.len(),
        first_count,
        second_count,
    })
}

// Reads a question of either kind: where its zones stand.
pub fn read_question(s: &[u8]) -> Result<Places, Refusal>
    ensures { result ≡ answered (read_question s.now) }
{
    let kind = read_kind(s)?;
    let middle = read_ends(s)?;
    read_zones(s, kind, middle)
}

// A number of two bytes, at a place.
fn put_two(out: &mut [u8], at: usize, n: usize)
    requires { (at + 1 < length out.old) × (n < 65536) }
    ensures { out.new ≡ sets out.old at (two_bytes n) }
{
    out[at] = (n / 256) as u8;
    out[at + 1] = (n % 256) as u8;
}

// The front of a one-sided question of n bytes whose last zone is empty: version, length, kind, and the first zone's length.
fn put_head(out: &mut [u8], n: usize)
    requires { ((8 ≤ n) × (n < 65539)) × (n ≤ length out.old) }
    ensures { out.new ≡ sets out.old 0 (head_of n) }
{
    out[0] = VERSION;
    put_two(out, 1, n - 3);
    out[3] = ONE_SIDED;
    put_two(out, 4, n - 8);
}

// The formulas from `at` to `end`, each negated, at the same places of the output.
fn negate_formulas(s: &[u8], at: usize, end: usize, out: &mut [u8])
    requires { Negatable s.now at end out.old }
    ensures { out.new ≡ sets out.old at (negated (read_all (slice at end s.now))) }
{
    // No index loop: a formula's end is where the next begins.
    let mut p = at;
    while p < end {
        let Ok(next) = formula::read_formula(s, p, end, HIGHEST) else {
            return;
        };
        let _ = formula::negate(&s[p..next], &mut out[p..next]);
        p = next;
    }
}

// The bytes of s from a place on, copied to a place of the output.
fn copy_from(s: &[u8], from: usize, out: &mut [u8], at: usize)
    requires { (from ≤ length s.now) × (at + (length s.now - from) ≤ length out.old) }
    ensures { out.new ≡ sets out.old at (drop from s.now) }
{
    let end = at + (s.len() - from);
    out[at..end].copy_from_slice(&s[from..]);
}

// A two-sided question written one-sided: antecedents negated in their places, the succedent behind them with no length between, and an empty zone.
fn turn(s: &[u8], middle: usize, out: &mut [u8])
    requires { TwoSided s.now middle out.old }
    ensures { out.new ≡ left_in out.old (read_question s.now) }
{
    let n = s.len();
    put_head(out, n);
    negate_formulas(s, FIRST, middle, out);
    copy_from(s, middle + 2, out, middle);
    put_two(out, n - 2, 0);
}

// sequent.rs: `to_one_sided`, of a question in bytes.
pub fn to_one_sided(s: &[u8], out: &mut [u8]) -> Result<usize, Refusal>
    ensures { OneSided s.now out.old result out.new }
{
    let places = read_question(s)?;
    let n = s.len();
    if out.len() < n {
        return Err(Refusal::OutputShort);
    }
    if places.kind == ONE_SIDED {
        out[..n].copy_from_slice(s);
    } else {
        turn(s, places.first_end, out);
    }
    Ok(n)
}

// The least place, then the least mask, of a tensor whose premises stand in a tree. No mask is tried: the formulas of both premises but for their last ones are numbered, and dealt out.
#![tactic(auto)]

ghost use Rattle.std.specs.Prelude.{◌≤◌, length};
ghost use Rattle.expand.specs.Writing.{Sound};
ghost use Rattle.split.specs.Splitting.{Labelled, Labelling, LabelledTo, TensorAt, TensorOf, Splitting, SplitTo, LeastStep};

use bags::How;
use deal::places::deal_at;
use expand::steps::first_decomposable;
use held::words::field;
use shown::{matches, unrestricted_shown};
use step::TENSOR;
use tree::{Span, after_tree, next_formula, node_at};
use zones::Zones;

// A memory and zones of its formulas are passed as two, as expand takes them.

// The formulas of a zone but for the last, by number: how many, and the place of the last.
#[derive(Clone, Copy)]
pub struct Labels {
    pub count: usize,
    pub last: usize,
}

// The number of a linear formula that stands at a place of the message.
fn label_at(mem: &[u16], z: Zones, s: &[u8], at: usize) -> Option<u16>
    requires { Sound mem.now z × (at ≤ length s.now) }
    ensures { Labelled mem.now z s.now at result }
{
    for &x in &z.linear[..z.linear_len] {
        if matches(mem, usize::from(x), How::Plain, s, at).is_some() {
            return Some(x);
        }
    }
    None
}

// The zone's formulas but for the last, by number; or one of them is no linear formula of the conclusion, or there is none.
fn labels_of(mem: &[u16], z: Zones, s: &[u8], zone: Span, numbers: &mut [u16; 31]) -> Option<Labels>
    requires { Labelling mem.now z s.now zone numbers.old }
    ensures { LabelledTo mem.now z s.now zone result numbers.new }
{
    let end = zone.end;
    let mut p = zone.start;
    let mut n = 0;
    // From formula to formula: no `for` over the bytes.
    while p < end {
        let next = next_formula(s, p, end);
        if next == end {
            return Some(Labels { count: n, last: p });
        }
        if n == 31 {
            return None;
        }
        numbers[n] = label_at(mem, z, s, p)?;
        n += 1;
        p = next;
    }
    None
}

// Whether a tensor stands at place i whose parts, each spelled out at its top, are the formulas at these places.
fn is_tensor_of(mem: &[u16], z: Zones, i: usize, s: &[u8], left: usize, right: usize) -> bool
    requires { TensorAt mem.now z i s.now left right }
    ensures { TensorOf mem.now z i s.now left right result }
{
    let x = z.linear[i] as usize;
    field(mem, x, 0) == TENSOR
        && matches(mem, field(mem, x, 1), How::Spelled, s, left).is_some()
        && matches(mem, field(mem, x, 2), How::Spelled, s, right).is_some()
}

// The least place of such a tensor at which a mask deals the other formulas out, and the least mask there.
fn least_split(
    mem: &[u16],
    z: Zones,
    s: &[u8],
    left: usize,
    right: usize,
    l: &[u16],
    r: &[u16],
) -> Option<(usize, usize)>
    requires { Splitting mem.now z s.now left right l.now r.now }
    ensures { SplitTo mem.now z s.now left right l.now r.now result }
{
    let zone = &z.linear[..z.linear_len];
    for i in 0..z.linear_len {
        if is_tensor_of(mem, z, i, s, left, right) {
            if let Some(m) = deal_at(zone, i, l, r) {
                return Some((i, m as usize));
            }
        }
    }
    None
}

// The least place and mask of a tensor whose premises stand at `at` and behind it, where no formula of the sequent is decomposable.
pub fn least_tensor(mem: &[u16], z: Zones, s: &[u8], at: usize) -> Option<(usize, usize)>
    requires { Sound mem.now z × (at ≤ length s.now) }
    ensures { LeastStep mem.now z 4 s.now at result }
{
    if first_decomposable(mem, z) < z.linear_len {
        return None;
    }
    let first = node_at(s, at);
    let second = node_at(s, after_tree(s, at));
    if !unrestricted_shown(mem, z, s, first.unrestricted) {
        return None;
    }
    if !unrestricted_shown(mem, z, s, second.unrestricted) {
        return None;
    }
    let mut l = [0u16; 31];
    let left = labels_of(mem, z, s, first.linear, &mut l)?;
    let mut r = [0u16; 31];
    let right = labels_of(mem, z, s, second.linear, &mut r)?;
    least_split(
        mem,
        z,
        s,
        left.last,
        right.last,
        &l[..left.count],
        &r[..right.count],
    )
}

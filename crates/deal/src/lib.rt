// The least mask that deals a list's items out to two lists: item i goes to the left one where bit i of the mask is 0, and else to the right one, each list in its
// order. No mask is tried: one row of masks, worked out from the last items to the first, in at most 32 · 32 steps.
#![tactic(auto)]

pub mod places; // places.rt: the least mask at a place of a zone

ghost use Rattle.std.specs.Prelude.{◌≤◌, length, drop};
ghost use Rattle.deal.specs.Deal.{Answers};
ghost use Rattle.deal.specs.Cells.{Cell, Putting, Put, Lesser, Sized, CellAt, CellReady, Before, After};

// The items, and the two lists that they are dealt out to.
#[derive(Clone, Copy)]
struct Dealing<'a> {
    others: &'a [u16],
    l: &'a [u16],
    r: &'a [u16],
}

// The mask where x goes to this side, whose items up to place i are dealt: x has to be the next one, and `rest` is the mask of the items after x.
fn put(x: u16, side: &[u16], i: usize, rest: Option<u32>, bit: u32) -> Option<u32>
    requires { Putting side.now i rest bit }
    ensures { Put x (drop i side.now) rest bit result }
{
    if side.get(i) != Some(&x) {
        return None;
    }
    Some(2 * rest? + bit)
}

// The lesser of two masks, or the one that there is.
fn lesser(a: Option<u32>, b: Option<u32>) -> Option<u32>
    ensures { Lesser a b result }
{
    match (a, b) {
        (Some(a), Some(b)) => Some(a.min(b)),
        _ => a.or(b),
    }
}

// The least mask of the items that are left when i went to l and j to r, by the two cells after it.
fn cell(d: Dealing<'_>, i: usize, j: usize, below: Option<u32>, beside: Option<u32>) -> Option<u32>
    requires { CellReady d.others.now d.l.now d.r.now i j below beside }
    ensures { CellAt d.entry.others.now d.entry.l.now d.entry.r.now i j result }
{
    let k = i + j;
    if k == d.others.len() {
        return Some(0);
    }
    let x = d.others[k];
    let a = put(x, d.l, i, below, 0);
    let b = put(x, d.r, j, beside, 1);
    lesser(a, b)
}

// The cells at i from those at i + 1, from the last to the first.
fn fill(d: Dealing<'_>, i: usize, row: &mut [Option<u32>; 32])
    requires { Before d.others.now d.l.now d.r.now i row.old }
    ensures { After d.entry.others.now d.entry.l.now d.entry.r.now i row.new }
{
    let mut v = None;
    for j in (0..d.r.len() + 1).rev() {
        v = cell(d, i, j, row[j], v);
        row[j] = v;
    }
}

// The cell at the start: the least mask, or that there is none.
fn table(d: Dealing<'_>) -> Option<u32>
    requires { Sized d.others.now d.l.now d.r.now }
    ensures { Cell d.entry.others.now d.entry.l.now d.entry.r.now result }
{
    let mut row = [None; 32];
    for i in (0..d.l.len() + 1).rev() {
        fill(d, i, &mut row);
    }
    row[0]
}

// The least mask, or that there is none.
pub fn deal(others: &[u16], l: &[u16], r: &[u16]) -> Option<u32>
    requires { length others.now ≤ 31 }
    ensures { Answers others.now l.now r.now result }
{
    let n = others.len();
    if l.len() > n {
        return None;
    }
    if r.len() != n - l.len() {
        return None;
    }
    table(Dealing { others, l, r })
}

// Whether a formula may stand where it stands: its tag, its parts before it, its height and its size.
ghost use Rattle.std.specs.Prelude.{◌≡◌, ◌<◌, ◌≤◌, length};
ghost use Rattle.held.specs.Words.{most, words, RowAt, Rows};
ghost use Rattle.held.specs.Answers.{Tells, Weighed, Joined};

use super::words::field;

// The height and the size of a formula.
#[derive(Clone, Copy, PartialEq)]
pub struct Weight {
    pub height: usize,
    pub size: usize,
}

// One more than the greater height, and one more than the two sizes, where both are in bounds.
fn joined(ha: usize, hb: usize, sa: usize, sb: usize) -> Option<Weight>
    requires { ((ha < 65536) × (hb < 65536)) × ((sa < 65536) × (sb < 65536)) }
    ensures { Joined ha hb sa sb result }
{
    let h = 1 + ha.max(hb);
    let s = 1 + sa + sb;
    if 64 < h || 65535 < s {
        return None;
    }
    Some(Weight { height: h, size: s })
}

// The height and the size of a formula that may stand after the first n.
pub fn weigh(mem: &[u16], n: usize, tag: usize, a: usize, b: usize) -> Option<Weight>
    requires { ((n ≤ most) × (a < 65536)) × (length mem.now ≡ words) }
    ensures { Weighed mem.now n tag a b result }
{
    match tag {
        0..4 if a == 0 && b == 0 => Some(Weight { height: 1, size: 1 }),
        4..6 if b == 0 => Some(Weight { height: 1, size: 3 }),
        6..11 if a < n && b < n => joined(
            field(mem, a, 3),
            field(mem, b, 3),
            field(mem, a, 4),
            field(mem, b, 4),
        ),
        11..13 if a < n && b == 0 => joined(field(mem, a, 3), 0, field(mem, a, 4), 0),
        _ => None,
    }
}

// Whether formula i may stand where it stands.
fn row_fits(mem: &[u16], i: usize) -> bool
    requires { (i < most) × (length mem.now ≡ words) }
    ensures { Tells result (RowAt mem.now i) }
{
    let stands = Weight {
        height: field(mem, i, 3),
        size: field(mem, i, 4),
    };
    weigh(mem, i, field(mem, i, 0), field(mem, i, 1), field(mem, i, 2)) == Some(stands)
}

// Whether the first n formulas may stand where they stand.
pub fn rows_fit(mem: &[u16], n: usize) -> bool
    requires { (n ≤ most) × (length mem.now ≡ words) }
    ensures { Tells result (Rows mem.now n) }
{
    (0..n).all(|i| row_fits(mem, i))
}

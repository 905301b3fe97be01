// A sequent by value: two zones of numbers of held formulas, and what search.rs does to `linear` and `unrestricted` (`remove(i)`, `push`, `[i] = ..`, one part of a split). At most 31 formulas,
// both zones together: a caller tests refusal 6 before it makes a longer one.
#![tactic(auto)]

ghost use Rattle.std.specs.Prelude.{◌≡◌, ◌+◌, ◌<◌, ◌≤◌, length};
ghost use Rattle.zones.specs.Zones.{linears, unrestricteds, Fits, Made, Empty, Shifted, without, replaced, pushed, only, split, without_unrestricted, pushed_unrestricted};

// Each zone with its count, in place: there is no heap. So what changes a zone is written once for each of the two.
#[derive(Clone, Copy)]
pub struct Zones {
    pub linear: [u16; 31],
    pub linear_len: usize,
    pub unrestricted: [u16; 31],
    pub unrestricted_len: usize,
}

// Takes the item at place i out: those after it, up to place `last`, move down by one.
fn shift_down(items: &mut [u16; 31], i: usize, last: usize)
    requires { (length items.old ≡ 31) × ((i ≤ last) × (last < 31)) }
    ensures { Shifted items.old i last items.new }
{
    items.copy_within(i + 1..last + 1, i);
}

impl Zones {
    pub fn empty() -> Zones
        ensures { Empty result }
    {
        Zones {
            linear: [0; 31],
            linear_len: 0,
            unrestricted: [0; 31],
            unrestricted_len: 0,
        }
    }

    // How many formulas, both zones together.
    pub fn count(self) -> usize
        requires { Fits self }
        ensures { result ≡ length (linears self) + length (unrestricteds self) }
    {
        self.linear_len + self.unrestricted_len
    }

    // `linear.remove(i)`
    pub fn without(mut self, i: usize) -> Zones
        requires { Fits self × (i < self.linear_len) }
        ensures { Made self (without i) result }
    {
        self.linear_len -= 1;
        shift_down(&mut self.linear, i, self.linear_len);
        self
    }

    // `unrestricted.remove(i)`
    pub fn without_unrestricted(mut self, i: usize) -> Zones
        requires { Fits self × (i < self.unrestricted_len) }
        ensures { Made self (without_unrestricted i) result }
    {
        self.unrestricted_len -= 1;
        shift_down(&mut self.unrestricted, i, self.unrestricted_len);
        self
    }

    // `linear.push(a)`
    pub fn pushed(mut self, a: u16) -> Zones
        requires { Fits self × (self.linear_len + self.unrestricted_len < 31) }
        ensures { Made self (pushed a) result }
    {
        self.linear[self.linear_len] = a;
        self.linear_len += 1;
        self
    }

    // `unrestricted.push(a)`
    pub fn pushed_unrestricted(mut self, a: u16) -> Zones
        requires { Fits self × (self.linear_len + self.unrestricted_len < 31) }
        ensures { Made self (pushed_unrestricted a) result }
    {
        self.unrestricted[self.unrestricted_len] = a;
        self.unrestricted_len += 1;
        self
    }

    // `linear[i] = a`
    pub fn replaced(mut self, i: usize, a: u16) -> Zones
        requires { Fits self × (i < self.linear_len) }
        ensures { Made self (replaced i a) result }
    {
        self.linear[i] = a;
        self
    }

    // `linear: vec![a]`
    pub fn only(mut self, a: u16) -> Zones
        requires { Fits self × (self.unrestricted_len < 31) }
        ensures { Made self (only a) result }
    {
        self.linear[0] = a;
        self.linear_len = 1;
        self
    }

    // A premise of a tensor at place i, in one pass: of the other linear items those whose bit of the mask is `side`, in order, then a.
    fn part(mut self, i: usize, mut mask: usize, side: usize, a: u16) -> Zones
        requires { Fits self × (i < self.linear_len) }
        ensures { Made self (split side i mask a) result }
    {
        // By index: an item moves to a place of its own count.
        let mut to = 0;
        for k in 0..self.linear_len - 1 {
            self.linear[to] = self.linear[k + usize::from(i <= k)];
            to += usize::from(mask % 2 == side);
            mask /= 2;
        }
        self.linear[to] = a;
        self.linear_len = to + 1;
        self
    }

    // The left premise of a tensor at place i: `all_splits` without it, then a.
    pub fn left_part(self, i: usize, mask: usize, a: u16) -> Zones
        requires { Fits self × (i < self.linear_len) }
        ensures { Made self (split 0 i mask a) result }
    {
        self.part(i, mask, 0, a)
    }

    // The right premise of a tensor at place i.
    pub fn right_part(self, i: usize, mask: usize, a: u16) -> Zones
        requires { Fits self × (i < self.linear_len) }
        ensures { Made self (split 1 i mask a) result }
    {
        self.part(i, mask, 1, a)
    }
}

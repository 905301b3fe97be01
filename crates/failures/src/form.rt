// The well-formed test of the failures' words, over well-formed words of formulas; and reset.
ghost use Rattle.std.specs.Prelude.{◌≡◌, ◌<◌, ◌≤◌, length};
ghost use Rattle.held.specs.Answers.{Tells};
ghost use Rattle.held.specs.Words.{Wf};
ghost use Rattle.failures.specs.Items.{Item, Listing};
ghost use Rattle.failures.specs.Records.{most, words, items_at, Stands, Standing, WfFailures, ResetTo};

use super::order::ordered;
use super::{MOST, ORDER, WORDS};
use held::entry::zeros;
use held::words::field;

// Whether an item is of a held formula, and no unmarked ?A.
fn item_fits(held: &[u16], x: usize) -> bool
    requires { Wf held.now }
    ensures { Tells result (Item held.now x) }
{
    // By early returns: as one condition it compiles to a second test of each marked item.
    let n = held[0] as usize;
    let i = x / 2;
    if n <= i {
        return false;
    }
    if x % 2 == 1 {
        return true;
    }
    field(held, i, 0) != 12
}

// Whether the first n items of failure i are of held formulas and never fall.
fn items_fit(held: &[u16], fail: &[u16], i: usize, n: usize) -> bool
    requires { (Wf held.now × (length fail.now ≡ words)) × ((i < most) × (n ≤ 31)) }
    ensures { Tells result (Listing held.now (items_at fail.now i n)) }
{
    // One pass: the whole memory is tested at each call.
    let mut last: usize = 0;
    for k in 0..n {
        let x = fail[2 + 32 * i + k] as usize;
        if x < last {
            return false;
        }
        if !item_fits(held, x) {
            return false;
        }
        last = x;
    }
    true
}

// Whether failure i may stand where it stands.
fn record_fits(held: &[u16], fail: &[u16], i: usize) -> bool
    requires { (Wf held.now × (length fail.now ≡ words)) × (i < most) }
    ensures { Tells result (Stands held.now fail.now i) }
{
    let n = fail[1 + 32 * i] as usize;
    n <= 31 && items_fit(held, fail, i, n) && zeros(fail, 2 + 32 * i + n, 33 + 32 * i)
}

// Whether the first n failures may stand where they stand.
fn records_fit(held: &[u16], fail: &[u16], n: usize) -> bool
    requires { (Wf held.now × (length fail.now ≡ words)) × (n ≤ most) }
    ensures { Tells result (Standing held.now fail.now n) }
{
    (0..n).all(|i| record_fits(held, fail, i))
}

// Whether the words are well-formed over well-formed words of formulas. Any words may be lent.
pub fn well_formed(held: &[u16], fail: &[u16]) -> bool
    requires { Wf held.now }
    ensures { Tells result (WfFailures held.now fail.now) }
{
    if fail.len() != WORDS {
        return false;
    }
    let n = fail[0] as usize;
    // An early return and not one condition: so the loops over the items compile with their way out beside them.
    if MOST < n || !records_fit(held, fail, n) || !ordered(fail, n) {
        return false;
    }
    zeros(fail, 1 + 32 * n, ORDER) && zeros(fail, ORDER + n, WORDS)
}

// No failure is recorded. Any words of the right length may be lent.
pub fn reset(fail: &mut [u16]) -> bool
    ensures { ResetTo fail.old result fail.new }
{
    if fail.len() != WORDS {
        return false;
    }
    fail.fill(0);
    true
}

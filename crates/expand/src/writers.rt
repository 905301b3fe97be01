// Held formulas and zones in bytes (document 01, "Bytes"). Each writer writes from a place on and answers the place after what it wrote.
ghost use Rattle.std.specs.Prelude.{◌+◌, ◌<◌, ◌≤◌, length};
ghost use Rattle.wire.specs.Write.{two_bytes, write_formula, write_formulas, write_zone};
ghost use Rattle.held.specs.Words.{told, named};
ghost use Rattle.expand.specs.Writing.{Wrote, FormulaRoom, Items, ItemsRoom, ZoneRoom, Weighs};

use held::words::field;

// A number of two bytes.
pub fn two_bytes(out: &mut [u8], to: usize, n: usize) -> usize
    requires { (n < 65536) × (to + 2 ≤ length out.old) }
    ensures { Wrote out.old to (two_bytes n) out.new result }
{
    out[to] = (n / 256) as u8;
    out[to + 1] = (n % 256) as u8;
    to + 2
}

// Formula x.
pub fn formula_bytes(mem: &[u16], x: usize, out: &mut [u8], to: usize) -> usize
    requires { FormulaRoom mem.now x out.old to }
    ensures { Wrote out.old to (write_formula (told mem.now x)) out.new result }
{
    let tag = field(mem, x, 0);
    let a = field(mem, x, 1);
    let b = field(mem, x, 2);
    out[to] = tag as u8;
    if tag < 4 {
        return to + 1;
    }
    if tag < 6 {
        return two_bytes(out, to + 1, a);
    }
    let next = formula_bytes(mem, a, out, to + 1);
    if tag < 11 {
        return formula_bytes(mem, b, out, next);
    }
    next
}

// How many bytes the items take.
pub fn items_length(mem: &[u16], items: &[u16]) -> usize
    requires { Items mem.now items.now (length items.now) }
    ensures { Weighs mem.now items.now (length items.now) result }
{
    let mut sum = 0;
    for &x in items {
        sum += field(mem, x as usize, 4);
    }
    sum
}

// The items.
fn items_bytes(mem: &[u16], items: &[u16], out: &mut [u8], to: usize) -> usize
    requires { ItemsRoom mem.now items.now (length items.now) out.old to }
    ensures { Wrote out.old to (write_formulas (named mem.now items.now (length items.now))) out.new result }
{
    let mut next = to;
    for &x in items {
        next = formula_bytes(mem, x as usize, out, next);
    }
    next
}

// A zone: its length, then its formulas.
pub fn zone_bytes(mem: &[u16], items: &[u16], out: &mut [u8], to: usize) -> usize
    requires { ZoneRoom mem.now items.now (length items.now) out.old to }
    ensures { Wrote out.old to (write_zone (named mem.now items.now (length items.now))) out.new result }
{
    let next = two_bytes(out, to, items_length(mem, items));
    items_bytes(mem, items, out, next)
}

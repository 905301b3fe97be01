// Which held formula is the negation of which, for all of a memory at once: an implication is spelled out by looking its left part up here.
ghost use Rattle.std.specs.Prelude.{◌≡◌, ◌+◌, ◌-◌, ◌<◌, ◌≤◌, length};
ghost use Rattle.std.specs.Option.{SomeIff};
ghost use Rattle.logic.specs.Formula.{negate};
ghost use Rattle.held.specs.Words.{count, most, told, Wf};
ghost use Rattle.held.specs.Answers.{NumberOf};
ghost use Rattle.expand.specs.Negations.{Table, Above, Negated};

use formula::rewrite::dual;
use held::entry::find;
use held::words::field;

// The number that a word of the table notes: the word is one more than it, and 0 notes none.
fn noted(word: u16) -> Option<usize>
    ensures { SomeIff result (1 ≤ word) (word - 1) }
{
    usize::from(word).checked_sub(1)
}

// The number of the negation of formula x, where that is held. The table tells it of the formulas before x.
fn negation(mem: &[u16], table: &[u16], x: usize) -> Option<usize>
    requires { Table mem.now table.now x × (x < count mem.now) }
    ensures { NumberOf mem.now (negate (told mem.now x)) result }
{
    let tag = field(mem, x, 0);
    let a = field(mem, x, 1);
    let b = field(mem, x, 2);
    let turned = usize::from(dual(tag));
    if tag < 6 {
        return find(mem, turned, a, 0);
    }
    if tag == 10 {
        let right = noted(table[b])?;
        return find(mem, 6, a, right);
    }
    let left = noted(table[a])?;
    if 10 < tag {
        return find(mem, turned, left, 0);
    }
    let right = noted(table[b])?;
    find(mem, turned, left, right)
}

// `top`, made to lie above the left part of formula x where that is an implication.
fn above(mem: &[u16], x: usize, top: usize) -> usize
    requires { (Wf mem.now × (x < count mem.now)) × Above mem.now x top }
    ensures { Above mem.now (x + 1) result }
{
    if field(mem, x, 0) != 10 {
        return top;
    }
    top.max(field(mem, x, 1) + 1)
}

// Above the left part of each held implication: no more of the table is asked for.
fn top(mem: &[u16]) -> usize
    requires { Wf mem.now }
    ensures { Above mem.now (count mem.now) result }
{
    let mut r = 0;
    for x in 0..mem[0] as usize {
        r = above(mem, x, r);
    }
    r
}

// Fills the table, as far as implications ask for it.
pub fn negations(mem: &[u16], table: &mut [u16])
    requires { Wf mem.now × (length table.old ≡ most) }
    ensures { Negated mem.now table.new }
{
    // By index: a word is worked out from those before it.
    for x in 0..top(mem) {
        table[x] = match negation(mem, table, x) {
            Some(i) => i as u16 + 1,
            None => 0,
        };
    }
}

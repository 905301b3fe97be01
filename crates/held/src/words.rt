// Reading the words: a field of a formula, an order word, and the code by which formulas are ordered.
ghost use Rattle.std.specs.Prelude.{◌≡◌, ◌+◌, ◌*◌, ◌<◌, ◌≤◌, length};
ghost use Rattle.held.specs.Words.{most, words, code, code_at};
ghost use Rattle.held.specs.Answers.{Field, OrderWord};

use super::ORDER;

// Field k of formula i.
pub fn field(mem: &[u16], i: usize, k: usize) -> usize
    requires { ((i < most) × (k < 5)) × (length mem.now ≡ words) }
    ensures { Field mem.now i k result }
{
    mem[1 + 5 * i + k] as usize
}

// Order word j.
pub fn order_word(mem: &[u16], j: usize) -> usize
    requires { (j < most) × (length mem.now ≡ words) }
    ensures { OrderWord mem.now j result }
{
    mem[ORDER + j] as usize
}

// A tag, a left part or name and a right part as one number: formulas are ordered by it.
pub fn code_of(tag: usize, a: usize, b: usize) -> usize
    requires { (tag < 65536) × ((a < 65536) × (b < 65536)) }
    ensures { result ≡ code tag a b }
{
    tag * 4294967296 + a * 65536 + b
}

// The code of formula i.
pub fn code_at(mem: &[u16], i: usize) -> usize
    requires { (i < most) × (length mem.now ≡ words) }
    ensures { result ≡ code_at mem.now i }
{
    code_of(field(mem, i, 0), field(mem, i, 1), field(mem, i, 2))
}

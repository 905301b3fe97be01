// A question in bytes, entered into the lent words of formulas whole or not at all: the formulas read, in byte order, and then the negations of its antecedents. What is asked is then a sequent of
// numbers of held formulas.
#![tactic(auto)]

pub mod whole; // whole.rt: a question read from bytes into the whole lent memory

ghost use Rattle.ask.specs.Asking.{Askable, OneSided, TwoSided, Entering, AskedTo};

use enter::lists::{enter_formulas, negate_listed};
use held::entry::cut;
use question::{ONE_SIDED, Places};
use zones::Zones;

// Kind 1: the linear zone, then the unrestricted. The sequent to be searched, where there is room for the question's formulas.
fn enter_one_sided(mem: &mut [u16], s: &[u8], p: Places) -> Option<Zones>
    requires { OneSided mem.old s.now p }
    ensures { Entering mem.old s.now result mem.new }
{
    let mut linear = [0; 31];
    let linear_len = enter_formulas(mem, s, p.first, p.first_end, &mut linear, 0)?;
    let mut unrestricted = [0; 31];
    let unrestricted_len = enter_formulas(mem, s, p.second, p.second_end, &mut unrestricted, 0)?;
    Some(Zones {
        linear,
        linear_len,
        unrestricted,
        unrestricted_len,
    })
}

// Kind 2 (sequent.rs: `to_one_sided`): the antecedent, the succedent, then the negations of the antecedent, which stand before the succedent in the linear zone.
fn enter_two_sided(mem: &mut [u16], s: &[u8], p: Places) -> Option<Zones>
    requires { TwoSided mem.old s.now p }
    ensures { Entering mem.old s.now result mem.new }
{
    let mut linear = [0; 31];
    let n = enter_formulas(mem, s, p.first, p.first_end, &mut linear, 0)?;
    let k = enter_formulas(mem, s, p.second, p.second_end, &mut linear, n)?;
    negate_listed(mem, &mut linear, n)?;
    Some(Zones {
        linear,
        linear_len: n + k,
        unrestricted: [0; 31],
        unrestricted_len: 0,
    })
}

// Enters the question that `read_question` found, or leaves every word as it is: what was entered of a question for which there is no room is taken back.
pub fn enter_question(mem: &mut [u16], s: &[u8], p: Places) -> Option<Zones>
    requires { Askable mem.old s.now p }
    ensures { AskedTo mem.old s.now result mem.new }
{
    let n = mem[0] as usize;
    let r = if p.kind == ONE_SIDED {
        enter_one_sided(mem, s, p)
    } else {
        enter_two_sided(mem, s, p)
    };
    if r.is_none() {
        cut(mem, n);
    }
    r
}

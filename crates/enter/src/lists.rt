// Lists of formulas: those that stand in a zone, entered one after another, and the negations of those that are listed. A list is numbers of held formulas, from a place of a lent slice on.
ghost use Rattle.std.specs.Prelude.{◌≡◌};
ghost use Rattle.enter.specs.Lists.{Zoned, ListedFrom, Negatable, NegatedFrom};

use super::enter_formula;
use held::turn::negate_held;

// Enters the formulas that stand from `at` to `end`, and lists their numbers from place `from` on: how many they are; or there is no room for them.
pub fn enter_formulas(
    mem: &mut [u16],
    s: &[u8],
    at: usize,
    end: usize,
    numbers: &mut [u16],
    from: usize,
) -> Option<usize>
    requires { Zoned mem.old s.now at end numbers.old from }
    ensures { ListedFrom mem.old s.now at end numbers.old from result mem.new numbers.new }
{
    let mut p = at;
    let mut n = 0;
    // From formula to formula: where the next begins is known when one is entered.
    while p < end {
        let (i, next) = enter_formula(mem, s, p)?;
        numbers[from + n] = i as u16;
        n += 1;
        p = next;
    }
    Some(n)
}

// Enters the negations of the first n formulas that are listed, and lists them in their places; or there is no room for them.
pub fn negate_listed(mem: &mut [u16], numbers: &mut [u16], n: usize) -> Option<()>
    requires { Negatable mem.old numbers.old n }
    ensures { NegatedFrom mem.old numbers.old n result mem.new numbers.new }
{
    // By index: a number is read, and its negation's stands in its place.
    for k in 0..n {
        let i = negate_held(mem, numbers[k] as usize)?;
        numbers[k] = i as u16;
    }
    Some(())
}

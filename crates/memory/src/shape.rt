// A held formula's sign with the numbers of its parts or its name, and an implication spelled out.
ghost use Rattle.std.specs.Prelude.{◌<◌};
ghost use Rattle.logic.specs.Formula.{spell};
ghost use Rattle.memory.specs.Meaning.{Wf, held_count, told};
ghost use Rattle.memory.specs.Shapes.{ShapeOf, Implication, SpelledOr};

use super::FORMULAS;

// What `match formula` of search.rs sees: a sign, and the numbers of the parts or the name.
#[derive(Clone, Copy)]
pub enum Shape {
    One,
    Bottom,
    Top,
    Zero,
    Atom(u16),
    NegAtom(u16),
    Tensor(u16, u16),
    Par(u16, u16),
    With(u16, u16),
    Plus(u16, u16),
    Lolli(u16, u16),
    OfCourse(u16),
    WhyNot(u16),
}

pub fn shape_at(mem: &[u16], x: u16) -> Shape
    requires { Wf mem.now × (x < held_count mem.now) }
    ensures { ShapeOf mem.now x result }
{
    let at = 1 + 5 * x as usize;
    let tag = mem[at];
    let a = mem[at + 1];
    let b = mem[at + 2];
    match tag {
        0 => Shape::One,
        1 => Shape::Bottom,
        2 => Shape::Top,
        3 => Shape::Zero,
        4 => Shape::Atom(a),
        5 => Shape::NegAtom(a),
        6 => Shape::Tensor(a, b),
        7 => Shape::Par(a, b),
        8 => Shape::With(a, b),
        9 => Shape::Plus(a, b),
        10 => Shape::Lolli(a, b),
        11 => Shape::OfCourse(a),
        _ => Shape::WhyNot(a),
    }
}

// search.rs: `prove_async` at a Lolli: `Par(left negated, right)` is entered with its parts; or there is no room for them, and every word stays as it is.
pub fn spell(mem: &mut [u16], x: u16) -> Option<u16>
    requires { Implication mem.old x }
    ensures { SpelledOr mem.old (spell (told mem.old x)) result mem.new }
{
    let i = held::turn::spell_held(&mut mem[..FORMULAS], x as usize)?;
    Some(i as u16)
}

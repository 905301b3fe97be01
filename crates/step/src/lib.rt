// The steps of the search's rules over a sequent of held formulas (crates/short/specs/Steps.antt), each by its rule, the place of its principal formula and, for a tensor, the mask of the split.
#![tactic(auto)]

ghost use Rattle.std.specs.Prelude.{◌≡◌, Bool, ◌+◌, ◌<◌};
ghost use Rattle.held.specs.Words.{told};
ghost use Rattle.zones.specs.Zones.{Fits};
ghost use Rattle.expand.specs.Short as short_words;
ghost use Rattle.expand.specs.Writing.{Sound};
ghost use Rattle.rule.specs.Numbers.{number_of};
ghost use Rattle.step.specs.Taking.{Numbered, decomposed_tag, SpeltTo, TagAt, Pair, Alone, Split, Focused, Asked, Crowded};

use expand::steps::first_decomposable;
use held::turn::spell_held;
use held::words::field;
use rule::Rule;
use zones::Zones;

// Tags by document 01's number.
pub const ONE: usize = 0;

const BOTTOM: usize = 1;

const TOP: usize = 2;

pub const ATOM: usize = 4;

pub const NEG_ATOM: usize = 5;

pub const TENSOR: usize = 6;

const PAR: usize = 7;

const WITH: usize = 8;

pub const PLUS: usize = 9;

pub const LOLLI: usize = 10;

pub const OF_COURSE: usize = 11;

const WHY_NOT: usize = 12;

// One past the tags, as the laws have it (`decomposed_tag`).
const NO_TAG: usize = 13;

// The most formulas of a sequent.
pub const MOST: usize = 31;

// Spells the first decomposable formula out, where that is an implication: `Par(left negated, right)` is entered with its parts. No room for it: none, and every word stays as it is.
pub fn spell_first(mem: &mut [u16], z: Zones) -> Option<Zones>
    requires { Sound mem.old z }
    ensures { SpeltTo mem.old z result mem.new }
{
    let i = first_decomposable(mem, z);
    if i == z.linear_len {
        return Some(z);
    }
    let x = z.linear[i] as usize;
    if field(mem, x, 0) != LOLLI {
        return Some(z);
    }
    let p = spell_held(mem, x)?;
    Some(z.replaced(i, p as u16))
}

// The tag of the linear formula at a place; past the end it is that of One, which no rule but OneIntro wants.
fn tag_at(mem: &[u16], z: Zones, i: usize) -> usize
    requires { Sound mem.now z }
    ensures { TagAt mem.now z i result }
{
    let n = z.linear_len;
    if n <= i {
        return ONE;
    }
    let x = z.linear[i] as usize;
    field(mem, x, 0)
}

// The rule with this number: a step is asked for by numbers, and any number may be asked.
fn numbered(rule: usize) -> Option<Rule>
    ensures { Numbered rule result }
{
    let number = u8::try_from(rule).ok()?;
    Rule::try_from(number).ok()
}

// The tag of the formula that a rule of `prove_async` decomposes, and no tag for any other rule.
fn decomposed(rule: Rule) -> usize
    ensures { result ≡ decomposed_tag (number_of rule) }
{
    match rule {
        Rule::BottomIntro => BOTTOM,
        Rule::ParIntro => PAR,
        Rule::TopIntro => TOP,
        Rule::WithIntro => WITH,
        Rule::WhyNotIntro => WHY_NOT,
        _ => NO_TAG,
    }
}

// The linear zone is a name and its negation, in either order.
fn is_pair(mem: &[u16], z: Zones) -> bool
    requires { Sound mem.now z }
    ensures { Pair mem.now z result }
{
    if z.linear_len != 2 {
        return false;
    }
    let x = z.linear[0] as usize;
    let y = z.linear[1] as usize;
    if field(mem, x, 1) != field(mem, y, 1) {
        return false;
    }
    let other = field(mem, y, 0);
    match field(mem, x, 0) {
        ATOM => other == NEG_ATOM,
        NEG_ATOM => other == ATOM,
        _ => false,
    }
}

// The formula at the place has this tag, and stands alone.
fn is_alone(mem: &[u16], z: Zones, place: usize, tag: usize) -> bool
    requires { Sound mem.now z }
    ensures { Alone mem.now z place tag result }
{
    z.linear_len == 1 && place == 0 && tag_at(mem, z, place) == tag
}

// A tensor stands at the place, and the mask has a bit for each other formula and no spare one set.
fn is_split(mem: &[u16], z: Zones, place: usize, mask: usize) -> bool
    requires { Sound mem.now z }
    ensures { Split mem.now z place mask result }
{
    if tag_at(mem, z, place) != TENSOR {
        return false;
    }
    mask < 1 << (z.linear_len - 1)
}

// A step of `prove_sync`, where no formula is decomposable and the linear zone is not empty.
fn takes_focused(mem: &[u16], z: Zones, rule: Rule, place: usize, mask: usize) -> bool
    requires { Focused mem.now z }
    ensures { Asked mem.now z (number_of rule) place mask result }
{
    match rule {
        Rule::Axiom => place == 0 && is_pair(mem, z),
        Rule::OneIntro => is_alone(mem, z, place, ONE),
        Rule::TensorIntro => is_split(mem, z, place, mask),
        Rule::PlusIntroLeft | Rule::PlusIntroRight => tag_at(mem, z, place) == PLUS,
        Rule::OfCourseIntro => is_alone(mem, z, place, OF_COURSE),
        Rule::Weakening | Rule::Contraction | Rule::Dereliction => place < z.unrestricted_len,
        _ => false,
    }
}

// Whether the search's rules can take the step as written. Any rule's number, place and mask may be asked.
pub fn may_take(mem: &[u16], z: Zones, rule: usize, place: usize, mask: usize) -> bool
    requires { Sound mem.now z }
    ensures { Asked mem.now z rule place mask result }
{
    let Some(known) = numbered(rule) else {
        return false;
    };
    let first = first_decomposable(mem, z);
    if first < z.linear_len {
        return place == first && tag_at(mem, z, place) == decomposed(known);
    }
    z.linear_len != 0 && takes_focused(mem, z, known, place, mask)
}

// Whether a premise has more formulas than a sequent may: at ParIntro and Contraction alone it has one more than the conclusion.
pub fn is_crowded(z: Zones, rule: usize) -> bool
    requires { Fits z }
    ensures { Crowded z rule result }
{
    let Some(known) = numbered(rule) else {
        return false;
    };
    z.count() >= MOST && matches!(known, Rule::ParIntro | Rule::Contraction)
}

// The word of a node (crates/expand/specs/Short.antt).
pub fn node_word(rule: usize, place: usize, mask: usize) -> u64
    requires { (rule < 256) × ((place < 256) × (mask < 4294967296)) }
    ensures { result ≡ short_words.word rule place mask }
{
    (rule + 32 * place + 1024 * mask) as u64
}

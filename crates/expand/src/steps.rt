// What a node concludes and what its premises are, from its word.
ghost use Rattle.std.specs.Prelude.{◌≡◌, false, ◌<◌, get_or};
ghost use Rattle.held.specs.Words.{told};
ghost use Rattle.zones.specs.Zones.{meant};
ghost use Rattle.expand.specs.Short as short;
ghost use Rattle.expand.specs.Short.{rule_of, place_of, step};
ghost use Rattle.expand.specs.Writing as writing;
ghost use Rattle.expand.specs.Writing.{Sound, Means, FirstAt, Spellable, SpelledAs, SpellsOut, premise_counts, Stepping, first_of, Stepping₂, second_of};

use held::entry::find;
use held::words::field;
use zones::Zones;

// Whether a formula with this tag is decomposed, by a table (search.rs: `prove_async`): Bottom, Top, Par, With, Lolli, WhyNot.
fn decomposes(tag: usize) -> bool
    requires { tag < 13 }
    ensures { result ≡ writing.decomposes tag }
{
    let signs: [bool; 13] = [
        false, true, true, false, false, false, false, true, true, false, true, false, true,
    ];
    signs[tag]
}

// The place of the first decomposable formula, or how many there are: by index, since the place is asked for.
pub fn first_decomposable(mem: &[u16], z: Zones) -> usize
    requires { Sound mem.now z }
    ensures { FirstAt mem.now z result }
{
    let n = z.linear_len;
    for i in 0..n {
        if decomposes(field(mem, z.linear[i] as usize, 0)) {
            return i;
        }
    }
    n
}

// The number of the implication x spelled out at its top, which is held.
fn spelled_number(mem: &[u16], negations: &[u16], x: usize) -> u16
    requires { Spellable mem.now negations.now x }
    ensures { SpelledAs mem.now x result }
{
    let a = field(mem, x, 1);
    let b = field(mem, x, 2);
    let left = negations[a] as usize - 1;
    find(mem, 7, left, b).unwrap_or(0) as u16
}

// The sequent with the first decomposable formula spelled out, where that is an implication.
pub fn spelled(mem: &[u16], negations: &[u16], z: Zones) -> Zones
    requires { SpellsOut mem.now negations.now z }
    ensures { Means mem.now (short.spelled (meant (told mem.now) z)) result }
{
    let i = first_decomposable(mem, z);
    let n = z.linear_len;
    if i == n {
        return z;
    }
    let x = z.linear[i] as usize;
    if field(mem, x, 0) == 10 {
        return z.replaced(i, spelled_number(mem, negations, x));
    }
    z
}

// How many premises the word's rule has, by a table.
pub fn premises(w: u64) -> usize
    requires { rule_of w < 15 }
    ensures { result ≡ get_or premise_counts (rule_of w) 0 }
{
    let counts: [usize; 15] = [0, 0, 0, 1, 2, 1, 0, 2, 1, 1, 1, 1, 1, 1, 1];
    counts[(w % 32) as usize]
}

// The place of the principal formula in its zone.
fn place(w: u64) -> usize
    ensures { result ≡ place_of w }
{
    (w / 32 % 32) as usize
}

// The premise of a rule on the unrestricted zone: Weakening, Contraction, Dereliction. Each takes the formula out; the second adds two copies, the third one.
fn exponential_premise(mem: &[u16], z: Zones, w: u64) -> Zones
    requires { Stepping mem.now z w × (11 < rule_of w) }
    ensures { Means mem.now (first_of (step (meant (told mem.now) z) w)) result }
{
    let i = place(w);
    let a = z.unrestricted[i];
    let y = z.without_unrestricted(i);
    match w % 32 {
        12 => y,
        13 => y.pushed(a).pushed(a),
        _ => y.pushed(a),
    }
}

// The first premise of the step that w is.
pub fn first_premise(mem: &[u16], z: Zones, w: u64) -> Zones
    requires { Stepping mem.now z w }
    ensures { Means mem.now (first_of (step (meant (told mem.now) z) w)) result }
{
    let rule = w % 32;
    if 11 < rule {
        return exponential_premise(mem, z, w);
    }
    let i = place(w);
    let x = z.linear[i] as usize;
    let a = field(mem, x, 1) as u16;
    let b = field(mem, x, 2) as u16;
    match rule {
        3 => z.without(i),
        4 => z.left_part(i, (w / 1024) as usize, a),
        5 => z.without(i).pushed(a).pushed(b),
        7 => z.without(i).pushed(a),
        8 => z.replaced(i, a),
        9 => z.replaced(i, b),
        10 => z.only(a),
        _ => z.without(i).pushed_unrestricted(a),
    }
}

// The second premise, of a tensor or a With.
pub fn second_premise(mem: &[u16], z: Zones, w: u64) -> Zones
    requires { Stepping₂ mem.now z w }
    ensures { Means mem.now (second_of (step (meant (told mem.now) z) w)) result }
{
    let i = place(w);
    let x = z.linear[i] as usize;
    let b = field(mem, x, 2) as u16;
    if w % 32 == 4 {
        return z.right_part(i, (w / 1024) as usize, b);
    }
    z.without(i).pushed(b)
}

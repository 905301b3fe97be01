// Held formulas compared with formulas in bytes, and a sequent of held formulas with a node's zones.
#![tactic(auto)]

ghost use Rattle.std.specs.Prelude.{◌≡◌, ◌≤◌, ◌<◌, length};
ghost use Rattle.held.specs.Words.{count, Wf};
ghost use Rattle.tree.specs.Places.{Within};
ghost use Rattle.expand.specs.Writing.{Sound};
ghost use Rattle.shown.specs.Matching.{Comparing, TopsAre, Matches, how_of, Listed, ZoneShown, UnrestrictedShown, Shown};

use bags::{How, left_how, right_how, sign};
use expand::steps::first_decomposable;
use formula::Form;
use held::words::field;
use tree::{Span, node_at};
use zones::Zones;

// A memory and zones of its formulas are passed as two, as expand takes them.

// What is known at the tags: the comparison, or that one part or two are still to be compared.
#[derive(Clone, Copy)]
pub enum Tops {
    Told(Option<usize>),
    One,
    Two,
}

// The held formula x, read so, and the formula at a place, at their tags.
fn match_tops(mem: &[u16], x: usize, how: How, s: &[u8], at: usize) -> Tops
    requires { Comparing mem.now x s.now at }
    ensures { TopsAre mem.now x how s.now at result }
{
    let tag = field(mem, x, 0) as u8;
    let t = sign(tag, how);
    if tree::byte_at(s, at) != t {
        return Tops::Told(None);
    }
    match formula::form_of(t) {
        Form::Unit => Tops::Told(Some(tree::after(s, at, 1))),
        Form::Named => {
            if tree::two_at(s, tree::after(s, at, 1)) != field(mem, x, 1) {
                return Tops::Told(None);
            }
            Tops::Told(Some(tree::after(s, at, 3)))
        }
        Form::Binary => Tops::Two,
        Form::Unary | Form::Unknown => Tops::One,
    }
}

// The held formula x, read so, and the formula at a place, walked in step.
pub fn matches(mem: &[u16], x: usize, how: How, s: &[u8], at: usize) -> Option<usize>
    requires { Comparing mem.now x s.now at }
    ensures { Matches mem.now x how s.now at result }
{
    match match_tops(mem, x, how, s, at) {
        Tops::Told(r) => r,
        Tops::One => {
            let tag = field(mem, x, 0) as u8;
            let a = field(mem, x, 1);
            matches(mem, a, left_how(tag, how), s, tree::after(s, at, 1))
        }
        Tops::Two => {
            let tag = field(mem, x, 0) as u8;
            let a = field(mem, x, 1);
            let b = field(mem, x, 2);
            let next = matches(mem, a, left_how(tag, how), s, tree::after(s, at, 1))?;
            matches(mem, b, right_how(how), s, next)
        }
    }
}

// How the item at place k is read, where the one at place `spelled`, if there is one, is spelled out.
fn how_at(k: usize, spelled: Option<usize>) -> How
    ensures { result ≡ how_of k spelled }
{
    if spelled == Some(k) {
        How::Spelled
    } else {
        How::Plain
    }
}

// Whether the items are the formulas of the zone, in order, the one at place `spelled`, if there is one, spelled out at its top.
pub fn zone_shown(mem: &[u16], items: &[u16], spelled: Option<usize>, s: &[u8], zone: Span) -> bool
    requires { Listed mem.now items.now × Within (length s.now) zone }
    ensures { ZoneShown mem.now items.now spelled s.now zone result }
{
    let end = zone.end;
    let mut p = zone.start;
    for (k, &x) in items.iter().enumerate() {
        if end <= p {
            return false;
        }
        let Some(next) = matches(mem, usize::from(x), how_at(k, spelled), s, p) else {
            return false;
        };
        p = next;
    }
    p == end
}

// Whether the unrestricted zone is this one.
pub fn unrestricted_shown(mem: &[u16], z: Zones, s: &[u8], zone: Span) -> bool
    requires { Sound mem.now z × Within (length s.now) zone }
    ensures { UnrestrictedShown mem.now z s.now zone result }
{
    let items = &z.unrestricted[..z.unrestricted_len];
    zone_shown(mem, items, None, s, zone)
}

// Whether the node at a place concludes the sequent, an implication that is the first decomposable formula spelled out.
pub fn is_shown(mem: &[u16], z: Zones, s: &[u8], at: usize) -> bool
    requires { Sound mem.now z × (at ≤ length s.now) }
    ensures { Shown mem.now z s.now at result }
{
    let node = node_at(s, at);
    let first = first_decomposable(mem, z);
    let items = &z.linear[..z.linear_len];
    zone_shown(mem, items, Some(first), s, node.linear)
        && unrestricted_shown(mem, z, s, node.unrestricted)
}

// The public calls of short trees (document 02, 11/12): `shorten` a found tree against its question, and `expand` a short tree against its question. Any bytes and words may be lent. The answers
// in their order: 12; the question's 2 to 6 and its 7; the message's reading; then node by node 7, 15 and 6; 10 last.
#![tactic(auto)]

ghost use Rattle.std.specs.Prelude.{◌≡◌, ◌≤◌};
ghost use Rattle.held.specs.Words.{count, Wf};
ghost use Rattle.short_trees.specs.Promise.{call_of, left_of, expanding, shortening, Expands, Shortens};
ghost use Rattle.short_trees.specs.Steps.{grow_failed, shrink_failed, Readable, Done, Unread, Enterable, EnteredAs};
ghost use Rattle.short_trees.specs.declared.Failure.TheVariants as failure;

use ask::enter_question;
use expand::writers::two_bytes;
use formula::Refusal;
use grow::{LONGEST, grow};
use held::entry::cut;
use memory::FORMULAS;
use question::{Places, read_question};
use short_read::{VERSION, read_short};
use shown::is_shown;
use shrink::shrink;
use step::spell_first;
use tree::read_tree;
use zones::Zones;

// Why nothing was written: the tree is none that the search's rules build for the question (15), or a refusal.
#[derive(Clone, Copy, Debug, PartialEq, Eq)]
pub enum Failure {
    Mismatch,
    Refused(Refusal),
}

impl From<Refusal> for Failure {
    ghost from_gives = { λ why f. f ≡ failure.Refused why };

    fn from(why: Refusal) -> Failure {
        Failure::Refused(why)
    }
}

impl From<grow::Stop> for Failure {
    ghost from_gives = { λ stop f. f ≡ grow_failed stop };

    fn from(stop: grow::Stop) -> Failure {
        match stop {
            grow::Stop::Full => Failure::Refused(Refusal::HeldFull),
            grow::Stop::Mismatch => Failure::Mismatch,
            grow::Stop::TooMany => Failure::Refused(Refusal::TooMany),
        }
    }
}

impl From<shrink::Stop> for Failure {
    ghost from_gives = { λ stop f. f ≡ shrink_failed stop };

    fn from(stop: shrink::Stop) -> Failure {
        match stop {
            shrink::Stop::Full => Failure::Refused(Refusal::HeldFull),
            shrink::Stop::Mismatch => Failure::Mismatch,
        }
    }
}

// Where the body of a message begins.
const BODY: usize = 3;

// A short tree that was read, expanded for a sequent of held formulas: once to see that every step can be taken and how long the tree is, and once to write it. How many bytes stand in the front of the output.
fn expand_read(mem: &mut [u16], s: &[u8], z: Zones, out: &mut [u8]) -> Result<usize, Failure>
    requires { Readable expanding mem.old s.now z }
    ensures { Done expanding mem.old s.now z out.old result mem.new out.new }
{
    let to = grow(mem, s, BODY, z, &mut out[..0], BODY)?.to;
    if LONGEST < to || out.len() < to {
        return Err(Failure::Refused(Refusal::OutputShort));
    }
    out[0] = 1;
    two_bytes(out, 1, to - BODY);
    grow(mem, s, BODY, z, out, BODY)?;
    Ok(to)
}

// A tree that was read, shortened for a sequent of held formulas: once to see that it is one of the search's and how long it is, and once to write it.
fn shorten_read(mem: &mut [u16], s: &[u8], z: Zones, out: &mut [u8]) -> Result<usize, Failure>
    requires { Readable shortening mem.old s.now z }
    ensures { Done shortening mem.old s.now z out.old result mem.new out.new }
{
    let Some(q) = spell_first(mem, z) else {
        return Err(Failure::Refused(Refusal::HeldFull));
    };
    if !is_shown(mem, q, s, BODY) {
        return Err(Failure::Mismatch);
    }
    let to = shrink(mem, s, BODY, q, &mut out[..0], BODY)?.to;
    if out.len() < to {
        return Err(Failure::Refused(Refusal::OutputShort));
    }
    out[0] = VERSION;
    two_bytes(out, 1, to - BODY);
    shrink(mem, s, BODY, q, out, BODY)?;
    Ok(to)
}

// A message that is refused: what the question entered is taken back.
fn unread(mem: &mut [u16], n: usize, why: Refusal) -> Result<usize, Failure>
    requires { Wf mem.old × (n ≤ count mem.old) }
    ensures { Unread mem.old n why result mem.new }
{
    cut(mem, n);
    Err(Failure::Refused(why))
}

// Over the words of formulas: the question is entered, then the message is read.
fn expand_in(
    mem: &mut [u16],
    question: &[u8],
    p: Places,
    short: &[u8],
    out: &mut [u8],
) -> Result<usize, Failure>
    requires { Enterable expanding mem.old question.now p short.now }
    ensures { EnteredAs expanding mem.old question.now short.now out.old result mem.new out.new }
{
    let n = mem[0] as usize;
    let Some(z) = enter_question(mem, question, p) else {
        return Err(Failure::Refused(Refusal::HeldFull));
    };
    match read_short(short) {
        Err(why) => unread(mem, n, why),
        Ok(_) => expand_read(mem, short, z, out),
    }
}

// The same with the other reader and the other walk: no closure, since the walk writes memory and output, and its contract is the form's.
fn shorten_in(
    mem: &mut [u16],
    question: &[u8],
    p: Places,
    full: &[u8],
    out: &mut [u8],
) -> Result<usize, Failure>
    requires { Enterable shortening mem.old question.now p full.now }
    ensures { EnteredAs shortening mem.old question.now full.now out.old result mem.new out.new }
{
    let n = mem[0] as usize;
    let Some(z) = enter_question(mem, question, p) else {
        return Err(Failure::Refused(Refusal::HeldFull));
    };
    match read_tree(full) {
        Err(why) => unread(mem, n, why),
        Ok(_) => shorten_read(mem, full, z, out),
    }
}

// A short tree's full bytes: how many stand in the front of the output.
pub fn expand(
    question: &[u8],
    short: &[u8],
    mem: &mut [u16],
    out: &mut [u8],
) -> Result<usize, Failure>
    ensures { Expands (call_of question.now short.now mem.old out.old) (left_of result mem.new out.new) }
{
    if !memory::well_formed(mem) {
        return Err(Failure::Refused(Refusal::WrongMemory));
    }
    let places = read_question(question)?;
    expand_in(&mut mem[..FORMULAS], question, places, short, out)
}

// A full tree's short bytes.
pub fn shorten(
    question: &[u8],
    full: &[u8],
    mem: &mut [u16],
    out: &mut [u8],
) -> Result<usize, Failure>
    ensures { Shortens (call_of question.now full.now mem.old out.old) (left_of result mem.new out.new) }
{
    if !memory::well_formed(mem) {
        return Err(Failure::Refused(Refusal::WrongMemory));
    }
    let places = read_question(question)?;
    shorten_in(&mut mem[..FORMULAS], question, places, full, out)
}

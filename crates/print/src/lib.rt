// A formula's text (document 01): `pretty` and `pretty_ascii` of formula.rs, on one formula in bytes.
//
// The text is walked twice, once to count and once to write, so that the output buffer stays as it is where it is too short. The place of writing never passes the buffer's end, so nothing overflows,
// however long the text is: a walk whose text does not fit goes on reading, and writes no more.
#![tactic(auto)]

ghost use Rattle.std.specs.Prelude.{◌≡◌, ◌∷◌, [], ◌++◌, ◌+◌, ◌*◌, ◌≤◌, ◌<◌, length};
ghost use Rattle.std.proofs.lemmas.List.Edits.{sets};
ghost use Rattle.logic.specs.Text as as_text;
ghost use Rattle.formula.specs.Calls.{Writes};
ghost use Rattle.print.specs.Printing.{signs_of, sign_row, sign_text, Emitted, Ready, Printed};

use formula::{Form, Refusal, form_of, read_one};

#[derive(Clone, Copy, Debug, PartialEq, Eq)]
pub enum Style {
    Unicode,
    Ascii,
}

// A walk that only counts, or one that writes: no closure, which would hold the buffer through the whole walk.
#[derive(Clone, Copy, Debug, PartialEq, Eq)]
pub enum Pass {
    Count,
    Write,
}

// Where reading goes on, and where writing does while the text fits the output buffer.
#[derive(Clone, Copy, Debug, PartialEq, Eq)]
pub struct Place {
    pub next: usize,
    pub to: Option<usize>,
}

// What stands for each tag, in UTF-8, one behind the other: the signs of the Unicode printing and then those of the ASCII printing, those between two parts with their spaces. An atom's tag has none.
const SIGNS: [u8; 63] =
    *b"1\xE2\x8A\xA5\xE2\x8A\xA40\xE2\x8A\xA5 \xE2\x8A\x97  \xE2\x85\x8B  &  \xE2\x8A\x95  \xE2\x8A\xB8 !?1bottop0^ *  |  &  +  -o !?";

// Where each of them starts, and where the last ends.
const STARTS: [usize; 27] = [
    0, 1, 4, 7, 8, 8, 11, 16, 21, 24, 29, 34, 35, 36, 37, 40, 43, 44, 44, 45, 48, 51, 54, 57, 61,
    62, 63,
];

// Passes over a text, which a walk that writes copies to its place. Reading goes on where it was.
fn emit(out: &mut [u8], p: Place, text: &[u8], pass: Pass) -> Place
    ensures { Emitted pass out.old p.to text.now p.next result out.new }
{
    let next = p.next;
    let Some(to) = p.to else {
        return p;
    };
    if out.len() < to || out.len() - to < text.len() {
        return Place { next, to: None };
    }
    let end = to + text.len();
    if let Pass::Write = pass {
        out[to..end].copy_from_slice(text);
    }
    Place {
        next,
        to: Some(end),
    }
}

// The row of a printing's sign for a tag.
fn row(style: Style, tag: u8) -> usize
    requires { tag < 13 }
    ensures { (result ≡ sign_row style tag) × (result < 26) }
{
    match style {
        Style::Unicode => tag as usize,
        Style::Ascii => 13 + (tag as usize),
    }
}

// What stands for a tag in the text, without its parts.
fn sign(out: &mut [u8], p: Place, tag: u8, style: Style, pass: Pass) -> Place
    requires { tag < 13 }
    ensures { Emitted pass out.old p.to (sign_text (signs_of style) tag) p.next result out.new }
{
    let k = row(style, tag);
    let from = STARTS[k];
    let end = STARTS[k + 1];
    emit(out, p, &SIGNS[from..end], pass)
}

// The Rust atom `a17`: its number in decimal, without leading zeros.
fn name(out: &mut [u8], p: Place, n: usize, pass: Pass) -> Place
    ensures { Emitted pass out.old p.to (as_text.name n) p.next result out.new }
{
    let digit = b'0' + (n % 10) as u8;
    if n < 10 {
        return emit(out, p, &[b'a', digit], pass);
    }
    let before = name(out, p, n / 10, pass);
    emit(out, before, &[digit], pass)
}

// The text of the formula where reading goes on.
fn print(s: &[u8], out: &mut [u8], p: Place, style: Style, pass: Pass) -> Place
    requires { Ready s.now p.next }
    ensures { Printed s.now p out.old style pass result out.new }
{
    let at = p.next;
    let tag = s[at];
    let inside = Place {
        next: at + 1,
        to: p.to,
    };
    match form_of(tag) {
        Form::Unit => sign(out, inside, tag, style, pass),
        Form::Named => {
            let n = u16::from_be_bytes([s[at + 1], s[at + 2]]);
            let behind = Place {
                next: at + 3,
                to: p.to,
            };
            let named = name(out, behind, usize::from(n), pass);
            sign(out, named, tag, style, pass)
        }
        Form::Unary => {
            let signed = sign(out, inside, tag, style, pass);
            print(s, out, signed, style, pass)
        }
        Form::Binary => {
            let open = emit(out, inside, b"(", pass);
            let first = print(s, out, open, style, pass);
            let between = sign(out, first, tag, style, pass);
            let second = print(s, out, between, style, pass);
            emit(out, second, b")", pass)
        }
        Form::Unknown => p,
    }
}

// The text of the formula that the whole slice is, into the front of `out`.
fn print_one(s: &[u8], out: &mut [u8], style: Style) -> Result<usize, Refusal>
    ensures { Writes (as_text.printed (signs_of style)) s.now out.old result out.new }
{
    read_one(s)?;
    let start = Place {
        next: 0,
        to: Some(0),
    };
    let counted = print(s, out, start, style, Pass::Count);
    let Some(n) = counted.to else {
        return Err(Refusal::OutputShort);
    };
    print(s, out, start, style, Pass::Write);
    Ok(n)
}

// formula.rs: `pretty`, in UTF-8.
pub fn pretty(s: &[u8], out: &mut [u8]) -> Result<usize, Refusal>
    ensures { Writes as_text.pretty s.now out.old result out.new }
{
    print_one(s, out, Style::Unicode)
}

// formula.rs: `pretty_ascii`.
pub fn pretty_ascii(s: &[u8], out: &mut [u8]) -> Result<usize, Refusal>
    ensures { Writes as_text.pretty_ascii s.now out.old result out.new }
{
    print_one(s, out, Style::Ascii)
}

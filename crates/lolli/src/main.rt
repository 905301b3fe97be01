// Asks one question, in bytes on standard input, and prints the answer's number, the counters, and the nodes of the tree that was found (document 01, "Settled runs").
#![tactic(auto)]

ghost use Rattle.std.specs.Prelude.{◌≡◌, ◌≤◌, IfOk, length};
ghost use Rattle.std.specs.Counts.{IsPrefixLen};
ghost use Rattle.tree.specs.Places.{NodeFound};

use prover::Answer;
use rule::Rule;
use search::counters::Counters;
use std::io;
use std::io::Read;
use tree::{Node, Span};

const DEPTH: usize = 32;

const BUDGET: usize = 16384;

// A message has at most 65,538 bytes. So what fills this buffer is too long for a question, and is refused alike whatever comes behind it.
const MESSAGE: usize = 65539;

// Five times as many. No formula's text is longer: a sign and the unit behind it are two bytes, and at most nine of the text, as `( -o bot)`.
const TEXT: usize = 327695;

// A tree has at most 65 levels; one more is where the premises of its highest leaves would stand.
const LEVELS: usize = 66;

// The formula's text; nothing where it has none.
fn put_formula(rt: &impl Print, formula: &[u8], text: &mut [u8]) -> io::Result<()> {
    let Ok(n) = print::pretty_ascii(formula, text) else {
        return Ok(());
    };
    rt.write_all(&text[..n])
}

// No index loop: a formula's end is where the next begins.
fn put_zone(rt: &impl Print, s: &[u8], zone: Span, text: &mut [u8]) -> io::Result<()>
    requires { (zone.start ≤ zone.end) × (zone.end ≤ length s.now) }
{
    let mut p = zone.start;
    while p < zone.end {
        if zone.start < p {
            rt.write_all(b", ")?;
        }
        let next = tree::next_formula(s, p, zone.end);
        put_formula(rt, &s[p..next], text)?;
        p = next;
    }
    Ok(())
}

// The line of the node at a place, so far from the root.
fn put_node(
    rt: &impl Print,
    s: &[u8],
    at: usize,
    distance: usize,
    text: &mut [u8],
) -> io::Result<Node>
    requires { at ≤ length s.now }
    ensures { IfOk result (λ n. NodeFound s.now at n) }
{
    let n = tree::node_at(s, at);
    let rule = Rule::try_from(n.rule).unwrap_or(Rule::Blur);
    print!(rt; "{distance} {rule} ")?;
    put_zone(rt, s, n.linear, text)?;
    if n.unrestricted.start < n.unrestricted.end {
        rt.write_all(b" ; ")?;
    }
    put_zone(rt, s, n.unrestricted, text)?;
    println!(rt)?;
    Ok(n)
}

// The nodes of the tree that stands at the front of `s`, in preorder. `awaited` tells at each level how many nodes are still to come there; where none is awaited at the root's, the tree has ended.
fn put_tree(rt: &impl Print, s: &[u8], text: &mut [u8]) -> io::Result<()> {
    let mut awaited = [0usize; LEVELS];
    awaited[0] = 1;
    let mut level = 0;
    let mut at = tree::after(s, 0, 3);
    // No index loop: a turn reads a node or leaves a level.
    while at < s.len() {
        if awaited[level] == 0 {
            if level == 0 {
                return Ok(());
            }
            level -= 1;
        } else {
            awaited[level] -= 1;
            let n = put_node(rt, s, at, level, text)?;
            at = n.next;
            level += 1;
            if level == LEVELS {
                return Ok(());
            }
            awaited[level] = n.premises;
        }
    }
    Ok(())
}

fn put_answer(rt: &impl Print, number: u8, c: Counters) -> io::Result<()> {
    println!(rt; "answer {number}")?;
    println!(rt;
        "explored {} hits {} depth {}",
        c.explored, c.hits, c.reached
    )
}

// The answer in a memory that holds nothing. The tree goes to the front of `tree`.
fn asked(question: &[u8], tree: &mut [u8]) -> Answer {
    let mut mem = [0u16; memory::WORDS];
    memory::reset(&mut mem);
    let mut work = [0u64; BUDGET];
    prover::prove(question, DEPTH, BUDGET, true, &mut mem, &mut work, tree)
}

fn text() -> [u8; TEXT]
    ensures { 327695 ≡ length result }
{
    [0; TEXT]
}

fn put_nodes(rt: &impl Print, tree: &[u8]) -> io::Result<()> {
    let mut buf = text();
    put_tree(rt, tree, &mut buf)
}

fn message() -> [u8; MESSAGE]
    ensures { 65539 ≡ length result }
{
    [0; MESSAGE]
}

// The input's next bytes, to the front of `buf`, and how many there were: fewer than `buf` holds only where the input ends.
fn read_full(input: &mut impl Read, buf: &mut [u8]) -> io::Result<usize>
    ensures { IfOk result (λ n. IsPrefixLen n buf.new) }
{
    let mut done = 0;
    for _ in 0..buf.len() {
        let n = input.read(&mut buf[done..])?;
        if n == 0 {
            return Ok(done);
        }
        done += n;
    }
    Ok(done)
}

fn main(rt: HostRuntime) -> io::Result<()> {
    let mut question = message();
    let n = read_full(&mut rt.reader(), &mut question)?;
    let mut tree = message();
    match asked(&question[..n], &mut tree) {
        Answer::Found(_, c) => {
            put_answer(&rt, 0, c)?;
            put_nodes(&rt, &tree)
        }
        Answer::Nothing(c) => put_answer(&rt, 1, c),
        Answer::Refused(why, c) => put_answer(&rt, u8::from(why), c),
    }
}

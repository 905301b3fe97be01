// Replays the list of trees (docs/ORACLE.md): the depth of every tree and shape mode's verdict on it, with rule, node, wrappers, expected and got, are compared with what the Rust said, and strict mode's
// verdict with what the model said. Then trees whose answers are settled.
#![tactic(auto)]

mod settled;
mod verdict;

ghost use Rattle.std.specs.Prelude.{◌≡◌, length};

use std::io;
use std::io::Read;
use stored::{MOST_RECORDS, Tally};
use verdict::{Verdict, told};

// The verdict that the list has next.
fn said(input: &mut impl Read) -> Verdict {
    Verdict {
        answer: stored::byte(input),
        rule: stored::byte(input),
        node: usize::from(stored::number(input)),
        wrappers: usize::from(stored::number(input)),
        expected: usize::from(stored::byte(input)),
        got: usize::from(stored::byte(input)),
    }
}

// The tree's depth and the verdicts on it are the list's.
fn agrees(input: &mut impl Read, s: &[u8]) -> bool {
    let depth = usize::from(stored::number(input));
    let measures = tree::depth(s) == Ok(depth);
    let verifies = told(verify::verify(s)) == said(input);
    let is_strict = told(verify::verify_strict(s)) == said(input);
    measures && verifies && is_strict
}

// The longest message: its body is of 65,535 bytes.
fn message() -> [u8; 65538]
    ensures { 65538 ≡ length result }
{
    [0; 65538]
}

fn replay(input: &mut impl Read) -> Tally {
    let mut tally = Tally::new();
    for _ in 0..MOST_RECORDS {
        let mut buf = message();
        let length = stored::long_number(input);
        let s = stored::bytes(input, &mut buf, length as usize);
        if s.is_empty() {
            return tally;
        }
        tally = tally.with(agrees(input, s));
    }
    tally
}

// What is refused in reading, and what in checking.
fn print_short(rt: &impl Print) -> io::Result<()> {
    settled::frames().print(rt, b" settled answers at the frame")?;
    settled::nodes().print(rt, b" settled answers at a node")?;
    settled::verdicts().print(rt, b" settled verdicts")?;
    settled::steps().print(rt, b" settled steps")
}

fn main(rt: HostRuntime) -> io::Result<()> {
    replay(&mut rt.reader()).print(&rt, b" trees")?;
    print_short(&rt)?;
    settled::widths().print(&rt, b" settled answers at wide sequents")?;
    settled::chains().print(&rt, b" settled answers at high trees")?;
    settled::heights().print(&rt, b" settled answers at high formulas")
}

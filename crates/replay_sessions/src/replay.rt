// The list of sessions: what the Rust said of each question, and the failures that were new after it.
use crate::asking::{Said, ask_into, ask_only, failures_held, formulas_held, fresh, room, to};
use crate::message::Message;
use std::io;
use std::io::Read;
use stored::{MOST_RECORDS, Tally};

const WHY_NOT: u8 = 12;

// What came of the list: its questions, by the Rust's answer, and the failures that were new after them.
#[derive(Clone, Copy)]
pub struct Compared {
    pub found: Tally,
    pub not_found: Tally,
    pub failures: Tally,
}

// The counters are those that the list has next.
fn is_counted(input: &mut impl Read, said: Said) -> bool {
    let explored = stored::long_number(input) as usize;
    let hits = stored::long_number(input) as usize;
    let reached = usize::from(stored::byte(input));
    said.explored == explored && said.hits == hits && said.reached == reached
}

// The tree in `out` is the one that the list has next. One of no bytes is none.
fn is_written(input: &mut impl Read, said: Said, out: &[u8]) -> bool {
    let length = stored::long_number(input) as usize;
    let mut buf = room();
    let tree = stored::bytes(input, &mut buf, length);
    said.written == length && stored::starts(out, length, tree)
}

// The next item of a failure: ?A goes to the unrestricted zone as A, behind the zone's length, whose place is marked. The items are sorted by their bytes, so these come last.
fn item(input: &mut impl Read, m: &mut Message, marked: Option<usize>) -> Option<usize> {
    let n = usize::from(stored::number(input));
    let tag = stored::byte(input);
    if n == 0 {
        return marked;
    }
    let mut marked = marked;
    if tag != WHY_NOT {
        m.byte(tag);
    } else if marked.is_none() {
        marked = Some(m.at);
        m.number(0);
    }
    m.read(input, n - 1);
    marked
}

// The failure that the list has next, as a question.
fn failure<'a>(input: &mut impl Read, buf: &'a mut [u8]) -> &'a [u8] {
    let mut m = Message::new(buf);
    let mut marked = None;
    for _ in 0..stored::byte(input) {
        marked = item(input, &mut m, marked);
    }
    match marked {
        None => m.linear(),
        Some(middle) => m.closed(middle),
    }
}

fn is_hit(said: Said) -> bool {
    said.answer == 1 && said.explored == 1 && said.hits == 1
}

// The failure that the list has next is held: it is a hit where it is asked, and its formulas are held.
fn is_held(input: &mut impl Read, mem: &mut [u16]) -> bool {
    let mut buf = room();
    let question = failure(input, &mut buf);
    let before = formulas_held(mem);
    let said = ask_only(question, to(0, true), mem);
    let after = formulas_held(mem);
    is_hit(said) && after == before
}

// So many failures that the list has next.
fn failures(input: &mut impl Read, tally: Tally, count: u16, mem: &mut [u16]) -> Tally {
    let mut t = tally;
    for _ in 0..count {
        t = t.with(is_held(input, mem));
    }
    t
}

// The question that the list has next.
fn asked(input: &mut impl Read, cache: bool, mem: &mut [u16], out: &mut [u8]) -> Said {
    let limit = usize::from(stored::byte(input));
    let mut buf = room();
    let question = stored::item(input, &mut buf);
    ask_into(question, to(limit, cache), mem, out)
}

// What was said is the Rust's answer, and the counters and the tree are those that the list has next.
fn is_told(input: &mut impl Read, said: Said, answer: u8, out: &[u8]) -> bool {
    let counted = is_counted(input, said);
    let written = is_written(input, said, out);
    said.answer == answer && counted && written
}

// One question more, and the failures so far.
fn with(r: Compared, answer: u8, agrees: bool, failures: Tally) -> Compared {
    if answer == 0 {
        Compared {
            found: r.found.with(agrees),
            failures,
            ..r
        }
    } else {
        Compared {
            not_found: r.not_found.with(agrees),
            failures,
            ..r
        }
    }
}

// The question that the list has next. As many failures are held as the Rust held, and those new are among them: so they are the same, as those before were.
fn question(input: &mut impl Read, r: Compared, cache: bool, mem: &mut [u16]) -> Compared {
    let mut out = room();
    let said = asked(input, cache, mem, &mut out);
    let answer = stored::byte(input);
    let told = is_told(input, said, answer, &out);
    let held = usize::from(stored::number(input)) == failures_held(mem);
    let before = r.failures;
    let count = stored::number(input);
    let after = failures(input, before, count, mem);
    with(r, answer, told && held, after)
}

// A session's questions, in one memory.
fn session(input: &mut impl Read, replay: Compared, cache: bool, questions: u8) -> Compared {
    let mut mem = fresh();
    let mut r = replay;
    for _ in 0..questions {
        r = question(input, r, cache, &mut mem);
    }
    r
}

fn print(rt: &impl Print, sessions: usize, r: Compared) -> io::Result<()> {
    println!(rt; "{sessions} sessions")?;
    r.found.print(rt, b" trees found")?;
    r.not_found.print(rt, b" questions with no tree")?;
    r.failures.print(rt, b" failures")
}

// Every session of the list; one has a question at least, and past the end of the list it has none.
pub fn replay(rt: &impl Print, input: &mut impl Read) -> io::Result<()> {
    let mut r = Compared {
        found: Tally::new(),
        not_found: Tally::new(),
        failures: Tally::new(),
    };
    for sessions in 0..MOST_RECORDS {
        let cache = stored::byte(input) == 1;
        let questions = stored::byte(input);
        if questions == 0 {
            return print(rt, sessions, r);
        }
        r = session(input, r, cache, questions);
    }
    print(rt, MOST_RECORDS, r)
}

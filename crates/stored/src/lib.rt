// The oracle's stored lists (docs/ORACLE.md, "The lists") as standard input, and a tally of what differs from them.
#![tactic(auto)]

ghost use Rattle.std.specs.Prelude.{◌≡◌, ◌<◌, ◌≤◌, length};
ghost use Rattle.std.specs.Counts.{IsPrefixLen};

use std::io;
use std::io::Read;

// No list has more records, so a loop over one counts them down from here.
pub const MOST_RECORDS: usize = 1000000;

// How many were compared, and how many of them differ.
#[derive(Clone, Copy, Debug, PartialEq, Eq)]
pub struct Tally {
    pub compared: u64,
    pub differing: u64,
}

impl Tally {
    pub fn new() -> Self {
        Self {
            compared: 0,
            differing: 0,
        }
    }

    pub fn with(self, is_same: bool) -> Self {
        Self {
            compared: self.compared.saturating_add(1),
            differing: self.differing.saturating_add(u64::from(!is_same)),
        }
    }

    // As `3142 formulas, 0 differing`.
    pub fn print(self, rt: &impl Print, what: &[u8]) -> io::Result<()> {
        print!(rt; "{}", self.compared)?;
        rt.write_all(what)?;
        println!(rt; ", {} differing", self.differing)
    }
}

// 65,536 zeros: room for the longest bytes behind a number of two bytes.
pub fn large_buffer() -> [u8; 65536]
    ensures { 65536 ≡ length result }
{
    [0; 65536]
}

// The input's next bytes, to the front of `buf`, and how many there were: fewer than `buf` holds only where the input ends. A read that fails counts as the end.
// No index loop: a turn goes on by as many bytes as were read.
fn read_full(input: &mut impl Read, buf: &mut [u8]) -> usize
    ensures { IsPrefixLen result buf.new }
{
    let mut done = 0;
    while done < buf.len() {
        let n = input.read(&mut buf[done..]).unwrap_or(0);
        if n == 0 {
            break;
        }
        done += n;
    }
    done
}

// The next byte, and the next numbers of two and of four bytes. Past the end of the list they are 0.
pub fn byte(input: &mut impl Read) -> u8 {
    let mut b = [0u8; 1];
    read_full(input, &mut b);
    b[0]
}

pub fn number(input: &mut impl Read) -> u16 {
    u16::from_be_bytes([byte(input), byte(input)])
}

pub fn long_number(input: &mut impl Read) -> u32 {
    u32::from_be_bytes([byte(input), byte(input), byte(input), byte(input)])
}

// The next so many bytes, at the front of `buf`, or as many as there are. More than `buf` holds are none.
pub fn bytes<'a>(input: &mut impl Read, buf: &'a mut [u8], n: usize) -> &'a [u8]
    ensures { length result.now ≤ length buf.old }
{
    if buf.len() < n {
        return &[];
    }
    let done = read_full(input, &mut buf[..n]);
    &buf[..done]
}

// The next bytes behind their number of two bytes, as long as it says.
pub fn item<'a>(input: &mut impl Read, buf: &'a mut [u8]) -> &'a [u8]
    ensures { length result.now ≤ length buf.old }
{
    let n = number(input);
    bytes(input, buf, usize::from(n))
}

// The first n bytes of `buf` are `bytes`.
pub fn starts(buf: &[u8], n: usize, bytes: &[u8]) -> bool {
    n == bytes.len() && buf.starts_with(bytes)
}

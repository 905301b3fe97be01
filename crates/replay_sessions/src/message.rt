// Questions put together byte by byte, in a lent buffer. What has no room is left out.
use question::FIRST;
use std::io::Read;

const ATOM: u8 = 4;

const WITH: u8 = 8;

const TOP: u8 = 2;

const OF_COURSE: u8 = 11;

const ONE: u8 = 0;

// A question of kind 1, whose formulas stand from FIRST up to `at`.
#[derive(Drop)]
pub struct Message<'a> {
    pub buf: &'a mut [u8],
    pub at: usize,
}

fn put(buf: &mut [u8], at: usize, bytes: &[u8]) {
    let Some(rest) = buf.get_mut(at..) else {
        return;
    };
    for (place, b) in rest.iter_mut().zip(bytes) {
        *place = *b;
    }
}

// A length, at its place.
fn put_length(buf: &mut [u8], at: usize, length: usize) {
    put(buf, at, &((length % 65536) as u16).to_be_bytes());
}

impl<'a> Message<'a> {
    pub fn new(buf: &'a mut [u8]) -> Message<'a> {
        Message { buf, at: FIRST }
    }

    pub fn byte(&mut self, b: u8) {
        if let Some(place) = self.buf.get_mut(self.at) {
            *place = b;
            self.at += 1;
        }
    }

    pub fn number(&mut self, n: u16) {
        for b in n.to_be_bytes() {
            self.byte(b);
        }
    }

    // The next so many bytes of a list.
    pub fn read(&mut self, input: &mut impl Read, n: usize) {
        if let Some(rest) = self.buf.get_mut(self.at..) {
            let read = stored::bytes(input, rest, n).len();
            self.at = self.at.saturating_add(read);
        }
    }

    // The atom of a name.
    pub fn atom(&mut self, name: u16) {
        self.byte(ATOM);
        self.number(name);
    }

    // The atoms from one name up to another.
    pub fn atoms(&mut self, from: u16, to: u16) {
        for name in from..to {
            self.atom(name);
        }
    }

    // 1 under so many !. Its height and its size are one more.
    pub fn tower(&mut self, levels: usize) {
        for _ in 0..levels {
            self.byte(OF_COURSE);
        }
        self.byte(ONE);
    }

    // ⊤&(⊤&(.. ⊤)), of so many &.
    pub fn comb(&mut self, levels: usize) {
        for _ in 0..levels {
            self.byte(WITH);
            self.byte(TOP);
        }
        self.byte(TOP);
    }

    // The question whose unrestricted formulas stand from two bytes behind `middle` on.
    pub fn closed(self, middle: usize) -> &'a [u8] {
        let end = self.at;
        let buf = self.buf;
        put(buf, 0, &[1]);
        put_length(buf, 1, end.saturating_sub(3));
        put(buf, 3, &[1]);
        put_length(buf, FIRST - 2, middle.saturating_sub(FIRST));
        put_length(buf, middle, end.saturating_sub(middle).saturating_sub(2));
        buf.get(..end).unwrap_or(&[])
    }

    // The question with no unrestricted formula.
    pub fn linear(mut self) -> &'a [u8] {
        let middle = self.at;
        self.number(0);
        self.closed(middle)
    }
}

// The failures that a lent memory holds, each once, in order of entry. A slice of WORDS words: word 0 is the count; failure i has 32 words from 1 + 32 * i: how many items, then 31 items;
// order word j, at ORDER + j, is the number of the failure that comes j-th by its words.
// An item is twice the number of a held formula, and one more where it is marked with a why-not; ?A is always the marked A. Items never fall. Every word that holds nothing is zero.
// Any words may be lent: `well_formed` tells whether they are of this form.
#![tactic(auto)]

pub mod items; // items.rt: the key of a sequent as ordered items
pub mod order; // order.rt: the order words
pub mod records; // records.rt: looking a failure up, and recording it
pub mod form; // form.rt: the well-formed test, and reset

// What became of a failure that was to be recorded: three cases, so no Option.
#[derive(Clone, Copy)]
pub enum Noted {
    Known,
    Recorded,
    Full,
}

// How many failures there is room for.
pub const MOST: usize = 1000;

// Where the order words begin.
pub const ORDER: usize = 32001;

// How many words the failures take, with their order words.
pub const WORDS: usize = 33001;

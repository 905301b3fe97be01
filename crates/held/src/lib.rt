// The formulas that a lent memory holds, each once, numbered as first met. One `&mut [u16]` of WORDS words: word 0 is the count; formula i has five words from 1 + 5 * i: tag, left part or
// name, right part, height, size; order word j, at ORDER + j, is the number of the formula that comes j-th by tag, left and right. A part is a number below its whole's. Every word that
// holds nothing is zero. Any words may be lent: `well_formed` tells whether they are of this form.
#![tactic(auto)]

pub mod words; // words.rt: reading a field, an order word, a formula's code
pub mod rows; // rows.rt: whether a formula may stand where it stands
pub mod order; // order.rt: finding a formula's place among the order words, and the test of them
pub mod entry; // entry.rt: the well-formed test, reset, look-up, entering, taking back
pub mod turn; // turn.rt: negating a held formula, and spelling out an implication

// How many formulas there is room for.
pub const MOST: usize = 2048;

// Where the order words begin.
pub const ORDER: usize = 10241;

// How many words the formulas take.
pub const WORDS: usize = 12289;

// A found tree's bytes from its node words. A word is a rule, a place and a mask, and the words stand in preorder; what each node concludes is worked out from the question downward, so no
// sequent is ever stored (specs/Short.antt: `expand`).
#![tactic(auto)]

pub mod negations; // negations.rt: which held formula is the negation of which
pub mod steps; // steps.rt: what a node concludes and what its premises are
pub mod writers; // writers.rt: held formulas and zones in bytes
pub mod nodes; // nodes.rt: a tree's length, and its bytes

// A verdict in document 01's numbers.
use verify::Rejected;

// The answer, and what it tells of the node that fails. What an answer does not tell is 0.
#[derive(Clone, Copy, Debug, PartialEq, Eq)]
pub struct Verdict {
    pub answer: u8,
    pub rule: u8,
    pub node: usize,
    pub wrappers: usize,
    pub expected: usize,
    pub got: usize,
}

// An answer that tells of no node.
pub fn bare(answer: u8) -> Verdict {
    failed(answer, 0, 0, 0)
}

// 13 or 15, of a node.
pub fn failed(answer: u8, rule: u8, node: usize, wrappers: usize) -> Verdict {
    Verdict {
        answer,
        rule,
        node,
        wrappers,
        expected: 0,
        got: 0,
    }
}

pub fn told(v: Result<(), Rejected>) -> Verdict {
    let Err(rejected) = v else {
        return bare(0);
    };
    match rejected {
        Rejected::Refused(why) => bare(u8::from(why)),
        Rejected::Invalid {
            rule,
            node,
            wrappers,
        } => failed(13, rule, node, wrappers),
        Rejected::WrongCount {
            rule,
            node,
            wrappers,
            expected,
            got,
        } => Verdict {
            answer: 14,
            rule,
            node,
            wrappers,
            expected,
            got,
        },
        Rejected::Mismatch {
            rule,
            node,
            wrappers,
        } => failed(15, rule, node, wrappers),
    }
}

// The verifier's answer as document 01's number and a record of the fault.
ghost use Rattle.std.specs.Prelude.{◌≡◌};
ghost use Rattle.wire.specs.Read.{read_tree};
ghost use Rattle.verify.specs.Verdicts.{checked};
ghost use Rattle.verify.specs.Walks.{mode_test};
ghost use Rattle.vakelumba.specs.Judged.{fault_at, verdict};

use verify::Rejected;

// Where a tree is wrong: the rule's number, the node's number in preorder, the steps below the root, and how many premises were expected and got. All are 0 where the answer has none.
// A record of C, so no enum.
#[repr(C)]
#[derive(Clone, Copy, Debug, PartialEq, Eq)]
pub struct Fault {
    pub rule: u8,
    pub node: usize,
    pub wrappers: usize,
    pub expected: usize,
    pub got: usize,
}

#[derive(Clone, Copy, Debug, PartialEq, Eq)]
pub struct Verdict {
    pub number: u8,
    pub fault: Fault,
}

fn at_node(
    number: u8,
    rule: u8,
    node: usize,
    wrappers: usize,
    expected: usize,
    got: usize,
) -> Verdict
    ensures { (result.number ≡ number) × (result.fault ≡ fault_at rule node wrappers expected got) }
{
    let fault = Fault {
        rule,
        node,
        wrappers,
        expected,
        got,
    };
    Verdict { number, fault }
}

fn bare(number: u8) -> Verdict
    ensures { (result.number ≡ number) × (result.fault ≡ fault_at 0 0 0 0 0) }
{
    at_node(number, 0, 0, 0, 0, 0)
}

fn verdict_of(v: Result<(), Rejected>) -> Verdict
    ensures { result ≡ verdict v }
{
    let Err(rejected) = v else {
        return bare(0);
    };
    match rejected {
        Rejected::Refused(why) => bare(u8::from(why)),
        Rejected::Invalid {
            rule,
            node,
            wrappers,
        } => at_node(13, rule, node, wrappers, 0, 0),
        Rejected::WrongCount {
            rule,
            node,
            wrappers,
            expected,
            got,
        } => at_node(14, rule, node, wrappers, expected, got),
        Rejected::Mismatch {
            rule,
            node,
            wrappers,
        } => at_node(15, rule, node, wrappers, 0, 0),
    }
}

// A tree in bytes, verified in strict mode or in shape mode.
pub fn judged(s: &[u8], strict: bool) -> Verdict
    ensures { result ≡ verdict (checked (mode_test strict) (read_tree s.now)) }
{
    if strict {
        return verdict_of(verify::verify_strict(s));
    }
    verdict_of(verify::verify(s))
}

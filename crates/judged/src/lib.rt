// The definitions judged by the Rust: what they compute on a sample of the stored list is compared in specs/. This one function makes the folder a crate.
#![tactic(auto)]

ghost use Rattle.std.specs.Prelude.{◌≡◌};

pub fn keep(x: usize) -> usize
    ensures { result ≡ x }
{
    x
}

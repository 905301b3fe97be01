// The byte forms are definitions and theorems alone, in specs/. This one function makes the folder a crate.
#![tactic(auto)]

ghost use Rattle.std.specs.Prelude.{◌≡◌};

pub fn keep(x: usize) -> usize
    ensures { result ≡ x }
{
    x
}

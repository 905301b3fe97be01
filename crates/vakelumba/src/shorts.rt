// What the calls of short trees answer, as document 01's number and a length.
ghost use Rattle.std.specs.Prelude.{◌≡◌};
ghost use Rattle.vakelumba.specs.Shorts.{of_short};

use super::said::Said;
use short_trees::Failure;

// Document 01's 15: the tree is none that the search's rules build for the question.
const MISMATCH: u8 = 15;

impl From<Result<usize, Failure>> for Said {
    ghost from_gives = { λ r a. a ≡ of_short r };

    fn from(r: Result<usize, Failure>) -> Said {
        match r {
            Ok(n) => Said {
                number: 0,
                value: n,
            },
            Err(Failure::Mismatch) => Said {
                number: MISMATCH,
                value: 0,
            },
            Err(Failure::Refused(why)) => Said::from(Err(why)),
        }
    }
}

// An answer of a call as document 01's number and a value, which is stored where the caller lent a place for it.
ghost use Rattle.std.specs.Prelude.{◌≡◌};
ghost use Rattle.vakelumba.specs.Says.{of_written, of_positive, Says};

use formula::Refusal;

// Document 01's number of the answer, and what else it says: a length or a depth; 0 on a refusal.
#[derive(Clone, Copy, Debug, PartialEq, Eq)]
pub struct Said {
    pub number: u8,
    pub value: usize,
}

impl From<Result<usize, Refusal>> for Said {
    ghost from_gives = { λ r a. a ≡ of_written r };

    fn from(r: Result<usize, Refusal>) -> Said {
        match r {
            Ok(n) => Said {
                number: 0,
                value: n,
            },
            Err(why) => Said {
                number: u8::from(why),
                value: 0,
            },
        }
    }
}

// The number goes back, and the value into the lent place.
pub fn tell(a: Said, value: &mut usize) -> u8
    ensures { Says a result value.new }
{
    *value = a.value;
    a.number
}

// What `is_positive` answers, with 1 or 0 in the lent place.
pub fn tell_positive(p: Result<bool, Refusal>, bit: &mut u8) -> u8
    ensures { Says (of_positive p) result bit.new }
{
    match p {
        Ok(b) => {
            *bit = u8::from(b);
            0
        }
        Err(why) => {
            *bit = 0;
            u8::from(why)
        }
    }
}

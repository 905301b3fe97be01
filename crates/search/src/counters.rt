// search.rs: `ProverStats`, by value.
ghost use Rattle.std.specs.Prelude.{◌≡◌, ◌<◌};
ghost use Rattle.search.specs.Contract.{counted, reached_at, struck, zeroes};

#[derive(Clone, Copy)]
pub struct Counters {
    pub explored: usize,
    pub hits: usize,
    pub reached: usize,
}

impl Counters {
    pub fn zero() -> Counters
        ensures { result ≡ zeroes }
    {
        Counters {
            explored: 0,
            hits: 0,
            reached: 0,
        }
    }

    // A visit.
    pub fn visit(self) -> Counters
        requires { self.explored < 16384 }
        ensures { result ≡ counted self }
    {
        Counters {
            explored: self.explored + 1,
            ..self
        }
    }

    // A recorded failure was met.
    pub fn hit(self) -> Counters
        requires { self.hits < 16384 }
        ensures { result ≡ struck self }
    {
        Counters {
            hits: self.hits + 1,
            ..self
        }
    }

    // A depth was reached.
    pub fn reach(self, depth: usize) -> Counters
        ensures { result ≡ reached_at depth self }
    {
        Counters {
            reached: self.reached.max(depth),
            ..self
        }
    }
}

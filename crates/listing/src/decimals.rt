// How a listing prints figures with decimals.
ghost use Rattle.std.specs.Prelude.{◌/◌, ◌%◌, ◌++◌, Some, codes, decimal};

use std::fmt;

// A number of tenths, with one decimal.
#[derive(Clone, Copy)]
pub(crate) struct Tenths(pub(crate) u64);

impl fmt::Display for Tenths {
    ghost output = { λ t. Some (decimal (t.0 / 10) ++ (codes "." ++ decimal (t.0 % 10))) };

    fn fmt<W: fmt::Write>(&self, f: &mut fmt::Formatter<W>) -> fmt::Result {
        let whole = self.0 / 10;
        let tenth = self.0 % 10;
        write!(f, "{whole}.{tenth}")
    }
}

// Tiyn as tenge, with two decimals.
#[derive(Clone, Copy)]
pub(crate) struct Money(pub(crate) u64);

impl fmt::Display for Money {
    ghost output = { λ m. Some (decimal (m.0 / 100) ++ (codes "." ++ (decimal (m.0 / 10 % 10) ++ decimal (m.0 % 10)))) };

    fn fmt<W: fmt::Write>(&self, f: &mut fmt::Formatter<W>) -> fmt::Result {
        let tenge = self.0 / 100;
        let tenth = self.0 / 10 % 10;
        let hundredth = self.0 % 10;
        write!(f, "{tenge}.{tenth}{hundredth}")
    }
}

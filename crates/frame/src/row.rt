//! Rows of numbers, in a fixed memory.
ghost use Rattle.std.specs.Prelude.{◌≡◌, ◌+◌, ◌≤◌, ◌++◌, length, slice_set};
ghost use Rattle.frame.specs.Row.{padded};

use std::marker::Model;

/// The longest row.
pub const ROW: usize = 12;

/// Every number of a row is below this.
pub const NUMBER_LIMIT: u64 = 1 << 49;

/// A row: the numbers of a message.
#[derive(Clone, Copy)]
pub struct Row {
    numbers: [u64; ROW],
    len: usize,
}

impl Model for Row {
    ghost use Rattle.std.specs.Prelude.{◌≡◌, ◌≤◌, List, ℕ, length, take};
    ghost use Rattle.frame.specs.Row.{padded};

    ghost Value = { List ℕ };

    ghost view = { λ a. take a.len a.numbers };

    // noughts stand behind it
    ghost invariant = { λ a. (a.len ≤ 12) × (a.numbers ≡ padded 12 (take a.len a.numbers)) };

    ghost inverse = { λ row. record { numbers = padded 12 row; len = length row } };

    ghost use Rattle.frame.specs.Places.{fields_again};

    ghost inverse_ok = { λ a h. fields_again a h.0 h.1 };
}

impl Row {
    /// A row of these numbers.
    pub fn of<const N: usize>(numbers: [u64; N]) -> Row
        requires { N ≤ 12 }
        ensures { result ≡ numbers.entry }
    {
        let empty = Row {
            numbers: [0; ROW],
            len: 0,
        };
        empty.then(numbers)
    }

    /// These numbers behind those that it has.
    pub fn then<const N: usize>(self, numbers: [u64; N]) -> Row
        requires { length self + N ≤ 12 }
        ensures { result ≡ self ++ numbers.entry }
    {
        let from = self.len;
        let len = from + N;
        let mut all = self.numbers;
        all[from..len].copy_from_slice(&numbers);
        Row { numbers: all, len }
    }

    /// Another number in one place; nothing changes where the row does not reach.
    pub fn with(self, place: usize, number: u64) -> Row
        ensures { result ≡ slice_set self place number }
    {
        let mut row = self;
        if place < row.len {
            row.numbers[place] = number;
        }
        row
    }

    /// Its numbers.
    pub fn as_slice(&self) -> &[u64]
        ensures { result.now ≡ self.now }
    {
        &self.numbers[..self.len]
    }

    /// How many they are.
    pub fn len(&self) -> usize
        ensures { result ≡ length self.now }
    {
        self.len
    }

    /// Its numbers, with noughts behind them.
    pub fn padded(&self) -> [u64; ROW]
        ensures { result ≡ padded 12 self.now }
    {
        self.numbers
    }
}

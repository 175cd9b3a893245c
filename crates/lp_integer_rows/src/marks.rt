//! Marks on the columns of a row: a column without a mark is known to be 0 without reading it.
ghost use Rattle.std.specs.Prelude.{◌≡◌, ◌≢◌, ℕ, false};
ghost use Rattle.lp_integer_rows.specs.Marks.{IsClear};

/// Which columns of a row may have an integer other than 0. Each of the 128 bits is one mark for
/// all columns whose numbers leave the same remainder when divided by 128.
#[derive(Clone, Copy)]
pub struct Marks {
    pub bits: u128,
}

impl Marks {
    /// No marks.
    pub(crate) fn nowhere() -> Marks {
        Marks { bits: 0 }
    }

    /// Marks on all columns.
    pub(crate) fn everywhere() -> Marks
        ensures { (c : ℕ) → ¬ (IsClear result c) }
    {
        Marks { bits: u128::MAX }
    }

    /// Whether there is a mark on a column. If there is none, the row that has these marks has the
    /// integer 0 at the column.
    #[inline(always)]
    pub fn includes(self, column: usize) -> bool
        ensures { result ≡ false → IsClear self column }
    {
        let place = (column % 128) as u32;
        (self.bits >> place) % 2 != 0
    }

    /// The marks of both: on each column with a mark of one of them.
    pub(crate) fn joined(self, others: Marks) -> Marks
        ensures own { (c : ℕ) → IsClear result c → IsClear self c }
        ensures others { (c : ℕ) → IsClear result c → IsClear others c }
    {
        Marks {
            bits: self.bits | others.bits,
        }
    }

    /// These marks, and also one on this column.
    pub(crate) fn and_at(self, column: usize) -> Marks
        ensures own { (c : ℕ) → IsClear result c → IsClear self c }
        ensures column { (c : ℕ) → IsClear result c → c ≢ column }
    {
        let place = (column % 128) as u32;
        Marks {
            bits: self.bits | 1 << place,
        }
    }
}

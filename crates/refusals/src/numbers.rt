// The numbers of what refuses.
ghost use Rattle.std.specs.Prelude.{◌≡◌, ℕ};
ghost use Rattle.refusals.specs.Numbers.{row_number};

use crate::Refusal;

// What a call refuses with: a row of the table, or a number of the caller's own.
pub trait Numbered: Copy {
    ghost number_of: { Self → ℕ };

    fn number(self) -> usize
        ensures { result ≡ number_of self };
}

impl Numbered for Refusal {
    ghost number_of = { row_number };

    fn number(self) -> usize {
        Refusal::number(self)
    }
}

impl Numbered for usize {
    ghost number_of = { λ n. n };

    fn number(self) -> usize {
        self
    }
}

// The answers of the calls that read no packet, as numbers, which C can take.
#![tactic(auto)]

ghost use Rattle.std.specs.Prelude.{◌≡◌};
ghost use Rattle.answers.specs.Answers.{said_of_setup_by, said_of_abandon_by, said_of_writer_by};
ghost use Rattle.c_reports.specs.Reports.{kind_number};
ghost use Rattle.c_answers.specs.Numbers.{numbers, numbers_of_setup, numbers_of_abandon, numbers_of_writer};

use answers::Abandoned;
use c_reports::Kind;
use refusals::Numbered;

// Its kind, and the refusal's number or the length written.
#[repr(C)]
#[derive(Clone, Copy)]
pub struct Numbers {
    pub kind: usize,
    pub number: usize,
}

fn of(kind: Kind, number: usize) -> Numbers
    ensures { result ≡ numbers (kind_number kind) number }
{
    Numbers {
        kind: kind as usize,
        number,
    }
}

// What setup answers.
impl<R: Numbered> From<Result<(), R>> for Numbers {
    ghost from_gives = { λ answer told. told ≡ numbers_of_setup (said_of_setup_by R.number_of answer) };

    fn from(answer: Result<(), R>) -> Numbers {
        match answer {
            Ok(()) => of(Kind::Ready, 0),
            Err(refusal) => of(Kind::Refused, refusal.number()),
        }
    }
}

// What abandoning a context answers.
impl<R: Numbered> From<Result<Abandoned, R>> for Numbers {
    ghost from_gives = { λ answer told. told ≡ numbers_of_abandon (said_of_abandon_by R.number_of answer) };

    fn from(answer: Result<Abandoned, R>) -> Numbers {
        match answer {
            Ok(Abandoned::Closed) => of(Kind::Closed, 0),
            Ok(Abandoned::WasFree) => of(Kind::Free, 0),
            Err(refusal) => of(Kind::Refused, refusal.number()),
        }
    }
}

// What the writers answer.
impl<R: Numbered> From<Result<usize, R>> for Numbers {
    ghost from_gives = { λ answer told. told ≡ numbers_of_writer (said_of_writer_by R.number_of answer) };

    fn from(answer: Result<usize, R>) -> Numbers {
        match answer {
            Ok(length) => of(Kind::Written, length),
            Err(refusal) => of(Kind::Refused, refusal.number()),
        }
    }
}

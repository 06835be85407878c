// Logs one behind the other: each a length of four bytes and the log.
ghost use Rattle.std.specs.Prelude.{◌≡◌, ◌+◌, MatchOption, length};
ghost use Rattle.std.specs.Iterator.{at_most};
ghost use Rattle.outside.specs.Bundles.{IsCut, IsLogAndRest};

// The logs that are left of a bundle. One that is cut is none.
#[derive(Clone, Copy)]
pub struct Logs<'a>(pub &'a [u8]);

impl<'a> Iterator for Logs<'a> {
    type Item = &'a [u8];

    ghost next_gives = { λ before log after. MatchOption log (IsCut before.0.now) (λ x. IsLogAndRest before.0.now x.now after.0.now) };

    ghost remaining = { λ logs. at_most (length logs.0.now) };

    fn next(&mut self) -> Option<&'a [u8]> {
        let (size, behind) = self.0.split_first_chunk::<4>()?;
        let (log, rest) = behind.split_at_checked(lists::long_at(size, 0))?;
        self.0 = rest;
        Some(log)
    }
}

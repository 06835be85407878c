// The lines of the log program, into a buffer that the caller lends.
#![tactic(auto)]

ghost use Rattle.std.specs.Prelude.{◌≡◌, Ok, cond, [], ◌∷◌, ◌++◌, ◌+◌, ◌<◌, ◌≤◌, length};
ghost use Rattle.answers.specs.Answers.{said, said_by};
ghost use Rattle.log_lines.specs.Text.{text};
ghost use Rattle.log_lines.specs.Decimal.{digit, decimal};
ghost use Rattle.log_lines.specs.Lines.{spaced, answer_text};
ghost use Rattle.log_lines.specs.Puts.{Puts, WriteLinePromise, WriteEndPromise, WriteBadPromise};

use answers::{Answer, Reading};
use refusals::Numbered;

// Room for every line: a word of seven letters, four numbers of twenty digits, ` dropped`.
pub const LINE: usize = 128;

// A line under way: the lent buffer, and the place behind what stands in it.
#[derive(Drop)]
struct Line<'a> {
    out: &'a mut [u8],
    at: usize,
}

impl Line<'_> {
    // Some bytes.
    fn text(&mut self, bytes: &[u8])
        requires { self.old.at + length bytes.now ≤ length self.old.out.now }
        ensures { Puts self.old bytes.now self.new }
    {
        lists::store(self.out, self.at, bytes);
        self.at += bytes.len();
    }

    // A digit.
    fn digit(&mut self, d: usize)
        requires { (self.old.at < length self.old.out.now) × (d < 10) }
        ensures { Puts self.old (digit d ∷ []) self.new }
    {
        self.out[self.at] = b'0' + d as u8;
        self.at += 1;
    }

    // A number: the quotient by ten first, then the digit.
    fn decimal(&mut self, n: usize)
        requires { self.old.at + length (decimal n) ≤ length self.old.out.now }
        ensures { Puts self.old (decimal n) self.new }
    {
        if n < 10 {
            return self.digit(n);
        }
        self.decimal(n / 10);
        self.digit(n % 10);
    }

    // A space and a number.
    fn spaced(&mut self, n: usize)
        requires { self.old.at + 21 ≤ length self.old.out.now }
        ensures { Puts self.old (spaced n) self.new × (self.new.at ≤ self.old.at + 21) }
    {
        self.text(b" ");
        self.decimal(n);
    }

    // A word of three letters and four numbers.
    fn four(&mut self, word: &[u8], a: usize, b: usize, c: usize, d: usize)
        requires { (length word.now ≡ 3) × (self.old.at + 87 ≤ length self.old.out.now) }
        ensures { Puts self.old (word.now ++ spaced a ++ spaced b ++ spaced c ++ spaced d) self.new × (self.new.at ≤ self.old.at + 87) }
    {
        self.text(word);
        self.spaced(a);
        self.spaced(b);
        self.spaced(c);
        self.spaced(d);
    }

    // What the answer to a packet says that is not refused.
    fn accepted(&mut self, answer: Answer)
        requires { self.old.at + 87 ≤ length self.old.out.now }
        ensures { Puts self.old (answer_text (said (Ok answer))) self.new × (self.new.at ≤ self.old.at + 87) }
    {
        match answer {
            Answer::Held => self.text(b"held"),
            Answer::Delivered {
                flow,
                stream,
                length,
                ..
            } => self.four(b"pdu", flow.source, flow.cos, stream, length),
            Answer::Message {
                source,
                letter,
                mailbox,
                length,
                ..
            } => self.four(b"msg", source, letter, mailbox, length),
        }
    }

    // What the answer says.
    fn answer<R: Numbered>(&mut self, answer: Result<Answer, R>)
        requires { self.old.at + 87 ≤ length self.old.out.now }
        ensures { Puts self.old (answer_text (said_by R.number_of answer)) self.new × (self.new.at ≤ self.old.at + 87) }
    {
        match answer {
            Ok(accepted) => self.accepted(accepted),
            Err(refusal) => {
                self.text(b"refused");
                self.spaced(refusal.number());
            }
        }
    }

    // ` dropped`, where so.
    fn dropped(&mut self, dropped: bool)
        requires { self.old.at + 8 ≤ length self.old.out.now }
        ensures { Puts self.old (cond dropped (text " dropped") []) self.new × (self.new.at ≤ self.old.at + 8) }
    {
        if dropped {
            self.text(b" dropped");
        }
    }
}

// The line of a record's reading, into the front of `out`. Answers its length; 0, and nothing is written, where `out` has under LINE bytes.
pub fn write_line<R: Numbered>(out: &mut [u8], reading: Reading<R>) -> usize
    ensures { WriteLinePromise R.number_of out.old reading result out.new }
{
    if out.len() < LINE {
        return 0;
    }
    let mut line = Line { out, at: 0 };
    line.answer(reading.answer);
    line.dropped(reading.dropped);
    line.text(b"\n");
    line.at
}

// The line of a clean end, the same way.
pub fn write_end(out: &mut [u8], count: usize) -> usize
    ensures { WriteEndPromise out.old count result out.new }
{
    if out.len() < LINE {
        return 0;
    }
    let mut line = Line { out, at: 0 };
    line.text(b"end");
    line.spaced(count);
    line.text(b"\n");
    line.at
}

// The line of a bad log, the same way.
pub fn write_bad(out: &mut [u8]) -> usize
    ensures { WriteBadPromise out.old result out.new }
{
    if out.len() < LINE {
        return 0;
    }
    let mut line = Line { out, at: 0 };
    line.text(b"bad log\n");
    line.at
}

// A reader that holds the lent log and its place in it. `found` takes it apart and calls that of `log_records`,
// over a slice and a number; `next` calls `found`. `record_at` and `place_after` stand above them: whoever calls one sees no reader.
#![tactic(auto)]

ghost use Rattle.log_reader.specs.Reader.{NewReaderPromise, PlacePromise, MovedPromise, FoundPromise, PlaceBehindPromise, NextPromise, RecordAtPromise, PlaceAfterPromise, CountRecordsPromise};

use log_records::{BadLog, Record};

#[derive(Clone, Copy)]
pub struct LogReader<'a> {
    pub log: &'a [u8],
    pub at: usize,
}

// The place behind what was found at a place.
pub fn place_behind(found: Result<Option<Record>, BadLog>, at: usize) -> usize
    ensures { PlaceBehindPromise found at result }
{
    match found {
        Ok(Some(record)) => record.next,
        Ok(None) | Err(_) => at,
    }
}

// Not an iterator: where the log is bad, `next` stays there and finds the same again, and an iterator would not end.
impl<'a> LogReader<'a> {
    // A reader at the log's beginning.
    pub fn new(log: &'a [u8]) -> LogReader<'a>
        ensures { NewReaderPromise log.entry result }
    {
        LogReader { log, at: 0 }
    }

    // The reader's place.
    pub fn place(self) -> usize
        ensures { PlacePromise self.entry result }
    {
        self.at
    }

    // The same log, at another place.
    pub fn moved(self, at: usize) -> LogReader<'a>
        ensures { MovedPromise self.entry at result }
    {
        LogReader { log: self.log, at }
    }

    // The record at the reader's place.
    pub fn found(self) -> Result<Option<Record>, BadLog>
        ensures { FoundPromise self.entry result }
    {
        log_records::next_record(self.log, self.at)
    }

    // The record at the reader's place, and the reader moves behind it.
    pub fn next(&mut self) -> Result<Option<Record>, BadLog>
        ensures { NextPromise self.old result self.new }
    {
        let found = self.found();
        self.at = place_behind(found, self.at);
        found
    }
}

// The methods are functions of the crate too.
pub fn new<'a>(log: &'a [u8]) -> LogReader<'a>
    ensures { NewReaderPromise log.entry result }
{
    LogReader::new(log)
}

pub fn place<'a>(reader: LogReader<'a>) -> usize
    ensures { PlacePromise reader.entry result }
{
    reader.place()
}

pub fn moved<'a>(reader: LogReader<'a>, at: usize) -> LogReader<'a>
    ensures { MovedPromise reader.entry at result }
{
    reader.moved(at)
}

pub fn found<'a>(reader: LogReader<'a>) -> Result<Option<Record>, BadLog>
    ensures { FoundPromise reader.entry result }
{
    reader.found()
}

pub fn next<'s, 'a>(reader: &'s mut LogReader<'a>) -> Result<Option<Record>, BadLog>
    ensures { NextPromise reader.old result reader.new }
{
    reader.next()
}

// The record at a place of a log, read by a reader.
pub fn record_at(log: &[u8], at: usize) -> Result<Option<Record>, BadLog>
    ensures { RecordAtPromise log.now at result }
{
    LogReader::new(log).moved(at).found()
}

// The place behind the record at a place of a log, found by a reader that moves.
pub fn place_after(log: &[u8], at: usize) -> usize
    ensures { PlaceAfterPromise log.now at result }
{
    let mut reader = LogReader::new(log).moved(at);
    let _ = reader.next();
    reader.place()
}

// How many records a log has up to its end, or to where it is bad.
pub fn count_records(log: &[u8]) -> usize
    ensures { CountRecordsPromise log.now result }
{
    let mut reader = LogReader::new(log);
    let mut count = 0;
    while let Ok(Some(_)) = reader.next() {
        count += 1;
    }
    count
}

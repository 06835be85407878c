// The records of a log, over a slice and a number: the log and a place in it.
#![tactic(auto)]

ghost use Rattle.std.specs.Prelude.{◌≡◌, ◌+◌, ◌<◌, ◌≤◌, length};
ghost use Rattle.lists.specs.Bytes.{byte};
ghost use Rattle.log_records.specs.Records.{record_from, long_record, record_within, NextRecordPromise};

// A record: where its packet begins, how many bytes that has, and the place behind it.
#[derive(Clone, Copy)]
pub struct Record {
    pub from: usize,
    pub size: usize,
    pub next: usize,
}

// The log is bad at a place: a length that no record has, or a record that is cut.
#[derive(Clone, Copy, Debug, PartialEq, Eq)]
pub struct BadLog;

// The record whose packet has `size` bytes from `from` on, if the log has that many.
fn record_from(log: &[u8], from: usize, size: usize) -> Result<Record, BadLog>
    requires { from ≤ length log.now }
    ensures { result ≡ record_from (length log.now) from size }
{
    if log.len() - from < size {
        return Err(BadLog);
    }
    Ok(Record {
        from,
        size,
        next: from + size,
    })
}

// A record whose length has two bytes.
fn long_record(log: &[u8], at: usize) -> Result<Record, BadLog>
    requires { (at < length log.now) × (128 ≤ byte log.now at) }
    ensures { result ≡ long_record log.now at }
{
    if log.len() < at + 2 {
        return Err(BadLog);
    }
    let second = lists::wide(log[at + 1]);
    if second == 0 {
        return Err(BadLog);
    }
    if 127 < second {
        return Err(BadLog);
    }
    record_from(log, at + 2, lists::wide(log[at]) - 128 + 128 * second)
}

// The record at a place before the log's end.
fn record_within(log: &[u8], at: usize) -> Result<Record, BadLog>
    requires { at < length log.now }
    ensures { result ≡ record_within log.now at }
{
    let first = lists::wide(log[at]);
    if first < 128 {
        return record_from(log, at + 1, first);
    }
    long_record(log, at)
}

// The record at that place, unless the log is bad there. At the log's end, and past it, there is none.
pub fn next_record(log: &[u8], at: usize) -> Result<Option<Record>, BadLog>
    ensures { NextRecordPromise log.now at result }
{
    if log.len() <= at {
        return Ok(None);
    }
    Ok(Some(record_within(log, at)?))
}

// Numbers, tables and records as bytes that the caller lends. Beside a door stands the call that it answers, where a refusal is an `Err` and leaves what is
// lent as it stood.
ghost use Rattle.std.specs.Prelude.{◌≡◌, List};
ghost use Rattle.rules.specs.Numbers.{number};
ghost use Rattle.rules.specs.Written.{write_number};
ghost use Rattle.refusal.specs.Refusal.{answer_of};
ghost use Rattle.number.specs.Numbers.{placed};
ghost use Rattle.round.specs.Round.{round_as};
ghost use Rattle.cabinet.specs.Replies.{replied, left, number_told, used_told, record_told, named, used_of};
ghost use Rattle.cabinet.specs.Records.{write_record_door, read_record_door, releases_over, entries_over, read_table_door, table_over};

use crate::reply::{NumberReply, RecordReply, Reply};
use intake::read_table;
use lists::{put_entries, put_releases, round_in};
use number::{read_number, write_number};
use reader::read_within;
use refusal::Refusal;
use round::Round;
use words::tables::put_table;
use writer::write_record;

// 18, 19.
pub fn cabinet_read_number(bytes: &[u8]) -> NumberReply
    ensures { result ≡ number_told bytes.now (number bytes.now) }
{
    match read_number(bytes, 0) {
        Ok((value, next)) => NumberReply {
            refusal: 0,
            value,
            used: next as u64,
        },
        Err(error) => NumberReply {
            refusal: error.number(),
            value: 0,
            used: 0,
        },
    }
}

// What a writing answers: written out, since a closure and a `From` would say no less.
fn wrote(written: Result<usize, Refusal>) -> Reply
    ensures { result ≡ replied (λ k. k) (answer_of written) }
{
    match written {
        Ok(count) => Reply::accepted(count as u64),
        Err(error) => Reply::refused(error),
    }
}

// 22, 21.
pub fn cabinet_write_number(bytes: &mut [u8], number: u64) -> Reply
    ensures value { result ≡ replied (λ w. w.bytes) (write_number number bytes.old) }
    ensures bytes_after { bytes.new ≡ left (λ w. w.buffer) bytes.old (write_number number bytes.old) }
{
    wrote(write_number(bytes, 0, number))
}

fn put_record(bytes: &mut [u8], r: u64, releases: &[u64], entries: &[u64]) -> Result<usize, Refusal>
    ensures answer { answer_of result ≡ named (λ w. w.bytes) (write_record_door bytes.old r releases.now entries.now) }
    ensures bytes_after { bytes.new ≡ left (λ w. w.buffer) bytes.old (write_record_door bytes.old r releases.now entries.now) }
{
    let record = round_in(r, releases, entries)?;
    write_record(bytes, record)
}

// 100; 100, 103; then 15, 22, 21.
pub fn cabinet_write_record(bytes: &mut [u8], r: u64, releases: &[u64], entries: &[u64]) -> Reply
    ensures value { result ≡ replied (λ w. w.bytes) (write_record_door bytes.old r releases.now entries.now) }
    ensures bytes_after { bytes.new ≡ left (λ w. w.buffer) bytes.old (write_record_door bytes.old r releases.now entries.now) }
{
    wrote(put_record(bytes, r, releases, entries))
}

fn take_record(
    bytes: &[u8],
    releases: &mut [u64],
    entries: &mut [u64],
) -> Result<(Round, usize), Refusal>
    ensures answer { answer_of result ≡ placed round_as bytes.now (read_record_door bytes.now releases.old entries.old) }
    ensures releases_after { releases.new ≡ left (releases_over releases.old) releases.old (read_record_door bytes.now releases.old entries.old) }
    ensures entries_after { entries.new ≡ left (entries_over entries.old) entries.old (read_record_door bytes.now releases.old entries.old) }
{
    if releases.len() % 2 != 0 || entries.len() % 4 != 0 {
        return Err(Refusal::WrongLength);
    }
    let (record, used) = read_within(bytes, 0, releases.len() / 2, entries.len() / 4)?;
    put_releases(releases, record);
    put_entries(entries, record);
    Ok((record, used))
}

// 100; 100; then 15, 18, 19, 20, 21 as met.
pub fn cabinet_read_record(bytes: &[u8], releases: &mut [u64], entries: &mut [u64]) -> RecordReply
    ensures value { result ≡ record_told bytes.now (read_record_door bytes.now releases.old entries.old) }
    ensures releases_after { releases.new ≡ left (releases_over releases.old) releases.old (read_record_door bytes.now releases.old entries.old) }
    ensures entries_after { entries.new ≡ left (entries_over entries.old) entries.old (read_record_door bytes.now releases.old entries.old) }
{
    match take_record(bytes, releases, entries) {
        Ok((record, used)) => RecordReply {
            refusal: 0,
            time: record.time,
            releases: record.listed as u64,
            entries: record.entered as u64,
            used: used as u64,
        },
        Err(error) => RecordReply {
            refusal: error.number(),
            time: 0,
            releases: 0,
            entries: 0,
            used: 0,
        },
    }
}

fn take_table(bytes: &[u8], table: &mut [u64]) -> Result<usize, Refusal>
    ensures answer { answer_of result ≡ used_of bytes.now (read_table_door bytes.now table.old) }
    ensures table_after { table.new ≡ left table_over table.old (read_table_door bytes.now table.old) }
{
    if table.len() != 259 {
        return Err(Refusal::WrongLength);
    }
    let (read, used) = read_table(bytes)?;
    put_table(table, read);
    Ok(used)
}

// 100; then 18, 19, 1, 2.
pub fn cabinet_read_table(bytes: &[u8], table: &mut [u64]) -> Reply
    ensures value { result ≡ used_told bytes.now (read_table_door bytes.now table.old) }
    ensures table_after { table.new ≡ left table_over table.old (read_table_door bytes.now table.old) }
{
    wrote(take_table(bytes, table))
}

// Numbers, tables and records as bytes.
ghost use Rattle.std.specs.Prelude.{◌≡◌};
ghost use Rattle.rules.specs.Numbers.{number};
ghost use Rattle.rules.specs.Written.{write_number};
ghost use Rattle.cabinet.specs.Replies.{replied, left, number_told, used_told, record_told};
ghost use Rattle.cabinet.specs.Records.{write_record_door, read_record_door, releases_over, entries_over, read_table_door, table_over};

use cabinet::reply::{NumberReply, RecordReply, Reply};

#[unsafe(no_mangle)]
pub extern "C" fn cabinet_read_number(bytes: &[u8]) -> NumberReply
    ensures { result ≡ number_told bytes.now (number bytes.now) }
{
    cabinet::records::cabinet_read_number(bytes)
}

#[unsafe(no_mangle)]
pub extern "C" fn cabinet_write_number(bytes: &mut [u8], number: u64) -> Reply
    ensures value { result ≡ replied (λ w. w.bytes) (write_number number bytes.old) }
    ensures bytes_after { bytes.new ≡ left (λ w. w.buffer) bytes.old (write_number number bytes.old) }
{
    cabinet::records::cabinet_write_number(bytes, number)
}

#[unsafe(no_mangle)]
pub extern "C" fn cabinet_write_record(
    bytes: &mut [u8],
    r: u64,
    releases: &[u64],
    entries: &[u64],
) -> Reply
    ensures value { result ≡ replied (λ w. w.bytes) (write_record_door bytes.old r releases.now entries.now) }
    ensures bytes_after { bytes.new ≡ left (λ w. w.buffer) bytes.old (write_record_door bytes.old r releases.now entries.now) }
{
    cabinet::records::cabinet_write_record(bytes, r, releases, entries)
}

#[unsafe(no_mangle)]
pub extern "C" fn cabinet_read_record(
    bytes: &[u8],
    releases: &mut [u64],
    entries: &mut [u64],
) -> RecordReply
    ensures value { result ≡ record_told bytes.now (read_record_door bytes.now releases.old entries.old) }
    ensures releases_after { releases.new ≡ left (releases_over releases.old) releases.old (read_record_door bytes.now releases.old entries.old) }
    ensures entries_after { entries.new ≡ left (entries_over entries.old) entries.old (read_record_door bytes.now releases.old entries.old) }
{
    cabinet::records::cabinet_read_record(bytes, releases, entries)
}

#[unsafe(no_mangle)]
pub extern "C" fn cabinet_read_table(bytes: &[u8], table: &mut [u64]) -> Reply
    ensures value { result ≡ used_told bytes.now (read_table_door bytes.now table.old) }
    ensures table_after { table.new ≡ left table_over table.old (read_table_door bytes.now table.old) }
{
    cabinet::records::cabinet_read_table(bytes, table)
}

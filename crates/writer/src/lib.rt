// A round record, written: as the numbers that it is, whose sizes say whether it fits, and then number by number into the lent bytes.
#![tactic(auto)]

ghost use Rattle.std.specs.Prelude.{◌≡◌, false, [], ◌++◌, ◌≤◌, length};
ghost use Rattle.std.proofs.lemmas.List.Edits.{sets};
ghost use Rattle.rules.specs.Written.{entry_numbers, numbers_of, bytes_of, too_large, write_record};
ghost use Rattle.refusal.specs.Refusal.{answer_of};
ghost use Rattle.round.specs.Round.{entry_of, round_of};
ghost use Rattle.number.specs.Numbers.{written_of, left_from};
ghost use Rattle.writer.specs.Writing.{head_numbers, size_of};

mod numbers;

use number::{number_size, put_number};
use numbers::Numbers;
use refusal::Refusal;
use round::{Entry, Round};

// "r, count of releases, (task, delay) each, count of entries"
fn head(q: Round) -> Numbers
    requires { q.listed ≤ 64 }
    ensures { result ≡ head_numbers q }
{
    let mut numbers = Numbers::new();
    numbers.push(q.time);
    numbers.push(q.listed as u64);
    for x in &q.releases[..q.listed] {
        numbers.push(x.task);
        numbers.push(x.delay);
    }
    numbers.push(q.entered as u64);
    numbers
}

// "then per entry 0, or 1 with progress, completion time, run"
fn push_entry(numbers: &mut Numbers, e: Entry)
    requires { length numbers.old ≤ 187 }
    ensures { numbers.new ≡ numbers.old ++ entry_numbers (entry_of e) [] }
{
    match e {
        None => numbers.push(0),
        Some(report) => {
            numbers.push(1);
            numbers.push(report.progress);
            numbers.push(report.completed);
            numbers.push(report.run);
        }
    }
}

fn record_numbers(q: Round) -> Numbers
    requires { (q.listed ≤ 64) × (q.entered ≤ 15) }
    ensures { result ≡ numbers_of (round_of q) }
{
    let mut numbers = head(q);
    for e in &q.entries[..q.entered] {
        push_entry(&mut numbers, *e);
    }
    numbers
}

// How many bytes numbers take, where none is too large to write.
fn size_in(numbers: &[u64]) -> Result<usize, Refusal>
    requires { length numbers.now ≤ 191 }
    ensures { answer_of result ≡ size_of numbers.now }
{
    let mut total: usize = 0;
    for v in numbers {
        if 9223372036854775808 <= *v {
            return Err(Refusal::TooLarge);
        }
        total += number_size(*v);
    }
    Ok(total)
}

// Stores numbers that fit, one behind the other.
fn put_numbers(bytes: &mut [u8], numbers: &[u64])
    requires { (too_large numbers.now ≡ false) × (length (bytes_of numbers.now) ≤ length bytes.old) }
    ensures { bytes.new ≡ sets bytes.old 0 (bytes_of numbers.now) }
{
    let mut at: usize = 0;
    for v in numbers {
        at = put_number(bytes, at, *v);
    }
}

// Writes a record from the first byte on: 15 for the counts, then 22, then 21, and a refusal leaves the bytes as they were.
pub fn write_record(bytes: &mut [u8], q: Round) -> Result<usize, Refusal>
    ensures value { answer_of result ≡ written_of (write_record (round_of q) bytes.old) }
    ensures bytes_after { bytes.new ≡ left_from 0 bytes.old (write_record (round_of q) bytes.old) }
{
    if 64 < q.listed || 15 < q.entered {
        return Err(Refusal::IllFormed);
    }
    let record = record_numbers(q);
    let numbers = record.as_slice();
    let taken = size_in(numbers)?;
    if bytes.len() < taken {
        return Err(Refusal::NoRoom);
    }
    put_numbers(bytes, numbers);
    Ok(taken)
}

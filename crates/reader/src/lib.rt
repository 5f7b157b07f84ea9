// A round record, read in one pass over lent bytes.
#![tactic(auto)]

ghost use Rattle.std.specs.Prelude.{◌≡◌, List, length, drop};
ghost use Rattle.laws.specs.Lists.{over};
ghost use Rattle.rules.specs.Answer.{done};
ghost use Rattle.rules.specs.Numbers.{Read, Reads};
ghost use Rattle.rules.specs.Written.{read_release, read_report, read_entry};
ghost use Rattle.rules.proofs.Reading.{Takes, release_takes, entry_takes};
ghost use Rattle.round.specs.Round.{release_as, entry_as};
ghost use Rattle.refusal.specs.Refusal.{answer_of};
ghost use Rattle.number.specs.Numbers.{placed, number_read};
ghost use Rattle.reader.specs.Formed.{in_form, in_form_takes};
ghost use Rattle.reader.specs.Records.{count_in, list_in, within_read, record_read, record_from};

use number::read_number;
use refusal::Refusal;
use round::{Entry, Release, Report, Round};

// What the lists of a record are made of: how one element is read, with the place past it.
trait Element: Copy {
    // As the rules read it, in the form that it has here.
    ghost reads: { Reads Self };

    fn read(bytes: &[u8], from: usize) -> Result<(Self, usize), Refusal>
        ensures { answer_of result ≡ placed (λ x. x) bytes.now (reads (drop from bytes.now)) };

    ghost takes: { Takes reads };
}

impl Element for Release {
    ghost reads = { in_form release_as read_release };

    ghost takes = { in_form_takes release_as release_takes };

    // "(task, delay) each"
    fn read(bytes: &[u8], from: usize) -> Result<(Release, usize), Refusal> {
        let (task, middle) = read_number(bytes, from)?;
        let (delay, next) = read_number(bytes, middle)?;
        Ok((Release { task, delay }, next))
    }
}

// Behind a presence mark of 1: "progress, completion time, run".
fn read_report(bytes: &[u8], from: usize) -> Result<(Entry, usize), Refusal>
    ensures { answer_of result ≡ placed entry_as bytes.now (read_report (drop from bytes.now)) }
{
    let (progress, second) = read_number(bytes, from)?;
    let (completed, third) = read_number(bytes, second)?;
    let (run, next) = read_number(bytes, third)?;
    let report = Report {
        progress,
        completed,
        run,
    };
    Ok((Some(report), next))
}

impl Element for Entry {
    ghost reads = { in_form entry_as read_entry };

    ghost takes = { in_form_takes entry_as entry_takes };

    // "per entry 0, or 1 with progress, completion time, run"; 20: "presence mark above 1".
    fn read(bytes: &[u8], from: usize) -> Result<(Entry, usize), Refusal> {
        let (mark, next) = read_number(bytes, from)?;
        match mark {
            0 => Ok((None, next)),
            1 => read_report(bytes, next),
            _ => Err(Refusal::BadMark),
        }
    }
}

// A count of a list: "over 64 or of entries over 15 gives 15 as soon as it is met"; where the lent list "is shorter than a count just read, that is 21
// there, after that count's 15".
fn read_count(bytes: &[u8], from: usize, limit: usize, room: usize) -> Result<(u64, usize), Refusal>
    ensures { answer_of result ≡ number_read bytes.now (count_in limit room (drop from bytes.now)) }
{
    let (count, next) = read_number(bytes, from)?;
    if (limit as u64) < count {
        return Err(Refusal::IllFormed);
    }
    if (room as u64) < count {
        return Err(Refusal::NoRoom);
    }
    Ok((count, next))
}

// "A record is: r, count of releases, (task, delay) each, ..": a count and so many elements, into the first places of a list, of which so many may be used.
fn read_list<T: Element>(
    bytes: &[u8],
    from: usize,
    room: usize,
    list: &mut [T],
) -> Result<(usize, usize), Refusal>
    ensures answer { answer_of result ≡ placed length bytes.now (list_in (length list.old) room T.reads (drop from bytes.now)) }
    ensures list_after { (x : Read (List T)) → list_in (length list.old) room T.reads (drop from bytes.now) ≡ done x → list.new ≡ over x.value list.old }
{
    let (count, mut at) = read_count(bytes, from, list.len(), room)?;
    let count = count as usize;
    for i in 0..count {
        let (x, next) = T::read(bytes, at)?;
        list[i] = x;
        at = next;
    }
    Ok((count, at))
}

// Reads the record that stands at a place into lists of so many places, and gives the bytes used. A room above 64 releases or 15 entries is no more than
// those: 15 comes first.
pub fn read_within(
    bytes: &[u8],
    from: usize,
    releases: usize,
    entries: usize,
) -> Result<(Round, usize), Refusal>
    ensures { answer_of result ≡ within_read releases entries (drop from bytes.now) }
{
    let (time, at) = read_number(bytes, from)?;
    let mut q = Round::blank();
    let (listed, middle) = read_list(bytes, at, releases, &mut q.releases)?;
    let (entered, next) = read_list(bytes, middle, entries, &mut q.entries)?;
    q.time = time;
    q.listed = listed;
    q.entered = entered;
    Ok((q, next - from))
}

// Reads the record that stands at a place, with room for every record.
pub fn read_record(bytes: &[u8], from: usize) -> Result<(Round, usize), Refusal>
    ensures { answer_of result ≡ record_read (record_from (drop from bytes.now)) }
{
    read_within(bytes, from, 64, 15)
}

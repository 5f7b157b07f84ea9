// The words of a common record: taken where this library may have written them, and written.
ghost use Rattle.std.specs.Prelude.{◌≡◌, true, ◌+◌, ◌-◌, ◌^◌, ◌≤◌, length, take, drop};
ghost use Rattle.std.proofs.lemmas.List.Edits.{sets};
ghost use Rattle.laws.specs.Sums.{total};
ghost use Rattle.refusal.specs.Refusal.{answer_of};
ghost use Rattle.table.specs.Table.{Checked};
ghost use Rattle.words.specs.Words.{BytesIn};
ghost use Rattle.states.specs.Common.{common_words, common_in, all_below, small_common, in_place, known_tasks, known_common, common_at, last_in};

use common::Common;
use refusal::Refusal;
use table::Table;
use words::block::{block, put_block, put_tasks, tasks_in};

// Every word lies below a limit. All are looked at, whatever the first ones say: several are compared at a time then.
fn all_below(words: &[u64], limit: u64) -> bool
    ensures { result ≡ all_below limit words.now }
{
    words.iter().fold(true, |below, x| below & (*x < limit))
}

// A mark, the last round's time, W and the count of jobs kept.
#[tactic(auto, using(laws::proofs::Sequences::all_left), unfolding(crate::specs::Common::small_common))]
fn small_common(begun: u64, last: u64, start: u64, count: u64) -> bool
    ensures { result ≡ small_common begun last start count }
{
    (begun <= 1)
        & ((begun == 1) | (last == 0))
        & (last < 0x1_0000_0000_0000)
        & (start < 0x2_0000_0000_0000)
        & (count <= 256)
}

// "Always B ≤ O ≤ L", by differences: B may be any word, and B + count might wrap.
#[tactic(auto, using(crate::proofs::Words::by_difference), unfolding(crate::specs::Common::in_place, laws::specs::Tests::all_of))]
fn in_place(base: u64, offset: u64, count: u64, released: u64) -> bool
    ensures { result ≡ in_place base offset count released }
{
    if offset < base {
        return false;
    }
    if count < offset - base {
        return false;
    }
    if released < base {
        return false;
    }
    count <= released - base
}

// The jobs kept are of the first `number` tasks, and the places past them hold 0.
fn known_tasks(words: &[u64], count: usize, number: u64) -> bool
    requires { (length words.now ≡ 326) × (count ≤ 256) }
    ensures { result ≡ known_tasks number count (take 256 (drop 70 words.now)) }
{
    all_below(&words[70..70 + count], number) && all_below(&words[70 + count..], 1)
}

// Everything that is asked of the words. Each sum is made of numbers that were tested before.
#[tactic(auto, using(crate::proofs::Common::small), unfolding(crate::specs::Common::known_common, crate::specs::Common::common_in, laws::specs::Tests::all_of))]
fn known_common(t: Table, words: &[u64]) -> bool
    requires { length words.now ≡ 326 }
    ensures { result ≡ known_common t words.now }
{
    let count = words[3];
    if !small_common(words[4], words[5], words[1], count) {
        return false;
    }
    let earliest = &words[6..70];
    if !all_below(earliest, 0x2_0000_0000_0000) {
        return false;
    }
    let released: u64 = earliest.iter().sum();
    if !in_place(words[0], words[2], count, released) {
        return false;
    }
    known_tasks(words, count as usize, t.count as u64)
}

// "The last round's time", where a round has been.
fn last_in(begun: u64, last: u64) -> Option<u64>
    ensures { result ≡ last_in begun last }
{
    if begun == 1 { Some(last) } else { None }
}

// The record at its places.
#[tactic(auto, unfolding(crate::specs::Common::common_in))]
fn record_in(words: &[u64]) -> Common
    requires { (length words.now ≡ 326) × BytesIn 256 70 words.now }
    ensures { result ≡ common_in words.now }
{
    Common {
        tasks: tasks_in(words, 70),
        count: words[3] as usize,
        base: words[0],
        start: words[1],
        offset: words[2],
        earliest: block(words, 6),
        last: last_in(words[4], words[5]),
    }
}

// 100 where the words are not as many as a common record has, 102 where this library gave back no such record under the table.
#[tactic(auto, using(crate::proofs::Common::known_bytes), unfolding(crate::specs::Common::common_at))]
pub fn common_in(t: Table, words: &[u64]) -> Result<Common, Refusal>
    requires { Checked t }
    ensures { answer_of result ≡ common_at t words.now }
{
    if words.len() != 326 {
        return Err(Refusal::WrongLength);
    }
    if !known_common(t, words) {
        return Err(Refusal::WrongState);
    }
    Ok(record_in(words))
}

// The words of a record, put in from a place on.
pub fn put_common(words: &mut [u64], from: usize, c: Common)
    requires { from + 326 ≤ length words.old }
    ensures { words.new ≡ sets words.old from (common_words c) }
{
    let begun = u64::from(c.last.is_some());
    let last = c.last.unwrap_or(0);
    let head = [c.base, c.start, c.offset, c.count as u64, begun, last];
    let earliest = c.earliest;
    let tasks = c.tasks;
    words[from..from + 6].copy_from_slice(&head);
    put_block(words, from + 6, earliest);
    put_tasks(words, from + 70, tasks);
}

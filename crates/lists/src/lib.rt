// A round record's lists as words in the caller's memory: two for each release (task, delay), four for each entry (0 where it is missing or 1, progress,
// completion time, run).
#![tactic(auto)]

ghost use Rattle.std.specs.Prelude.{◌≡◌, None, Some, List, ℕ, refl, ◌+◌, ◌*◌, ◌/◌, ◌≤◌, ◌<◌, length, take};
ghost use Rattle.std.proofs.lemmas.List.Edits.{sets};
ghost use Rattle.laws.specs.Lists.{rows, pad, over};
ghost use Rattle.refusal.specs.Refusal.{answer_of};
ghost use Rattle.round.specs.Round.{release_of, release_as, entry_of, entry_as, releases_of, entries_of};
ghost use Rattle.lists.specs.Lists.{release_at, entry_at, wrong_mark, round_at, told_round, joined, words_of_release, release_words, words_of_entry, entry_words};
ghost use native.Mathlib.Omega.{arith};

use refusal::Refusal;
use round::{Entry, Release, Report, Round};

// What the lists are made of: how many words an element has, and how it is read off them and put into them.
trait Element: Copy {
    const WORDS: usize;

    ghost WORDS: { ℕ };

    ghost element_at: { List ℕ → ℕ → Self };

    ghost words_of: { Self → List ℕ };

    // The element of a number.
    fn read(words: &[u64], i: usize) -> Self
        requires { WORDS * i + WORDS ≤ length words.now }
        ensures { result ≡ element_at words.now i };

    // Its words, from a place on.
    fn put(self, words: &mut [u64], at: usize)
        requires { at + WORDS ≤ length words.old }
        ensures { words.new ≡ sets words.old at (words_of self) };

    ghost some: { 0 < WORDS };

    ghost long: { (x : Self) → length (words_of x) ≡ WORDS };
}

impl Element for Release {
    const WORDS: usize = 2;

    ghost WORDS = { 2 };

    ghost element_at = { λ ws i. release_as (release_at ws i) };

    ghost words_of = { λ x. words_of_release (release_of x) };

    ghost some = { Prim.omega arith };

    ghost long = { λ x. refl };

    fn read(words: &[u64], i: usize) -> Release {
        Release {
            task: words[2 * i],
            delay: words[2 * i + 1],
        }
    }

    fn put(self, words: &mut [u64], at: usize) {
        words[at] = self.task;
        words[at + 1] = self.delay;
    }
}

impl Element for Entry {
    const WORDS: usize = 4;

    ghost WORDS = { 4 };

    ghost element_at = { λ ws i. entry_as (entry_at ws i) };

    ghost words_of = { λ x. words_of_entry (entry_of x) };

    ghost some = { Prim.omega arith };

    ghost long = { elim [ None ↦ refl | Some x ↦ refl ] };

    // "each missing or (progress, completion time, run)": behind a mark of 0 nothing is looked at.
    fn read(words: &[u64], i: usize) -> Entry {
        let at = 4 * i;
        if words[at] == 0 {
            return None;
        }
        Some(Report {
            progress: words[at + 1],
            completed: words[at + 2],
            run: words[at + 3],
        })
    }

    // "A missing entry carries no numbers": its words are zeros.
    fn put(self, words: &mut [u64], at: usize) {
        let put = match self {
            None => [0; 4],
            Some(x) => [1, x.progress, x.completed, x.run],
        };
        words[at..at + 4].copy_from_slice(&put);
    }
}

// The first elements: there are only so many places, whatever the caller lends.
fn list_in<T: Element, const N: usize>(words: &[u64], blank: T) -> [T; N]
    ensures { result ≡ pad N blank (take N (rows (T.element_at words.now) (length words.now / T.WORDS))) }
{
    let mut list = [blank; N];
    for i in 0..(words.len() / T::WORDS).min(N) {
        list[i] = T::read(words, i);
    }
    list
}

// A list into the first words of a lent one: "places past the count stay as they were".
fn put_list<T: Element>(words: &mut [u64], list: &[T])
    requires { T.WORDS * length list.now ≤ length words.old }
    ensures { words.new ≡ over (joined T.words_of list.now) words.old }
{
    for (i, x) in list.iter().enumerate() {
        x.put(words, T::WORDS * i);
    }
}

// Whether some entry's mark is above 1, past the fifteenth too.
fn wrong_mark(words: &[u64]) -> bool
    ensures { result ≡ wrong_mark words.now }
{
    (0..words.len() / 4).any(|i| words[4 * i] > 1)
}

// A record from its time and its lists. One that is longer than its places is not cut: its counts stay, and by them it is refused 15.
pub fn round_in(time: u64, releases: &[u64], entries: &[u64]) -> Result<Round, Refusal>
    ensures { answer_of result ≡ told_round (round_at time releases.now entries.now) }
{
    if releases.len() % 2 != 0 || entries.len() % 4 != 0 {
        return Err(Refusal::WrongLength);
    }
    if wrong_mark(entries) {
        return Err(Refusal::WrongMark);
    }
    Ok(Round {
        time,
        listed: releases.len() / 2,
        releases: list_in(releases, Release { task: 0, delay: 0 }),
        entered: entries.len() / 4,
        entries: list_in(entries, None),
    })
}

// A record's releases into the first words of a lent list.
pub fn put_releases(words: &mut [u64], q: Round)
    requires { (q.listed ≤ 64) × (2 * q.listed ≤ length words.old) }
    ensures { words.new ≡ over (release_words (releases_of q)) words.old }
{
    put_list(words, &q.releases[..q.listed]);
}

// A record's entries into the first words of a lent list.
pub fn put_entries(words: &mut [u64], q: Round)
    requires { (q.entered ≤ 15) × (4 * q.entered ≤ length words.old) }
    ensures { words.new ≡ over (entry_words (entries_of q)) words.old }
{
    put_list(words, &q.entries[..q.entered]);
}

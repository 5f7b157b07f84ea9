// The entries of a round, each with its class and what the passes read of it.
ghost use Rattle.std.specs.Prelude.{◌≡◌, true, map, ◌+◌, ◌^◌, ◌≤◌, ◌<◌, take, if◌then◌else◌};
ghost use Rattle.laws.specs.Lists.{pad};
ghost use Rattle.rules.specs.Judge.{numbers};
ghost use Rattle.round.specs.Round.{sent_report, report_as, entry_of};
ghost use Rattle.passes.specs.Classed.{no_class, in_front};
ghost use Rattle.judge.specs.Lent.{start_at, classed_at};

use crate::class::{Before, class_of};
use passes::Classed;
use round::{Entry, Report};

// A missing entry has no numbers; nothing rests on these.
fn numbers_of(entry: Entry) -> Report
    ensures { result ≡ report_as (numbers (entry_of entry)) }
{
    entry.unwrap_or(Report {
        progress: 0,
        completed: 0,
        run: 0,
    })
}

// "progress + run over classes 0 and 5": of another class the sum may be past the machine's width.
fn front_of(class: u8, e: Report) -> u64
    requires { in_front class ≡ true → e.progress + e.run < 2 ^ 56 }
    ensures { result ≡ (if in_front class then e.progress + e.run else 0) }
{
    if passes::counts(class) {
        e.progress + e.run
    } else {
        0
    }
}

// "Its start is r + timeout where its progress = L, else its reported completion time."
#[tactic(auto, unfolding(crate::specs::Lent::start_at))]
fn start_of(b: Before, e: Report) -> u64
    ensures { result ≡ start_at b (sent_report e) }
{
    if e.progress == b.base + b.kept as u64 {
        b.time + b.timeout
    } else {
        e.completed
    }
}

// "Each entry gets the first class that fits"; beside it stands what the passes read.
#[tactic(auto, using(crate::proofs::Lent::counted_within), unfolding(crate::specs::Lent::classed_at))]
pub fn with_class(ends: &[u64; 257], b: Before, entry: Entry) -> Classed
    ensures { result ≡ classed_at ends.now b (entry_of entry) }
{
    let class = class_of(ends, b, entry);
    let e = numbers_of(entry);
    Classed {
        class,
        progress: e.progress,
        front: front_of(class, e),
        start: start_of(b, e),
    }
}

pub fn judge_entries(ends: &[u64; 257], b: Before, entries: [Entry; 15], n: usize) -> [Classed; 15]
    requires n_bound { n ≤ 15 }
    ensures { result ≡ pad 15 no_class (map
        (λ e. classed_at ends.now b (entry_of e))
        (take n entries)) }
{
    let mut all = passes::none_classed();
    for (i, entry) in entries[..n].iter().enumerate() {
        all[i] = with_class(ends, b, *entry);
    }
    all
}

// A round record by value: r, the releases and the entries.
#![tactic(auto)]

ghost use Rattle.std.specs.Prelude.{◌≡◌, []};
ghost use Rattle.laws.specs.Lists.{pad};
ghost use Rattle.round.specs.Round.{no_release, no_entry, blank};

// "releases (task, delay after r)"
#[derive(Clone, Copy, Debug, PartialEq, Eq)]
pub struct Release {
    pub task: u64,
    pub delay: u64,
}

// "(progress, completion time, run)"
#[derive(Clone, Copy, Debug, PartialEq, Eq)]
pub struct Report {
    pub progress: u64,
    pub completed: u64,
    pub run: u64,
}

// "each missing or (progress, completion time, run)": a missing entry carries no numbers.
pub type Entry = Option<Report>;

// "A record has r, 0 to 64 releases and m entries": so many are listed, so many entered. A count may say more than there are places: such a record
// is refused 15, like any other of that count.
#[derive(Clone, Copy)]
pub struct Round {
    pub time: u64,
    pub listed: usize,
    pub releases: [Release; 64],
    pub entered: usize,
    pub entries: [Entry; 15],
}

impl Round {
    // The record that says nothing: a reading begins with it.
    pub fn blank() -> Round
        ensures { result ≡ blank }
    {
        Round {
            time: 0,
            listed: 0,
            releases: no_releases(),
            entered: 0,
            entries: no_entries(),
        }
    }
}

// 64 places with no release, and 15 with no entry: functions of their own, so that no other proof meets the places written out.
#[tactic(auto, unfolding(laws::specs::Lists::pad))]
pub fn no_releases() -> [Release; 64]
    ensures { result ≡ pad 64 no_release [] }
{
    [Release { task: 0, delay: 0 }; 64]
}

#[tactic(auto, unfolding(laws::specs::Lists::pad))]
pub fn no_entries() -> [Entry; 15]
    ensures { result ≡ pad 15 no_entry [] }
{
    [None; 15]
}

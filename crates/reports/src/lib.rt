// "The reports of a round are a list of records that the caller lends": the list is walked by a thin function over the judge of one report by value. What
// all reports share is prepared once, before the first.
#![tactic(auto)]

ghost use Rattle.std.specs.Prelude.{◌≡◌, ◌≤◌, take};
ghost use Rattle.table.specs.Table.{table_of};
ghost use Rattle.common.specs.Common.{common_of};
ghost use Rattle.round.specs.Round.{entry_as};
ghost use Rattle.judge.specs.Judgement.{conclusion, judgement};
ghost use Rattle.reports.specs.Reports.{told_of, round_of_told, begun, with_next, Ready};

use common::Common;
use judge::{Judgement, Prepared};
use passes::Classed;
use round::{Entry, Report};
use table::Table;

// A report in the caller's list: document 01 names this form, a lent slice of report structs. Where it is not present its numbers mean nothing.
#[derive(Clone, Copy, Debug, PartialEq, Eq)]
pub struct Told {
    pub present: bool,
    pub progress: u64,
    pub completed: u64,
    pub run: u64,
}

// What a round is judged by: the table, the common record before the round, and r. A caller from outside makes one, so what he must bring (`Ready`) stands at the
// functions.
#[derive(Clone, Copy)]
pub struct Basis {
    pub table: Table,
    pub common: Common,
    pub time: u64,
}

// The first `count` reports of a round, judged by what was prepared: each in its node's place with its class and what the passes read of it.
#[derive(Clone, Copy, Debug, PartialEq, Eq)]
pub struct Judging {
    pub prepared: Prepared,
    pub count: usize,
    pub all: [Classed; 15],
}

// The one walk over the order, for all reports.
fn begin(basis: Basis) -> Judging
    requires { Ready basis }
    ensures { result ≡ begun basis }
{
    Judging {
        prepared: judge::prepare(basis.table, basis.common, basis.time),
        count: 0,
        all: passes::none_classed(),
    }
}

// "each missing or (progress, completion time, run)"
impl From<Told> for Entry {
    ghost from_gives = { λ e entry. entry ≡ entry_as (told_of e) };

    fn from(e: Told) -> Entry {
        e.present.then_some(Report {
            progress: e.progress,
            completed: e.completed,
            run: e.run,
        })
    }
}

// "Each entry gets the first class that fits": the next report, in the next place. There are fifteen; of a longer list the rest is not judged.
#[tactic(auto, using(round::proofs::Same::entry_there), unfolding(crate::specs::Reports::with_next))]
pub fn judge_next(judging: Judging, e: Told) -> Judging
    ensures { result ≡ with_next judging e }
{
    let k = judging.count;
    if 15 <= k {
        return judging;
    }
    let mut next = judging;
    next.all[k] = judge::classed_entry(judging.prepared, Entry::from(e));
    next.count = k + 1;
    next
}

// What the passes over the reports give.
fn conclude(basis: Basis, judging: Judging) -> Judgement
    requires { Ready basis × (judging.count ≤ 15) }
    ensures { result ≡ conclusion (table_of basis.table) (common_of basis.common) (take judging.count judging.all) }
{
    judge::conclude(basis.table, basis.common, judging.all, judging.count)
}

// How a round is judged, with its reports lent.
pub fn judge_reports(basis: Basis, reports: &[Told]) -> Judgement
    requires { Ready basis }
    ensures { result ≡ judgement (table_of basis.table) (common_of basis.common) (round_of_told basis.time reports.now) }
{
    let mut judging = begin(basis);
    for e in reports {
        judging = judge_next(judging, *e);
    }
    conclude(basis, judging)
}

// The common record by value; projections and the bound.
#![tactic(auto)]

ghost use Rattle.std.specs.Prelude.{◌≡◌, ◌+◌, ◌^◌, ◌≤◌, ◌<◌, get_or};
ghost use Rattle.rules.specs.Common.{fresh, earliest, projection, breaker};
ghost use Rattle.table.specs.Table.{table_of};
ghost use Rattle.common.specs.Common.{common_of, common_as};
ghost use Rattle.common.specs.Positions.{Projectable, Occupied};
ghost use Rattle.common.specs.Raw.{earliest_of, projected_at, breaker_at, breach_of, Summable, Boundable};

use table::Table;

// "It holds the jobs still kept, in order": their tasks in the first `count` places, of which those not used hold 0; "and the last round's time", where one
// has been.
//
// An array and a count, in memory of a fixed size, as the C interface lays a record in words. That a record is one that was given back (`Given`) speaks of the
// table beside it too, so the functions that need it ask it of both.
#[derive(Clone, Copy)]
pub struct Common {
    pub tasks: [u8; Common::PLACES],
    pub count: usize,
    pub base: u64,
    pub start: u64,
    pub offset: u64,
    pub earliest: [u64; Common::TASKS],
    pub last: Option<u64>,
}

impl Common {
    // "The 256 places and the 64 tasks are limits of the common record itself."
    pub const PLACES: usize = 256;

    pub const TASKS: usize = 64;

    // "At the start all are 0 and no round has been."
    pub fn fresh() -> Self
        ensures { result ≡ common_as fresh }
    {
        Common {
            tasks: [0; Common::PLACES],
            count: 0,
            base: 0,
            start: 0,
            offset: 0,
            earliest: [0; Common::TASKS],
            last: None,
        }
    }
}

// The task of the job at a place.
pub fn task_at(tasks: &[u8; 256], k: usize) -> usize
    requires { k < 256 }
    ensures { (result ≡ get_or tasks.now k 0) × (result < 256) }
{
    usize::from(tasks[k])
}

// "Earliest release at t: the larger of E(i) and t."
#[tactic(auto, unfolding(crate::specs::Raw::earliest_of))]
pub fn earliest_at(earliest: &[u64; 64], i: usize, t: u64) -> u64
    requires { i < 64 }
    ensures { result ≡ earliest_of earliest.now i t }
{
    earliest[i].max(t)
}

// "W plus the C of every job": of the first n kept.
pub fn projected<'a>(longest: &'a [u64; 64], tasks: &'a [u8; 256], start: u64, n: usize) -> u64
    requires { Summable longest.now tasks.now start n }
    ensures { result ≡ projected_at longest.now tasks.now start n }
{
    let work = tasks[..n]
        .iter()
        .map(|&task| longest[usize::from(task)])
        .sum::<u64>();
    start + work
}

// "Every such task counts, queued or not": the lowest-numbered task of higher priority than a job of `task` for which that job, ending then, ends too late.
pub fn breach_at<'a>(
    earliest: &'a [u64; 64],
    slack: &'a [u64; 64],
    count: usize,
    task: usize,
    end: u64,
    t: u64,
) -> Option<usize>
    requires { Boundable earliest.now slack.now count t }
    ensures { result ≡ breach_of (breaker_at earliest.now slack.now count task end t) }
{
    let higher = task.min(count);
    (0..higher).find(|&i| earliest_at(earliest, i, t) + slack[i] < end)
}

// "Earliest release at t", of a record by value.
#[tactic(auto, unfolding(rules::specs::Common::earliest, crate::specs::Raw::earliest_of))]
pub fn earliest_of(c: Common, i: usize, time: u64) -> u64
    requires { i < 64 }
    ensures { result ≡ earliest (common_of c) i time }
{
    earliest_at(&c.earliest, i, time)
}

// "Projection of position p ≥ B: W plus the C of every job from B + 1 to p. Of B it is W."
#[tactic(auto, using(crate::proofs::Positions::may_sum, crate::proofs::Positions::sum_is))]
pub fn projection_of(t: Table, c: Common, p: u64) -> u64
    requires { Projectable t c p }
    ensures { result ≡ projection (table_of t) (common_of c) p }
{
    let n = (p - c.base) as usize;
    projected(&t.longest, &c.tasks, c.start, n)
}

// "Bound for position p at time t": 9 names "the lowest-numbered task that breaks it".
pub fn bound_of(t: Table, c: Common, p: u64, time: u64) -> Option<usize>
    requires { Occupied t c p time }
    ensures { result ≡ breach_of (breaker (table_of t) (common_of c) p time) }
{
    let n = (p - c.base) as usize;
    let end = projected(&t.longest, &c.tasks, c.start, n);
    let task = task_at(&c.tasks, n - 1);
    breach_at(&c.earliest, &t.slack, t.count, task, end, time)
}

// One walk a round over the order: the projections, the latest end that a job of each task may have, and the first place that breaks the bound. Places
// count from 0: place n is position B + n + 1.
#![tactic(auto)]

ghost use Rattle.std.specs.Prelude.{◌≡◌, ◌&&◌, ◌≤◌, min, get_or};
ghost use Rattle.laws.specs.Tests.{◌<?◌, ◌≤?◌};
ghost use Rattle.laws.specs.Search.{first_from};
ghost use Rattle.common.specs.Raw.{Summable, Boundable};
ghost use Rattle.walk.specs.Walk.{limits_of, walked_to, passes_limit, broken_at};

// Later than any end: the limit where there is no task of higher priority.
const NEVER: u64 = 9223372036854775808;

// What the walk found: how many places it passed before one broke the bound, and the projections of B and of those places, in
// memory of a fixed size.
#[derive(Clone, Copy)]
pub struct Walked {
    pub ends: [u64; 257],
    pub clear: usize,
}

// "projection(p) ≤ earliest release of i at t, plus S(i)", for every task i of higher priority: the latest end that a job of each task may have, in one pass
// that carries the least along.
fn limits<'a>(earliest: &'a [u64; 64], slack: &'a [u64; 64], count: usize, t: u64) -> [u64; 65]
    requires { Boundable earliest.now slack.now count t }
    ensures { result ≡ limits_of earliest.now slack.now count t }
{
    let mut limits = [0; 65];
    let mut low = NEVER;
    for i in 0..count {
        limits[i] = low;
        low = low.min(common::earliest_at(earliest, i, t) + slack[i]);
    }
    limits[count] = low;
    limits
}

// From the place `from` on the bound is tried: a job of `task` that ends then breaks it where that is past the limit of its task.
fn breaks(limits: &[u64; 65], count: usize, from: usize, k: usize, task: usize, end: u64) -> bool
    requires { count ≤ 64 }
    ensures { result ≡ ((from ≤? k) && (get_or limits.now (min task count) 0 <? end)) }
{
    from <= k && limits[task.min(count)] < end
}

// "W plus the C of every job", position by position, with the sum carried along, up to the first place from `from` on that breaks the bound.
fn walk_on<'a>(
    longest: &'a [u64; 64],
    tasks: &'a [u8; 256],
    limits: &'a [u64; 65],
    start: u64,
    count: usize,
    from: usize,
    kept: usize,
) -> Walked
    requires summable { Summable longest.now tasks.now start kept }
    requires from_le_kept { (from ≤ kept) × (count ≤ 64) }
    ensures { result ≡ walked_to longest.now tasks.now start
        (first_from (passes_limit longest.now tasks.now start limits.now count) from kept) }
{
    let mut ends = [0; 257];
    let mut end = start;
    for k in 0..kept {
        ends[k] = end;
        let task = common::task_at(tasks, k);
        end += longest[task];
        if breaks(limits, count, from, k, task, end) {
            return Walked { ends, clear: k };
        }
    }
    ends[kept] = end;
    Walked { ends, clear: kept }
}

// The walk at time t, by the table's C and S: "every such task counts" at each place from `from` on. Columns of the table and of the record are lent, so that
// neither is copied, and what is asked of them (`Summable`, `Boundable`) is said of both together.
pub fn walk_order<'a>(
    longest: &'a [u64; 64],
    slack: &'a [u64; 64],
    tasks: &'a [u8; 256],
    earliest: &'a [u64; 64],
    start: u64,
    count: usize,
    t: u64,
    from: usize,
    kept: usize,
) -> Walked
    requires summable { Summable longest.now tasks.now start kept }
    requires boundable { Boundable earliest.now slack.now count t }
    requires from_le_kept { from ≤ kept }
    ensures { result ≡ walked_to longest.now tasks.now start
        (first_from (broken_at longest.now tasks.now start earliest.now slack.now count t) from kept) }
{
    let latest = limits(earliest, slack, count, t);
    walk_on(longest, tasks, &latest, start, count, from, kept)
}

// The task table and its check.
#![tactic(auto)]

ghost use Rattle.std.specs.Prelude.{◌≡◌, ◌≤◌, ◌<◌};
ghost use Rattle.rules.specs.Table.{out_of_range, check};
ghost use Rattle.table.specs.Table.{table_of, blank_table};
ghost use Rattle.table.specs.Check.{answer_of, refusal_of, small_numbers, in_order, keeps_numbers, first_breaking};

use refusal::Refusal;

// "Each task has a longest execution C, least distance between releases T, deadline D and slack S": 64-bit numbers, so that an oversized one
// is refused and never cut. Of the 64 places the first `count` are the tasks; nothing is asked of the others.
//
// Four columns and not a list of tasks, as the C interface lays a table in words. That a table passed (`Checked`) is asked by the functions that need it and is
// no part of this type: `check_table` answers on every table.
#[derive(Clone, Copy)]
pub struct Table {
    pub nodes: u64,
    pub timeout: u64,
    pub count: usize,
    pub longest: [u64; 64],
    pub distance: [u64; 64],
    pub deadline: [u64; 64],
    pub slack: [u64; 64],
}

impl Table {
    // With its counts, and no task in its places.
    #[tactic(auto, unfolding(laws::specs::Lists::pad))]
    pub fn blank(nodes: u64, timeout: u64, count: usize) -> Table
        ensures { result ≡ blank_table nodes timeout count }
    {
        Table {
            nodes,
            timeout,
            count,
            longest: [0; 64],
            distance: [0; 64],
            deadline: [0; 64],
            slack: [0; 64],
        }
    }
}

// Why a table does not pass: 1, or 2 with the first task that breaks a rule.
#[derive(Clone, Copy, Debug, PartialEq, Eq)]
pub enum TableFault {
    OutOfRange,
    RuleBroken(usize),
}

// Where no task is told, the number alone.
impl From<TableFault> for Refusal {
    ghost from_gives = { λ fault refusal. refusal ≡ refusal_of fault };

    fn from(fault: TableFault) -> Refusal {
        match fault {
            TableFault::OutOfRange => Refusal::OutOfRange,
            TableFault::RuleBroken(_) => Refusal::RuleBroken,
        }
    }
}

// "node or task count out of range, timeout 0"
pub fn out_of_range(nodes: u64, timeout: u64, count: u64) -> bool
    ensures { result ≡ out_of_range nodes timeout count }
{
    (nodes < 1) | (15 < nodes) | (count < 1) | (64 < count) | (timeout < 1)
}

// "each at most 4,294,967,295"
fn small_numbers(c: u64, t: u64, d: u64, s: u64) -> bool
    ensures { result ≡ small_numbers (record { C = c; T = t; D = d; S = s }) }
{
    (c <= 4294967295) & (t <= 4294967295) & (d <= 4294967295) & (s <= 4294967295)
}

// "1 ≤ C ≤ D ≤ T; S + C ≤ D; S at least the largest C of any lower-priority task; 1 ≤ timeout ≤ smallest C", of numbers so small that no sum wraps.
fn in_order(c: u64, t: u64, d: u64, s: u64, lower: u64, timeout: u64) -> bool
    requires { (c ≤ 4294967295) × (s ≤ 4294967295) }
    ensures { result ≡ in_order timeout lower (record { C = c; T = t; D = d; S = s }) }
{
    (1 <= c) & (c <= d) & (d <= t) & (s + c <= d) & (lower <= s) & (timeout <= c)
}

// All rules of one task. The limits come first: without them a sum of two numbers might wrap.
fn keeps_rules(c: u64, t: u64, d: u64, s: u64, lower: u64, timeout: u64) -> bool
    ensures { result ≡ keeps_numbers timeout lower (record { C = c; T = t; D = d; S = s }) }
{
    small_numbers(c, t, d, s) && in_order(c, t, d, s, lower, timeout)
}

// The first task that breaks a rule, in one pass from the last task up, which carries "the largest C of any lower-priority task" along; `count` where none does.
fn first_broken<'a>(
    longest: &'a [u64; 64],
    distance: &'a [u64; 64],
    deadline: &'a [u64; 64],
    slack: &'a [u64; 64],
    timeout: u64,
    count: usize,
) -> usize
    requires { count ≤ 64 }
    ensures { result ≡ first_breaking longest.now distance.now deadline.now slack.now timeout count }
{
    let mut first = count;
    let mut top = 0;
    for i in (0..count).rev() {
        if !keeps_rules(longest[i], distance[i], deadline[i], slack[i], top, timeout) {
            first = i;
        }
        top = longest[i].max(top);
    }
    first
}

// "table 1, 2": the first task that breaks a rule is named.
pub fn check_table(t: Table) -> Result<(), TableFault>
    ensures { answer_of (table_of t) result ≡ check (table_of t) }
{
    if out_of_range(t.nodes, t.timeout, t.count as u64) {
        return Err(TableFault::OutOfRange);
    }
    let first = first_broken(
        &t.longest,
        &t.distance,
        &t.deadline,
        &t.slack,
        t.timeout,
        t.count,
    );
    if first < t.count {
        return Err(TableFault::RuleBroken(first));
    }
    Ok(())
}

// The head of a session's input: the task table, read from bytes.
#![tactic(auto)]

ghost use Rattle.std.specs.Prelude.{◌≡◌, ◌≤◌, ◌<◌, length, drop};
ghost use Rattle.rules.specs.Written.{times};
ghost use Rattle.rules.specs.Session.{read_task, read_table};
ghost use Rattle.refusal.specs.Refusal.{answer_of};
ghost use Rattle.number.specs.Numbers.{placed};
ghost use Rattle.intake.specs.Table.{task_as, tasks_read, table_read, with_task};

use number::read_number;
use refusal::Refusal;
use table::{Table, check_table, out_of_range};

// "the four numbers per task": C, T, D and S.
#[derive(Clone, Copy)]
struct Task {
    longest: u64,
    distance: u64,
    deadline: u64,
    slack: u64,
}

fn read_task(bytes: &[u8], from: usize) -> Result<(Task, usize), Refusal>
    ensures { answer_of result ≡ placed task_as bytes.now (read_task (drop from bytes.now)) }
{
    let (longest, second) = read_number(bytes, from)?;
    let (distance, third) = read_number(bytes, second)?;
    let (deadline, fourth) = read_number(bytes, third)?;
    let (slack, next) = read_number(bytes, fourth)?;
    let task = Task {
        longest,
        distance,
        deadline,
        slack,
    };
    Ok((task, next))
}

// A task, in its place of the four arrays.
fn put_task(t: &mut Table, i: usize, x: Task)
    requires { i < 64 }
    ensures { t.new ≡ with_task t.old i x }
{
    t.longest[i] = x.longest;
    t.distance[i] = x.distance;
    t.deadline[i] = x.deadline;
    t.slack[i] = x.slack;
}

// So many tasks; nothing is asked of their numbers yet.
fn list_tasks(
    bytes: &[u8],
    from: usize,
    nodes: u64,
    timeout: u64,
    count: usize,
) -> Result<(Table, usize), Refusal>
    requires { (count ≤ 64) × (from ≤ length bytes.now) }
    ensures { answer_of result ≡ tasks_read nodes timeout bytes.now (times count read_task (drop from bytes.now)) }
{
    let mut table = Table::blank(nodes, timeout, count);
    let mut at = from;
    for i in 0..count {
        let (x, next) = read_task(bytes, at)?;
        put_task(&mut table, i, x);
        at = next;
    }
    Ok((table, at))
}

// "m, timeout, task count, the four numbers per task", from the first byte on, with the bytes used. "1 is decided as soon as the first three numbers
// are read"; a byte fault in the tasks comes before 2.
pub fn read_table(bytes: &[u8]) -> Result<(Table, usize), Refusal>
    ensures { answer_of result ≡ table_read bytes.now (read_table bytes.now) }
{
    let (nodes, second) = read_number(bytes, 0)?;
    let (timeout, third) = read_number(bytes, second)?;
    let (count, from) = read_number(bytes, third)?;
    if out_of_range(nodes, timeout, count) {
        return Err(Refusal::OutOfRange);
    }
    let (table, used) = list_tasks(bytes, from, nodes, timeout, count as usize)?;
    check_table(table)?;
    Ok((table, used))
}

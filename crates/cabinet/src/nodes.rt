// A node's operations at the doors: start, finish, report, close. Beside each door stands the call that it answers, where a refusal is an `Err` and leaves
// the lent node as it stood.
ghost use Rattle.std.specs.Prelude.{◌≡◌};
ghost use Rattle.rules.specs.Node.{left_behind};
ghost use Rattle.refusal.specs.Refusal.{answer_of, told_as};
ghost use Rattle.round.specs.Round.{report_as};
ghost use Rattle.node.specs.Node as nodes;
ghost use Rattle.node.specs.Refusals.{start_answer};
ghost use Rattle.cabinet.specs.Replies.{replied, left, reported, closing, named};
ghost use Rattle.cabinet.specs.Nodes.{start_door, finish_door, report_door, close_door, words_of};

use crate::looks::look_apart;
use crate::reply::{CloseReply, Reply, ReportReply};
use lists::round_in;
use node::{Node, NodeClosing, StartRefusal, close_node, finish_node, report_node, start_node};
use refusal::Refusal;
use round::Report;
use states::nodes::put_node;

fn start(table: &[u64], node: &mut [u64], time: u64) -> Result<u64, StartRefusal>
    ensures answer { start_answer result ≡ named (λ s. s.named) (start_door table.now node.old time) }
    ensures node_after { node.new ≡ left (λ s. words_of s.node) node.old (start_door table.now node.old time) }
{
    let (table, held) = look_apart::<Node>(table, node)?;
    let started = start_node(table, held, time)?;
    put_node(node, started.node);
    Ok(started.task)
}

// 100, 101; 100, 102; 3 to 9. `value` is the task of the job that starts, or the task that 9 names.
pub fn cabinet_start(table: &[u64], node: &mut [u64], time: u64) -> Reply
    ensures value { result ≡ replied (λ s. s.named) (start_door table.now node.old time) }
    ensures node_after { node.new ≡ left (λ s. words_of s.node) node.old (start_door table.now node.old time) }
{
    Reply::from(start(table, node, time))
}

fn finish(table: &[u64], node: &mut [u64], time: u64) -> Result<u64, Refusal>
    ensures answer { answer_of result ≡ named (λ _. 0) (finish_door table.now node.old time) }
    ensures node_after { node.new ≡ left words_of node.old (finish_door table.now node.old time) }
{
    let (_, held) = look_apart::<Node>(table, node)?;
    let finished = finish_node(held, time)?;
    put_node(node, finished);
    Ok(0)
}

// 100, 101; 100, 102; 3, 4, 5, 10.
pub fn cabinet_finish(table: &[u64], node: &mut [u64], time: u64) -> Reply
    ensures value { result ≡ replied (λ _. 0) (finish_door table.now node.old time) }
    ensures node_after { node.new ≡ left words_of node.old (finish_door table.now node.old time) }
{
    Reply::from(finish(table, node, time))
}

fn report(table: &[u64], node: &mut [u64], r: u64) -> Result<Report, Refusal>
    ensures answer { answer_of result ≡ told_as (λ a. report_as a.sent) (report_door table.now node.old r) }
    ensures node_after { node.new ≡ left (λ a. words_of a.node) node.old (report_door table.now node.old r) }
{
    let (table, held) = look_apart::<Node>(table, node)?;
    let reported = report_node(table, held, r)?;
    put_node(node, reported.node);
    Ok(reported.report)
}

// 100, 101; 100, 102; 3, 4, 5, 11.
pub fn cabinet_report(table: &[u64], node: &mut [u64], r: u64) -> ReportReply
    ensures value { result ≡ reported (λ a. a.sent) (report_door table.now node.old r) }
    ensures node_after { node.new ≡ left (λ a. words_of a.node) node.old (report_door table.now node.old r) }
{
    match report(table, node, r) {
        Ok(sent) => ReportReply {
            refusal: 0,
            progress: sent.progress,
            completed: sent.completed,
            run: sent.run,
        },
        Err(error) => ReportReply {
            refusal: error.number(),
            progress: 0,
            completed: 0,
            run: 0,
        },
    }
}

fn close(
    table: &[u64],
    node: &mut [u64],
    r: u64,
    releases: &[u64],
    entries: &[u64],
) -> Result<NodeClosing, Refusal>
    ensures answer { answer_of result ≡ told_as nodes.closed_as (close_door table.now node.old r releases.now entries.now) }
    ensures node_after { node.new ≡ left (λ k. words_of k.node) node.old (close_door table.now node.old r releases.now entries.now) }
{
    let (table, held) = look_apart::<Node>(table, node)?;
    let record = round_in(r, releases, entries)?;
    let closed = close_node(table, held, record)?;
    put_node(node, closed.node);
    Ok(closed)
}

// 100, 101; 100, 102; 100; 100, 103; then 5, 12, 13, 3, 14, 15, 16, 17.
pub fn cabinet_close(
    table: &[u64],
    node: &mut [u64],
    r: u64,
    releases: &[u64],
    entries: &[u64],
) -> CloseReply
    ensures value { result ≡ closing (λ k. k.reply) (λ k. left_behind k.node) (close_door table.now node.old r releases.now entries.now) }
    ensures node_after { node.new ≡ left (λ k. words_of k.node) node.old (close_door table.now node.old r releases.now entries.now) }
{
    match close(table, node, r, releases, entries) {
        Ok(closed) => {
            let classes = closed.classes;
            CloseReply {
                refusal: 0,
                back: closed.back,
                majority: u64::from(closed.majority),
                left: u64::from(closed.left),
                classes,
            }
        }
        Err(error) => CloseReply::from(error),
    }
}

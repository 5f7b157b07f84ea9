// What a node does: start, finish, report and close.
#![tactic(auto)]

ghost use Rattle.std.specs.Prelude.{◌≡◌};
ghost use Rattle.rules.specs.Node.{new_node, fresh_node, start, finish, report_of, report, node_close};
ghost use Rattle.refusal.specs.Refusal.{answer_of, told_as};
ghost use Rattle.table.specs.Table.{table_of, Checked};
ghost use Rattle.round.specs.Round as rounds;
ghost use Rattle.common.specs.Common.{common_of};
ghost use Rattle.common.specs.Raw.{breach_of};
ghost use Rattle.common.specs.Positions.{Occupied};
ghost use Rattle.node.specs.Refusals.{start_answer, refused_start};
ghost use Rattle.node.specs.Node.{clock_rule, round_of, beyond_lock_at, Lockable, broken_at, node_of, node_as, Given, Ours, Asking, permission_rule, Startable, starting, started_now, Reachable, next_soon_at, reporting, reported_now, closed_now, node_closing};

mod own;

use close::Closing;
use common::Common;
use refusal::Refusal;
use round::{Report, Round};
use table::Table;

// What was sent for the round that is open.
#[derive(Clone, Copy, Debug, PartialEq, Eq)]
pub struct Sent {
    pub time: u64,
    pub report: Report,
}

// "possibly an open round with a lock"
pub type Opening = Option<Sent>;

// "A node has progress (finished jobs), completion time of the last (0 at first), a running mark, its latest time, and possibly an open round with a
// lock." It has its number, and a common record of its own. It is left behind where its progress is below that record's base.
//
// What a node that was given back is like (`Given`, `Ours`) is asked by the steps and is no part of this type: `own_check` answers for every node.
#[derive(Clone, Copy)]
pub struct Node {
    pub number: u64,
    pub common: Common,
    pub progress: u64,
    pub completed: u64,
    pub running: bool,
    pub latest: u64,
    pub round: Opening,
}

// Why a start is refused: by 9 with "the lowest-numbered task that breaks it", which the job waits for, or by another number. A bound that is asked for
// is answered by it too.
#[derive(Clone, Copy, Debug, PartialEq, Eq)]
pub enum StartRefusal {
    Refused(Refusal),
    Waits(u64),
}

impl From<Refusal> for StartRefusal {
    ghost from_gives = { λ refusal start. start ≡ refused_start refusal };

    fn from(refusal: Refusal) -> StartRefusal {
        StartRefusal::Refused(refusal)
    }
}

// An accepted start: "the reply names the task of the job that stands there at that moment".
#[derive(Clone, Copy)]
pub struct Started {
    pub task: u64,
    pub node: Node,
}

// A report that is sent, and the node with its round open.
#[derive(Clone, Copy)]
pub struct Reported {
    pub report: Report,
    pub node: Node,
}

// The reply is the common record's. `left` says whether the node given back is left behind.
#[derive(Clone, Copy)]
pub struct NodeClosing {
    pub node: Node,
    pub classes: [u8; 15],
    pub back: u64,
    pub majority: bool,
    pub left: bool,
}

// "A fresh one has zeros, no mark and no round."
fn new_node(number: u64) -> Node
    ensures { result ≡ node_as (new_node number) }
{
    Node {
        number,
        common: Common::fresh(),
        progress: 0,
        completed: 0,
        running: false,
        latest: 0,
        round: None,
    }
}

// 1: "node number ≥ m", met where a node is made.
#[tactic(auto, unfolding(rules::specs::Node::fresh_node))]
pub fn fresh_node(table: Table, number: u64) -> Result<Node, Refusal>
    ensures { answer_of result ≡ told_as node_as (fresh_node (table_of table) number) }
{
    if table.nodes <= number {
        return Err(Refusal::OutOfRange);
    }
    Ok(new_node(number))
}

// 3, 4, 5: "time above 2^48 − 1", "time before the node's latest", "left behind"
pub fn clock_check(latest: u64, progress: u64, base: u64, now: u64) -> Result<(), Refusal>
    ensures { answer_of result ≡ clock_rule latest progress base now }
{
    if 0x1_0000_0000_0000 <= now {
        return Err(Refusal::TimeTooLarge);
    }
    if now < latest {
        return Err(Refusal::TimeGoesBack);
    }
    if progress < base {
        return Err(Refusal::LeftBehind);
    }
    Ok(())
}

// 8: "start while a round is open, beyond both O and the lock". "The lock is progress + run."
#[tactic(auto, using(crate::proofs::Laws::lock_fits))]
pub fn beyond_lock(round: Opening, offset: u64, position: u64) -> bool
    requires { Lockable round }
    ensures { result ≡ beyond_lock_at (round_of round) offset position }
{
    match round {
        None => false,
        Some(sent) => offset < position && sent.report.progress + sent.report.run < position,
    }
}

// 9: "bound broken, with the lowest-numbered task that breaks it": asked past O, and with no round open.
fn broken_at(table: Table, common: Common, opened: bool, position: u64, time: u64) -> Option<usize>
    requires { Occupied table common position time }
    ensures { result ≡ breach_of (broken_at (table_of table) (common_of common) opened position time) }
{
    if opened || position <= common.offset {
        return None;
    }
    common::bound_of(table, common, position, time)
}

// "Each accepted start makes its own time the latest; a start raises the mark."
#[tactic(auto, using(crate::proofs::Laws::named))]
fn start_now(node: Node, now: u64) -> Started
    requires { Startable node }
    ensures { result ≡ started_now node now }
{
    let k = (node.progress - node.common.base) as usize;
    let task = common::task_at(&node.common.tasks, k);
    Started {
        task: task as u64,
        node: Node {
            running: true,
            latest: now,
            ..node
        },
    }
}

// "Permitted if the position is ≤ O, or ≤ the lock while a round is open, or, with no round open, if the bound holds now": 6, 7, 8, 9.
#[tactic(auto, unfolding(rules::specs::Node::beyond_lock, rules::specs::Node::broken_now))]
fn may_start(table: Table, node: Node, now: u64) -> Result<(), StartRefusal>
    requires { Asking table node now }
    ensures { start_answer result ≡ permission_rule (table_of table) (node_of node) now }
{
    if node.running {
        return Err(StartRefusal::Refused(Refusal::AlreadyRunning));
    }
    let common = node.common;
    if node.progress == common.base + common.count as u64 {
        return Err(StartRefusal::Refused(Refusal::NoJobLeft));
    }
    let position = node.progress + 1;
    if beyond_lock(node.round, common.offset, position) {
        return Err(StartRefusal::Refused(Refusal::BeyondLock));
    }
    match broken_at(table, common, node.round.is_some(), position, now) {
        Some(task) => Err(StartRefusal::Waits(task as u64)),
        None => Ok(()),
    }
}

// "Start, position progress + 1. The reply to an accepted start names the task of the job that stands there at that moment."
#[tactic(auto, unfolding(rules::specs::Node::start))]
pub fn start_node(table: Table, node: Node, now: u64) -> Result<Started, StartRefusal>
    requires checked { Checked table }
    requires given { Given table node }
    ensures { start_answer result ≡ starting (start (table_of table) (node_of node) now) }
{
    clock_check(node.latest, node.progress, node.common.base, now)?;
    may_start(table, node, now)?;
    Ok(start_now(node, now))
}

// "Finish: progress grows by one, the completion time is now, the mark falls."
#[tactic(auto, unfolding(rules::specs::Node::finish))]
pub fn finish_node(node: Node, now: u64) -> Result<Node, Refusal>
    requires { Ours node }
    ensures { answer_of result ≡ told_as node_as (finish (node_of node) now) }
{
    clock_check(node.latest, node.progress, node.common.base, now)?;
    if !node.running {
        return Err(Refusal::NothingRunning);
    }
    Ok(Node {
        progress: node.progress + 1,
        completed: now,
        running: false,
        latest: now,
        ..node
    })
}

// "position progress + 1 exists, is ≤ O or within the bound at r, and projection(progress) < r + timeout"
#[tactic(auto, using(common::proofs::Records::length_is, table::proofs::Facts::ranges))]
fn next_soon(table: Table, common: Common, progress: u64, r: u64) -> bool
    requires { Reachable table common progress r }
    ensures { result ≡ next_soon_at (table_of table) (common_of common) progress r }
{
    if common.base + common.count as u64 <= progress {
        return false;
    }
    if broken_at(table, common, false, progress + 1, r).is_some() {
        return false;
    }
    common::projection_of(table, common, progress) < r + table.timeout
}

// "Run is 1 if a job runs. It is also 1 if .. Otherwise it is 0."
#[tactic(auto, unfolding(rules::specs::Node::report_of, rules::specs::Node::next_soon))]
fn run_at(table: Table, node: Node, r: u64) -> u64
    requires { Asking table node r }
    ensures { result ≡ (report_of (table_of table) (node_of node) r).run }
{
    if node.running {
        return 1;
    }
    u64::from(next_soon(table, node.common, node.progress, r))
}

// "Report at the round time r gives (progress, completion time, run)"; "a report opens the round".
#[tactic(auto, unfolding(rules::specs::Node::report, rules::specs::Node::report_of))]
pub fn report_node(table: Table, node: Node, r: u64) -> Result<Reported, Refusal>
    requires checked { Checked table }
    requires given { Given table node }
    ensures { answer_of result ≡ reporting (report (table_of table) (node_of node) r) }
{
    clock_check(node.latest, node.progress, node.common.base, r)?;
    if node.round.is_some() {
        return Err(Refusal::RoundOpen);
    }
    Ok(report_now(node, r, run_at(table, node, r)))
}

// The report of a node whose round opens at r.
fn report_now(node: Node, r: u64, run: u64) -> Reported
    ensures { result ≡ reported_now node r run }
{
    let report = Report {
        progress: node.progress,
        completed: node.completed,
        run,
    };
    Reported {
        report,
        node: Node {
            latest: r,
            round: Some(Sent { time: r, report }),
            ..node
        },
    }
}

// "lifts the lock and sets the latest time to the larger of itself and r + timeout. If then progress < B, the node is left behind for good."
fn closed_now(node: Node, closing: Closing, end: u64) -> NodeClosing
    ensures { result ≡ closed_now node closing end }
{
    let Closing {
        common,
        classes,
        back,
        majority,
    } = closing;
    NodeClosing {
        node: Node {
            common,
            latest: node.latest.max(end),
            round: None,
            ..node
        },
        classes,
        back,
        majority,
        left: node.progress < common.base,
    }
}

// "close 5, 12, 13, then 3, 14, 15, 16, 17": the node's own refusals, then those of its common record. "An open round whose record was refused stays open."
#[tactic(auto, using(rules::proofs::Closing::accepted, table::proofs::Facts::ranges), unfolding(rules::specs::Node::node_close))]
pub fn close_node(table: Table, node: Node, q: Round) -> Result<NodeClosing, Refusal>
    requires checked { Checked table }
    requires given { Given table node }
    ensures { answer_of result ≡ node_closing (node_close (table_of table) (node_of node) (rounds.round_of q)) }
{
    own::own_check(node, q)?;
    let closing = close::close_round(table, node.common, q)?;
    Ok(closed_now(node, closing, q.time + table.timeout))
}

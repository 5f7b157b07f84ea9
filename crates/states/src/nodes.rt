// The words of a node: taken where this library may have written them, and written.
ghost use Rattle.std.specs.Prelude.{◌≡◌, length, drop};
ghost use Rattle.refusal.specs.Refusal.{answer_of};
ghost use Rattle.table.specs.Table.{Checked};
ghost use Rattle.states.specs.Common.{common_in};
ghost use Rattle.states.specs.Node.{round_words, node_words, sent_in, round_in, node_in, known_own, known_sent, none_sent, known_round, known_before, node_at};

use crate::commons::{common_in, put_common};
use common::Common;
use node::{Node, Opening, Sent};
use refusal::Refusal;
use round::Report;
use table::Table;

// The sum by a difference: progress may be any word, and progress + running might wrap.
#[tactic(auto, using(laws::proofs::Sequences::all_left, crate::proofs::Words::by_difference), unfolding(crate::specs::Node::known_own, laws::specs::Tests::all_of))]
fn known_own(
    nodes: u64,
    last: u64,
    number: u64,
    progress: u64,
    completed: u64,
    running: u64,
    latest: u64,
) -> bool
    ensures { result ≡ known_own nodes last number progress completed running latest }
{
    if last < progress {
        return false;
    }
    (running <= last - progress)
        & (number < nodes)
        & (running <= 1)
        & (completed < 0x1_0000_0000_0000)
        & (latest < 0x2_0000_0000_0000)
}

#[tactic(auto, using(laws::proofs::Sequences::all_left), unfolding(crate::specs::Node::known_sent))]
fn known_sent(last: u64, s: Sent) -> bool
    ensures { result ≡ known_sent last s }
{
    (s.time < 0x1_0000_0000_0000)
        & (s.report.progress <= last)
        & (s.report.completed < 0x1_0000_0000_0000)
        & (s.report.run <= 1)
}

#[tactic(auto, using(laws::proofs::Sequences::all_left), unfolding(crate::specs::Node::none_sent))]
fn none_sent(s: Sent) -> bool
    ensures { result ≡ none_sent s }
{
    (s.time == 0) & (s.report.progress == 0) & (s.report.completed == 0) & (s.report.run == 0)
}

// What was sent while a round is open, else zeros.
#[tactic(auto, unfolding(crate::specs::Node::known_round))]
fn known_round(last: u64, opened: u64, s: Sent) -> bool
    ensures { result ≡ known_round last opened s }
{
    if opened == 0 {
        return none_sent(s);
    }
    if opened == 1 {
        return known_sent(last, s);
    }
    false
}

#[tactic(auto, unfolding(crate::specs::Node::sent_in))]
fn sent_in(words: &[u64]) -> Sent
    requires { length words.now ≡ 336 }
    ensures { result ≡ sent_in words.now }
{
    Sent {
        time: words[6],
        report: Report {
            progress: words[7],
            completed: words[8],
            run: words[9],
        },
    }
}

// Everything that is asked of the words before the common record.
#[tactic(auto, unfolding(crate::specs::Node::known_before, laws::specs::Tests::all_of))]
fn known_before(nodes: u64, last: u64, words: &[u64]) -> bool
    requires { length words.now ≡ 336 }
    ensures { result ≡ known_before nodes last words.now }
{
    if known_own(
        nodes, last, words[0], words[1], words[2], words[3], words[4],
    ) {
        let s = sent_in(words);
        return known_round(last, words[5], s);
    }
    false
}

fn round_in(opened: u64, s: Sent) -> Opening
    ensures { result ≡ round_in opened s }
{
    if opened == 1 { Some(s) } else { None }
}

// The node at its places, with its common record.
#[tactic(auto, unfolding(crate::specs::Node::node_in))]
fn record_in(words: &[u64], common: Common) -> Node
    requires { (length words.now ≡ 336) × (common ≡ common_in (drop 10 words.now)) }
    ensures { result ≡ node_in words.now }
{
    Node {
        number: words[0],
        common,
        progress: words[1],
        completed: words[2],
        running: words[3] == 1,
        latest: words[4],
        round: round_in(words[5], sent_in(words)),
    }
}

// 100 where the words are not as many as a node has, 102 where this library gave back no such node under the table.
#[tactic(auto, unfolding(crate::specs::Node::node_at, crate::specs::Node::known_node, laws::specs::Tests::all_of))]
pub fn node_in(t: Table, words: &[u64]) -> Result<Node, Refusal>
    requires { Checked t }
    ensures { answer_of result ≡ node_at t words.now }
{
    if words.len() != 336 {
        return Err(Refusal::WrongLength);
    }
    let Ok(common) = common_in(t, &words[10..]) else {
        return Err(Refusal::WrongState);
    };
    if !known_before(t.nodes, common.base + common.count as u64, words) {
        return Err(Refusal::WrongState);
    }
    Ok(record_in(words, common))
}

fn round_words(round: Opening) -> [u64; 5]
    ensures { result ≡ round_words round }
{
    match round {
        None => [0; 5],
        Some(s) => [
            1,
            s.time,
            s.report.progress,
            s.report.completed,
            s.report.run,
        ],
    }
}

// The words of a node, put in.
pub fn put_node(words: &mut [u64], n: Node)
    requires { length words.old ≡ 336 }
    ensures { words.new ≡ node_words n }
{
    let running = u64::from(n.running);
    words[..5].copy_from_slice(&[n.number, n.progress, n.completed, running, n.latest]);
    words[5..10].copy_from_slice(&round_words(n.round));
    put_common(words, 10, n.common);
}

// A node's start, finish, report and close.
ghost use Rattle.std.specs.Prelude.{◌≡◌};
ghost use Rattle.rules.specs.Node.{left_behind};
ghost use Rattle.cabinet.specs.Replies.{replied, left, reported, closing};
ghost use Rattle.cabinet.specs.Nodes.{start_door, finish_door, report_door, close_door, words_of};

use cabinet::reply::{CloseReply, Reply, ReportReply};

#[unsafe(no_mangle)]
pub extern "C" fn cabinet_start(table: &[u64], node: &mut [u64], time: u64) -> Reply
    ensures value { result ≡ replied (λ s. s.named) (start_door table.now node.old time) }
    ensures node_after { node.new ≡ left (λ s. words_of s.node) node.old (start_door table.now node.old time) }
{
    cabinet::nodes::cabinet_start(table, node, time)
}

#[unsafe(no_mangle)]
pub extern "C" fn cabinet_finish(table: &[u64], node: &mut [u64], time: u64) -> Reply
    ensures value { result ≡ replied (λ _. 0) (finish_door table.now node.old time) }
    ensures node_after { node.new ≡ left words_of node.old (finish_door table.now node.old time) }
{
    cabinet::nodes::cabinet_finish(table, node, time)
}

#[unsafe(no_mangle)]
pub extern "C" fn cabinet_report(table: &[u64], node: &mut [u64], r: u64) -> ReportReply
    ensures value { result ≡ reported (λ a. a.sent) (report_door table.now node.old r) }
    ensures node_after { node.new ≡ left (λ a. words_of a.node) node.old (report_door table.now node.old r) }
{
    cabinet::nodes::cabinet_report(table, node, r)
}

#[unsafe(no_mangle)]
pub extern "C" fn cabinet_close(
    table: &[u64],
    node: &mut [u64],
    r: u64,
    releases: &[u64],
    entries: &[u64],
) -> CloseReply
    ensures value { result ≡ closing (λ k. k.reply) (λ k. left_behind k.node) (close_door table.now node.old r releases.now entries.now) }
    ensures node_after { node.new ≡ left (λ k. words_of k.node) node.old (close_door table.now node.old r releases.now entries.now) }
{
    cabinet::nodes::cabinet_close(table, node, r, releases, entries)
}

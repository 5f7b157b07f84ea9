// A table checked, and states at the start.
ghost use Rattle.std.specs.Prelude.{◌≡◌};
ghost use Rattle.refusal.specs.Refusal.{answer_of};
ghost use Rattle.cabinet.specs.Replies.{replied, left, named};
ghost use Rattle.cabinet.specs.Fresh.{check_door, fresh_common_door, fresh_node_door};
ghost use Rattle.cabinet.specs.Nodes as nodes;
ghost use Rattle.cabinet.specs.Stations as stations;

use crate::reply::Reply;
use common::Common;
use node::fresh_node;
use refusal::Refusal;
use states::commons::put_common;
use states::nodes::put_node;
use table::{TableFault, check_table};
use words::tables::{table_in, table_of};

// 100; 1; 2 with the first task that breaks a rule.
pub fn cabinet_check_table(table: &[u64]) -> Reply
    ensures { result ≡ replied (λ _. 0) (check_door table.now) }
{
    if table.len() != 259 {
        return Reply::refused(Refusal::WrongLength);
    }
    match check_table(table_of(table)) {
        Ok(()) => Reply::accepted(0),
        Err(TableFault::OutOfRange) => Reply::refused(Refusal::OutOfRange),
        Err(TableFault::RuleBroken(task)) => Reply {
            refusal: 2,
            value: task as u64,
        },
    }
}

// 100.
pub fn cabinet_fresh_common(common: &mut [u64]) -> Reply
    ensures value { result ≡ replied (λ _. 0) (fresh_common_door common.old) }
    ensures common_after { common.new ≡ left stations.words_of common.old (fresh_common_door common.old) }
{
    if common.len() != 326 {
        return Reply::refused(Refusal::WrongLength);
    }
    put_common(common, 0, Common::fresh());
    Reply::accepted(0)
}

fn put_fresh_node(table: &[u64], node: &mut [u64], number: u64) -> Result<u64, Refusal>
    ensures answer { answer_of result ≡ named (λ _. 0) (fresh_node_door table.now node.old number) }
    ensures node_after { node.new ≡ left nodes.words_of node.old (fresh_node_door table.now node.old number) }
{
    let table = table_in(table)?;
    if node.len() != 336 {
        return Err(Refusal::WrongLength);
    }
    let first = fresh_node(table, number)?;
    put_node(node, first);
    Ok(0)
}

// 100, 101; 100; 1.
pub fn cabinet_fresh_node(table: &[u64], node: &mut [u64], number: u64) -> Reply
    ensures value { result ≡ replied (λ _. 0) (fresh_node_door table.now node.old number) }
    ensures node_after { node.new ≡ left nodes.words_of node.old (fresh_node_door table.now node.old number) }
{
    Reply::from(put_fresh_node(table, node, number))
}

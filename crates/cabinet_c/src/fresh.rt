// A table checked, and states at the start.
ghost use Rattle.std.specs.Prelude.{◌≡◌};
ghost use Rattle.cabinet.specs.Replies.{replied, left};
ghost use Rattle.cabinet.specs.Fresh.{check_door, fresh_common_door, fresh_node_door};
ghost use Rattle.cabinet.specs.Nodes as nodes;
ghost use Rattle.cabinet.specs.Stations as stations;

use cabinet::reply::Reply;

#[unsafe(no_mangle)]
pub extern "C" fn cabinet_check_table(table: &[u64]) -> Reply
    ensures { result ≡ replied (λ _. 0) (check_door table.now) }
{
    cabinet::fresh::cabinet_check_table(table)
}

#[unsafe(no_mangle)]
pub extern "C" fn cabinet_fresh_common(common: &mut [u64]) -> Reply
    ensures value { result ≡ replied (λ _. 0) (fresh_common_door common.old) }
    ensures common_after { common.new ≡ left stations.words_of common.old (fresh_common_door common.old) }
{
    cabinet::fresh::cabinet_fresh_common(common)
}

#[unsafe(no_mangle)]
pub extern "C" fn cabinet_fresh_node(table: &[u64], node: &mut [u64], number: u64) -> Reply
    ensures value { result ≡ replied (λ _. 0) (fresh_node_door table.now node.old number) }
    ensures node_after { node.new ≡ left nodes.words_of node.old (fresh_node_door table.now node.old number) }
{
    cabinet::fresh::cabinet_fresh_node(table, node, number)
}

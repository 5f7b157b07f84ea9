// The table and the state that a call is lent, looked at from left to right: each first for its length, then for what it holds.
ghost use Rattle.std.specs.Prelude.{◌≡◌, ℕ, List};
ghost use Rattle.rules.specs.Answer.{Answer};
ghost use Rattle.refusal.specs.Refusal.{answer_of};
ghost use Rattle.table.specs.declared.Table.{Table};
ghost use Rattle.table.specs.Table.{Checked};
ghost use Rattle.states.specs.Common.{common_at};
ghost use Rattle.states.specs.Node.{node_at};
ghost use Rattle.cabinet.specs.Looks.{looked_at, looked};

use common::Common;
use node::Node;
use refusal::Refusal;
use states::commons::common_in;
use states::nodes::node_in;
use table::Table;
use words::tables::table_in;

// A state that stands in words: a common record, or a node.
pub(crate) trait State: Copy {
    ghost state_at: { Table → List ℕ → Answer Self };

    fn read(t: Table, words: &[u64]) -> Result<Self, Refusal>
        requires { Checked t }
        ensures { answer_of result ≡ state_at t words.now };
}

impl State for Common {
    ghost state_at = { common_at };

    fn read(t: Table, words: &[u64]) -> Result<Common, Refusal> {
        common_in(t, words)
    }
}

impl State for Node {
    ghost state_at = { node_at };

    fn read(t: Table, words: &[u64]) -> Result<Node, Refusal> {
        node_in(t, words)
    }
}

// The table first, then the state under it.
pub(crate) fn look_at<S: State>(table: &[u64], state: &[u64]) -> Result<(Table, S), Refusal>
    ensures { answer_of result ≡ looked (looked_at S.state_at table.now state.now) }
{
    let table = table_in(table)?;
    let state = S::read(table, state)?;
    Ok((table, state))
}

// The same look for a call that then makes a step: apart in the program too, so that what the look needs of the stack is given back before the step begins. No
// call may need 32 KiB. A call that only asks has the look in its own place, which copies less.
#[inline(never)]
pub(crate) fn look_apart<S: State>(table: &[u64], state: &[u64]) -> Result<(Table, S), Refusal>
    ensures { answer_of result ≡ looked (looked_at S.state_at table.now state.now) }
{
    look_at(table, state)
}

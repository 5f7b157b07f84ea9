// A finish in a node that the caller lends: it is set in place, over a step by value. Document 01 names this form.
#![tactic(auto)]

ghost use Rattle.std.specs.Prelude.{◌≡◌};
ghost use Rattle.rules.specs.Node as rules;
ghost use Rattle.refusal.specs.Refusal.{answer_of};
ghost use Rattle.node.specs.Node.{node_of, Ours};
ghost use Rattle.finish.specs.Finish.{numbers_of, numbers_left, accepted, left};

use node::Node;
use refusal::Refusal;

// What a finish sets: the numbers of the node afterwards that are its own.
#[derive(Clone, Copy, Debug, PartialEq, Eq)]
pub struct Finished {
    pub progress: u64,
    pub completed: u64,
    pub running: bool,
    pub latest: u64,
}

// "Finish: progress grows by one, the completion time is now, the mark falls."
pub fn finish_step(node: Node, time: u64) -> Result<Finished, Refusal>
    requires { Ours node }
    ensures { answer_of result ≡ numbers_of (rules.finish (node_of node) time) }
{
    let after = node::finish_node(node, time)?;
    Ok(Finished {
        progress: after.progress,
        completed: after.completed,
        running: after.running,
        latest: after.latest,
    })
}

// What a finish sets, and what it says: where it is refused, the node's own numbers beside the refusal.
fn finish_told(node: Node, time: u64) -> (Finished, Result<(), Refusal>)
    requires { Ours node }
    ensures numbers { result.0 ≡ numbers_left node (rules.finish (node_of node) time) }
    ensures answer { answer_of result.1 ≡ accepted (rules.finish (node_of node) time) }
{
    match finish_step(node, time) {
        Ok(done) => (done, Ok(())),
        Err(refusal) => {
            let kept = Finished {
                progress: node.progress,
                completed: node.completed,
                running: node.running,
                latest: node.latest,
            };
            (kept, Err(refusal))
        }
    }
}

// "A finish changes the node's own record and nothing beside it": afterwards the lent node is the very node that the finish by value gives back, and
// where it is refused the node that it was.
#[tactic(auto, using(crate::proofs::Own::nothing_beside))]
pub fn finish(node: &mut Node, time: u64) -> Result<(), Refusal>
    requires { Ours node.old }
    ensures answer { answer_of result ≡ accepted (rules.finish (node_of node.old) time) }
    ensures node_after { node.new ≡ left node.old (rules.finish (node_of node.old) time) }
{
    let (done, answer) = finish_told(*node, time);
    node.progress = done.progress;
    node.completed = done.completed;
    node.running = done.running;
    node.latest = done.latest;
    answer
}

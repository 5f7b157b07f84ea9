// What a node's close asks of a round record before its common record does: 5, 12 and 13.
ghost use Rattle.std.specs.Prelude.{◌≡◌, get_or};
ghost use Rattle.std.proofs.Math.Option.{none};
ghost use Rattle.rules.specs.Node.{as_sent};
ghost use Rattle.refusal.specs.Refusal.{answer_of};
ghost use Rattle.round.specs.Round.{sent_report, entry_of, entry_as, round_of};
ghost use Rattle.node.specs.Node.{node_of, own_rule};

use crate::Node;
use refusal::Refusal;
use round::{Entry, Report, Round};

// 13: "own entry absent or not as sent". A list too short for the number has no such entry.
#[tactic(auto, using(crate::proofs::Entries::past, crate::proofs::Entries::there, crate::proofs::Entries::outside))]
pub fn own_entry(q: Round, number: u64) -> Entry
    ensures { result ≡ entry_as (get_or (round_of q).entries number none) }
{
    if 15 <= number {
        return None;
    }
    if q.entered as u64 <= number {
        return None;
    }
    q.entries[number as usize]
}

pub fn as_sent(sent: Report, entry: Entry) -> bool
    ensures { result ≡ as_sent (sent_report sent) (entry_of entry) }
{
    entry == Some(sent)
}

// 5: "left behind"; 12: "close with no round open, or another r"; 13.
pub fn own_check(node: Node, q: Round) -> Result<(), Refusal>
    ensures { answer_of result ≡ own_rule (node_of node) (round_of q) }
{
    if node.progress < node.common.base {
        return Err(Refusal::LeftBehind);
    }
    let Some(open) = node.round else {
        return Err(Refusal::OtherRound);
    };
    if open.time != q.time {
        return Err(Refusal::OtherRound);
    }
    if !as_sent(open.report, own_entry(q, node.number)) {
        return Err(Refusal::NotAsSent);
    }
    Ok(())
}

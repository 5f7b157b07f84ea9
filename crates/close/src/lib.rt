// A round record applied to a common record: refusals 3, 14, 15, 16 and 17, and the close.
#![tactic(auto)]

ghost use Rattle.std.specs.Prelude.{◌≡◌};
ghost use Rattle.rules.specs.Close.{close};
ghost use Rattle.refusal.specs.Refusal.{answer_of};
ghost use Rattle.table.specs.Table.{table_of, Checked};
ghost use Rattle.round.specs.Round.{round_of};
ghost use Rattle.common.specs.Common.{common_of, common_as, Given};
ghost use Rattle.close.specs.Close.{closing, Judged, Fitting, after, conclusion};

mod trial;

use common::Common;
use judge::{Judgement, judge_round};
use refusal::Refusal;
use release::insertion::{all_put, dropped};
use round::Round;
use table::Table;
use trial::tried;

// The common record after the round, and the reply: "one class number for each of fifteen places, the back-runner (15 if none)" and the majority notice.
#[derive(Clone, Copy)]
pub struct Closing {
    pub common: Common,
    pub classes: [u8; 15],
    pub back: u64,
    pub majority: bool,
}

// The record with the new B, W and O, the jobs up to B dropped, and each release in its place; E is what the list leaves.
fn apply(c: Common, j: Judgement, earliest: [u64; 64], q: Round) -> Common
    requires { Fitting c j q }
    ensures { result ≡ common_as (after c j earliest q) }
{
    let gone = (j.base - c.base) as usize;
    let count = c.count - gone;
    let past = (j.offset - j.base) as usize;
    let kept = dropped(&c.tasks, c.count, gone);
    let tasks = all_put(kept, count, past, q);
    Common {
        tasks,
        count: count + q.listed,
        base: j.base,
        start: j.start,
        offset: j.offset,
        earliest,
        last: Some(q.time),
    }
}

// 17: "L + releases − new B > 256"; then the record changes.
#[tactic(auto, unfolding(crate::specs::Close::conclusion))]
fn conclude(c: Common, j: Judgement, earliest: [u64; 64], q: Round) -> Result<Closing, Refusal>
    requires { Judged c j q }
    ensures { answer_of result ≡ conclusion c j earliest q }
{
    let length = c.base + c.count as u64;
    let longer = length + q.listed as u64;
    if j.base + (Common::PLACES as u64) < longer {
        return Err(Refusal::NoPlace);
    }
    let common = apply(c, j, earliest, q);
    let classes = j.classes;
    Ok(Closing {
        common,
        classes,
        back: j.back,
        majority: j.majority,
    })
}

// "then 3, 14, 15, 16, 17; a station begins at 3." Judging comes before 17, and before anything changes. Where the record is refused, the caller keeps its own.
#[tactic(auto, using(crate::proofs::Closed::stopped_early, crate::proofs::Closed::passed_ready, crate::proofs::Closed::judged_so, crate::proofs::Closed::concluded))]
pub fn close_round(t: Table, c: Common, q: Round) -> Result<Closing, Refusal>
    requires { Checked t × Given t c }
    ensures { answer_of result ≡ closing (close (table_of t) (common_of c) (round_of q)) }
{
    let earliest = tried(t, c, q)?;
    let j = judge_round(t, c, q);
    conclude(c, j, earliest, q)
}

// How a round is judged: one walk over the order for all its entries, then each entry by itself, then the passes over them.
#![tactic(auto)]

pub mod class;
mod entries;

ghost use Rattle.std.specs.Prelude.{◌≡◌, ◌^◌, ◌≤◌, ◌<◌, take};
ghost use Rattle.rules.specs.Judge.{class};
ghost use Rattle.table.specs.Table.{table_of, Checked};
ghost use Rattle.common.specs.Common.{common_of, Given};
ghost use Rattle.round.specs.Round.{entry_of, round_of};
ghost use Rattle.judge.specs.Judgement.{conclusion, judgement, Ready};
ghost use Rattle.judge.specs.Lent.{prepared, classed_at};

use class::Before;
use common::Common;
use passes::Classed;
use round::{Entry, Round};
use table::Table;

// The reply's classes, back-runner (15 if none) and notice, and the new B, W and O.
#[derive(Clone, Copy, Debug, PartialEq, Eq)]
pub struct Judgement {
    pub classes: [u8; 15],
    pub back: u64,
    pub majority: bool,
    pub base: u64,
    pub start: u64,
    pub offset: u64,
}

// What one walk over the order finds for all entries of a round: the projections as far as the bound is kept, and the numbers before the round.
#[derive(Clone, Copy, Debug, PartialEq, Eq)]
pub struct Prepared {
    pub ends: [u64; 257],
    pub before: Before,
}

// "The values of B, W, O, L, E before the round are used." One walk over the order, once a round: whatever the reports say, the stretch from O + 1 on is
// the same.
pub fn prepare(t: Table, c: Common, time: u64) -> Prepared
    requires checked { Checked t }
    requires given { Given t c }
    requires time_bound { time < 2 ^ 48 }
    ensures { result ≡ prepared t c time }
{
    let from = (c.offset - c.base) as usize;
    let w = walk::walk_order(
        &t.longest,
        &t.slack,
        &c.tasks,
        &c.earliest,
        c.start,
        t.count,
        time,
        from,
        c.count,
    );
    let clear = c.base + w.clear as u64;
    let before = Before {
        base: c.base,
        offset: c.offset,
        kept: c.count,
        time,
        timeout: t.timeout,
        clear,
    };
    let ends = w.ends;
    Prepared { ends, before }
}

// "Each entry gets the first class that fits": one entry of a round at `time`.
#[tactic(auto, using(crate::proofs::Lent::class_same))]
pub fn judge_entry(t: Table, c: Common, time: u64, entry: Entry) -> u8
    requires checked { Checked t }
    requires given { Given t c }
    requires time_bound { time < 2 ^ 48 }
    ensures { result ≡ class (table_of t) (common_of c) time (entry_of entry) }
{
    let p = prepare(t, c, time);
    class::class_of(&p.ends, p.before, entry)
}

// One entry of a prepared round, with what the passes over all entries read of it. Of what `prepare` gives it is what the rules say (`classed_same` in
// proofs/Lent.antt).
pub fn classed_entry(p: Prepared, entry: Entry) -> Classed
    ensures { result ≡ classed_at p.ends p.before (entry_of entry) }
{
    entries::with_class(&p.ends, p.before, entry)
}

// What the passes give over the first n entries of a round, each with its class.
#[tactic(auto, using(common::proofs::Records::length_is), unfolding(crate::specs::Judgement::conclusion))]
pub fn conclude(t: Table, c: Common, all: [Classed; 15], n: usize) -> Judgement
    requires given { Given t c }
    requires n_bound { n ≤ 15 }
    ensures { result ≡ conclusion (table_of t) (common_of c) (take n all) }
{
    let classes = passes::classes_of(all, n);
    let length = c.base + c.count as u64;
    let back = passes::back_runner(all, n, c.base, c.start, length);
    let majority = passes::has_majority(all, n, t.nodes);
    let offset = passes::new_offset(all, n, c.offset);
    Judgement {
        classes,
        back: back.node,
        majority,
        base: back.base,
        start: back.start,
        offset,
    }
}

// How a round is judged: one walk, each entry's class, then what the passes over them give. The records come and go by value, so none is changed.
pub fn judge_round(t: Table, c: Common, q: Round) -> Judgement
    requires { Ready t c q }
    ensures { result ≡ judgement (table_of t) (common_of c) (round_of q) }
{
    let p = prepare(t, c, q.time);
    let all = entries::judge_entries(&p.ends, p.before, q.entries, q.entered);
    conclude(t, c, all, q.entered)
}

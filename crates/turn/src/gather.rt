// Lines gathered in a buffer, each behind the one before it, so that a session writes many at a time. Each is built at the front of a lent line buffer.
ghost use Rattle.std.specs.Prelude.{◌≡◌, ◌+◌, ◌^◌, ◌≤◌, ◌<◌, length, take};
ghost use Rattle.laws.specs.Lists.{over};
ghost use Rattle.rules.specs.Session.{printed, round, refusal, order_line};
ghost use Rattle.common.specs.Common.{common_of};
ghost use Rattle.lines.specs.Text.{Put, PutWithin};
ghost use Rattle.turn.specs.Gather.{Printable, Countable};

use crate::Turn;
use common::Common;
use lines::text::put_text;
use lines::{order_line, refused_line, round_line};

// The first n bytes of a line buffer.
fn put_front(output: &mut [u8], at: usize, line: &[u8], n: usize) -> usize
    requires { (n ≤ length line.now) × (at + n ≤ length output.old) }
    ensures { Put output.old at (take n line.now) output.new result }
{
    put_text(output, at, &line[..n])
}

// "A refusal prints `refused N`".
#[tactic(auto, using(crate::proofs::Gathering::may_put, crate::proofs::Gathering::gathered))]
pub fn gather_refused(
    output: &mut [u8; 65536],
    line: &mut [u8; 8192],
    at: usize,
    number: u64,
) -> usize
    requires { at ≤ 57344 }
    ensures put_within { PutWithin 8192 output.old at (printed (refusal number)) output.new result }
    ensures line_after { line.new ≡ over (printed (refusal number)) line.old }
{
    let n = refused_line(line, number);
    put_front(output, at, line, n)
}

// "last, position:task of each job kept". That its positions can be counted (`Countable`) is less than what a record that was given back has, so it is asked
// here and is no part of the record.
#[tactic(auto, using(crate::proofs::Gathering::may_put, crate::proofs::Gathering::gathered))]
pub fn gather_order(output: &mut [u8; 65536], line: &mut [u8; 8192], at: usize, c: Common) -> usize
    requires { (at ≤ 57344) × Countable c }
    ensures put_within { PutWithin 8192 output.old at (printed (order_line (common_of c))) output.new result }
    ensures line_after { line.new ≡ over (printed (order_line (common_of c))) line.old }
{
    let n = order_line(line, c.base, &c.tasks, c.count);
    put_front(output, at, line, n)
}

// "Fields: r, O, B, L, W after the round, the m classes".
#[tactic(auto, using(crate::proofs::Gathering::may_put))]
pub fn gather_round(
    output: &mut [u8; 65536],
    line: &mut [u8; 8192],
    at: usize,
    x: Turn,
    nodes: u64,
) -> usize
    requires { (at ≤ 57344) × Printable nodes x }
    ensures put_within { PutWithin 8192 output.old at (printed (round x.time (common_of x.common) (take nodes x.classes))) output.new result }
    ensures line_after { line.new ≡ over (printed (round x.time (common_of x.common) (take nodes x.classes))) line.old }
{
    let c = x.common;
    let last = c.base + c.count as u64;
    let n = round_line(
        line,
        x.time,
        c.offset,
        c.base,
        last,
        c.start,
        &x.classes,
        nodes as usize,
    );
    put_front(output, at, line, n)
}

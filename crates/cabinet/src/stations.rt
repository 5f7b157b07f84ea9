// A station's close, and what may be asked of a common record: a projection, the bound, the order as it stands. Beside each door stands the call that it
// answers, where a refusal is an `Err` and leaves what is lent as it stood.
ghost use Rattle.std.specs.Prelude.{◌≡◌, false, ◌≤◌, length};
ghost use Rattle.laws.specs.Lists.{over};
ghost use Rattle.refusal.specs.Refusal.{answer_of, told_as};
ghost use Rattle.close.specs.Close.{closed_as};
ghost use Rattle.node.specs.Refusals.{start_answer};
ghost use Rattle.cabinet.specs.Replies.{replied, left, closing, named};
ghost use Rattle.cabinet.specs.Stations.{close_station_door, projection_door, bound_door, order_door, order_over, words_of};

use crate::looks::{look_apart, look_at};
use crate::reply::{CloseReply, Reply};
use close::{Closing, close_round};
use common::{Common, bound_of, projection_of};
use lists::round_in;
use node::StartRefusal;
use refusal::Refusal;
use states::commons::put_common;

// Beside a node's close: document 01 has two calls, with another state, another step and other refusals.
fn close_station(
    table: &[u64],
    common: &mut [u64],
    r: u64,
    releases: &[u64],
    entries: &[u64],
) -> Result<Closing, Refusal>
    ensures answer { answer_of result ≡ told_as closed_as (close_station_door table.now common.old r releases.now entries.now) }
    ensures common_after { common.new ≡ left (λ k. words_of k.common) common.old (close_station_door table.now common.old r releases.now entries.now) }
{
    let (table, kept) = look_apart::<Common>(table, common)?;
    let record = round_in(r, releases, entries)?;
    let closed = close_round(table, kept, record)?;
    put_common(common, 0, closed.common);
    Ok(closed)
}

// 100, 101; 100, 102; 100; 100, 103; then 3, 14, 15, 16, 17.
pub fn cabinet_close_station(
    table: &[u64],
    common: &mut [u64],
    r: u64,
    releases: &[u64],
    entries: &[u64],
) -> CloseReply
    ensures value { result ≡ closing (λ k. k.reply) (λ _. false) (close_station_door table.now common.old r releases.now entries.now) }
    ensures common_after { common.new ≡ left (λ k. words_of k.common) common.old (close_station_door table.now common.old r releases.now entries.now) }
{
    match close_station(table, common, r, releases, entries) {
        Ok(closed) => {
            let classes = closed.classes;
            CloseReply {
                refusal: 0,
                back: closed.back,
                majority: u64::from(closed.majority),
                left: 0,
                classes,
            }
        }
        Err(error) => CloseReply::from(error),
    }
}

fn projection(table: &[u64], common: &[u64], position: u64) -> Result<u64, Refusal>
    ensures { answer_of result ≡ projection_door table.now common.now position }
{
    let (table, kept) = look_at::<Common>(table, common)?;
    if position < kept.base || kept.base + (kept.count as u64) < position {
        return Err(Refusal::NoPosition);
    }
    Ok(projection_of(table, kept, position))
}

// 100, 101; 100, 102; 104.
pub fn cabinet_projection(table: &[u64], common: &[u64], position: u64) -> Reply
    ensures { result ≡ replied (λ v. v) (projection_door table.now common.now position) }
{
    Reply::from(projection(table, common, position))
}

fn bound(table: &[u64], common: &[u64], position: u64, time: u64) -> Result<u64, StartRefusal>
    ensures { start_answer result ≡ bound_door table.now common.now position time }
{
    let (table, kept) = look_at::<Common>(table, common)?;
    if 0x1_0000_0000_0000 <= time {
        return Err(StartRefusal::Refused(Refusal::TimeTooLarge));
    }
    if position <= kept.base || kept.base + (kept.count as u64) < position {
        return Err(StartRefusal::Refused(Refusal::NoPosition));
    }
    match bound_of(table, kept, position, time) {
        None => Ok(0),
        Some(task) => Err(StartRefusal::Waits(task as u64)),
    }
}

// 100, 101; 100, 102; 3; 104; 9 with the task.
pub fn cabinet_bound(table: &[u64], common: &[u64], position: u64, time: u64) -> Reply
    ensures { result ≡ replied (λ v. v) (bound_door table.now common.now position time) }
{
    Reply::from(bound(table, common, position, time))
}

// Tasks into a list that has room for them.
fn put_order(order: &mut [u64], tasks: &[u8])
    requires { length tasks.now ≤ length order.old }
    ensures { order.new ≡ over tasks.now order.old }
{
    for (i, task) in tasks.iter().enumerate() {
        order[i] = u64::from(*task);
    }
}

fn order_kept(table: &[u64], common: &[u64], order: &mut [u64]) -> Result<u64, Refusal>
    ensures answer { answer_of result ≡ named length (order_door table.now common.now order.old) }
    ensures order_after { order.new ≡ left (order_over order.old) order.old (order_door table.now common.now order.old) }
{
    let (_, kept) = look_at::<Common>(table, common)?;
    if order.len() < kept.count {
        return Err(Refusal::WrongLength);
    }
    put_order(order, &kept.tasks[..kept.count]);
    Ok(kept.count as u64)
}

// 100, 101; 100, 102; 100.
pub fn cabinet_order(table: &[u64], common: &[u64], order: &mut [u64]) -> Reply
    ensures value { result ≡ replied length (order_door table.now common.now order.old) }
    ensures order_after { order.new ≡ left (order_over order.old) order.old (order_door table.now common.now order.old) }
{
    Reply::from(order_kept(table, common, order))
}

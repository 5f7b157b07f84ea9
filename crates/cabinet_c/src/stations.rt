// A station's close, and what is asked of a common record.
ghost use Rattle.std.specs.Prelude.{◌≡◌, false, length};
ghost use Rattle.cabinet.specs.Replies.{replied, left, closing};
ghost use Rattle.cabinet.specs.Stations.{close_station_door, projection_door, bound_door, order_door, order_over, words_of};

use cabinet::reply::{CloseReply, Reply};

#[unsafe(no_mangle)]
pub extern "C" fn cabinet_close_station(
    table: &[u64],
    common: &mut [u64],
    r: u64,
    releases: &[u64],
    entries: &[u64],
) -> CloseReply
    ensures value { result ≡ closing (λ k. k.reply) (λ _. false) (close_station_door table.now common.old r releases.now entries.now) }
    ensures common_after { common.new ≡ left (λ k. words_of k.common) common.old (close_station_door table.now common.old r releases.now entries.now) }
{
    cabinet::stations::cabinet_close_station(table, common, r, releases, entries)
}

#[unsafe(no_mangle)]
pub extern "C" fn cabinet_projection(table: &[u64], common: &[u64], position: u64) -> Reply
    ensures { result ≡ replied (λ v. v) (projection_door table.now common.now position) }
{
    cabinet::stations::cabinet_projection(table, common, position)
}

#[unsafe(no_mangle)]
pub extern "C" fn cabinet_bound(table: &[u64], common: &[u64], position: u64, time: u64) -> Reply
    ensures { result ≡ replied (λ v. v) (bound_door table.now common.now position time) }
{
    cabinet::stations::cabinet_bound(table, common, position, time)
}

#[unsafe(no_mangle)]
pub extern "C" fn cabinet_order(table: &[u64], common: &[u64], order: &mut [u64]) -> Reply
    ensures value { result ≡ replied length (order_door table.now common.now order.old) }
    ensures order_after { order.new ≡ left (order_over order.old) order.old (order_door table.now common.now order.old) }
{
    cabinet::stations::cabinet_order(table, common, order)
}

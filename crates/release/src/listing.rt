// 15, "tried over the whole list first, then 16".
ghost use Rattle.std.specs.Prelude.{◌≡◌, ◌≤◌};
ghost use Rattle.rules.specs.Answer.{done, refuse◌if◌else◌};
ghost use Rattle.rules.specs.Close.{ill_listed, ill_formed, first_delay};
ghost use Rattle.refusal.specs.Refusal.{answer_of};
ghost use Rattle.table.specs.Table.{table_of};
ghost use Rattle.round.specs.Round.{release_of, releases_of, round_of};
ghost use Rattle.release.specs.Listing.{listing};

use refusal::Refusal;
use round::{Release, Round};
use table::Table;

// 15: "unknown task, delay ≥ timeout, or delays that fall". One release in its list: its delay, below which the next must not fall.
#[tactic(auto, unfolding(crate::specs::Listing::listing, laws::specs::Tests::any_of))]
fn check_listed(count: usize, timeout: u64, least: u64, x: Release) -> Result<u64, Refusal>
    ensures { answer_of result ≡ listing count timeout least (release_of x) }
{
    if count as u64 <= x.task || timeout <= x.delay || x.delay < least {
        return Err(Refusal::IllFormed);
    }
    Ok(x.delay)
}

// The same of each release of a list that has a place for all.
#[tactic(auto, using(crate::proofs::Releases::walks, table::proofs::Facts::tasks_count), unfolding(rules::specs::Close::ill_listed, laws::specs::Tests::any_of, crate::specs::Listing::listing))]
fn all_listed(t: Table, q: Round) -> Result<(), Refusal>
    requires { q.listed ≤ 64 }
    ensures { answer_of result ≡ refuse 15 if ill_listed (table_of t) 0 (releases_of q) else done tt }
{
    let mut least = 0;
    for x in &q.releases[..q.listed] {
        // Document 01 names this form: each release's check answers an enum, and let .. else takes the admitted release or returns its refusal.
        let Ok(delay) = check_listed(t.count, t.timeout, least, *x) else {
            return Err(Refusal::IllFormed);
        };
        least = delay;
    }
    Ok(())
}

// 15: "first delay not 0"; an empty list has none.
#[tactic(auto, unfolding(laws::specs::Lists::rows))]
fn first_delay(q: Round) -> u64
    ensures { result ≡ first_delay (releases_of q) }
{
    if q.listed == 0 {
        return 0;
    }
    q.releases[0].delay
}

// 15: "over 64 releases, entry count not m, unknown task, first delay not 0, delay ≥ timeout, or delays that fall"
#[tactic(auto, using(crate::proofs::Releases::releases_count, crate::proofs::Releases::entries_count), unfolding(rules::specs::Close::ill_formed, laws::specs::Tests::any_of))]
pub fn well_formed(t: Table, q: Round) -> Result<(), Refusal>
    ensures { answer_of result ≡ refuse 15 if ill_formed (table_of t) (round_of q) else done tt }
{
    if 64 < q.listed || q.entered as u64 != t.nodes || first_delay(q) != 0 {
        return Err(Refusal::IllFormed);
    }
    all_listed(t, q)
}

// 16: "release time < E(task), earlier releases of the list already counted"; and E as the whole list leaves it.
ghost use Rattle.std.specs.Prelude.{◌≡◌};
ghost use Rattle.refusal.specs.Refusal.{answer_of};
ghost use Rattle.round.specs.Round.{releases_of};
ghost use Rattle.table.specs.Table.{table_of};
ghost use Rattle.release.specs.Listing.{Listable};
ghost use Rattle.release.specs.Spacing.{admission, spacing};

use refusal::Refusal;
use round::Round;
use table::Table;

// One release against its task's E: its time.
#[tactic(auto, unfolding(crate::specs::Spacing::admission))]
fn check_spaced(earliest: u64, time: u64) -> Result<u64, Refusal>
    ensures { answer_of result ≡ admission earliest time }
{
    if time < earliest {
        return Err(Refusal::TooEarly);
    }
    Ok(time)
}

// "E(task) becomes release time + T": E after the list. Where the list does not stand, the caller keeps its own.
#[tactic(auto, using(crate::proofs::Releases::walks, crate::proofs::Releases::sound), unfolding(rules::specs::Close::too_early, crate::specs::Spacing::admission, crate::specs::Spacing::spacing))]
pub fn all_spaced(t: Table, earliest: [u64; 64], q: Round) -> Result<[u64; 64], Refusal>
    requires { Listable t q }
    ensures { answer_of result ≡ spacing (table_of t) q.time earliest (releases_of q) }
{
    let mut next = earliest;
    for x in &q.releases[..q.listed] {
        let task = x.task as usize;
        // Document 01 names this form: each release's check answers an enum, and let .. else takes the admitted release or returns its refusal.
        let Ok(at) = check_spaced(next[task], q.time + x.delay) else {
            return Err(Refusal::TooEarly);
        };
        next[task] = at + t.distance[task];
    }
    Ok(next)
}

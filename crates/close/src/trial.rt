// What is tried before anything is judged: "then 3, 14, 15, 16".
ghost use Rattle.std.specs.Prelude.{◌≡◌};
ghost use Rattle.rules.specs.Close.{too_soon};
ghost use Rattle.refusal.specs.Refusal.{answer_of};
ghost use Rattle.table.specs.Table.{table_of, Checked};
ghost use Rattle.common.specs.Common.{common_of, Given};
ghost use Rattle.round.specs.Round.{round_of};
ghost use Rattle.close.specs.Trial.{trial};

use common::Common;
use refusal::Refusal;
use release::listing::well_formed;
use release::spacing::all_spaced;
use round::Round;
use table::Table;

// 2^48. 3: "time above 2^48 − 1"
const TOO_LATE: u64 = 281474976710656;

// 14: "r < last round + timeout (not for the first)"
#[tactic(auto, using(table::proofs::Facts::ranges, common::proofs::Records::numbers))]
fn early_round(t: Table, c: Common, time: u64) -> bool
    requires { Checked t × Given t c }
    ensures { result ≡ too_soon (table_of t) (common_of c) time }
{
    match c.last {
        None => false,
        Some(last) => time < last + t.timeout,
    }
}

// A record that passes gives the E that its list leaves.
#[tactic(auto, unfolding(crate::specs::Trial::trial))]
pub fn tried(t: Table, c: Common, q: Round) -> Result<[u64; 64], Refusal>
    requires { Checked t × Given t c }
    ensures { answer_of result ≡ trial (table_of t) (common_of c) (round_of q) }
{
    if TOO_LATE <= q.time {
        return Err(Refusal::TimeTooLarge);
    }
    if early_round(t, c, q.time) {
        return Err(Refusal::TooSoon);
    }
    well_formed(t, q)?;
    let earliest = c.earliest;
    all_spaced(t, earliest, q)
}

// "Then each release goes in, in list order." Here on the array of the tasks of the jobs kept, which is all that the order is, with its count beside it, as a
// common record holds both.
ghost use Rattle.std.specs.Prelude.{◌≡◌, [], ◌≤◌, ◌<◌, take, drop};
ghost use Rattle.laws.specs.Lists.{pad, push_in};
ghost use Rattle.round.specs.Round.{releases_of};
ghost use Rattle.release.specs.Insertion.{place_in, put_all, Packed, Room};

use round::Round;

// "Jobs at positions up to B are dropped": the first k of `count`.
pub fn dropped(tasks: &[u8; 256], count: usize, k: usize) -> [u8; 256]
    requires { Packed tasks.now count × (k ≤ count) }
    ensures { result ≡ pad 256 0 (drop k (take count tasks.now)) }
{
    let mut next = [0; 256];
    next[..count - k].copy_from_slice(&tasks[k..count]);
    next
}

// "past O, behind the last job there of the same or higher priority, ahead of the rest. With none such it stands at O + 1."
fn place(tasks: &[u8; 256], count: usize, past: usize, task: u64) -> usize
    requires { Packed tasks.now count × (past ≤ count) }
    ensures { result ≡ place_in task past (take count tasks.now) }
{
    let last = tasks[past..count]
        .iter()
        .rposition(|x| u64::from(*x) <= task);
    match last {
        Some(i) => past + i + 1,
        None => past,
    }
}

// A job put in at a place, with those from there on moved up by one.
fn push(tasks: &mut [u8; 256], count: usize, at: usize, task: u8)
    requires { Packed tasks.old count × (at ≤ count) × (count < 256) }
    ensures { tasks.new ≡ push_in tasks.old count at task }
{
    tasks.copy_within(at..count, at + 1);
    tasks[at] = task;
}

// The whole list goes in, past the first `past` of `count`.
pub fn all_put(tasks: [u8; 256], count: usize, past: usize, q: Round) -> [u8; 256]
    requires { Packed tasks count × Room count past q }
    ensures { result ≡ pad 256 0 (put_all past (take count tasks) (releases_of q)) }
{
    let mut next = tasks;
    for (i, x) in q.releases[..q.listed].iter().enumerate() {
        let held = count + i;
        let at = place(&next, held, past, x.task);
        push(&mut next, held, at, x.task as u8);
    }
    next
}

// The passes over the entries of a round, each with its class.
#![tactic(auto)]

ghost use Rattle.std.specs.Prelude.{◌≡◌, ◌+◌, ◌/◌, ◌≤◌, ◌==◌, min, max, take, fold, filter, length, Bool};
ghost use mathlib.Core.List.{[], foldr, map};
ghost use Rattle.laws.specs.Tests.{◌≤?◌};
ghost use Rattle.laws.specs.Search.{number_of};
ghost use Rattle.laws.specs.Lists.{pad};
ghost use Rattle.laws.proofs.Folds.{bits};
ghost use Rattle.passes.specs.Classed.{no_class, class_in, in_front, front_step, is_rear, is_back, back_of};

// An entry with its class, by document 01's number: what the passes over the entries of a round read of it.
#[derive(Clone, Copy, Debug, PartialEq, Eq)]
pub struct Classed {
    pub class: u8,
    pub progress: u64,
    pub front: u64,
    pub start: u64,
}

// Fifteen places with none in them: a function of its own, so that no other proof meets the places written out.
#[tactic(auto, unfolding(laws::specs::Lists::pad))]
pub fn none_classed() -> [Classed; 15]
    ensures { result ≡ pad 15 no_class [] }
{
    let none = Classed {
        class: 0,
        progress: 0,
        front: 0,
        start: 0,
    };
    [none; 15]
}

// "classes 0 and 5"
pub fn counts(class: u8) -> bool
    ensures { result ≡ in_front class }
{
    class == 0 || class == 5
}

// "New O: the largest of old O and progress + run over classes 0 and 5."
pub fn new_offset(all: [Classed; 15], n: usize, offset: u64) -> u64
    requires { n ≤ 15 }
    ensures { result ≡ foldr front_step offset (take n all) }
{
    all[..n].iter().map(|x| x.front).fold(offset, u64::max)
}

// "Back-runner: among class 0 the least progress". The length is an upper bound of it.
fn least_progress(entries: &[Classed], length: u64) -> u64
    ensures { result ≡ fold min length (map (λ x. x.progress) (filter (λ x. x.class == 0) entries.now)) }
{
    entries
        .iter()
        .filter(|x| x.class == 0)
        .map(|x| x.progress)
        .fold(length, u64::min)
}

// Class 0 with the least progress.
fn at_rear(x: &Classed, least: u64) -> bool
    ensures { result ≡ is_rear least x.now }
{
    x.class == 0 && x.progress == least
}

// "Among equal progress the largest start counts."
fn largest_start(entries: &[Classed], least: u64) -> u64
    ensures { result ≡ fold max 0 (map (λ x. x.start) (filter (is_rear least) entries.now)) }
{
    entries
        .iter()
        .filter(|x| at_rear(x, least))
        .map(|x| x.start)
        .fold(0, u64::max)
}

// "The nodes that reach it form a set": node i is bit i. Document 01 names the form, the nodes as bits of a u16.
fn nodes_where<F: Fn(&Classed) -> bool>(entries: &[Classed], member: F) -> u16
    requires callable { F.IsAlwaysCallable member }
    requires few { length entries.now ≤ 15 }
    ensures { (test : Classed → Bool) → ((x : _) (r : _) → F.post member x r → r ≡ test x.now) → result ≡ bits test entries.now }
{
    let mut set = 0;
    for (i, x) in entries.iter().enumerate() {
        if member(x) {
            set |= 1 << i;
        }
    }
    set
}

// "one class number for each of fifteen places (places beyond m hold 0)": document 01 names this form, an array of fifteen returned by value.
#[tactic(auto, unfolding(laws::specs::Lists::pad))]
pub fn classes_of(all: [Classed; 15], n: usize) -> [u8; 15]
    requires { n ≤ 15 }
    ensures { result ≡ pad 15 0 (map class_in (take n all)) }
{
    let mut classes = [0; 15];
    for (i, x) in all[..n].iter().enumerate() {
        classes[i] = x.class;
    }
    classes
}

// The back-runner, and B and W after the round.
#[derive(Clone, Copy, Debug, PartialEq, Eq)]
pub struct Back {
    pub node: u64,
    pub base: u64,
    pub start: u64,
}

// "the back-runner is the lowest-numbered node of that set": its trailing zeros; 15 if there is none.
pub fn back_runner(all: [Classed; 15], n: usize, base: u64, start: u64, length: u64) -> Back
    requires { n ≤ 15 }
    ensures { result ≡ back_of base start length (take n all) }
{
    let entries = &all[..n];
    let least = least_progress(entries, length);
    let latest = largest_start(entries, least);
    let set = nodes_where(entries, |x| at_rear(x, least) && x.start == latest);
    if set == 0 {
        return Back {
            node: 15,
            base,
            start,
        };
    }
    Back {
        node: u64::from(set.trailing_zeros()),
        base: least,
        start: start.max(latest),
    }
}

// "whether the number of nodes in class 0 or 5 is at least half of m, rounded down, plus 1": the ones of their set.
pub fn has_majority(all: [Classed; 15], n: usize, nodes: u64) -> bool
    requires { n ≤ 15 }
    ensures { result ≡ (nodes / 2 + 1 ≤? number_of (λ x. in_front (class_in x)) (take n all)) }
{
    let set = nodes_where(&all[..n], |x| counts(x.class));
    let counted = u64::from(set.count_ones());
    nodes / 2 + 1 <= counted
}

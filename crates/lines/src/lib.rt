// The lines that the session program prints, each built in a lent buffer. The longest is an order line of 256 jobs: 5 + 256 · (1 + 20 + 1 + 3) + 1 = 6406 bytes.
#![tactic(auto)]

ghost use Rattle.std.specs.Prelude.{◌≡◌, map, ◌+◌, ◌*◌, ◌^◌, ◌<◌, ◌≤◌, length, take};
ghost use Rattle.rules.specs.Session.{printed, order, refusal, jobs_from};
ghost use Rattle.lines.specs.Text.{Put, PutWithin, Front};
ghost use Rattle.lines.specs.Lines.{Digits, job_text, jobs_of, numbers_text, round_text};

use text::{put_field, put_text};

pub mod text; // text.rt: bytes as they are, and numbers in decimal

// "A refusal prints `refused N`".
pub fn refused_line(buf: &mut [u8; 8192], number: u64) -> usize
    ensures { Front buf.old (printed (refusal number)) buf.new result }
{
    let end = put_field(buf, 0, b"refused ", number);
    put_text(buf, end, b"\n")
}

// One "position:task", behind a blank. A task has at most three digits, so that 25 bytes are enough.
fn put_job(buf: &mut [u8], from: usize, position: u64, task: u8) -> usize
    requires { from + 42 ≤ length buf.old }
    ensures { PutWithin 25 buf.old from (job_text position task) buf.new result }
{
    let at = put_field(buf, from, b" ", position);
    put_field(buf, at, b":", u64::from(task))
}

// "position:task of each job kept, blank between": the job at the first place stands at the position past the base.
#[tactic(auto, unfolding(rules::specs::Session::jobs_from))]
fn put_jobs(buf: &mut [u8], from: usize, base: u64, tasks: &[u8]) -> usize
    requires { (base + length tasks.now < 2 ^ 64) × (from + 25 * length tasks.now + 17 ≤ length buf.old) }
    ensures { PutWithin (25 * length tasks.now) buf.old from (jobs_from (base + 1) (jobs_of tasks.now)) buf.new result }
{
    let mut at = from;
    for (k, task) in tasks.iter().enumerate() {
        at = put_job(buf, at, base + 1 + k as u64, *task);
    }
    at
}

// The order line: the word, and the jobs behind it, "or `order` alone".
pub fn order_line(buf: &mut [u8; 8192], base: u64, tasks: &[u8; 256], count: usize) -> usize
    requires { (count ≤ 256) × (base + count < 2 ^ 64) }
    ensures { Front buf.old (printed (order (base + 1) (jobs_of (take count tasks.now)))) buf.new result }
{
    let at = put_text(buf, 0, b"order");
    let end = put_jobs(buf, at, base, &tasks[..count]);
    put_text(buf, end, b"\n")
}

// "the m classes", a digit each.
fn put_classes(buf: &mut [u8], from: usize, classes: &[u8]) -> usize
    requires { (from + length classes.now ≤ length buf.old) × Digits classes.now }
    ensures { Put buf.old from (map (λ d. 48 + d) classes.now) buf.new result }
{
    for (k, class) in classes.iter().enumerate() {
        buf[from + k] = b'0' + class;
    }
    from + classes.len()
}

// "Fields: r, O, B, L, W after the round"; "L is the last position".
fn put_numbers(buf: &mut [u8], r: u64, offset: u64, base: u64, last: u64, start: u64) -> usize
    requires { 130 ≤ length buf.old }
    ensures { PutWithin 130 buf.old 0 (numbers_text r offset base last start) buf.new result }
{
    let mut at = put_field(buf, 0, b"round ", r);
    at = put_field(buf, at, b" ipo ", offset);
    at = put_field(buf, at, b" base ", base);
    at = put_field(buf, at, b" length ", last);
    put_field(buf, at, b" toc ", start)
}

// The round line: these, and "the m classes" behind them.
pub fn round_line(
    buf: &mut [u8; 8192],
    r: u64,
    offset: u64,
    base: u64,
    last: u64,
    start: u64,
    classes: &[u8; 15],
    m: usize,
) -> usize
    requires { (m ≤ 15) × Digits classes.now }
    ensures { Front buf.old (round_text r offset base last start (take m classes.now)) buf.new result }
{
    let mut at = put_numbers(buf, r, offset, base, last, start);
    at = put_text(buf, at, b" nodes ");
    at = put_classes(buf, at, &classes[..m]);
    put_text(buf, at, b"\n")
}

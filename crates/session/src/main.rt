// The session program of document 01, "A worked canal": the table and the records from standard input, a line for each round to standard output.
//
// It keeps a window of the input, and reads more of it only when the record at hand needs more bytes: at refusal 18, the one answer that further bytes can
// change. The lines of the rounds closed so far are written before it waits. So its memory is fixed, and a line appears as soon as its record has come.
//
// The program ends with status 0 whatever happens. A session that was carried to its end is told by its last line: `order ..`, or a sole
// `refused N`. An input that cannot be read, or an output that cannot be written, is told on standard error, and no order line follows it.
#![tactic(auto)]

ghost use Rattle.std.specs.Prelude.{◌-◌, ◌≤◌, IfSome};
ghost use Rattle.table.specs.Table.{Checked};
ghost use Rattle.common.specs.Common.{Given};
ghost use Rattle.turn.specs.Gather.{Countable, Printable};
ghost use Rattle.session.specs.Session.{Few};

use common::Common;
use intake::read_table;
use refusal::Refusal;
use std::io::{Input, Read};
use table::Table;
use turn::gather::{gather_order, gather_refused, gather_round};
use turn::window::shift;
use turn::{Turn, next_turn};

// The bytes `from` to `to` of the input's window are read and not yet used; `ended` says that no more will come.
#[derive(Clone, Copy)]
struct Window {
    from: usize,
    to: usize,
    ended: bool,
    ghost held: { (from ≤ to) × (to ≤ 65536) },
}

// Where a session stands between two turns.
#[derive(Clone, Copy)]
struct State {
    common: Common,
    window: Window,
}

// The lines that are gathered, of which `kept` bytes are not yet written, and the room in which each line is built.
#[derive(Drop)]
struct Lines {
    output: [u8; 65536],
    line: [u8; 8192],
    kept: usize,
    ghost room: { kept ≤ 49152 },
}

impl Lines {
    fn new() -> Self {
        Lines {
            output: [0; 65536],
            line: [0; 8192],
            kept: 0,
        }
    }

    // The gathered lines, written. None where they cannot be: it is told on standard error, and the session ends.
    fn flush<R: Print + Eprint>(&mut self, rt: &R, end: usize) -> Option<()>
        requires { end ≤ 65536 }
    {
        self.kept = 0;
        match rt.write_all(&self.output[..end]) {
            Ok(()) => Some(()),
            Err(error) => {
                let _ = eprintln!(rt; "session: output: {error}");
                None
            }
        }
    }

    // "followed by the order line"
    fn say_order<R: Print + Eprint>(&mut self, rt: &R, at: usize, c: Common)
        requires { (at ≤ 57344) × Countable c }
    {
        let end = gather_order(&mut self.output, &mut self.line, at, c);
        let _ = self.flush(rt, end);
    }

    // The line of a round. The buffer is written when it is nearly full.
    fn say_round<R: Print + Eprint>(&mut self, rt: &R, x: Turn, nodes: u64) -> Option<()>
        requires { Printable nodes x }
    {
        let end = gather_round(&mut self.output, &mut self.line, self.kept, x, nodes);
        if end <= 49152 {
            self.kept = end;
            return Some(());
        }
        self.flush(rt, end)
    }
}

// One read behind the bytes not yet used. These are so few that the read asks for some: an answer of 0 is the end of the input. None where the input
// cannot be read: it is told on standard error, and the session ends.
fn read_more<R: Input + Eprint>(
    rt: &R,
    input: &mut [u8; 65536],
    from: usize,
    to: usize,
) -> Option<Window>
    requires { (from ≤ to) × (to ≤ 65536) × (to - from ≤ 4096) }
{
    shift(input, from, to);
    let rest = to - from;
    match rt.reader().read(&mut input[rest..]) {
        Ok(n) => Some(Window {
            from: 0,
            to: rest + n,
            ended: n == 0,
        }),
        Err(error) => {
            let _ = eprintln!(rt; "session: input: {error}");
            None
        }
    }
}

// "A refusal prints `refused N` in place of the round line and stops, followed by the order line." "Input that ends between two records ends the session,
// with the order line." Bytes that end before the input does are no refusal yet: the lines so far are written, and more is read. None at the session's end.
fn refused<R: Input + Print + Eprint>(
    rt: &R,
    input: &mut [u8; 65536],
    lines: &mut Lines,
    s: State,
    error: Refusal,
) -> Option<Window>
    requires { Few error (s.window.to - s.window.from) × Countable s.common }
{
    let w = s.window;
    if error == Refusal::BytesEnd && !w.ended {
        lines.flush(rt, lines.kept)?;
        return read_more(rt, input, w.from, w.to);
    }
    let at = if error == Refusal::BytesEnd && w.from == w.to {
        lines.kept
    } else {
        gather_refused(
            &mut lines.output,
            &mut lines.line,
            lines.kept,
            error.number(),
        )
    };
    lines.say_order(rt, at, s.common);
    None
}

// One turn: the next record, or more input. None at the session's end.
fn advance<R: Input + Print + Eprint>(
    rt: &R,
    input: &mut [u8; 65536],
    lines: &mut Lines,
    t: Table,
    s: State,
) -> Option<State>
    requires { Checked t × Given t s.common }
    ensures { IfSome result (λ next. Given t next.common) }
{
    let w = s.window;
    match next_turn(t, s.common, &input[..w.to], w.from) {
        Err(error) => {
            let window = refused(rt, input, lines, s, error)?;
            Some(State { window, ..s })
        }
        Ok(next) => {
            lines.say_round(rt, next, t.nodes)?;
            let window = Window {
                from: w.from + next.used,
                to: w.to,
                ended: w.ended,
            };
            Some(State {
                common: next.common,
                window,
            })
        }
    }
}

// "then records back to back". Nothing says that an input ends, so the turns are counted, up to a number that no run reaches.
fn rounds<R: Input + Print + Eprint>(
    rt: &R,
    input: &mut [u8; 65536],
    lines: &mut Lines,
    t: Table,
    w: Window,
)
    requires { Checked t }
{
    let mut s = State {
        common: Common::fresh(),
        window: w,
    };
    for _ in 0..u64::MAX {
        match advance(rt, input, lines, t, s) {
            Some(next) => s = next,
            None => break,
        }
    }
}

// The table, once its bytes have come, and the rounds. "A refused table, or a byte fault in it, prints only `refused N`". None at the session's end.
fn begin<R: Input + Print + Eprint>(
    rt: &R,
    input: &mut [u8; 65536],
    lines: &mut Lines,
    w: Window,
) -> Option<Window> {
    match read_table(&input[..w.to]) {
        Ok((table, used)) => {
            let behind = Window {
                from: used,
                to: w.to,
                ended: w.ended,
            };
            rounds(rt, input, lines, table, behind);
            None
        }
        Err(Refusal::BytesEnd) if !w.ended => read_more(rt, input, 0, w.to),
        Err(error) => {
            let end = gather_refused(&mut lines.output, &mut lines.line, 0, error.number());
            let _ = lines.flush(rt, end);
            None
        }
    }
}

fn run<R: Input + Print + Eprint>(rt: &R, input: &mut [u8; 65536], lines: &mut Lines) {
    let mut w = Window {
        from: 0,
        to: 0,
        ended: false,
    };
    for _ in 0..u64::MAX {
        match begin(rt, input, lines, w) {
            Some(more) => w = more,
            None => break,
        }
    }
}

fn main(rt: HostRuntime) {
    let mut input = [0; 65536];
    let mut lines = Lines::new();
    run(&rt, &mut input, &mut lines);
}

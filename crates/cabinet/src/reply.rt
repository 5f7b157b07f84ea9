// What the doors answer, in the C interface's numbers: `refusal` is 0 where the call was accepted, else its number, and then the rest is empty.
ghost use Rattle.std.specs.Prelude.{◌≡◌, Result};
ghost use Rattle.refusal.specs.declared.Refusal.{Refusal};
ghost use Rattle.refusal.specs.Refusal.{answer_of, number_of};
ghost use Rattle.node.specs.Refusals.{start_answer};
ghost use Rattle.cabinet.specs.Replies.{replied, no_close};

use node::StartRefusal;
use refusal::Refusal;

// `value` is what the call was asked for: a task, a count, a time; beside refusals 2 and 9 it is the task that these name, but not where a table is read.
#[repr(C)]
#[derive(Clone, Copy, Debug, PartialEq, Eq)]
pub struct Reply {
    pub refusal: u64,
    pub value: u64,
}

impl Reply {
    pub(crate) fn accepted(value: u64) -> Self
        ensures { result ≡ record { refusal = 0; value = value } }
    {
        Reply { refusal: 0, value }
    }

    pub(crate) fn refused(error: Refusal) -> Self
        ensures { result ≡ record { refusal = number_of error; value = 0 } }
    {
        Reply {
            refusal: error.number(),
            value: 0,
        }
    }
}

impl From<Result<u64, Refusal>> for Reply {
    ghost from_gives = { λ answer reply. reply ≡ replied (λ v. v) (answer_of answer) };

    fn from(answer: Result<u64, Refusal>) -> Reply {
        match answer {
            Ok(value) => Reply::accepted(value),
            Err(error) => Reply::refused(error),
        }
    }
}

impl From<Result<u64, StartRefusal>> for Reply {
    ghost from_gives = { λ answer reply. reply ≡ replied (λ v. v) (start_answer answer) };

    fn from(answer: Result<u64, StartRefusal>) -> Reply {
        match answer {
            Ok(value) => Reply::accepted(value),
            Err(StartRefusal::Refused(error)) => Reply::refused(error),
            Err(StartRefusal::Waits(task)) => Reply {
                refusal: 9,
                value: task,
            },
        }
    }
}

#[repr(C)]
#[derive(Clone, Copy, Debug, PartialEq, Eq)]
pub struct NumberReply {
    pub refusal: u64,
    pub value: u64,
    pub used: u64,
}

#[repr(C)]
#[derive(Clone, Copy, Debug, PartialEq, Eq)]
pub struct ReportReply {
    pub refusal: u64,
    pub progress: u64,
    pub completed: u64,
    pub run: u64,
}

#[repr(C)]
#[derive(Clone, Copy, Debug, PartialEq, Eq)]
pub struct CloseReply {
    pub refusal: u64,
    pub back: u64,
    pub majority: u64,
    pub left: u64,
    pub classes: [u8; 15],
}

// Beside a refusal: no class, no back-runner, no majority, and nothing said of the node.
impl From<Refusal> for CloseReply {
    ghost from_gives = { λ error reply. reply ≡ no_close (number_of error) };

    #[tactic(auto, unfolding(laws::specs::Lists::pad))]
    fn from(error: Refusal) -> CloseReply {
        CloseReply {
            refusal: error.number(),
            back: 15,
            majority: 0,
            left: 0,
            classes: [0; 15],
        }
    }
}

#[repr(C)]
#[derive(Clone, Copy, Debug, PartialEq, Eq)]
pub struct RecordReply {
    pub refusal: u64,
    pub time: u64,
    pub releases: u64,
    pub entries: u64,
    pub used: u64,
}

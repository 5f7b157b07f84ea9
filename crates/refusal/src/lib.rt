// The refusals, as the one error of every call: document 01's by their numbers, and behind them those of the doors.
#![tactic(auto)]

ghost use Rattle.std.specs.Prelude.{◌≡◌};
ghost use Rattle.refusal.specs.Refusal.{number_of};

// "A refusal gives its number and changes nothing." 9 is not among them: it stands in the answer of a start, with the task that it names.
#[derive(Clone, Copy, Debug, PartialEq, Eq)]
pub enum Refusal {
    // "node or task count out of range, timeout 0, node number ≥ m"
    OutOfRange = 1,
    // "a table rule broken"; a table's own check says of which task
    RuleBroken = 2,
    // "time above 2^48 − 1"
    TimeTooLarge = 3,
    // "time before the node's latest"
    TimeGoesBack = 4,
    // "left behind"
    LeftBehind = 5,
    // "start while a job runs"
    AlreadyRunning = 6,
    // "progress = L"
    NoJobLeft = 7,
    // "start while a round is open, beyond both O and the lock"
    BeyondLock = 8,
    // "finish with nothing running"
    NothingRunning = 10,
    // "report while a round is open"
    RoundOpen = 11,
    // "close with no round open, or another r"
    OtherRound = 12,
    // "own entry absent or not as sent"
    NotAsSent = 13,
    // "r < last round + timeout"
    TooSoon = 14,
    // "over 64 releases, entry count not m, unknown task, first delay not 0, delay ≥ timeout, or delays that fall"
    IllFormed = 15,
    // "release time < E(task)"
    TooEarly = 16,
    // "L + releases − new B > 256"
    NoPlace = 17,
    // "bytes end early"
    BytesEnd = 18,
    // "a ninth group with its top bit set, or the last of several groups is 0"
    BadNumber = 19,
    // "presence mark above 1"
    BadMark = 20,
    // "written record longer than the buffer"
    NoRoom = 21,
    // "value of 2^63 or more to write"
    TooLarge = 22,
    // A lent array has another length than the call states.
    WrongLength = 100,
    WrongTable = 101,
    WrongState = 102,
    WrongMark = 103,
    NoPosition = 104,
}

impl Refusal {
    // The number that document 01, or the header, gives it.
    pub fn number(self) -> u64
        ensures { result ≡ number_of self }
    {
        self as u64
    }
}

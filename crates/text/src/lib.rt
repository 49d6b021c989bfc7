// Call lists as text: a line read as a call, the text of an answer, and that of a bound on ages. What is written stands
// at the front of lent memory.
#![tactic(auto)]

pub mod answer;
pub mod bounds;
pub mod hex;
pub mod lines;
mod number;
pub mod parse;
mod put;
mod word;

// The calls that CLOCK and ENTRY alone follow.
#[derive(Clone, Copy, Debug, PartialEq, Eq)]
pub enum Act {
    Start,
    Stop,
    Restart,
    Show,
    // The station's user sets 'not ready', and clears it.
    NotReady,
    Ready,
    // The station's user clears the result, and the error record.
    NoResult,
    NoRecord,
    // The master's user queues S-ReadErrorInfo.
    ReadError,
}

// What the bytes are that follow CLOCK and ENTRY.
#[derive(Clone, Copy, Debug, PartialEq, Eq)]
pub enum Kind {
    // The value that is sent.
    Value,
    // The result, and the error record, that the station's user sets.
    Result,
    Record,
    // The error record of the S-WriteErrorInfo that the master's user queues.
    WriteError,
}

// What a line sets for the calls after it.
#[derive(Clone, Copy, Debug, PartialEq, Eq)]
pub enum Parameter {
    // The length of the output that they are lent.
    Room,
    // How many records they are lent.
    Records,
    // The session number that loads and restarts are handed.
    Session,
}

// CLOCK and ENTRY, with which the calls on one connection begin.
#[derive(Clone, Copy, Debug, PartialEq, Eq)]
pub struct Head {
    pub clock: u64,
    pub entry: u32,
}

// What a line of a call list is. The bytes of a call stand as digits from `start` to the end of the line: a place and no
// slice, since `line_of` gives that place and `bytes_from` takes it.
#[derive(Clone, Copy, Debug, PartialEq, Eq)]
pub enum Line {
    // Settings words.
    Load,
    Timed {
        act: Act,
        head: Head,
    },
    Data {
        kind: Kind,
        head: Head,
        start: usize,
    },
    // The master's user queues S-InvokeFunc: the command word, and what follows it.
    Invoke {
        head: Head,
        word: u32,
        start: usize,
    },
    Deliver {
        clock: u64,
        start: usize,
    },
    // The frame check alone.
    Check {
        start: usize,
    },
    // No call.
    Set {
        parameter: Parameter,
        n: usize,
    },
    // A comment, or nothing at all.
    Nothing,
}

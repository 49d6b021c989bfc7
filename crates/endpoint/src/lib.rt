// One connection's end, as master or as slave: what it keeps, the table of its states, its timers, timestamps and ages,
// and the answers that calls on it get. The calls themselves are in the crate steps.
#![tactic(auto)]

pub mod answers;
pub mod due;
mod t_code;
pub mod table;
pub mod time;

// What a connection was set up with.
#[derive(Clone, Copy, Debug, PartialEq, Eq)]
pub struct Settings {
    // CID
    pub connection: u32,
    // role (a flag and no enum: AgeTheorem's `Paired` asks `ss.slave ≡ true`)
    pub slave: bool,
    // M and S: the words that the master sends, and the slave. A count outside 1 to 25 is taken for 1.
    pub masterwords: u8,
    pub slavewords: u8,
    // I, R and A, in ticks
    pub interval: u32,
    pub roundtrip: u32,
    pub age: u32,
    // station word
    pub station: u32,
}

// The states of 001's table 40, for both roles. A master mirrors the slave: the matching reply moves it. Starting is
// a master's before its first reply, FuncRunning and TerminateMore a slave's alone. TerminateMore: Terminate, where more
// error records follow.
#[derive(Clone, Copy, Debug, PartialEq, Eq)]
pub enum State {
    Close,
    Starting,
    EstablishPending,
    Establish,
    ParamVerify,
    FuncRunning,
    RefreshPending,
    Refresh,
    Terminate,
    TerminateMore,
}

// What is remembered of timestamps; it survives restart. Sent: a master's last, a slave's last in S-Refresh.
// Accepted: a slave's last in any frame, a master's last in S-Refresh.
#[derive(Clone, Copy, Debug, Default, PartialEq, Eq)]
pub struct Timestamps {
    pub sent: Option<u64>,
    pub accepted: Option<u64>,
}

// A master's queue for a command that its user wants sent before S-RefreshReady: empty, or which one waits. Closed:
// S-RefreshReady has gone since the last start. (No Option of a command: Empty and Closed are two, which `is_empty` tells
// apart.)
#[derive(Clone, Copy, Debug, Default, PartialEq, Eq)]
pub enum Queue {
    #[default]
    Empty,
    InvokeFunc,
    ReadErrorInfo,
    WriteErrorInfo,
    Closed,
}

// Setup, and in Refresh what a measurement of the clocks has of it: pending, measured and offset. Measured: s2 at a
// slave, m2 at a master. Offset: a slave's ts_offset. Pending: the timestamp of a master's request that waits for its
// reply; its command is the one due in the state, in Refresh S-RefreshMO, or S-RefreshGO once that was answered. Requests:
// how many setup requests a master has written since its last start or loading, S-Disconnect aside. Invoked: S-InvokeFunc
// has gone since then.
#[derive(Clone, Copy, Debug, Default, PartialEq, Eq)]
pub struct Setup {
    pub pending: Option<u64>,
    pub measured: u64,
    pub offset: u64,
    pub requests: u8,
    pub queue: Queue,
    pub invoked: bool,
}

// Measurements of the clocks in Refresh (document 02): S-RefreshMO, its reply, S-RefreshGO, its reply.
#[derive(Clone, Copy, Debug, Default, PartialEq, Eq)]
pub struct Measurement {
    // S-RefreshMO was answered, and the measurement is not closed: at a slave by S-RefreshGO, at a master by its reply
    pub answered: bool,
    // Offset op seq of the last one
    pub sequence: bool,
    // at a slave the s2 that its ts_offset was reckoned with; at a master where the last one began, or Refresh
    pub reference: u64,
}

// What the station's user has set, unset after loading; it survives restart and Terminate. A master's is of no account.
#[derive(Clone, Copy, Debug, Default, PartialEq, Eq)]
pub struct Station {
    // document 02's 'not ready': the station cannot confirm its parameters yet
    pub notready: bool,
}

// What the calls on a connection hand on by value: all that it keeps, but for the bytes of its value, of its words and of
// its error record.
#[derive(Clone, Copy, Debug, PartialEq, Eq)]
pub struct Core {
    pub settings: Settings,
    pub state: State,
    // the session number: at a slave its user's, at a master that of the S-Connect reply, none before it
    pub session: Option<u16>,
    // where the timer starts
    pub since: u64,
    pub timestamps: Timestamps,
    pub setup: Setup,
    pub measurement: Measurement,
    pub station: Station,
    // how many words of S-Data its user has handed over: a master's queued S-InvokeFunc, a station's result, 0 for none,
    // as `words_of` and the records that C lends count them
    pub words: u8,
    // how many words the error record has that its user has handed over: a master's queued S-WriteErrorInfo, a station's
    // own record, 0 for none
    pub errorinfo: u8,
    // whether a value was accepted in this Refresh, and its age then, in ticks; 0 where none was. Two fields and no
    // Option: a record that C lends can have an age where none was taken, and `RecordTheorem` says that it is kept
    pub taken: bool,
    pub valueage: u64,
}

// Why a call is refused: document 01's numbers, from 19 on document 02's. The names are the trade words, but where one
// stands beside.
#[derive(Clone, Copy, Debug, PartialEq, Eq)]
pub enum Reason {
    Clock = 1,
    Buffer = 2,
    Entry = 3,
    Length = 4,
    Copies = 5,
    CheckWord = 6,
    Form = 7,
    // stranger
    Unknown = 8,
    Expired = 9,
    Echo = 10,
    Turn = 11,
    Width = 12,
    Repeat = 13,
    Ahead = 14,
    Late = 15,
    Unequal = 16,
    TooSoon = 17,
    Settings = 18,
    Exhausted = 19,
    Record = 20,
    Session = 21,
}

// What a refusal leaves of the connection: all as it was, or the connection ended.
#[derive(Clone, Copy, Debug, PartialEq, Eq)]
pub enum Refusal {
    Dropped(Reason),
    Ended(Reason),
}

// Done, or refused.
pub type Answer = Result<(), Refusal>;

// What applies of the refusals 11 to 17 and 19 to 21, in the order in which they are given.
#[derive(Clone, Copy, Debug, Default, PartialEq, Eq)]
pub struct Faults {
    pub turn: bool,
    pub session: bool,
    pub norecord: bool,
    pub width: bool,
    pub exhausted: bool,
    pub repeat: bool,
    pub ahead: bool,
    pub late: bool,
    pub unequal: bool,
    pub soon: bool,
}

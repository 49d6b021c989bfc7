// A connection's record in memory that a caller lends: numbers and bytes alone, so that C can lend it, and whatever
// bytes it holds it is some connection's.
#![tactic(auto)]

ghost use Rattle.std.specs.Prelude.{◌≡◌, cond, eqb};
ghost use Rattle.endpoint.specs.Endpoint.{bare, core_of};
ghost use Rattle.endpoint.specs.Time.{is_outdated, is_expired};
ghost use Rattle.records.specs.Records.{state_from, queue_from, bare_of, stored_of};
ghost use Rattle.records.specs.Records.{ended_stored, ticked_stored};

use endpoint::time::OFFSET_LIFE;
use endpoint::{Core, Measurement, Queue, Settings, Setup, State, Station, Timestamps};

// All that a connection keeps, but for the bytes of its value, of its words and of its error record. A flag is 0, or
// set; a timestamp and the session number count where their flags are set. What a call looks at in every record of the
// table stands first: the timer, the measurement of the clocks and the CID. The C interface has flags beside their values,
// numbers for states and queues, and counts beside the bytes of a record.
#[repr(C)]
#[derive(Clone, Copy, Debug, PartialEq, Eq)]
pub struct Stored {
    // the clock reading where the timer starts
    pub since: u64,
    // at a slave the s2 that ts_offset was reckoned with, at a master where the last measurement in Refresh began, or
    // Refresh
    pub reference: u64,
    // the settings
    pub interval: u32,
    pub roundtrip: u32,
    pub connection: u32,
    // 0 Close, 1 Starting, 2 EstablishPending, 3 Establish, 4 ParamVerify, 5 FuncRunning, 6 RefreshPending, 7 Refresh,
    // 9 TerminateMore; else Terminate
    pub state: u8,
    // of the settings too
    pub slave: u8,
    // a master's request waits for its reply; a measurement in Refresh was answered and is not closed
    pub hasasked: u8,
    pub answered: u8,
    // the timestamp of that request, and s2 or m2
    pub asked: u64,
    pub measured: u64,
    // of the settings too
    pub age: u32,
    pub station: u32,
    pub masterwords: u8,
    pub slavewords: u8,
    pub hassent: u8,
    pub hasaccepted: u8,
    // setup requests written since the last start or loading
    pub requests: u8,
    // a master's queue: 0 Empty, 1 InvokeFunc, 2 ReadErrorInfo, 3 WriteErrorInfo; else Closed
    pub queue: u8,
    // S-InvokeFunc has gone since the last start or loading
    pub invoked: u8,
    pub notready: u8,
    // the timestamps last sent and last accepted
    pub sent: u64,
    pub accepted: u64,
    // ts_offset
    pub offset: u64,
    // how old the value was when it was accepted, in ticks
    pub valueage: u64,
    // the session number
    pub session: u16,
    pub hassession: u8,
    // Offset op seq of the last measurement
    pub sequence: u8,
    // how many words its user has handed over: a master's queued S-InvokeFunc, a station's result; 0 none
    pub words: u8,
    // how many words the error record has that its user has handed over: a master's queued S-WriteErrorInfo, a station's
    // own record; 0 none
    pub errorinfo: u8,
    // whether a value was accepted in this Refresh
    pub taken: u8,
}

#[repr(C)]
#[derive(Clone, Copy, Debug, PartialEq, Eq)]
pub struct Record {
    pub stored: Stored,
    // a value that was taken, with zeros after it; else the fail-safe value
    pub value: [u8; 100],
    // the words that its user handed over, from the front
    pub words: [u8; 100],
    // the error record that its user handed over, from the front
    pub errorinfo: [u8; 56],
}

// The numbers of states and of a queue that calls look at.
const CLOSE: u8 = State::Close as u8;

const REFRESH: u8 = State::Refresh as u8;

const TERMINATE: u8 = State::Terminate as u8;

const EMPTY: u8 = Queue::Empty as u8;

impl Stored {
    // A master's settings of seven zero words, in Close.
    pub const BLANK: Stored = Stored {
        since: 0,
        reference: 0,
        interval: 0,
        roundtrip: 0,
        connection: 0,
        state: CLOSE,
        slave: 0,
        hasasked: 0,
        answered: 0,
        asked: 0,
        measured: 0,
        age: 0,
        station: 0,
        masterwords: 0,
        slavewords: 0,
        hassent: 0,
        hasaccepted: 0,
        requests: 0,
        queue: EMPTY,
        invoked: 0,
        notready: 0,
        sent: 0,
        accepted: 0,
        offset: 0,
        valueage: 0,
        session: 0,
        hassession: 0,
        sequence: 0,
        words: 0,
        errorinfo: 0,
        taken: 0,
    };

    // What an end leaves.
    pub fn ended(self) -> Stored
        ensures { result ≡ ended_stored self }
    {
        Stored {
            state: TERMINATE,
            queue: EMPTY,
            taken: 0,
            valueage: 0,
            ..self
        }
    }

    // ---- what a call asks of every record of the table: little code, so that the compiler keeps it within the call, and
    // by its numbers, since Core's methods would make a core of every record (speed: docs/DECISIONS.md)

    // The ticks of its timer: I in Refresh, else R.
    fn timer(self) -> u32
        ensures { result ≡ cond (eqb self.state 7) self.interval self.roundtrip }
    {
        if self.state == REFRESH {
            self.interval
        } else {
            self.roundtrip
        }
    }

    // Whether a slave's ts_offset is too old.
    fn is_outdated(self, clock: u64) -> bool
        ensures { result ≡ is_outdated (bare_of self) clock }
    {
        self.state == REFRESH
            && self.reference < clock.saturating_sub(OFFSET_LIFE)
            && self.slave != 0
    }

    // Whether a clock reading ends the connection.
    pub fn is_over(self, clock: u64) -> bool
        ensures { result ≡ is_expired (bare_of self) clock }
    {
        self.state != CLOSE
            && self.state <= REFRESH
            && (self.is_outdated(clock)
                || u64::from(self.timer()) < clock.saturating_sub(self.since))
    }

    // The clock step: ended, or as it was.
    pub fn ticked(self, clock: u64) -> Stored
        ensures { result ≡ ticked_stored self clock }
    {
        if self.is_over(clock) {
            return self.ended();
        }
        self
    }
}

impl Record {
    // A blank one, with the fail-safe value and nothing handed over.
    pub const BLANK: Record = Record {
        stored: Stored::BLANK,
        value: [0; 100],
        words: [0; 100],
        errorinfo: [0; 56],
    };
}

// From<u8> for State and Queue is refused here, and endpoint knows no record's numbers.
fn state_from(x: u8) -> State
    ensures { result ≡ state_from x }
{
    match x {
        0 => State::Close,
        1 => State::Starting,
        2 => State::EstablishPending,
        3 => State::Establish,
        4 => State::ParamVerify,
        5 => State::FuncRunning,
        6 => State::RefreshPending,
        7 => State::Refresh,
        9 => State::TerminateMore,
        _ => State::Terminate,
    }
}

fn queue_from(x: u8) -> Queue
    ensures { result ≡ queue_from x }
{
    match x {
        0 => Queue::Empty,
        1 => Queue::InvokeFunc,
        2 => Queue::ReadErrorInfo,
        3 => Queue::WriteErrorInfo,
        _ => Queue::Closed,
    }
}

// The core of the endpoint that is stored.
impl From<Stored> for Core {
    ghost from_gives = { λ s r. r ≡ core_of (bare_of s) };

    fn from(s: Stored) -> Core {
        Core {
            settings: Settings {
                connection: s.connection,
                slave: s.slave != 0,
                masterwords: s.masterwords,
                slavewords: s.slavewords,
                interval: s.interval,
                roundtrip: s.roundtrip,
                age: s.age,
                station: s.station,
            },
            state: state_from(s.state),
            session: (s.hassession != 0).then_some(s.session),
            since: s.since,
            timestamps: Timestamps {
                sent: (s.hassent != 0).then_some(s.sent),
                accepted: (s.hasaccepted != 0).then_some(s.accepted),
            },
            setup: Setup {
                pending: (s.hasasked != 0).then_some(s.asked),
                measured: s.measured,
                offset: s.offset,
                requests: s.requests,
                queue: queue_from(s.queue),
                invoked: s.invoked != 0,
            },
            measurement: Measurement {
                answered: s.answered != 0,
                sequence: s.sequence != 0,
                reference: s.reference,
            },
            station: Station {
                notready: s.notready != 0,
            },
            words: s.words,
            errorinfo: s.errorinfo,
            taken: s.taken != 0,
            valueage: s.valueage,
        }
    }
}

// What is stored of an endpoint with this core.
impl From<Core> for Stored {
    ghost from_gives = { λ e r. r ≡ stored_of (bare e) };

    fn from(e: Core) -> Stored {
        Stored {
            since: e.since,
            reference: e.measurement.reference,
            interval: e.settings.interval,
            roundtrip: e.settings.roundtrip,
            connection: e.settings.connection,
            state: e.state as u8,
            slave: u8::from(e.settings.slave),
            hasasked: u8::from(e.setup.pending.is_some()),
            answered: u8::from(e.measurement.answered),
            asked: e.setup.pending.unwrap_or(0),
            measured: e.setup.measured,
            age: e.settings.age,
            station: e.settings.station,
            masterwords: e.settings.masterwords,
            slavewords: e.settings.slavewords,
            hassent: u8::from(e.timestamps.sent.is_some()),
            hasaccepted: u8::from(e.timestamps.accepted.is_some()),
            requests: e.setup.requests,
            queue: e.setup.queue as u8,
            invoked: u8::from(e.setup.invoked),
            notready: u8::from(e.station.notready),
            sent: e.timestamps.sent.unwrap_or(0),
            accepted: e.timestamps.accepted.unwrap_or(0),
            offset: e.setup.offset,
            valueage: e.valueage,
            session: e.session.unwrap_or(0),
            hassession: u8::from(e.session.is_some()),
            sequence: u8::from(e.measurement.sequence),
            words: e.words,
            errorinfo: e.errorinfo,
            taken: u8::from(e.taken),
        }
    }
}

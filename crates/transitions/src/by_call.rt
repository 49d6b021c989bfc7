// What a user's call that is done leaves: each step is what it changes. (Functions on a Core and no methods, here and in the
// crate steps: methods of another crate's type want a trait, which is no plainer.)
ghost use Rattle.std.specs.Prelude.{◌≡◌};
ghost use Rattle.endpoint.specs.Endpoint.{no_bytes, no_record, words_of, bare, core_of};
ghost use Rattle.endpoint.specs.Updates.{with_words, with_error_info, with_not_ready, with_queue};
ghost use Rattle.transitions.specs.ByCall.{fresh_of, started_of, restarted_of, counted_of};
ghost use Rattle.transitions.specs.ByCall.{requested_at, measurement_after, measurement_sent_at, stopped_at, invoked_of};
ghost use Rattle.transitions.specs.ByCall.{read_queued_of, write_queued_of};

use endpoint::{Core, Measurement, Queue, Settings, Setup, State, Station, Timestamps};
use frame::Command;

// A connection as loaded with a session number: in Close, with no timestamp remembered. A slave's user gives the number,
// a master has none.
pub fn fresh(s: Settings, number: u16) -> Core
    ensures { result ≡ core_of (fresh_of s number) }
{
    Core {
        settings: s,
        state: State::Close,
        session: s.slave.then_some(number),
        since: 0,
        timestamps: Timestamps::default(),
        setup: Setup::default(),
        measurement: Measurement::default(),
        station: Station::default(),
        words: 0,
        errorinfo: 0,
        taken: false,
        valueage: 0,
    }
}

pub fn started(e: Core, clock: u64) -> Core
    ensures { result ≡ core_of (started_of (bare e) clock) }
{
    Core {
        state: State::Starting,
        since: clock,
        setup: Setup {
            pending: None,
            requests: 0,
            queue: Queue::Empty,
            invoked: false,
            ..e.setup
        },
        taken: false,
        valueage: 0,
        ..e
    }
}

pub fn restarted(e: Core, number: u16) -> Core
    ensures { result ≡ core_of (restarted_of (bare e) number) }
{
    Core {
        state: State::Close,
        session: e.settings.slave.then_some(number),
        taken: false,
        valueage: 0,
        ..e
    }
}

// How many setup requests have been written once this command is: S-Disconnect is not counted.
fn counted(e: Core, k: Command) -> u8
    ensures { result ≡ counted_of (bare e) k }
{
    match k {
        Command::Disconnect => e.setup.requests,
        _ => e.setup.requests.wrapping_add(1),
    }
}

// A request with this timestamp has been sent.
pub fn requested(e: Core, clock: u64, stamp: u64) -> Core
    ensures { result ≡ core_of (requested_at (bare e) clock stamp) }
{
    let request = e.request_due();
    let mut next = e;
    next.since = clock;
    next.timestamps.sent = Some(stamp);
    next.setup.pending = Some(stamp);
    next.setup.requests = counted(e, request);
    match request {
        Command::RefreshReady => next.setup.queue = Queue::Closed,
        Command::InvokeFunc => next.setup.invoked = true,
        _ => {}
    }
    next
}

// S-RefreshMO begins a measurement, with the other Offset op seq; S-RefreshGO goes on with it.
pub fn measurement_after(k: Command, clock: u64, m: Measurement) -> Measurement
    ensures { result ≡ measurement_after k clock m }
{
    match k {
        Command::RefreshMo => Measurement {
            answered: false,
            sequence: !m.sequence,
            reference: clock,
        },
        _ => m,
    }
}

// S-RefreshMO or S-RefreshGO has been sent in Refresh, with this timestamp.
pub fn measurement_sent(e: Core, k: Command, clock: u64, stamp: u64) -> Core
    ensures { result ≡ core_of (measurement_sent_at (bare e) k clock stamp) }
{
    let mut next = e;
    next.timestamps.sent = Some(stamp);
    next.setup.pending = Some(stamp);
    next.measurement = measurement_after(k, clock, e.measurement);
    next
}

// A master's stop has sent S-Disconnect with this timestamp.
pub fn stopped(e: Core, stamp: u64) -> Core
    ensures { result ≡ core_of (stopped_at (bare e) stamp) }
{
    let mut next = e.ended();
    next.setup.requests = counted(e, Command::Disconnect);
    if !e.settings.slave {
        next.timestamps.sent = Some(stamp);
    }
    next
}

pub fn with_not_ready(e: Core, notready: bool) -> Core
    ensures { result ≡ core_of (with_not_ready notready (bare e)) }
{
    Core {
        station: Station { notready },
        ..e
    }
}

// This command waits.
fn queued(e: Core, queue: Queue) -> Core
    ensures { result ≡ core_of (with_queue queue (bare e)) }
{
    let mut next = e;
    next.setup.queue = queue;
    next
}

// S-InvokeFunc of so many words waits; their bytes are kept by the caller.
pub fn invoked(e: Core, count: u8) -> Core
    ensures { result ≡ core_of (invoked_of (bare e) (words_of count no_bytes)) }
{
    queued(with_result(e, count), Queue::InvokeFunc)
}

// S-ReadErrorInfo waits.
pub fn read_queued(e: Core) -> Core
    ensures { result ≡ core_of (read_queued_of (bare e)) }
{
    queued(e, Queue::ReadErrorInfo)
}

// S-WriteErrorInfo waits, with an error record of so many words; its bytes are kept by the caller.
pub fn write_queued(e: Core, count: u8) -> Core
    ensures { result ≡ core_of (write_queued_of (bare e) (words_of count no_record)) }
{
    queued(with_error_info(e, count), Queue::WriteErrorInfo)
}

// A station's result of so many words, 0 for none; its bytes are kept by the caller.
pub fn with_result(e: Core, count: u8) -> Core
    ensures { result ≡ core_of (with_words (words_of count no_bytes) (bare e)) }
{
    Core { words: count, ..e }
}

// A station's error record of so many words, 0 for none; its bytes are kept by the caller.
pub fn with_error_info(e: Core, count: u8) -> Core
    ensures { result ≡ core_of (with_error_info (words_of count no_record) (bare e)) }
{
    Core {
        errorinfo: count,
        ..e
    }
}

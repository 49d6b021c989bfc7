// What a frame of this connection that is taken leaves: each step is what it changes. Core, clock and fields are handed
// on as the definitions have them (`advanced_of e t f`): a struct of the three would be taken apart in every clause.
ghost use Rattle.std.specs.Prelude.{◌≡◌};
ghost use Rattle.endpoint.specs.Endpoint.{no_bytes, bare, core_of};
ghost use Rattle.transitions.specs.ByFrame.{refreshed_at, ended_by, measured_by, offset_by, advanced_of};
ghost use Rattle.transitions.specs.ByFrame.{deferred_of, answered_of, reported_of, taken_of, confirmed_of, due_again_of};
ghost use Rattle.transitions.specs.ByFrame.{measurement_by, remeasured_of, adjusted_of, synchronized_of, performed_of};
ghost use Rattle.transitions.specs.ByFrame.{session_by, setup_heard_of, measurement_heard_of, heard_of};

use endpoint::time::offset_from;
use endpoint::{Core, Measurement, Queue, State};
use frame::{Command, Fields};

// A value of this age was accepted; its bytes are kept by the caller.
pub fn refreshed(e: Core, clock: u64, stamp: u64, age: u64) -> Core
    ensures { result ≡ core_of (refreshed_at (bare e) clock stamp age no_bytes) }
{
    let mut next = e;
    next.timestamps.accepted = Some(stamp);
    next.since = clock;
    next.taken = true;
    next.valueage = age;
    next
}

pub fn ended_by(e: Core, stamp: u64) -> Core
    ensures { result ≡ core_of (ended_by (bare e) stamp) }
{
    let mut next = e.ended();
    next.timestamps.accepted = Some(stamp);
    next
}

// S2, or m2, is the clock at S-RefreshReady's reply.
fn measured_by(k: Command, clock: u64, measured: u64) -> u64
    ensures { result ≡ measured_by k clock measured }
{
    match k {
        Command::RefreshReady => clock,
        _ => measured,
    }
}

// Ts_offset comes with S-RefreshGO.
fn offset_by(e: Core, f: Fields) -> u64
    ensures { result ≡ offset_by (bare e) f }
{
    match f.command {
        Command::RefreshGo => offset_from(f.timestamp, f.baseline, e.setup.measured),
        _ => e.setup.offset,
    }
}

// S-RefreshGO leads into Refresh, where none is measured yet.
// Beside by_call's measurement_after: each meets its own definition, at another command, and they share a literal alone.
fn measurement_by(k: Command, reference: u64, m: Measurement) -> Measurement
    ensures { result ≡ measurement_by k reference m }
{
    match k {
        Command::RefreshGo => Measurement {
            answered: false,
            sequence: false,
            reference,
        },
        _ => m,
    }
}

fn advanced(e: Core, clock: u64, f: Fields) -> Core
    ensures { result ≡ core_of (advanced_of (bare e) clock f) }
{
    let s2 = measured_by(f.command, clock, e.setup.measured);
    let mut next = e;
    next.state = e.state.next_state(f.command).unwrap_or(e.state);
    next.since = clock;
    next.timestamps.accepted = Some(f.timestamp);
    next.setup.measured = s2;
    next.setup.offset = offset_by(e, f);
    next.measurement = measurement_by(f.command, e.setup.measured, e.measurement);
    next.taken = false;
    next.valueage = 0;
    next
}

// The state stays, and s2; the timer runs from the Busy reply.
fn deferred(e: Core, clock: u64, f: Fields) -> Core
    ensures { result ≡ core_of (deferred_of (bare e) clock f) }
{
    let mut waiting = e;
    waiting.timestamps.accepted = Some(f.timestamp);
    waiting.since = clock;
    waiting
}

// What a request that is done leaves once it has its reply.
fn answered(e: Core, clock: u64, f: Fields) -> Core
    ensures { result ≡ core_of (answered_of (bare e) clock f) }
{
    if e.is_held_back(f.command) {
        deferred(e, clock, f)
    } else {
        advanced(e, clock, f)
    }
}

// S-RefreshMO in Refresh.
fn remeasured(e: Core, clock: u64, f: Fields) -> Core
    ensures { result ≡ core_of (remeasured_of (bare e) clock f) }
{
    let mut next = e;
    next.timestamps.accepted = Some(f.timestamp);
    next.setup.measured = clock;
    next.measurement.answered = true;
    next.measurement.sequence = f.sequence;
    next
}

// S-RefreshGO in Refresh.
fn adjusted(e: Core, f: Fields) -> Core
    ensures { result ≡ core_of (adjusted_of (bare e) f) }
{
    let mut next = e;
    next.timestamps.accepted = Some(f.timestamp);
    next.setup.offset = offset_by(e, f);
    next.measurement.answered = false;
    next.measurement.reference = e.setup.measured;
    next
}

// Either: the state stays, the timer and the value.
fn synchronized(e: Core, clock: u64, f: Fields) -> Core
    ensures { result ≡ core_of (synchronized_of (bare e) clock f) }
{
    match f.command {
        Command::RefreshMo => remeasured(e, clock, f),
        _ => adjusted(e, f),
    }
}

// S-WriteErrorInfo has been taken; more: further error records follow.
fn reported(e: Core, stamp: u64, more: bool) -> Core
    ensures { result ≡ core_of (reported_of (bare e) stamp more) }
{
    let mut next = ended_by(e, stamp);
    if more {
        next.state = State::TerminateMore;
    }
    next
}

// What a request that is done leaves.
pub fn taken(e: Core, clock: u64, f: Fields, more: bool) -> Core
    ensures { result ≡ core_of (taken_of (bare e) clock f more) }
{
    match f.command {
        Command::Disconnect => ended_by(e, f.timestamp),
        Command::WriteErrorInfo => reported(e, f.timestamp, more),
        _ if e.state == State::Refresh => synchronized(e, clock, f),
        _ => answered(e, clock, f),
    }
}

// The session number comes with the reply to S-Connect.
fn session_by(e: Core, f: Fields) -> Option<u16>
    ensures { result ≡ session_by (bare e) f }
{
    match e.request_due() {
        Command::Connect => f.subconnection,
        _ => e.session,
    }
}

fn confirmed(e: Core, clock: u64, f: Fields) -> Core
    ensures { result ≡ core_of (confirmed_of (bare e) clock f) }
{
    let request = e.request_due();
    let m2 = measured_by(request, clock, e.setup.measured);
    let mut next = e;
    next.state = e.state.next_state(request).unwrap_or(e.state);
    next.session = session_by(e, f);
    next.since = clock;
    next.setup.pending = None;
    next.setup.measured = m2;
    next.measurement = measurement_by(request, clock, e.measurement);
    next.taken = false;
    next.valueage = 0;
    next
}

// Nothing is pending, so that the same request is due again; the state stays, and m2; the timer runs from the Busy
// reply.
fn due_again(e: Core, clock: u64) -> Core
    ensures { result ≡ core_of (due_again_of (bare e) clock) }
{
    let mut again = e;
    again.setup.pending = None;
    again.since = clock;
    again
}

// The queued command waits no longer; the state stays.
fn performed(e: Core, clock: u64) -> Core
    ensures { result ≡ core_of (performed_of (bare e) clock) }
{
    let mut next = e;
    next.setup.pending = None;
    next.setup.queue = Queue::Empty;
    next.since = clock;
    next
}

// What a reply in setup leaves.
fn setup_heard(e: Core, clock: u64, f: Fields) -> Core
    ensures { result ≡ core_of (setup_heard_of (bare e) clock f) }
{
    if f.busy {
        due_again(e, clock)
    } else if e.is_command_due() {
        performed(e, clock)
    } else {
        confirmed(e, clock, f)
    }
}

// What a reply in Refresh leaves: S-RefreshMO's brings m2, S-RefreshGO's closes the measurement.
fn measurement_heard(e: Core, clock: u64, f: Fields) -> Core
    ensures { result ≡ core_of (measurement_heard_of (bare e) clock f) }
{
    let mut next = e;
    next.setup.pending = None;
    next.measurement.answered = f.command == Command::RefreshMo;
    if next.measurement.answered {
        next.setup.measured = clock;
    }
    next
}

// What a reply that is done leaves.
pub fn heard(e: Core, clock: u64, f: Fields) -> Core
    ensures { result ≡ core_of (heard_of (bare e) clock f) }
{
    match e.state {
        State::Refresh => measurement_heard(e, clock, f),
        _ => setup_heard(e, clock, f),
    }
}

// Deliver: a frame of this connection, as the reader gives it.
ghost use Rattle.std.specs.Prelude.{◌≡◌, false, not, ◌&&◌, ◌≤◌, length};
ghost use Rattle.endpoint.specs.Endpoint.{bare};
ghost use Rattle.frame.specs.declared.Command.TheVariants as K;
ghost use Rattle.frame.specs.Control.{is};
ghost use Rattle.endpoint.specs.Answers.{first_of};
ghost use Rattle.endpoint.specs.Due.{answers_to};
ghost use Rattle.errors.specs.Reading.{is_record};
ghost use Rattle.steps.specs.Deliveries.{is_foreign, refresh_faults_at, take_refresh, is_turn, lacks_session, lacks_record};
ghost use Rattle.steps.specs.Deliveries.{is_width, is_users, is_expected, is_stray, request_faults, take_request};
ghost use Rattle.steps.specs.Deliveries.{is_result, is_reply_turn, is_awaited};
ghost use Rattle.steps.specs.Deliveries.{lacks_number, replies_record, reply_faults, take_reply, deliver_of};
ghost use Rattle.steps.specs.Says.{plain_step, with_room, StepSays};
ghost use Rattle.steps.specs.Values.{with_handed};

use super::frames::{
    due_data, has_record, is_busy, reply_fields, session_of, setup_data, show_width, write_reply,
};
use super::{HandedOver, Stepped};
use endpoint::answers::{first_of, setup_faults, value_faults};
use endpoint::time::{counted_age, is_above, is_too_far_ahead, is_too_late};
use endpoint::{Answer, Core, Reason, Refusal, Settings, State};
use errors::read::{is_record, more_follows};
use frame::control::is_joined;
use frame::write::{head_of, is_body_length};
use frame::{Command, Fields, LONGEST_FRAME};
use transitions::by_frame::{ended_by, heard, refreshed, taken};
use words::{copy, same};

// Whether a frame carries another session number than the endpoint's own, or none.
fn is_foreign(e: Core, session: Option<u16>) -> bool
    ensures { result ≡ is_foreign (bare e) session }
{
    session_of(e) != session
}

// Of an S-Refresh whose timestamp has this age.
fn refresh_answer(e: Core, age: u64, session: Option<u16>, stamp: u64, width: usize) -> Answer
    ensures { result ≡ first_of (refresh_faults_at (bare e) age session stamp width) }
{
    first_of(value_faults(
        e.state != State::Refresh,
        is_foreign(e, session),
        width != show_width(e.settings),
        !is_above(e.timestamps.accepted, stamp),
        is_too_far_ahead(age, e.settings.allowance()),
        is_too_late(age, e.settings.age),
    ))
}

// An S-Refresh of the other end.
fn take_refresh(e: Core, clock: u64, session: Option<u16>, stamp: u64, body: &[u8]) -> Stepped
    ensures { result ≡ plain_step (take_refresh (bare e) clock session stamp body.now) }
{
    let age = e.age_of(clock, stamp);
    let answer = refresh_answer(e, age, session, stamp, body.len());
    if answer.is_err() {
        return Stepped::refused(e, answer);
    }
    Stepped::plain(answer, refreshed(e, clock, stamp, counted_age(age)))
}

// Whether the state takes a request: S-ReadErrorInfo with an error record set only.
fn is_turn(e: Core, k: Command) -> bool
    ensures { result ≡ is_turn (bare e) k }
{
    e.state.next_state(k).is_some() && (k != Command::ReadErrorInfo || has_record(e))
}

// Whether a request lacks the session number; of S-Connect none is asked.
fn lacks_session(e: Core, f: Fields) -> bool
    ensures { result ≡ lacks_session (bare e) f }
{
    f.command != Command::Connect && is_foreign(e, f.subconnection)
}

// Whether the data of S-WriteErrorInfo is no error record.
fn lacks_record(k: Command, body: &[u8]) -> bool
    ensures { result ≡ lacks_record k body.now }
{
    k == Command::WriteErrorInfo && !is_record(body)
}

// Whether a request's data is its user's own, compared with nothing.
fn is_users(k: Command) -> bool
    ensures { result ≡ is_users k }
{
    matches!(k, Command::InvokeFunc | Command::WriteErrorInfo)
}

// Whether a request's data has the right length.
fn is_width(s: Settings, k: Command, n: usize) -> bool
    ensures { result ≡ is_width s k n }
{
    match k {
        Command::InvokeFunc => is_body_length(n),
        Command::WriteErrorInfo => true,
        _ => n == setup_data(s, k).length,
    }
}

// Whether a request's data is the right one.
fn is_expected(s: Settings, k: Command, body: &[u8]) -> bool
    ensures { result ≡ is_expected s k body.now }
{
    k == Command::Disconnect || is_users(k) || same(body, setup_data(s, k).bytes())
}

// Whether it is an S-RefreshGO of another measurement than the one under way, or of none.
fn is_stray(e: Core, clock: u64, f: Fields) -> bool
    ensures { result ≡ is_stray (bare e) clock f }
{
    f.command == Command::RefreshGo && !(e.is_measuring(clock) && f.sequence == e.sequence_of())
}

fn request_answer(e: Core, clock: u64, f: Fields, body: &[u8]) -> Answer
    ensures { result ≡ first_of (request_faults (bare e) clock f body.now) }
{
    first_of(setup_faults(
        !is_turn(e, f.command),
        lacks_session(e, f),
        lacks_record(f.command, body),
        !is_width(e.settings, f.command, body.len()),
        !is_above(e.timestamps.accepted, f.timestamp) || is_stray(e, clock, f),
        !is_expected(e.settings, f.command, body),
    ))
}

// A request at a slave, with its reply. What it takes stays one by one: a struct would be taken apart at each call, which is
// no plainer. The least length of out is no type: StepSays speaks of all of out.
fn take_request(
    e: Core,
    handed: HandedOver<'_>,
    clock: u64,
    f: Fields,
    body: &[u8],
    out: &mut [u8],
) -> Stepped
    requires { (248 ≤ length out.old) × (is f.command K.Refresh ≡ false) }
    ensures { StepSays
        (take_request (with_handed handed.entry.words.now handed.entry.errorinfo.now (bare e)) clock f body.now)
        out.old out.new result }
{
    let answer = request_answer(e, clock, f, body);
    let core = match answer {
        Ok(()) => taken(e, clock, f, more_follows(body)),
        Err(Refusal::Ended(_)) => ended_by(e, f.timestamp),
        Err(Refusal::Dropped(_)) => return Stepped::plain(answer, e),
    };
    if f.command == Command::Disconnect {
        return Stepped::plain(answer, core);
    }
    let done = answer.is_ok();
    let busy = done && is_busy(e, f.command, body.len());
    let head = head_of(reply_fields(e, f, busy, !done));
    let count = write_reply(e, handed, f.command, done, head, body, out);
    Stepped {
        answer,
        core,
        count,
    }
}

fn is_result(f: Fields) -> bool
    ensures { result ≡ is_result f }
{
    f.command == Command::InvokeFunc && !f.busy || f.command == Command::ReadErrorInfo
}

// Whether a reply lacks the session number; S-Connect's brings it, whichever it is.
fn lacks_number(e: Core, f: Fields) -> bool
    ensures { result ≡ lacks_number (bare e) f }
{
    if f.command == Command::Connect {
        return f.subconnection.is_none();
    }
    is_foreign(e, f.subconnection)
}

// Whether a reply to a command has to be an error record.
fn replies_record(k: Command) -> bool
    ensures { result ≡ replies_record k }
{
    matches!(k, Command::ReadErrorInfo | Command::WriteErrorInfo)
}

// Whether a reply that has to be an error record is none.
fn lacks_reply_record(k: Command, body: &[u8]) -> bool
    ensures { result ≡ replies_record k && not (is_record body.now) }
{
    replies_record(k) && !is_record(body)
}

// Whether the state takes a reply: in setup the pending request's, in Refresh a measurement's.
fn is_reply_turn(e: Core, k: Command) -> bool
    ensures { result ≡ is_reply_turn (bare e) k }
{
    if e.state == State::Refresh {
        return is_joined(k);
    }
    e.state.is_setup() && e.setup.pending.is_some() && k == e.request_due()
}

// Whether a reply is of the measurement under way, of its last step and in time.
fn is_awaited(e: Core, clock: u64, f: Fields) -> bool
    ensures { result ≡ is_awaited (bare e) clock f }
{
    f.sequence == e.sequence_of()
        && (e.state != State::Refresh || f.command == e.awaited_in() && !e.is_late(clock))
}

// Whether a reply answers the pending request, and is awaited.
fn is_answer(e: Core, clock: u64, f: Fields) -> bool
    ensures { result ≡ answers_to e.setup.pending f.timestamp && is_awaited (bare e) clock f }
{
    e.setup.pending == Some(f.timestamp) && is_awaited(e, clock, f)
}

fn reply_answer(e: Core, handed: HandedOver<'_>, clock: u64, f: Fields, body: &[u8]) -> Answer
    ensures { result ≡ first_of
        (reply_faults (with_handed handed.entry.words.now handed.entry.errorinfo.now (bare e)) clock f body.now) }
{
    let result = is_result(f);
    let due = due_data(e, handed);
    let equal = same(body, due.bytes());
    let read = f.command == Command::ReadErrorInfo;
    // & and |, since with && and || the search did not close the proof.
    first_of(setup_faults(
        !(f.ack & is_reply_turn(e, f.command)),
        lacks_number(e, f),
        lacks_reply_record(f.command, body),
        !(read | (body.len() == due.length)),
        !is_answer(e, clock, f),
        f.error | !(result | equal),
    ))
}

// A reply at a master. A result, or a station's error record, goes to the output. (It asks what take_request does.)
fn take_reply(
    e: Core,
    handed: HandedOver<'_>,
    clock: u64,
    f: Fields,
    body: &[u8],
    out: &mut [u8],
) -> Stepped
    requires { 248 ≤ length out.old }
    ensures { StepSays
        (take_reply (with_handed handed.entry.words.now handed.entry.errorinfo.now (bare e)) clock f body.now)
        out.old out.new result }
{
    let answer = reply_answer(e, handed, clock, f, body);
    if answer.is_err() {
        return Stepped::refused(e, answer);
    }
    let core = heard(e, clock, f);
    if !is_result(f) {
        return Stepped::plain(answer, core);
    }
    Stepped {
        answer,
        core,
        count: copy(body, out),
    }
}

// A frame of this connection; of its user is held what was handed over. A slave's request writes its reply, and a
// master's reply the result of a queued command or the station's error record.
#[tactic(auto, using(crate::proofs::Outcomes::short))]
pub fn deliver(
    e: Core,
    handed: HandedOver<'_>,
    clock: u64,
    f: Fields,
    body: &[u8],
    out: &mut [u8],
) -> Stepped
    ensures { StepSays (with_room (length out.old) (bare e)
        (deliver_of (with_handed handed.entry.words.now handed.entry.errorinfo.now (bare e)) clock f body.now))
        out.old out.new result }
{
    if out.len() < LONGEST_FRAME {
        return Stepped::dropped(e, Reason::Buffer);
    }
    if f.application == e.settings.slave {
        return Stepped::dropped(e, Reason::Echo);
    }
    if f.command == Command::Refresh {
        return take_refresh(e, clock, f.subconnection, f.timestamp, body);
    }
    // A copy for setup, so that on a value's way the core need not stand in memory.
    let setup = e;
    if setup.settings.slave {
        return take_request(setup, handed, clock, f, body, out);
    }
    take_reply(setup, handed, clock, f, body, out)
}

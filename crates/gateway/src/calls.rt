// The calls that name an entry: start, restart, set_not_ready, set_result, clear_result, set_record, clear_record, invoke,
// read_error, write_error, stop, send, show.
ghost use Rattle.std.specs.Prelude.{◌≡◌, true, false, length};
ghost use Rattle.std.specs.Fn.{FnOnceReturnsAtMut};
ghost use Rattle.endpoint.specs.Endpoint.{core_of};
ghost use Rattle.endpoint.specs.declared.Reason.TheVariants as R;
ghost use Rattle.steps.specs.Calls.{send_of, stop_of};
ghost use Rattle.records.specs.Records.{is_set, bare_of};
ghost use Rattle.gateway.specs.declared.Moved.{Moved};
ghost use Rattle.gateway.specs.Tables.{lent};
ghost use Rattle.gateway.specs.Calls.{start_in, send_in, stop_in, restart_in, set_not_ready_in, set_result_in};
ghost use Rattle.gateway.specs.Calls.{clear_result_in, set_record_in, clear_record_in, invoke_in, read_error_in};
ghost use Rattle.gateway.specs.Calls.{write_error_in, show_in, is_short, CallSays, OutputSays};
ghost use Rattle.gateway.specs.Parts.{picked_of, settled, before, with_held, handed_of, PutBy, ActMoves, StepMoves, ShowMoves};

use super::slice::{held, pick, put, record_at, settle};
use super::{Call, Called, Moved, Picked};
use endpoint::{Core, Reason};
use frame::LONGEST_FRAME;
use records::Record;
use steps::queue::{command_data, padded, padded_record};
use steps::{Stepped, lifecycle, queue, station};

// ---- what the calls have in common: refused before the connection's own step, or that step

// A call that is lent no output. `hands`: it hands words or an error record over.
fn act<F: FnOnce(Core) -> Stepped>(p: Picked, hands: bool, step: F) -> Moved
    requires { F.IsAlwaysCallable step }
    ensures { ActMoves p (λ s. F.post step (core_of (bare_of p.stored)) s) hands result }
{
    match p.before(false, Reason::Entry) {
        Ok(()) => p.acted(step(p.core()), hands),
        refused => p.refused(refused),
    }
}

fn plain<F: FnOnce(Core) -> Stepped>(rs: &mut [Record], c: Call, step: F) -> Called
    requires { F.IsAlwaysCallable step }
    ensures { (m : Moved) × ActMoves (picked_of rs.old c)
        (λ s. F.post step (core_of (bare_of (picked_of rs.old c).stored)) s) false m
        × (result ≡ m.told) × (rs.new ≡ settled rs.old m) }
{
    let m = act(pick(rs, c), false, step);
    settle(rs, &m)
}

// What is handed over is kept in the record.
fn handing<F: FnOnce(Core) -> Stepped, G: FnOnce(&mut Record)>(
    rs: &mut [Record],
    c: Call,
    step: F,
    keep: G,
) -> Called
    requires steps { F.IsAlwaysCallable step }
    requires keeps { G.IsAlwaysCallable keep }
    ensures { (m : Moved) × ActMoves (picked_of rs.old c)
        (λ s. F.post step (core_of (bare_of (picked_of rs.old c).stored)) s) true m
        × (result ≡ m.told)
        × PutBy (λ r r'. FnOnceReturnsAtMut G.FnOnce keep r tt r') m.keep (settled rs.old m) rs.new }
{
    let m = act(pick(rs, c), true, step);
    let told = settle(rs, &m);
    put(rs, m.keep, keep);
    told
}

// A call that is lent an output. Each makes its step itself: handed in as a closure, `search` stops at its limit at the
// step of send and of deliver.
fn stopping(p: Picked, out: &mut [u8]) -> Moved
    ensures { StepMoves p (before p (is_short (length out.old)) R.Entry)
        (stop_of (bare_of p.stored) p.call.clock) false out.old out.new result }
{
    match p.before(out.len() < LONGEST_FRAME, Reason::Entry) {
        Ok(()) => p.acted(lifecycle::stop(p.core(), p.call.clock, out), false),
        refused => p.refused(refused),
    }
}

// Its user has handed over what the record holds.
fn sending(p: Picked, record: &Record, value: &[u8], out: &mut [u8]) -> Moved
    ensures { StepMoves p (before p (is_short (length out.old)) R.Entry)
        (send_of (with_held (handed_of record.now) (bare_of p.stored)) p.call.clock value.now) false
        out.old out.new result }
{
    match p.before(out.len() < LONGEST_FRAME, Reason::Entry) {
        Ok(()) => p.acted(
            steps::send::send(p.core(), held(record), p.call.clock, value, out),
            false,
        ),
        refused => p.refused(refused),
    }
}

// What the clock step leaves is shown.
fn showing(p: Picked, value: &[u8], out: &mut [u8]) -> Moved
    ensures { ShowMoves p value.now out.old out.new result }
{
    match p.admitted_entry(out.len() < LONGEST_FRAME, Reason::Entry) {
        Ok(()) => {
            let left = Core::from(p.stored.ticked(p.call.clock));
            p.shown(steps::show::show(left, p.call.clock, value, out))
        }
        refused => p.refused(refused),
    }
}

// ---- the calls. rs and c stay two: the clauses say `lent c.gateway rs.old`, and C lends two.

// A master's, in Close.
pub fn start(rs: &mut [Record], c: Call) -> Called
    ensures { CallSays (start_in (lent c.gateway rs.old) c.clock c.entry) rs.new result }
{
    plain(rs, c, |core| lifecycle::start(core, c.clock))
}

// From Terminate to Close, with the call's session number at a slave; timestamps are remembered.
pub fn restart(rs: &mut [Record], c: Call) -> Called
    ensures { CallSays (restart_in (lent c.gateway rs.old) c.clock c.entry c.session)
        rs.new result }
{
    plain(rs, c, |core| lifecycle::restart(core, c.session))
}

// A station's user sets 'not ready', or clears it: a slave's, in any state.
pub fn set_not_ready(rs: &mut [Record], c: Call) -> Called
    ensures { CallSays (set_not_ready_in (lent c.gateway rs.old) c.clock c.entry (is_set c.notready))
        rs.new result }
{
    plain(rs, c, |core| station::set_not_ready(core, c.notready != 0))
}

// A station's user sets the result of S-InvokeFunc, 1 to 25 words: a slave's, in any state.
pub fn set_result(rs: &mut [Record], c: Call, bytes: &[u8]) -> Called
    ensures { CallSays (set_result_in (lent c.gateway rs.old) c.clock c.entry bytes.now)
        rs.new result }
{
    handing(
        rs,
        c,
        |core| station::set_result(core, bytes.len()),
        |record| record.words = padded(bytes),
    )
}

// And clears it.
pub fn clear_result(rs: &mut [Record], c: Call) -> Called
    ensures { CallSays (clear_result_in (lent c.gateway rs.old) c.clock c.entry) rs.new result }
{
    plain(rs, c, station::clear_result)
}

// A station's user sets its error record: a slave's, in any state.
pub fn set_record(rs: &mut [Record], c: Call, bytes: &[u8]) -> Called
    ensures { CallSays (set_record_in (lent c.gateway rs.old) c.clock c.entry bytes.now)
        rs.new result }
{
    handing(
        rs,
        c,
        |core| station::set_record(core, bytes),
        |record| record.errorinfo = padded_record(bytes),
    )
}

// And clears it.
pub fn clear_record(rs: &mut [Record], c: Call) -> Called
    ensures { CallSays (clear_record_in (lent c.gateway rs.old) c.clock c.entry) rs.new result }
{
    plain(rs, c, station::clear_record)
}

// A master's user queues S-ReadErrorInfo: in setup, until S-InvokeFunc has gone.
pub fn read_error(rs: &mut [Record], c: Call) -> Called
    ensures { CallSays (read_error_in (lent c.gateway rs.old) c.clock c.entry) rs.new result }
{
    plain(rs, c, queue::read_error)
}

// A master's user queues S-WriteErrorInfo with an error record: in setup.
pub fn write_error(rs: &mut [Record], c: Call, bytes: &[u8]) -> Called
    ensures { CallSays (write_error_in (lent c.gateway rs.old) c.clock c.entry bytes.now)
        rs.new result }
{
    handing(
        rs,
        c,
        |core| queue::write_error(core, bytes),
        |record| record.errorinfo = padded_record(bytes),
    )
}

// A master's user queues S-InvokeFunc, of the command word and 0 to 24 further words: in setup.
pub fn invoke(rs: &mut [Record], c: Call, bytes: &[u8]) -> Called
    ensures { CallSays (invoke_in (lent c.gateway rs.old) c.clock c.entry c.word
        bytes.now) rs.new result }
{
    handing(
        rs,
        c,
        |core| queue::invoke(core, 4 + bytes.len()),
        |record| record.words = command_data(c.word, bytes),
    )
}

// Terminate; a master's writes S-Disconnect.
pub fn stop(rs: &mut [Record], c: Call, out: &mut [u8]) -> Called
    ensures { OutputSays (stop_in (lent c.gateway rs.old) c.clock (length out.old) c.entry)
        rs.new out.old out.new result }
{
    let m = stopping(pick(rs, c), out);
    settle(rs, &m)
}

// The next setup request, whatever value is lent, or the queued command; in Refresh the value.
pub fn send(rs: &mut [Record], c: Call, value: &[u8], out: &mut [u8]) -> Called
    ensures { OutputSays (send_in (lent c.gateway rs.old) c.clock (length out.old) c.entry
        value.now) rs.new out.old out.new result }
{
    let m = sending(pick(rs, c), record_at(rs, c.entry), value, out);
    settle(rs, &m)
}

// The last value accepted in this Refresh, or fail-safe: as the clock step left the connection.
pub fn show(rs: &mut [Record], c: Call, out: &mut [u8]) -> Called
    ensures { OutputSays (show_in (lent c.gateway rs.old) c.clock (length out.old) c.entry)
        rs.new out.old out.new result }
{
    let m = showing(pick(rs, c), &record_at(rs, c.entry).value, out);
    settle(rs, &m)
}

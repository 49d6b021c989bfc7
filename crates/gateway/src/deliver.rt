// Deliver: what a cycle of the bus brought.
ghost use Rattle.std.specs.Prelude.{◌≡◌, length};
ghost use Rattle.frame.specs.Reading.{body_in};
ghost use Rattle.steps.specs.Frames.{padded_of};
ghost use Rattle.gateway.specs.Tables.{lent};
ghost use Rattle.gateway.specs.Calls.{reason_of, deliver_in, OutputSays};
ghost use Rattle.gateway.specs.Parts.{handed_of, DeliverMoves};

use super::slice::{held, put, record_at, seek, settle};
use super::{Call, Called, Moved, Picked};
use endpoint::{Reason, Refusal};
use frame::read::{body_span, connection_in, read_frame};
use frame::{Command, Fault, LONGEST_FRAME};
use records::Record;
use steps::queue::padded;

// As a function, and no From: both types are other crates'.
fn reason_of(fault: Fault) -> Reason
    ensures { result ≡ reason_of fault }
{
    match fault {
        Fault::Length => Reason::Length,
        Fault::Copies => Reason::Copies,
        Fault::CheckWord => Reason::CheckWord,
        Fault::Form => Reason::Form,
    }
}

// Zero bytes are nothing, other bytes a frame, or numbers 4 to 7. At a slave a request writes its reply, at a master the
// reply to a queued command its result, or the station's error record. What its user has handed over is the record's.
fn do_deliver(p: Picked, record: &Record, bytes: &[u8], out: &mut [u8]) -> Moved
    ensures { DeliverMoves p (handed_of record.now) bytes.now out.old out.new result }
{
    let short = out.len() < LONGEST_FRAME;
    if bytes.is_empty() {
        return p.refused(p.admitted(short));
    }
    match read_frame(bytes) {
        Err(fault) => p.refused(
            p.admitted(short)
                .and(Err(Refusal::Dropped(reason_of(fault)))),
        ),
        Ok(frame) => match p.before(short, Reason::Unknown) {
            Ok(()) => {
                let body = &bytes[frame.start..frame.end];
                let refreshes = frame.fields.command == Command::Refresh;
                let step = steps::deliver::deliver(
                    p.core(),
                    held(record),
                    p.call.clock,
                    frame.fields,
                    body,
                    out,
                );
                p.acted(step, refreshes)
            }
            refused => p.refused(refused),
        },
    }
}

// The value that the bytes carry, should they be a frame.
fn value_in(bytes: &[u8]) -> [u8; 100]
    ensures { result ≡ padded_of (body_in bytes.now) }
{
    let body = body_span(bytes.len());
    padded(&bytes[body.start..body.end])
}

pub fn deliver(rs: &mut [Record], c: Call, bytes: &[u8], out: &mut [u8]) -> Called
    ensures { OutputSays (deliver_in (lent c.gateway rs.old) c.clock (length out.old)
        bytes.now) rs.new out.old out.new result }
{
    let p = seek(rs, c, connection_in(bytes));
    let m = do_deliver(p, record_at(rs, p.spot), bytes, out);
    let value = value_in(bytes);
    let told = settle(rs, &m);
    put(rs, m.keep, |record| record.value = value);
    told
}

// The commands that a master's user queues in setup, and the S-Data and error records that a user hands over.
ghost use Rattle.std.specs.Prelude.{◌≡◌, ◌++◌, ◌/◌, ◌%◌, length, take, drop, replicate, not};
ghost use Rattle.endpoint.specs.Endpoint.{no_bytes, bare};
ghost use Rattle.endpoint.specs.Answers.{record_faults, first_of};
ghost use Rattle.errors.specs.Reading.{is_record};
ghost use Rattle.steps.specs.Frames.{padded_of, padded_record};
ghost use Rattle.steps.specs.Calls.{hand_faults, invoke_with, command_data, read_error_of, write_error_of};
ghost use Rattle.steps.specs.Says.{plain_step};

use super::Stepped;
use endpoint::answers::{call_faults, first_of, record_faults};
use endpoint::{Answer, Core};
use errors::read::is_record;
use frame::write::is_body_length;
use transitions::by_call::{invoked, read_queued, write_queued};

// The answer to a call that hands over n bytes of S-Data: 11 or 12.
pub(crate) fn hand_answer(turn: bool, n: usize) -> Answer
    ensures { result ≡ first_of (hand_faults turn n) }
{
    first_of(call_faults(!turn, !is_body_length(n), false, false))
}

// The answer to a call that hands over an error record: 11 or 20. Beside hand_answer, since one function of both would take
// the faults that each makes, which is no plainer.
pub(crate) fn record_answer(turn: bool, body: &[u8]) -> Answer
    ensures { result ≡ first_of (record_faults (not turn) (not (is_record body.now))) }
{
    first_of(record_faults(!turn, !is_record(body)))
}

pub(crate) fn word_count(n: usize) -> u8
    ensures { result ≡ n / 4 % 256 }
{
    (n / 4 % 256) as u8
}

// A master's user queues S-InvokeFunc of n bytes of S-Data, in setup. The bytes are kept by the caller.
pub fn invoke(e: Core, n: usize) -> Stepped
    ensures { result ≡ plain_step (invoke_with (bare e) n no_bytes) }
{
    Stepped::changed(e, hand_answer(e.may_queue(), n), invoked(e, word_count(n)))
}

// A master's user queues S-ReadErrorInfo, in setup.
pub fn read_error(e: Core) -> Stepped
    ensures { result ≡ plain_step (read_error_of (bare e)) }
{
    Stepped::at_turn(e, e.may_queue_read(), read_queued(e))
}

// A master's user queues S-WriteErrorInfo, in setup. The bytes of the record are kept by the caller.
#[tactic(auto, using(crate::proofs::Whole::record_bytes_law))]
pub fn write_error(e: Core, body: &[u8]) -> Stepped
    ensures { result ≡ plain_step (write_error_of (bare e) body.now) }
{
    let answer = record_answer(e.may_queue(), body);
    Stepped::changed(e, answer, write_queued(e, word_count(body.len())))
}

// The front of a list in an array, with zeros after it.
fn front_of<const N: usize>(bytes: &[u8]) -> [u8; N]
    ensures { result ≡ take N bytes.now ++ drop (length bytes.now) (replicate N 0) }
{
    let mut array = [0; N];
    let n = bytes.len().min(N);
    array[..n].copy_from_slice(&bytes[..n]);
    array
}

// A body in an array, with zeros after it.
pub fn padded(body: &[u8]) -> [u8; 100]
    ensures { result ≡ padded_of body.now }
{
    front_of(body)
}

// An error record in an array, with zeros after it.
#[tactic(auto, using(crate::proofs::Copies::record_front))]
pub fn padded_record(body: &[u8]) -> [u8; 56]
    ensures { result ≡ padded_record body.now }
{
    front_of(body)
}

// The S-Data of S-InvokeFunc in an array: the command word and what follows it, with zeros after them.
pub fn command_data(word: u32, bytes: &[u8]) -> [u8; 100]
    ensures { result ≡ padded_of (command_data word bytes.now) }
{
    let mut data = [0; 100];
    data[..4].copy_from_slice(&word.to_be_bytes());
    data[4..].copy_from_slice(&front_of::<96>(bytes));
    data
}

// What a station's user says of it: set_not_ready, set_result, clear_result, set_record, clear_record.
ghost use Rattle.std.specs.Prelude.{◌≡◌};
ghost use Rattle.endpoint.specs.Endpoint.{no_bytes, bare};
ghost use Rattle.steps.specs.Calls.{set_not_ready_of, result_with, clear_result_of, set_record_of, clear_record_of};
ghost use Rattle.steps.specs.Says.{plain_step};

use super::Stepped;
use super::queue::{hand_answer, record_answer, word_count};
use endpoint::Core;
use transitions::by_call::{with_error_info, with_not_ready, with_result};

// A slave's user sets 'not ready', or clears it, in any state.
#[tactic(auto, using(crate::proofs::Outcomes::turn_step))]
pub fn set_not_ready(e: Core, notready: bool) -> Stepped
    ensures { result ≡ plain_step (set_not_ready_of (bare e) notready) }
{
    Stepped::at_turn(e, e.settings.slave, with_not_ready(e, notready))
}

// A slave's user sets the result of S-InvokeFunc, of n bytes, in any state. The bytes are kept by the caller.
pub fn set_result(e: Core, n: usize) -> Stepped
    ensures { result ≡ plain_step (result_with (bare e) n no_bytes) }
{
    let answer = hand_answer(e.settings.slave, n);
    Stepped::changed(e, answer, with_result(e, word_count(n)))
}

// A slave's user clears it.
#[tactic(auto, using(crate::proofs::Outcomes::turn_step))]
pub fn clear_result(e: Core) -> Stepped
    ensures { result ≡ plain_step (clear_result_of (bare e)) }
{
    Stepped::at_turn(e, e.settings.slave, with_result(e, 0))
}

// A slave's user sets the station's error record, in any state. Its bytes are kept by the caller.
#[tactic(auto, using(crate::proofs::Whole::record_bytes_law))]
pub fn set_record(e: Core, body: &[u8]) -> Stepped
    ensures { result ≡ plain_step (set_record_of (bare e) body.now) }
{
    let answer = record_answer(e.settings.slave, body);
    Stepped::changed(e, answer, with_error_info(e, word_count(body.len())))
}

// A slave's user clears it.
#[tactic(auto, using(crate::proofs::Outcomes::turn_step))]
pub fn clear_record(e: Core) -> Stepped
    ensures { result ≡ plain_step (clear_record_of (bare e)) }
{
    Stepped::at_turn(e, e.settings.slave, with_error_info(e, 0))
}

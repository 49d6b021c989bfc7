// Send: a master's next request in setup, S-Refresh in Refresh.
ghost use Rattle.std.specs.Prelude.{◌≡◌, length, ◌≤◌, false};
ghost use Rattle.endpoint.specs.Endpoint.{bare};
ghost use Rattle.endpoint.specs.Answers.{first_of};
ghost use Rattle.endpoint.specs.Due.{refresh_due};
ghost use Rattle.endpoint.specs.Time.{time_of};
ghost use Rattle.steps.specs.Calls.{is_value_due, send_faults_at, measurement_outcome, send_of};
ghost use Rattle.steps.specs.Says.{with_room, StepSays};
ghost use Rattle.steps.specs.Values.{with_handed};

use super::frames::{
    due_data, measurement_fields, request_fields, send_width, sent_fields, setup_data,
};
use super::{HandedOver, Stepped};
use endpoint::answers::{call_faults, first_of};
use endpoint::time::is_above;
use endpoint::{Answer, Core, Reason, State};
use frame::write::{head_of, write_head};
use frame::{Command, Fields, LONGEST_FRAME};
use transitions::by_call::{measurement_sent, requested};

// Whether a send in Refresh writes the value that is lent.
fn is_value_due(e: Core, clock: u64) -> bool
    ensures { result ≡ is_value_due (bare e) clock }
{
    e.refresh_due(clock) == Command::Refresh
}

fn send_answer(e: Core, clock: u64, stamp: u64, width: usize) -> Answer
    ensures { result ≡ first_of (send_faults_at (bare e) clock stamp width) }
{
    let refresh = e.state == State::Refresh;
    let may = e.may_request();
    first_of(call_faults(
        !(refresh || may),
        refresh && is_value_due(e, clock) && width != send_width(e.settings),
        may && e.is_exhausted(),
        !is_above(e.timestamps.sent, stamp),
    ))
}

// S-RefreshMO or S-RefreshGO, whichever is due. The least length of out is no type: StepSays speaks of all of out.
fn send_measurement(e: Core, clock: u64, stamp: u64, out: &mut [u8]) -> Stepped
    requires { (248 ≤ length out.old) × (stamp ≡ time_of (bare e) clock) × (is_value_due (bare e) clock ≡ false) }
    ensures { StepSays (measurement_outcome (bare e) (refresh_due (bare e) clock) clock)
        out.old out.new result }
{
    let k = e.refresh_due(clock);
    let head = head_of(measurement_fields(e, k, clock, stamp));
    let data = setup_data(e.settings, k);
    let count = write_head(head, data.bytes(), out);
    Stepped {
        answer: Ok(()),
        core: measurement_sent(e, k, clock, stamp),
        count,
    }
}

// The next request, whatever value is lent, or the queued command, whose words or error record were handed over;
// in Refresh the measurement that is due, whatever value is lent, or the value.
#[tactic(auto, using(crate::proofs::Outcomes::short))]
pub fn send(e: Core, handed: HandedOver<'_>, clock: u64, value: &[u8], out: &mut [u8]) -> Stepped
    ensures { StepSays (with_room (length out.old) (bare e)
        (send_of (with_handed handed.entry.words.now handed.entry.errorinfo.now (bare e)) clock value.now))
        out.old out.new result }
{
    if out.len() < LONGEST_FRAME {
        return Stepped::dropped(e, Reason::Buffer);
    }
    let stamp = e.time_of(clock);
    let answer = send_answer(e, clock, stamp, value.len());
    if answer.is_err() {
        return Stepped::refused(e, answer);
    }
    if e.state == State::Refresh {
        if !is_value_due(e, clock) {
            return send_measurement(e, clock, stamp, out);
        }
        let fields = Fields {
            application: e.settings.slave,
            ..sent_fields(e, Command::Refresh, stamp)
        };
        let mut core = e;
        core.timestamps.sent = Some(stamp);
        let count = write_head(head_of(fields), value, out);
        return Stepped {
            answer,
            core,
            count,
        };
    }
    let head = head_of(request_fields(e, clock, stamp));
    let data = due_data(e, handed);
    let count = write_head(head, data.bytes(), out);
    Stepped {
        answer,
        core: requested(e, clock, stamp),
        count,
    }
}

// A user's calls that begin and end a connection: start, stop, restart.
ghost use Rattle.std.specs.Prelude.{◌≡◌, length};
ghost use Rattle.endpoint.specs.Endpoint.{bare};
ghost use Rattle.endpoint.specs.Answers.{first_of};
ghost use Rattle.steps.specs.Calls.{start_of, restart_of, stop_faults_at, stop_of};
ghost use Rattle.steps.specs.Says.{plain_step, with_room, StepSays};

use super::Stepped;
use super::frames::{sent_fields, setup_data};
use endpoint::answers::{call_faults, first_of};
use endpoint::time::is_above;
use endpoint::{Answer, Core, Reason, State};
use frame::write::{head_of, write_head};
use frame::{Command, LONGEST_FRAME};
use transitions::by_call::{restarted, started, stopped};

// A master leaves Close.
pub fn start(e: Core, clock: u64) -> Stepped
    ensures { result ≡ plain_step (start_of (bare e) clock) }
{
    let turn = !e.settings.slave && e.state == State::Close;
    Stepped::at_turn(e, turn, started(e, clock))
}

// From Terminate to Close, with a session number at a slave; timestamps stay remembered.
pub fn restart(e: Core, number: u16) -> Stepped
    ensures { result ≡ plain_step (restart_of (bare e) number) }
{
    Stepped::at_turn(e, e.state.is_terminated(), restarted(e, number))
}

fn stop_answer(e: Core, stamp: u64) -> Answer
    ensures { result ≡ first_of (stop_faults_at (bare e) stamp) }
{
    let ended = e.state == State::Close || e.state.is_terminated();
    let soon = !e.settings.slave && !is_above(e.timestamps.sent, stamp);
    first_of(call_faults(ended, false, false, soon))
}

// Terminate, from any state but Close and Terminate. A master's writes S-Disconnect.
#[tactic(auto, using(crate::proofs::Outcomes::short))]
pub fn stop(e: Core, clock: u64, out: &mut [u8]) -> Stepped
    ensures { StepSays (with_room (length out.old) (bare e) (stop_of (bare e) clock))
        out.old out.new result }
{
    if out.len() < LONGEST_FRAME {
        return Stepped::dropped(e, Reason::Buffer);
    }
    let stamp = e.time_of(clock);
    let answer = stop_answer(e, stamp);
    if answer.is_err() {
        return Stepped::plain(answer, e);
    }
    let core = stopped(e, stamp);
    if e.settings.slave {
        return Stepped::plain(answer, core);
    }
    let head = head_of(sent_fields(e, Command::Disconnect, stamp));
    let data = setup_data(e.settings, Command::Disconnect);
    let count = write_head(head, data.bytes(), out);
    Stepped {
        answer,
        core,
        count,
    }
}

// Show: the last value accepted in this Refresh, or fail-safe.
ghost use Rattle.std.specs.Prelude.{◌≡◌};
ghost use Rattle.endpoint.specs.Endpoint.{bare};
ghost use Rattle.steps.specs.Calls.{is_fail_safe, shown_age};
ghost use Rattle.steps.specs.Says.{ShowSays};
ghost use Rattle.steps.specs.Values.{with_bytes};

use super::Shown;
use super::frames::show_width;
use endpoint::{Core, State};
use frame::LONGEST_FRAME;

fn is_fail_safe(e: Core) -> bool
    ensures { result ≡ is_fail_safe (bare e) }
{
    !(e.state == State::Refresh && e.taken)
}

// How old what is shown is.
fn shown_age(e: Core, clock: u64) -> Option<u64>
    ensures { result ≡ shown_age (bare e) clock }
{
    (!is_fail_safe(e)).then_some(e.held_age(clock))
}

// The value of the other end's last S-Refresh in this Refresh, held in these bytes, and its age; else zero bytes of the
// same width, and the mark.
pub fn show(e: Core, clock: u64, value: &[u8], out: &mut [u8]) -> Shown
    ensures { ShowSays (with_bytes value.now (bare e)) clock out.old out.new result }
{
    let failsafe = is_fail_safe(e);
    let age = shown_age(e, clock);
    if out.len() < LONGEST_FRAME {
        return Shown {
            count: 0,
            failsafe,
            age,
        };
    }
    let width = show_width(e.settings);
    if failsafe {
        out[..width].fill(0);
        return Shown {
            count: width,
            failsafe,
            age,
        };
    }
    let count = width.min(value.len());
    out[..count].copy_from_slice(&value[..count]);
    Shown {
        count,
        failsafe,
        age,
    }
}

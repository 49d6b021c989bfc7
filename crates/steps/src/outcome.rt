// How a step ends: dropped, refused, or done with what it changes. None of these writes anything.
ghost use Rattle.std.specs.Prelude.{◌≡◌, cond, Err, Ok};
ghost use Rattle.endpoint.specs.Endpoint.{bare};
ghost use Rattle.endpoint.specs.Answers.{is_done};
ghost use Rattle.endpoint.specs.declared.Reason.TheVariants as R;
ghost use Rattle.endpoint.specs.declared.Refusal.TheVariants.{Dropped};
ghost use Rattle.steps.specs.Calls.{refused};
ghost use Rattle.steps.specs.Says.{stepped_of, plain_step};

use super::Stepped;
use endpoint::{Answer, Core, Reason, Refusal};

impl Stepped {
    pub(crate) fn plain(answer: Answer, core: Core) -> Stepped
        ensures { result ≡ stepped_of answer core 0 }
    {
        Stepped {
            answer,
            core,
            count: 0,
        }
    }

    // The endpoint stays.
    pub(crate) fn dropped(e: Core, reason: Reason) -> Stepped
        ensures { result ≡ stepped_of (Err (Dropped reason)) e 0 }
    {
        Stepped::plain(Err(Refusal::Dropped(reason)), e)
    }

    // The endpoint stays, or ends where the answer says so.
    pub(crate) fn refused(e: Core, answer: Answer) -> Stepped
        ensures { result ≡ plain_step (refused (bare e) answer) }
    {
        match answer {
            Err(Refusal::Ended(_)) => Stepped::plain(answer, e.ended()),
            Ok(()) | Err(Refusal::Dropped(_)) => Stepped::plain(answer, e),
        }
    }

    // A call that leaves the endpoint so where it is done, and else as it was.
    pub(crate) fn changed(e: Core, answer: Answer, next: Core) -> Stepped
        ensures { result ≡ stepped_of answer (cond (is_done answer) next e) 0 }
    {
        Stepped::plain(answer, if answer.is_ok() { next } else { e })
    }

    // The same where the user has its turn, or has not.
    pub(crate) fn at_turn(e: Core, turn: bool, next: Core) -> Stepped
        ensures { result ≡ cond turn (stepped_of (Ok tt) next 0) (stepped_of (Err (Dropped R.Turn)) e 0) }
    {
        if turn {
            return Stepped::plain(Ok(()), next);
        }
        Stepped::dropped(e, Reason::Turn)
    }
}

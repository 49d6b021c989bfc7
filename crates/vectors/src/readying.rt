// Document 01's case "Readying", run on the two ends of one connection, in session 7: S-RefreshReady sent at 1,000,
// s2 = 6,010, m2 = 1,030, S-RefreshGO at 1,040.
ghost use Rattle.std.specs.Prelude.{◌≡◌, ◌≤◌, length};

use endpoint::{Core, Reason, Refusal};
use frame::read::read_frame;
use steps::{HandedOver, Stepped};

// Neither end's user has handed anything over.
const NOTHING: HandedOver<'static> = HandedOver {
    words: &[],
    errorinfo: &[],
};

#[derive(Clone, Copy)]
struct Pair {
    master: Core,
    slave: Core,
}

// Master 1/2 or slave 1/3, in Close: one word each way, I = 100, R = 50, A = 50; role is the third word.
fn fresh(role: u32) -> Core {
    let list = [
        0x10000102, 0x20000103, role, 0x40000064, 0x50000032, 0x60000032, 0x70000007,
    ];
    transitions::by_call::fresh(settings::settings_at(&list, 0), 7)
}

// No frame of this connection: the end stays, and writes nothing.
fn unheard(e: Core) -> Stepped
    ensures { result.count ≡ 0 }
{
    Stepped {
        answer: Err(Refusal::Dropped(Reason::Length)),
        core: e,
        count: 0,
    }
}

#[tactic(auto, unfolding(words::specs::Output::over))]
fn deliver(e: Core, clock: u64, bytes: &[u8], out: &mut [u8]) -> Stepped
    ensures { result.count ≤ length out.new }
{
    let Ok(read) = read_frame(bytes) else {
        return unheard(e);
    };
    let Some(body) = bytes.get(read.start..read.end) else {
        return unheard(e);
    };
    steps::deliver::deliver(e, NOTHING, clock, read.fields, body, out)
}

impl Pair {
    // In Close; the master's start at 865.
    fn started() -> Pair {
        Pair {
            master: steps::lifecycle::start(fresh(0x30000021), 865).core,
            slave: fresh(0x30000421),
        }
    }

    // The master's next request, written to out at sent, taken by the slave at taken, and its reply by the master at
    // replied.
    #[tactic(auto, unfolding(words::specs::Output::over))]
    fn exchange(self, sent: u64, taken: u64, replied: u64, out: &mut [u8]) -> Pair {
        let mut reply = [0; 248];
        let request = steps::send::send(self.master, NOTHING, sent, &[], out);
        let answer = deliver(self.slave, taken, &out[..request.count], &mut reply);
        let done = deliver(request.core, replied, &reply[..answer.count], &mut [0; 248]);
        Pair {
            master: done.core,
            slave: answer.core,
        }
    }
}

// Leaves the S-RefreshGO request in out.
pub(crate) fn readying(out: &mut [u8]) {
    Pair::started()
        .exchange(870, 5880, 880, out)
        .exchange(910, 5920, 920, out)
        .exchange(955, 5965, 965, out)
        .exchange(1000, 6010, 1030, out)
        .exchange(1040, 6050, 1060, out);
}

// The table of states against commands, laid out like 001's table 40: a row a state, and what is read off it.
ghost use Rattle.std.specs.Prelude.{◌≡◌, ◌<◌};
ghost use Rattle.endpoint.specs.Table.{row_of, column_of, is_setup, is_terminated, next_of, request_of};

use super::State;
use frame::Command;

// In each row: Connect, ConfirmNetwork, VerifyStation, InvokeFunc, ReadErrorInfo, WriteErrorInfo, RefreshReady, RefreshMo,
// RefreshGo, Refresh, Disconnect. Beside what leads somewhere its transition in table 40, or 01 or 02 where that document alone has it.
// Where more error records follow, WriteErrorInfo leads to TerminateMore (the crate transitions).
static NEXT: [[Option<State>; 11]; 10] = [
    // Close
    [
        Some(State::EstablishPending), // ST1
        None,
        None,
        None,
        None,
        None,
        None,
        None,
        None,
        None,
        None,
    ],
    // Starting, a master's alone
    [
        Some(State::EstablishPending), // the reply to its first request
        None,
        None,
        None,
        None,
        None,
        None,
        None,
        None,
        None,
        Some(State::Terminate), // 01
    ],
    // EstablishPending
    [
        Some(State::EstablishPending), // ST25
        Some(State::Establish), // ST2
        None,
        None,
        None,
        Some(State::Terminate), // ST28, ST29
        None,
        None,
        None,
        None,
        Some(State::Terminate), // 01
    ],
    // Establish
    [
        None,
        None,
        Some(State::ParamVerify), // ST4
        None,
        None,
        Some(State::Terminate), // ST31, ST32
        None,
        None,
        None,
        None,
        Some(State::Terminate), // 01
    ],
    // ParamVerify
    [
        None,
        None,
        None,
        Some(State::FuncRunning), // ST7, ST8
        Some(State::ParamVerify), // 02
        Some(State::Terminate), // ST34, ST35
        Some(State::RefreshPending), // ST6
        None,
        None,
        None,
        Some(State::Terminate), // 01
    ],
    // FuncRunning, a slave's alone
    [
        None,
        None,
        None,
        Some(State::FuncRunning), // ST10, ST11
        None, // in ParamVerify only: 02
        Some(State::Terminate), // ST37, ST38
        Some(State::RefreshPending), // ST12
        None,
        None,
        None,
        Some(State::Terminate), // 01
    ],
    // RefreshPending
    [
        None,
        None,
        None,
        None,
        None,
        Some(State::Terminate), // ST39, ST40
        None,
        None,
        Some(State::Refresh), // ST14
        None,
        Some(State::Terminate), // 01
    ],
    // Refresh
    [
        None,
        None,
        None,
        None,
        None,
        None,
        None,
        Some(State::Refresh), // ST17
        Some(State::Refresh), // ST18
        Some(State::Refresh), // 01
        Some(State::Terminate), // 01
    ],
    // Terminate
    [
        None, None, None, None, None, None, // in TerminateMore only: 02
        None, None, None, None, None,
    ],
    // TerminateMore, a slave's alone
    [
        None,
        None,
        None,
        None,
        None,
        Some(State::Terminate), // ST21, ST44
        None,
        None,
        None,
        None,
        None,
    ],
];

// A command's column. An arm each: the columns stand as in table 40 (`column_of`), the variants by their codes.
fn column(k: Command) -> usize
    ensures { (result ≡ column_of k) × (result < 11) }
{
    match k {
        Command::Connect => 0,
        Command::ConfirmNetwork => 1,
        Command::VerifyStation => 2,
        Command::InvokeFunc => 3,
        Command::ReadErrorInfo => 4,
        Command::WriteErrorInfo => 5,
        Command::RefreshReady => 6,
        Command::RefreshMo => 7,
        Command::RefreshGo => 8,
        Command::Refresh => 9,
        Command::Disconnect => 10,
    }
}

impl State {
    // Its row: the variants stand in the order of the rows.
    fn row(self) -> usize
        ensures { (result ≡ row_of self) × (result < 10) }
    {
        self as usize
    }

    // Setup is all between Close and Refresh.
    pub fn is_setup(self) -> bool
        ensures { result ≡ is_setup self }
    {
        matches!(
            self,
            State::Starting
                | State::EstablishPending
                | State::Establish
                | State::ParamVerify
                | State::FuncRunning
                | State::RefreshPending
        )
    }

    // Terminate, whether or not more error records follow.
    pub fn is_terminated(self) -> bool
        ensures { result ≡ is_terminated self }
    {
        matches!(self, State::Terminate | State::TerminateMore)
    }

    // Where a command leads from a state. That the table is the definition's is computed once for all entries.
    #[tactic(auto, using(crate::proofs::Entries::entry))]
    pub fn next_state(self, k: Command) -> Option<State>
        ensures { result ≡ next_of k self }
    {
        NEXT[self.row()][column(k)]
    }

    // The request that is due from a master in a setup state; in Refresh S-RefreshMO.
    pub fn request(self) -> Command
        ensures { result ≡ request_of self }
    {
        match self {
            State::EstablishPending => Command::ConfirmNetwork,
            State::Establish => Command::VerifyStation,
            State::ParamVerify | State::FuncRunning => Command::RefreshReady,
            State::RefreshPending => Command::RefreshGo,
            State::Refresh => Command::RefreshMo,
            State::Close | State::Starting | State::Terminate | State::TerminateMore => {
                Command::Connect
            }
        }
    }
}

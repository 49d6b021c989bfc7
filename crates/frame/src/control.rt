// CTRL: a command's code, the word of the fields, and the form rule.
ghost use Rattle.std.specs.Prelude.{◌≡◌, ◌≤◌, ◌<◌, ◌^◌};
ghost use Rattle.frame.specs.Control.{code_of, listed, subconnection_bits, flag};
ghost use Rattle.frame.specs.Control.{waits_for_station, may_be_busy, is_joined, control_of, has_form};
ghost use Rattle.frame.specs.Control.{ack_fits, application_fits, busy_fits, error_fits, baseline_fits};
ghost use Rattle.frame.specs.Control.{sequence_fits, session_fits};

use super::{Command, Fields, UnlistedCode};

impl From<Command> for u32 {
    ghost from_gives = { λ command code. (code ≡ code_of command) × (code ≤ 255) };

    fn from(command: Command) -> u32 {
        match command {
            Command::Connect => 0x00,
            Command::ConfirmNetwork => 0x01,
            Command::VerifyStation => 0x02,
            Command::InvokeFunc => 0x03,
            Command::Disconnect => 0xF9,
            Command::ReadErrorInfo => 0xFA,
            Command::WriteErrorInfo => 0xFB,
            Command::RefreshReady => 0xFC,
            Command::RefreshMo => 0xFD,
            Command::RefreshGo => 0xFE,
            Command::Refresh => 0xFF,
        }
    }
}

impl TryFrom<u32> for Command {
    type Error = UnlistedCode;

    ghost try_from_gives = { λ code r. r ≡ listed code };

    fn try_from(code: u32) -> Result<Self, UnlistedCode> {
        match code {
            0x00 => Ok(Command::Connect),
            0x01 => Ok(Command::ConfirmNetwork),
            0x02 => Ok(Command::VerifyStation),
            0x03 => Ok(Command::InvokeFunc),
            0xF9 => Ok(Command::Disconnect),
            0xFA => Ok(Command::ReadErrorInfo),
            0xFB => Ok(Command::WriteErrorInfo),
            0xFC => Ok(Command::RefreshReady),
            0xFD => Ok(Command::RefreshMo),
            0xFE => Ok(Command::RefreshGo),
            0xFF => Ok(Command::Refresh),
            _ => Err(UnlistedCode(code)),
        }
    }
}

fn subconnection_bits(subconnection: Option<u16>) -> u32
    ensures { (result ≡ subconnection_bits subconnection) × (result < 131072) }
{
    subconnection.map_or(0, |n| 65536 + u32::from(n))
}

// Bit i where the flag is set.
fn flag(b: bool, i: u32) -> u32
    requires { i < 32 }
    ensures { (result ≡ flag b (2 ^ i)) × (result ≤ 2 ^ i) }
{
    u32::from(b) << i
}

// Whether a station that is not ready holds the command's reply back.
pub fn waits_for_station(k: Command) -> bool
    ensures { result ≡ waits_for_station k }
{
    matches!(
        k,
        Command::ConfirmNetwork | Command::VerifyStation | Command::RefreshReady
    )
}

// Whether a command's reply may have Busy 1.
fn may_be_busy(k: Command) -> bool
    ensures { result ≡ may_be_busy k }
{
    waits_for_station(k) || k == Command::InvokeFunc
}

// Whether Offset op seq joins the command to others.
pub fn is_joined(k: Command) -> bool
    ensures { result ≡ is_joined k }
{
    matches!(k, Command::RefreshMo | Command::RefreshGo)
}

impl Fields {
    // CTRL of the fields.
    #[tactic(auto, unfolding(crate::specs::Control::control_of))]
    pub(crate) fn control(self) -> u32
        ensures { result ≡ control_of self }
    {
        (u32::from(self.command) << 24)
            + flag(self.ack, 23)
            + flag(self.busy, 22)
            + flag(self.error, 21)
            + flag(self.sequence, 20)
            + flag(self.application, 18)
            + subconnection_bits(self.subconnection)
    }

    // The form rule: all of these.
    #[tactic(auto, unfolding(crate::specs::Control::has_form))]
    pub(crate) fn has_form(self) -> bool
        ensures { result ≡ has_form self }
    {
        self.ack_fits()
            && self.application_fits()
            && self.busy_fits()
            && self.error_fits()
            && self.baseline_fits()
            && self.sequence_fits()
            && self.session_fits()
    }

    fn ack_fits(self) -> bool
        ensures { result ≡ ack_fits self }
    {
        !self.ack || !matches!(self.command, Command::Refresh | Command::Disconnect)
    }

    fn application_fits(self) -> bool
        ensures { result ≡ application_fits self }
    {
        self.command == Command::Refresh || self.application == self.ack
    }

    fn busy_fits(self) -> bool
        ensures { result ≡ busy_fits self }
    {
        !self.busy || self.ack && may_be_busy(self.command)
    }

    fn error_fits(self) -> bool
        ensures { result ≡ error_fits self }
    {
        !self.error || self.ack
    }

    fn baseline_fits(self) -> bool
        ensures { result ≡ baseline_fits self }
    {
        self.baseline == 0 || self.command == Command::RefreshGo && !self.ack
    }

    fn sequence_fits(self) -> bool
        ensures { result ≡ sequence_fits self }
    {
        !self.sequence || is_joined(self.command)
    }

    fn session_fits(self) -> bool
        ensures { result ≡ session_fits self }
    {
        self.subconnection.is_none() || self.ack || self.command != Command::Connect
    }
}

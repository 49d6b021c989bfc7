// The calls as C makes them: the call is lent beside the records, and the gateway of the answer is kept in it, for the
// next call. All else of the lent call stays as it was. The crate gateway_c exports each of them under its name:
// fifteen, since C calls each by its own.
ghost use Rattle.std.specs.Prelude.{◌≡◌, length};
ghost use Rattle.records.specs.Records.{is_set};
ghost use Rattle.gateway.specs.Tables.{lent};
ghost use Rattle.gateway.specs.Calls.{start_in, send_in, stop_in, restart_in, set_not_ready_in, set_result_in, clear_result_in};
ghost use Rattle.gateway.specs.Calls.{set_record_in, clear_record_in, invoke_in, read_error_in, write_error_in, show_in};
ghost use Rattle.gateway.specs.Calls.{deliver_in};
ghost use Rattle.gateway.specs.Exports.{told_of, with_gateway, LentCallSays, LentOutputSays, LentLoadSays};

use super::calls::{
    clear_record, clear_result, invoke, read_error, restart, send, set_not_ready, set_record,
    set_result, show, start, stop, write_error,
};
use super::deliver::deliver;
use super::load::load;
use super::{Call, Called, Told};
use endpoint::answers::number;
use records::Record;

// What C is told: all but the gateway.
impl From<Called> for Told {
    ghost from_gives = { λ called r. r ≡ told_of called };

    fn from(called: Called) -> Told {
        Told {
            count: called.count,
            entry: called.entry.unwrap_or(0),
            age: called.age.unwrap_or(0),
            named: u8::from(called.entry.is_some()),
            number: number(called.answer),
            failsafe: u8::from(called.failsafe),
            aged: u8::from(called.age.is_some()),
        }
    }
}

impl Called {
    // Told to C, and the gateway kept in the lent call.
    fn kept_in(self, c: &mut Call) -> Told
        ensures told { result ≡ told_of self }
        ensures kept { c.new ≡ with_gateway c.old self.gateway }
    {
        c.gateway = self.gateway;
        Told::from(self)
    }
}

pub fn folderpink_start(c: &mut Call, rs: &mut [Record]) -> Told
    ensures { LentCallSays (start_in (lent c.old.gateway rs.old) c.old.clock
        c.old.entry) c.old c.new rs.new result }
{
    start(rs, *c).kept_in(c)
}

pub fn folderpink_restart(c: &mut Call, rs: &mut [Record]) -> Told
    ensures { LentCallSays (restart_in (lent c.old.gateway rs.old) c.old.clock
        c.old.entry c.old.session) c.old c.new rs.new result }
{
    restart(rs, *c).kept_in(c)
}

pub fn folderpink_set_not_ready(c: &mut Call, rs: &mut [Record]) -> Told
    ensures { LentCallSays (set_not_ready_in (lent c.old.gateway rs.old)
        c.old.clock c.old.entry (is_set c.old.notready))
        c.old c.new rs.new result }
{
    set_not_ready(rs, *c).kept_in(c)
}

pub fn folderpink_set_result(c: &mut Call, rs: &mut [Record], bytes: &[u8]) -> Told
    ensures { LentCallSays (set_result_in (lent c.old.gateway rs.old)
        c.old.clock c.old.entry bytes.now)
        c.old c.new rs.new result }
{
    set_result(rs, *c, bytes).kept_in(c)
}

pub fn folderpink_clear_result(c: &mut Call, rs: &mut [Record]) -> Told
    ensures { LentCallSays (clear_result_in (lent c.old.gateway rs.old)
        c.old.clock c.old.entry) c.old c.new rs.new result }
{
    clear_result(rs, *c).kept_in(c)
}

pub fn folderpink_set_record(c: &mut Call, rs: &mut [Record], bytes: &[u8]) -> Told
    ensures { LentCallSays (set_record_in (lent c.old.gateway rs.old)
        c.old.clock c.old.entry bytes.now)
        c.old c.new rs.new result }
{
    set_record(rs, *c, bytes).kept_in(c)
}

pub fn folderpink_clear_record(c: &mut Call, rs: &mut [Record]) -> Told
    ensures { LentCallSays (clear_record_in (lent c.old.gateway rs.old)
        c.old.clock c.old.entry) c.old c.new rs.new result }
{
    clear_record(rs, *c).kept_in(c)
}

pub fn folderpink_invoke(c: &mut Call, rs: &mut [Record], bytes: &[u8]) -> Told
    ensures { LentCallSays (invoke_in (lent c.old.gateway rs.old)
        c.old.clock c.old.entry c.old.word bytes.now)
        c.old c.new rs.new result }
{
    invoke(rs, *c, bytes).kept_in(c)
}

pub fn folderpink_read_error(c: &mut Call, rs: &mut [Record]) -> Told
    ensures { LentCallSays (read_error_in (lent c.old.gateway rs.old)
        c.old.clock c.old.entry) c.old c.new rs.new result }
{
    read_error(rs, *c).kept_in(c)
}

pub fn folderpink_write_error(c: &mut Call, rs: &mut [Record], bytes: &[u8]) -> Told
    ensures { LentCallSays (write_error_in (lent c.old.gateway rs.old)
        c.old.clock c.old.entry bytes.now)
        c.old c.new rs.new result }
{
    write_error(rs, *c, bytes).kept_in(c)
}

pub fn folderpink_stop(c: &mut Call, rs: &mut [Record], out: &mut [u8]) -> Told
    ensures { LentOutputSays (stop_in (lent c.old.gateway rs.old) c.old.clock
        (length out.old) c.old.entry)
        c.old c.new rs.new out.old out.new result }
{
    stop(rs, *c, out).kept_in(c)
}

pub fn folderpink_send(c: &mut Call, rs: &mut [Record], value: &[u8], out: &mut [u8]) -> Told
    ensures { LentOutputSays (send_in (lent c.old.gateway rs.old) c.old.clock
        (length out.old) c.old.entry value.now)
        c.old c.new rs.new out.old out.new result }
{
    send(rs, *c, value, out).kept_in(c)
}

pub fn folderpink_show(c: &mut Call, rs: &mut [Record], out: &mut [u8]) -> Told
    ensures { LentOutputSays (show_in (lent c.old.gateway rs.old) c.old.clock
        (length out.old) c.old.entry)
        c.old c.new rs.new out.old out.new result }
{
    show(rs, *c, out).kept_in(c)
}

pub fn folderpink_deliver(c: &mut Call, rs: &mut [Record], bytes: &[u8], out: &mut [u8]) -> Told
    ensures { LentOutputSays (deliver_in (lent c.old.gateway rs.old)
        c.old.clock (length out.old) bytes.now)
        c.old c.new rs.new out.old out.new result }
{
    deliver(rs, *c, bytes, out).kept_in(c)
}

// Of the lent call only the gateway changes, to that of the loaded table; only the session number is read.
pub fn folderpink_load(c: &mut Call, rs: &mut [Record], list: &[u32]) -> Told
    ensures { LentLoadSays list.now rs.old
        c.old c.new rs.new result }
{
    load(rs, *c, list).kept_in(c)
}

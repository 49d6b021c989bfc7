// What C calls (include/folderpink.h): one export for each of gateway's functions of that name, with its clauses.
// The fifteen stay beside gateway's own: the C interface needs a name for each.
#![tactic(auto)]

ghost use Rattle.std.specs.Prelude.{◌≡◌, length};
ghost use Rattle.records.specs.Records.{is_set};
ghost use Rattle.gateway.specs.Tables.{lent};
ghost use Rattle.gateway.specs.Calls.{start_in, send_in, stop_in, restart_in, set_not_ready_in, set_result_in, clear_result_in};
ghost use Rattle.gateway.specs.Calls.{set_record_in, clear_record_in, invoke_in, read_error_in, write_error_in, show_in};
ghost use Rattle.gateway.specs.Calls.{deliver_in};
ghost use Rattle.gateway.specs.Exports.{LentCallSays, LentOutputSays, LentLoadSays};

use gateway::{Call, Told, exports};
use records::Record;

#[unsafe(no_mangle)]
pub extern "C" fn folderpink_start(c: &mut Call, rs: &mut [Record]) -> Told
    ensures { LentCallSays (start_in (lent c.old.gateway rs.old) c.old.clock
        c.old.entry) c.old c.new rs.new result }
{
    exports::folderpink_start(c, rs)
}

#[unsafe(no_mangle)]
pub extern "C" fn folderpink_restart(c: &mut Call, rs: &mut [Record]) -> Told
    ensures { LentCallSays (restart_in (lent c.old.gateway rs.old) c.old.clock
        c.old.entry c.old.session) c.old c.new rs.new result }
{
    exports::folderpink_restart(c, rs)
}

#[unsafe(no_mangle)]
pub extern "C" fn folderpink_set_not_ready(c: &mut Call, rs: &mut [Record]) -> Told
    ensures { LentCallSays (set_not_ready_in (lent c.old.gateway rs.old)
        c.old.clock c.old.entry (is_set c.old.notready))
        c.old c.new rs.new result }
{
    exports::folderpink_set_not_ready(c, rs)
}

#[unsafe(no_mangle)]
pub extern "C" fn folderpink_set_result(c: &mut Call, rs: &mut [Record], bytes: &[u8]) -> Told
    ensures { LentCallSays (set_result_in (lent c.old.gateway rs.old)
        c.old.clock c.old.entry bytes.now)
        c.old c.new rs.new result }
{
    exports::folderpink_set_result(c, rs, bytes)
}

#[unsafe(no_mangle)]
pub extern "C" fn folderpink_clear_result(c: &mut Call, rs: &mut [Record]) -> Told
    ensures { LentCallSays (clear_result_in (lent c.old.gateway rs.old)
        c.old.clock c.old.entry) c.old c.new rs.new result }
{
    exports::folderpink_clear_result(c, rs)
}

#[unsafe(no_mangle)]
pub extern "C" fn folderpink_set_record(c: &mut Call, rs: &mut [Record], bytes: &[u8]) -> Told
    ensures { LentCallSays (set_record_in (lent c.old.gateway rs.old)
        c.old.clock c.old.entry bytes.now)
        c.old c.new rs.new result }
{
    exports::folderpink_set_record(c, rs, bytes)
}

#[unsafe(no_mangle)]
pub extern "C" fn folderpink_clear_record(c: &mut Call, rs: &mut [Record]) -> Told
    ensures { LentCallSays (clear_record_in (lent c.old.gateway rs.old)
        c.old.clock c.old.entry) c.old c.new rs.new result }
{
    exports::folderpink_clear_record(c, rs)
}

#[unsafe(no_mangle)]
pub extern "C" fn folderpink_invoke(c: &mut Call, rs: &mut [Record], bytes: &[u8]) -> Told
    ensures { LentCallSays (invoke_in (lent c.old.gateway rs.old)
        c.old.clock c.old.entry c.old.word bytes.now)
        c.old c.new rs.new result }
{
    exports::folderpink_invoke(c, rs, bytes)
}

#[unsafe(no_mangle)]
pub extern "C" fn folderpink_read_error(c: &mut Call, rs: &mut [Record]) -> Told
    ensures { LentCallSays (read_error_in (lent c.old.gateway rs.old)
        c.old.clock c.old.entry) c.old c.new rs.new result }
{
    exports::folderpink_read_error(c, rs)
}

#[unsafe(no_mangle)]
pub extern "C" fn folderpink_write_error(c: &mut Call, rs: &mut [Record], bytes: &[u8]) -> Told
    ensures { LentCallSays (write_error_in (lent c.old.gateway rs.old)
        c.old.clock c.old.entry bytes.now)
        c.old c.new rs.new result }
{
    exports::folderpink_write_error(c, rs, bytes)
}

#[unsafe(no_mangle)]
pub extern "C" fn folderpink_stop(c: &mut Call, rs: &mut [Record], out: &mut [u8]) -> Told
    ensures { LentOutputSays (stop_in (lent c.old.gateway rs.old) c.old.clock
        (length out.old) c.old.entry)
        c.old c.new rs.new out.old out.new result }
{
    exports::folderpink_stop(c, rs, out)
}

#[unsafe(no_mangle)]
pub extern "C" fn folderpink_send(
    c: &mut Call,
    rs: &mut [Record],
    value: &[u8],
    out: &mut [u8],
) -> Told
    ensures { LentOutputSays (send_in (lent c.old.gateway rs.old) c.old.clock
        (length out.old) c.old.entry value.now)
        c.old c.new rs.new out.old out.new result }
{
    exports::folderpink_send(c, rs, value, out)
}

#[unsafe(no_mangle)]
pub extern "C" fn folderpink_show(c: &mut Call, rs: &mut [Record], out: &mut [u8]) -> Told
    ensures { LentOutputSays (show_in (lent c.old.gateway rs.old) c.old.clock
        (length out.old) c.old.entry)
        c.old c.new rs.new out.old out.new result }
{
    exports::folderpink_show(c, rs, out)
}

#[unsafe(no_mangle)]
pub extern "C" fn folderpink_deliver(
    c: &mut Call,
    rs: &mut [Record],
    bytes: &[u8],
    out: &mut [u8],
) -> Told
    ensures { LentOutputSays (deliver_in (lent c.old.gateway rs.old)
        c.old.clock (length out.old) bytes.now)
        c.old c.new rs.new out.old out.new result }
{
    exports::folderpink_deliver(c, rs, bytes, out)
}

// Of the lent call only the gateway changes, to that of the loaded table; only the session number is read.
#[unsafe(no_mangle)]
pub extern "C" fn folderpink_load(c: &mut Call, rs: &mut [Record], list: &[u32]) -> Told
    ensures { LentLoadSays list.now rs.old
        c.old c.new rs.new result }
{
    exports::folderpink_load(c, rs, list)
}

// The functions over the lent records: what a call reads of them, and what it stores.
ghost use Rattle.std.specs.Prelude.{◌≡◌, ◌<◌, ◌≤◌, length, map, set};
ghost use Rattle.std.specs.Fn.{FnOnceReturnsAtMut};
ghost use Rattle.records.specs.declared.Record.{Record};
ghost use Rattle.gateway.specs.Tables.{record_at};
ghost use Rattle.gateway.specs.Parts.{picked_of, met_of, settled, stepped_record, PutBy};

use super::{Call, Called, Moved, Picked};
use records::{Record, Stored};
use steps::HandedOver;

// What stands past the slice.
const BLANK: Record = Record::BLANK;

// The record at a place.
pub(crate) fn record_at(rs: &[Record], at: usize) -> &Record
    ensures { result.now ≡ record_at rs.now at }
{
    rs.get(at).unwrap_or(&BLANK)
}

// What its user handed over.
pub(crate) fn held(record: &Record) -> HandedOver<'_>
    ensures { (result.words.now ≡ record.now.words) × (result.errorinfo.now ≡ record.now.errorinfo) }
{
    HandedOver {
        words: &record.words,
        errorinfo: &record.errorinfo,
    }
}

// The record of an entry.
pub(crate) fn pick(rs: &[Record], c: Call) -> Picked
    ensures { result ≡ picked_of rs.now c }
{
    Picked {
        stored: record_at(rs, c.entry).stored,
        call: c,
        room: rs.len(),
        spot: c.entry,
    }
}

// The first record of the table that has a CID.
pub(crate) fn seek(rs: &[Record], c: Call, connection: u32) -> Picked
    ensures { result ≡ met_of rs.now c connection }
{
    let spot = rs
        .iter()
        .take(c.gateway.count)
        .position(|record| record.stored.connection == connection)
        .unwrap_or(rs.len());
    Picked {
        stored: record_at(rs, spot).stored,
        call: c,
        room: rs.len(),
        spot,
    }
}

// The clock step on each record. Only what changes is stored.
fn tick(table: &mut [Record], clock: u64)
    ensures { table.new ≡ map (stepped_record clock) table.old }
{
    for record in table.iter_mut() {
        if record.stored.is_over(clock) {
            record.stored = record.stored.ended();
            record.value = [0; 100];
        }
    }
}

// The clock step on the first records; then one record's parts. By index: after a get_mut nothing is known of the elements.
pub(crate) fn settle(rs: &mut [Record], m: &Moved) -> Called
    ensures { (result ≡ m.now.told) × (rs.new ≡ settled rs.old m.now) }
{
    let steps = m.steps.min(rs.len());
    tick(&mut rs[..steps], m.clock);
    if m.spot < rs.len() {
        rs[m.spot].stored = m.stored;
    }
    if m.wipe < rs.len() {
        rs[m.wipe].value = [0; 100];
    }
    m.told
}

// A new value, new words or a new error record in one record; past the slice none. (By index, as in settle.)
pub(crate) fn put<F: FnOnce(&mut Record)>(rs: &mut [Record], at: usize, keep: F)
    requires { F.IsAlwaysCallable keep }
    ensures { PutBy (λ r r'. FnOnceReturnsAtMut F.FnOnce keep r tt r') at rs.old rs.new }
{
    if at < rs.len() {
        keep(&mut rs[at]);
    }
}

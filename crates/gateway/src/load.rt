// Loading a settings list.
ghost use Rattle.std.specs.Prelude.{◌≡◌, ◌%◌, length};
ghost use Rattle.lent.specs.First.{filled};
ghost use Rattle.gateway.specs.Loading.{fresh_at};
ghost use Rattle.gateway.specs.Calls.{LoadSays};
ghost use Rattle.gateway.specs.Parts.{plan_of};

use super::{Call, Called, Gateway};
use endpoint::{Reason, Refusal};
use records::{Record, Stored};
use transitions::by_call::fresh;

// How many connections a list has; or 18, or 2 for a slice of `room` records that is too short.
fn planned(list: &[u32], room: usize) -> Result<usize, Reason>
    ensures { result ≡ plan_of list.now room }
{
    if !settings::is_list(list) {
        return Err(Reason::Settings);
    }
    let count = list.len() / 7;
    if room < count {
        return Err(Reason::Buffer);
    }
    Ok(count)
}

// The list's connections, in Close; its slaves with this session number. (A place has 8 bits: a table has 64 at most.)
fn make(table: &mut [Record], session: u16, list: &[u32])
    ensures { table.new ≡ filled (λ i. fresh_at session list.now (i % 256)) (length table.old) table.old }
{
    for (i, record) in table.iter_mut().enumerate() {
        *record = Record {
            stored: Stored::from(fresh(settings::settings_at(list, (i % 256) as u8), session)),
            ..Record::BLANK
        };
    }
}

// Done with the list's connections in the first records, its slaves with the call's session number; or 18, or 2 for a
// slice that is too short, and none.
pub fn load(rs: &mut [Record], c: Call, list: &[u32]) -> Called
    ensures { LoadSays c.session list.now rs.old rs.new result }
{
    match planned(list, rs.len()) {
        Ok(count) => {
            make(&mut rs[..count], c.session, list);
            Called::of(Gateway { last: 0, count }, Ok(()), None)
        }
        Err(reason) => Called::of(
            Gateway { last: 0, count: 0 },
            Err(Refusal::Dropped(reason)),
            None,
        ),
    }
}

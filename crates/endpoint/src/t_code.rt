// A slave's time in the master's clock in the standard's words: T code and CC (001, 12.7.1.4).
ghost use Rattle.std.specs.Prelude.{◌≡◌};
ghost use Rattle.endpoint.specs.TCode.{lower, wrapped, slave_time};

// The lower 16 bits.
fn lower(x: u64) -> u16
    ensures { result ≡ lower x }
{
    (x % 65536) as u16
}

// 1 where a 16-bit time has passed its end from one value to the next, which is then the lower one; else 0. The
// comparison is that of equation (10).
fn wrapped(from: u16, to: u16) -> u16
    ensures { result ≡ wrapped from to }
{
    u16::from(to < from)
}

// The master's clock as a slave reckons it, when it sends (12.7.1.4) and when it receives (12.7.2.6). Clock is the slave's
// own, offset its ts_offset.
pub fn slave_time(clock: u64, offset: u64) -> u64
    ensures { result ≡ slave_time clock offset }
{
    // T code = (sending_time + ts_offset) mod 2^16: equation (1), and (8) and (9)
    let sending_time = lower(clock);
    let ts_offset = lower(offset);
    let t_code = sending_time.wrapping_add(ts_offset);
    // CC: the upper 32 bits, with the carry, mod 2^32
    let carry = u64::from(wrapped(sending_time, t_code));
    let cc = (clock / 65536).wrapping_add(offset / 65536 + carry) % 4294967296;
    65536 * cc + u64::from(t_code)
}

// What is refused of a store, and of what is to be appended. A count has 16 bits: it is below 65536.
ghost use Rattle.std.specs.Prelude.{◌≡◌, ◌+◌, ◌*◌, ◌≤◌, IfOk, not, ◌&&◌, ◌||◌, ltb, eqb, length};
ghost use Rattle.limits.specs.Limits.{beyond, delay_limit, delays_beyond_lem};
ghost use Rattle.limits.specs.Lists.{any_beyond_lem};
ghost use Rattle.limits.specs.Numbers.{number_of};
ghost use Rattle.decode.specs.Number.{signeds_at};
ghost use Rattle.delays.specs.Store.{most_entries, store_length_lem, start, rising, store_number};
ghost use Rattle.delays.specs.Append.{append_number};

use super::store::{Store, count, group_width, store_length};
use decode::{signed64, unsigned16, unsigned32};
use limits::{Delays, Refusal, delay_beyond, delays_beyond};

// How many entries a store has at most.
const MOST_ENTRIES: usize = 1000;

// Whether each of the first n starts is later than the one before; the two lie in eight bytes.
fn rising(store: &[u8], n: usize) -> bool
    requires n_bound { n ≤ 65536 }
    requires n_in_bounds { 4 + 4 * n ≤ length store.now }
    ensures { result ≡ rising (start store.now) n }
{
    // Kept: places, as two dates stand side by side in eight bytes; a list of dates would be one pass more.
    let mut ok = true;
    for k in 1..n {
        let from = 4 * k;
        let pair = &store[from..from + 8];
        ok = ok & (unsigned32(pair, 0) < unsigned32(pair, 4));
    }
    ok
}

// Whether one of n delays, the first at an offset, is beyond the limit. Offset and n are far below what 64 bits hold, so that no sum
// overflows.
fn any_beyond(store: &[u8], at: usize, n: usize) -> bool
    requires at_bound { at ≤ 1000000 }
    requires n_bound { n ≤ 1000000 }
    requires n_in_bounds { at + 8 * n ≤ length store.now }
    ensures { result ≡ any_beyond_lem delay_limit (signeds_at store.now at 8 n) }
{
    // Kept: places, as the delays begin at an offset of their own; no plainer by parts of eight bytes.
    let mut found = false;
    for i in 0..n {
        let from = at + 8 * i;
        let delay = &store[from..from + 8];
        found = found | delay_beyond(signed64(delay, 0));
    }
    found
}

// Whether the version is neither 1 nor 2, there are too many entries, or the length is another one.
fn head_wrong(store: &[u8], version: u16, entries: usize) -> bool
    requires { entries ≤ 65536 }
    ensures { result ≡ (not (eqb version 1 || eqb version 2) || ltb most_entries entries || not (eqb (length store.now) (store_length_lem version entries))) }
{
    !((version == 1) | (version == 2))
        | (MOST_ENTRIES < entries)
        | !(store.len() == store_length(version, entries))
}

// The store of these bytes, or what they are refused for. Entries are looked at where the length is right, so that no store takes longer than its
// bytes do.
pub fn judge(bytes: &[u8]) -> Result<Store<'_>, Refusal>
    ensures answer { number_of result ≡ store_number bytes.now }
    ensures store { IfOk result (λ store. store.bytes.now ≡ bytes.now) }
{
    let version = unsigned16(bytes, 0);
    let entries = count(bytes);
    if head_wrong(bytes, version, entries) {
        return Err(Refusal::Store);
    }
    if !rising(bytes, entries)
        | any_beyond(bytes, 4 + 4 * entries, group_width(version) * entries)
    {
        return Err(Refusal::Store);
    }
    Ok(Store { bytes })
}

// Whether a new delay is beyond its limit, or a GD is not 0 in version 1.
fn new_beyond(version: u16, delays: Delays) -> bool
    ensures { result ≡ (delays_beyond_lem delays.int delays.cab delays.refdly delays.gd || (eqb version 1 && beyond 0 delays.gd)) }
{
    delays_beyond(delays) | ((version == 1) & (delays.gd != 0))
}

// What an append to an accepted store is refused for.
pub fn append_refusal(store: Store, mjd: u32, delays: Delays, room: usize) -> Result<(), Refusal>
    ensures { number_of result ≡ append_number store.entry.bytes.now mjd delays.int delays.cab delays.refdly delays.gd room }
{
    if new_beyond(store.version(), delays) {
        return Err(Refusal::Store);
    }
    if !store.later(mjd) | (store.count() == MOST_ENTRIES) {
        return Err(Refusal::NotLater);
    }
    if room < store.longer_length() {
        return Err(Refusal::Lent);
    }
    Ok(())
}

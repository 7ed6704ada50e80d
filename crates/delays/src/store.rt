// Where things lie in a store, and what one that is accepted holds. Every count is one of 16 bits.
ghost use Rattle.std.specs.Prelude.{◌≡◌, ◌+◌, ◌*◌, ◌<◌, ◌≤◌, suc, cond, eqb, pos, length, IfSome, MatchOption};
ghost use Rattle.decode.specs.Number.{signed_at_lem};
ghost use Rattle.delays.specs.Store.{version, count, group_width_lem, store_length_lem, start, later, store_number};
ghost use Rattle.delays.specs.Lookup.{in_force_lem, set_of_lem};
ghost use Rattle.delays.specs.Answers.{set_values};

use decode::{signed64, unsigned16, unsigned32};
use limits::Delays;

// How many entries the bytes of a store say it has.
pub fn count(bytes: &[u8]) -> usize
    ensures value { result ≡ count bytes.now }
    ensures upper_bound { result < 65536 }
{
    unsigned16(bytes, 2) as usize
}

// How many delays a group has.
// Kept: the version as a number: head_wrong has to take any, and the clauses speak of the number that the store has.
pub fn group_width(version: u16) -> usize
    ensures value { result ≡ group_width_lem version }
    ensures upper_bound { result ≤ 4 }
{
    if version == 1 { 3 } else { 4 }
}

// The length of a store with so many entries.
pub fn store_length(version: u16, count: usize) -> usize
    requires { count ≤ 65536 }
    ensures { result ≡ store_length_lem version count }
{
    4 + (4 + 8 * group_width(version)) * count
}

// GD at an offset, which reads as 0 from version 1.
fn gd(bytes: &[u8], version: u16, at: usize) -> i64
    ensures { result ≡ cond (eqb version 1) (pos 0) (signed_at_lem bytes.now at) }
{
    if version == 1 { 0 } else { signed64(bytes, at) }
}

// The bytes of a store that is accepted: all that is asked of one is known of it.
#[derive(Clone, Copy)]
pub struct Store<'a> {
    pub bytes: &'a [u8],
    ghost accepted: { store_number bytes.now ≡ 0 },
}

impl Store<'_> {
    pub fn version(self) -> u16
        ensures { result ≡ version self.entry.bytes.now }
    {
        unsigned16(self.bytes, 0)
    }

    // How many entries it has. All dates lie within its bytes.
    pub fn count(self) -> usize
        ensures value { result ≡ count self.entry.bytes.now }
        ensures upper_bound { result ≤ 1000 }
        ensures dates_in_bounds { 4 + 4 * result ≤ length self.entry.bytes.now }
    {
        count(self.bytes)
    }

    // The length that it has with one entry more.
    pub fn longer_length(self) -> usize
        ensures { result ≡ store_length_lem (version self.entry.bytes.now) (suc (count self.entry.bytes.now)) }
    {
        store_length(self.version(), self.count() + 1)
    }

    // Whether a date is later than the last start.
    pub fn later(self, mjd: u32) -> bool
        ensures { result ≡ later (start self.entry.bytes.now) (count self.entry.bytes.now) mjd }
    {
        let entries = self.count();
        if entries == 0 {
            return true;
        }
        unsigned32(self.bytes, 4 * entries) < mjd
    }

    // The entry in force: the latest one that starts not after the date.
    pub fn in_force(self, mjd: u32) -> Option<usize>
        ensures value { MatchOption result
            (0 ≡ in_force_lem (start self.entry.bytes.now) mjd (count self.entry.bytes.now))
            (λ k. k + 1 ≡ in_force_lem (start self.entry.bytes.now) mjd (count self.entry.bytes.now)) }
        ensures upper_bound { IfSome result (λ k. k < 1000) }
    {
        for k in (0..self.count()).rev() {
            let from = 4 + 4 * k;
            let date = &self.bytes[from..from + 4];
            if unsigned32(date, 0) <= mjd {
                return Some(k);
            }
        }
        None
    }

    // The set of entry k.
    pub fn set_of(self, k: usize) -> Delays
        requires { k < 65536 }
        ensures { set_values result ≡ set_of_lem self.entry.bytes.now k }
    {
        let version = self.version();
        let at = 4 + 4 * self.count() + 8 * (group_width(version) * k);
        Delays {
            int: signed64(self.bytes, at),
            cab: signed64(self.bytes, at + 8),
            refdly: signed64(self.bytes, at + 16),
            gd: gd(self.bytes, version, at + 24),
        }
    }
}

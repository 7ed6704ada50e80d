// Writing a store with one entry more, piece by piece from its first byte on. There are at most 1000 entries, so that one more
// still counts in 16 bits.
ghost use Rattle.std.specs.Prelude.{◌≡◌, ◌+◌, ◌*◌, ◌≤◌, length, take};
ghost use Rattle.lent.specs.Placed.{placed};
ghost use Rattle.encode.specs.Encode.{little_bytes, pattern_of};
ghost use Rattle.delays.specs.Store.{version, group_width_lem};
ghost use Rattle.delays.specs.Append.{group_bytes, longer_dates, longer_store};
ghost use Rattle.delays.specs.Answers.{set_values};

use super::store::Store;
use lent::put;
use limits::Delays;

// Puts so many bytes of a number into a lent buffer, from an offset on.
// Kept: `encode` for all widths, as a count has two bytes, a date four and a delay eight: three calls of to_le_bytes are no plainer.
fn put_number(value: u64, width: usize, file: &mut [u8], at: usize)
    requires { at + width ≤ length file.old }
    ensures { file.new ≡ placed file.old at (little_bytes width value) }
{
    let end = at + width;
    encode::unsigned(value, &mut file[at..end]);
}

// Puts a delay into a lent buffer, from an offset on.
fn put_delay(value: i64, file: &mut [u8], at: usize)
    requires { at + 8 ≤ length file.old }
    ensures { file.new ≡ placed file.old at (little_bytes 8 (pattern_of value)) }
{
    put_number(encode::pattern(value), 8, file, at);
}

// Puts the delays of a group into a lent buffer, from an offset on: those that the version has.
fn put_group(version: u16, delays: Delays, file: &mut [u8], at: usize)
    requires { at + 8 * group_width_lem version ≤ length file.old }
    ensures { file.new ≡ placed file.old at (group_bytes (take (group_width_lem version) (set_values delays))) }
{
    put_delay(delays.int, file, at);
    put_delay(delays.cab, file, at + 8);
    put_delay(delays.refdly, file, at + 16);
    if version != 1 {
        put_delay(delays.gd, file, at + 24);
    }
}

// Puts version, count and dates into a lent buffer.
fn put_dates(store: Store, mjd: u32, file: &mut [u8])
    requires { length store.bytes.now + 4 ≤ length file.old }
    ensures { file.new ≡ placed file.old 0 (longer_dates store.entry.bytes.now mjd) }
{
    let entries = store.count();
    let groups = 4 + 4 * entries;
    put(&store.bytes[0..2], file, 0);
    put_number((entries + 1) as u64, 2, file, 2);
    put(&store.bytes[4..groups], file, 4);
    put_number(mjd as u64, 4, file, groups);
}

// Puts the store with one entry more into a lent buffer.
pub fn longer(store: Store, mjd: u32, delays: Delays, file: &mut [u8])
    requires { length store.bytes.now + 4 + 8 * group_width_lem (version store.bytes.now) ≤ length file.old }
    ensures { file.new ≡ placed file.old 0 (longer_store store.entry.bytes.now mjd delays.int delays.cab delays.refdly delays.gd) }
{
    let groups = 4 + 4 * store.count();
    put_dates(store, mjd, file);
    put(&store.bytes[groups..], file, groups + 4);
    put_group(store.version(), delays, file, store.bytes.len() + 4);
}

// Delays by date (document 02, Job 9): a store of them, the set in force at a date, and a store with one entry more. A store that is not one is
// refused with 20, whatever is asked of it; then a lookup with 21 where no start is early enough, and an append with 20, 22 and 9. Nothing is
// written before all of that is accepted, and nothing behind the longer store.
#![tactic(auto)]

ghost use Rattle.std.specs.Prelude.{◌≡◌, length};
ghost use Rattle.limits.specs.Numbers.{reply_of};
ghost use Rattle.delays.specs.Lookup.{lookup_rule};
ghost use Rattle.delays.specs.Append.{append_rule, append_after};
ghost use Rattle.delays.specs.Answers.{delays_reply};

use judge::{append_refusal, judge};
pub use limits::Delays;
use limits::Refusal;

mod judge;
mod store;
mod write;

// The set of the latest start not after the date. The store is judged whole, in time linear in its length, so that halving the dates would gain
// nothing: the entry is found by a walk from the last one.
pub fn lookup(store: &[u8], mjd: u32) -> Result<Delays, Refusal>
    ensures answer { delays_reply result ≡ lookup_rule store.now mjd }
{
    let store = judge(store)?; // 20 before 21
    let Some(k) = store.in_force(mjd) else {
        return Err(Refusal::NotYet);
    };
    Ok(store.set_of(k))
}

// Writes the store with one entry more into the lent buffer, and answers how many bytes that are.
pub fn append(store: &[u8], mjd: u32, delays: Delays, longer: &mut [u8]) -> Result<usize, Refusal>
    ensures answer { reply_of 0 result ≡ append_rule store.now mjd delays.int delays.cab delays.refdly delays.gd (length longer.old) }
    ensures written { longer.new ≡ append_after store.now mjd delays.int delays.cab delays.refdly delays.gd longer.old }
{
    let store = judge(store)?; // 20 before 22 and 9
    append_refusal(store, mjd, delays, longer.len())?;
    write::longer(store, mjd, delays, longer);
    Ok(store.longer_length())
}

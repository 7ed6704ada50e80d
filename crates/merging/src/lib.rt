// One file from two line files (document 02, Job 5): the lines of both, each once, in their order. The first file is refused before the second;
// then two lines of the same keys that differ (15) and a lent file that is too short (17). Nothing is written before all of that is accepted,
// and nothing behind the result.
#![tactic(auto)]

ghost use Rattle.std.specs.Prelude.{◌≡◌, length};
ghost use Rattle.limits.specs.Numbers.{reply_of};
ghost use Rattle.merging.specs.Merge.{merge_rule, merge_after};

use limits::Refusal;

mod walk;

// One file from two, into the lent file: how many bytes it has.
pub fn merge(first: &[u8], second: &[u8], file: &mut [u8]) -> Result<usize, Refusal>
    ensures answer { reply_of 0 result ≡ merge_rule first.now second.now (length file.old) }
    ensures written { file.new ≡ merge_after first.now second.now file.old }
{
    let (lines, others) = linefile::both_accepted(first, second)?;
    let bytes = walk::measure(lines, others)?;
    if file.len() < bytes {
        return Err(Refusal::Room);
    }
    walk::write(lines, others, file);
    Ok(bytes)
}

// A day at once (document 02, Job 10): hire blocks back to back, any bytes, become a line file in a lent one. Each block in turn is refused by
// Block's order without 9, then with 16 where its keys do not follow its forerunner's, and the first that offends is named; then 9 names the
// number of blocks. Nothing is written before every block is accepted. Lines are kept while the blocks are judged, as many as there is room for,
// and those of later blocks are made once more: what is promised does not depend on how many are kept.
#![tactic(auto)]

ghost use Rattle.std.specs.Prelude.{◌≡◌, ◌<◌, ◌^◌, length, take, OnOk, IfOk};
ghost use Rattle.linefile.specs.Files.{file_number};
ghost use Rattle.day.specs.Day.{day_rule, day_after, LinesOfDay, AccurateDay};
ghost use Rattle.day.specs.Answers.{written_of};

use columns::ENDED_LENGTH;
use limits::Refusal;

mod walk;

// How many lines are kept: of a few blocks, of some, and of more. docs/DECISIONS.md says why.
const FEW: usize = 32;

const SOME: usize = 1024;

const MANY: usize = 10000;

// Their bytes.
const FEW_BYTES: usize = ENDED_LENGTH * FEW;

const SOME_BYTES: usize = ENDED_LENGTH * SOME;

const MANY_BYTES: usize = ENDED_LENGTH * MANY;

// The length of a block of 4.
const SHORTEST: usize = 698;

// A day that is refused, and the block that its refusal names.
#[derive(Clone, Copy)]
pub struct Rejected {
    pub refusal: Refusal,
    pub block: usize,
}

// The day's lines, with what is lent to keep lines in while the blocks are judged: how many bytes they are.
fn run(blocks: &[u8], kept: &mut [u8], file: &mut [u8]) -> Result<usize, Rejected>
    ensures answer { written_of result ≡ day_rule blocks.now (length file.old) }
    ensures written { file.new ≡ day_after blocks.now file.old }
{
    let begun = walk::write(blocks, walk::START, kept)?;
    let count = walk::judge(blocks, begun)?;
    if file.len() / ENDED_LENGTH < count {
        return Err(Rejected {
            refusal: Refusal::Lent,
            block: count,
        });
    }
    walk::finish(blocks, begun, kept, file);
    Ok(ENDED_LENGTH * count)
}

// Each number of kept lines has an instance of its own, so that few blocks clear few lines. That time alone is spared: the compiler inlines them,
// and every call takes the stack of the most lines.
fn run_keeping<const N: usize>(blocks: &[u8], file: &mut [u8]) -> Result<usize, Rejected>
    requires { N < 2 ^ 63 }
    ensures answer { written_of result ≡ day_rule blocks.now (length file.old) }
    ensures written { file.new ≡ day_after blocks.now file.old }
{
    let mut kept = [0u8; N];
    run(blocks, &mut kept, file)
}

// By the most lines that can be written, so that none of up to MANY is made twice: no accepted block is shorter than one of 4, and more than there
// is room for are refused.
fn run_sized(blocks: &[u8], file: &mut [u8]) -> Result<usize, Rejected>
    ensures answer { written_of result ≡ day_rule blocks.now (length file.old) }
    ensures written { file.new ≡ day_after blocks.now file.old }
{
    let most = (blocks.len() / SHORTEST).min(file.len() / ENDED_LENGTH);
    if most <= FEW {
        return run_keeping::<FEW_BYTES>(blocks, file);
    }
    if most <= SOME {
        return run_keeping::<SOME_BYTES>(blocks, file);
    }
    run_keeping::<MANY_BYTES>(blocks, file)
}

// Writes the lines of all blocks into the lent file and answers how many bytes they are, or names the first block that is refused.
pub fn day(blocks: &[u8], file: &mut [u8]) -> Result<usize, Rejected>
    ensures answer { written_of result ≡ day_rule blocks.now (length file.old) }
    ensures written { file.new ≡ day_after blocks.now file.old }
    ensures lines { OnOk result (LinesOfDay blocks.now file.new) }
    ensures accurate { OnOk result (AccurateDay blocks.now file.new) }
    ensures file { IfOk result (λ bytes. file_number (take bytes file.new) ≡ 0) }
{
    run_sized(blocks, file)
}

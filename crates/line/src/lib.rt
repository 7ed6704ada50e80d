// Line and Block: labels and the ten numbers of a track, or a hire block, become one data line of 113 columns in a lent line.
// They refuse labels, starts and numbers that the columns cannot hold, a lent line that is too short, and, in a block, what Track
// refuses, in the order of documents 01 and 02. Nothing is written before everything is accepted, and nothing behind the 113 columns.
#![tactic(auto)]

ghost use Rattle.std.specs.Prelude.{◌≡◌, length, OnOk};
ghost use Rattle.limits.specs.Numbers.{number_of};
ghost use Rattle.exact.specs.Accurate.{AccurateTrack};
ghost use Rattle.exact.specs.Corrected.{steps};
ghost use Rattle.columns.specs.Columns.{read_numbers};
ghost use Rattle.line.specs.Line.{line_answer, line_after};
ghost use Rattle.hire.specs.Hire.{blocks_in, block_given};
ghost use Rattle.line.specs.Block.{sizes_number, block_answer, block_after};

use columns::LINE_LENGTH;
pub use labels::{Labels, Numbers};
use limits::Refusal;

// Line of document 01: the line is in the first 113 bytes of the lent one where nothing is refused.
pub fn line(labels: Labels, numbers: Numbers, lent: &mut [u8]) -> Result<(), Refusal>
    ensures answer { number_of result ≡ line_answer labels numbers (length lent.old) }
    ensures written { lent.new ≡ line_after labels numbers lent.old }
{
    labels::refusal(labels, numbers)?;
    if lent.len() < LINE_LENGTH {
        return Err(Refusal::Lent);
    }
    columns::write(labels, numbers, lent);
    Ok(())
}

// What a block is refused for by its sizes and its length.
fn sizes_refusal(block: &[u8]) -> Result<(), Refusal>
    ensures { number_of result ≡ sizes_number block.now }
{
    if block.len() < 4 {
        return Err(Refusal::Length);
    }
    if !hire::sizes_fit(block) {
        return Err(Refusal::Count);
    }
    if block.len() != hire::length(block) {
        return Err(Refusal::Length);
    }
    Ok(())
}

// The line of a hire block: what it is refused for, else its line in the lent one.
pub fn block(block: &[u8], lent: &mut [u8]) -> Result<(), Refusal>
    ensures answer { number_of result ≡ block_answer block.now (length lent.old) }
    ensures written { lent.new ≡ block_after block.now lent.old }
    ensures accurate { OnOk result (AccurateTrack steps (blocks_in block.now) (block_given block.now) (read_numbers lent.new)) }
{
    sizes_refusal(block)?;
    let numbers = hire::track(block)?;
    line(hire::labels(block), numbers, lent)
}

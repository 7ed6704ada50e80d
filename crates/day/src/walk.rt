// The walk over the blocks, one by one. Any byte that is left begins a block, a cut one at worst.
ghost use Rattle.std.specs.Prelude.{◌≡◌, false, ◌&&◌, ◌++◌, ◌+◌, ◌*◌, ◌≤◌, ◌<◌, ◌/◌, ltb, length, take, drop, MatchResult, IfOk, IfErr, OnOk};
ghost use Rattle.limits.specs.Numbers.{number_of, paper_number};
ghost use Rattle.columns.specs.Text.{line_length, ended_length};
ghost use Rattle.lent.specs.Placed.{placed};
ghost use Rattle.hire.specs.Hire.{block_labels};
ghost use Rattle.line.specs.Block.{block_line};
ghost use Rattle.linefile.specs.Files.{keys_of, before};
ghost use Rattle.day.specs.Day.{own_length_lem, behind_number, file_of};
ghost use Rattle.day.specs.Answers.{verdict_of, rejects};
ghost use Rattle.day.specs.Walk.{last_keys, next_block, next_number, behind_next, WithinBytes, Wrote, goes_on, left, verdict};

use crate::Rejected;
use columns::{ENDED_LENGTH, LINE_LENGTH};
use labels::Labels;
use lent::put;
use limits::Refusal;

// Where a walk stands: at a byte, behind so many blocks, and with which labels the last of them.
#[derive(Clone, Copy)]
pub struct State {
    pub at: usize,
    pub count: usize,
    pub last: Option<Labels>,
}

// Before the first block.
pub const START: State = State {
    at: 0,
    count: 0,
    last: None,
};

// Whether the keys of the second labels come after those of the first.
fn follows(last: Labels, next: Labels) -> bool
    ensures { result ≡ before (keys_of last) (keys_of next) }
{
    (last.mjd, last.start, last.constellation, last.satellite)
        < (next.mjd, next.start, next.constellation, next.satellite)
}

// How many of the bytes the block at their beginning takes.
fn own_length(bytes: &[u8]) -> usize
    ensures { (result ≤ length bytes.now) × (take result bytes.now ≡ take (own_length_lem bytes.now) bytes.now) }
{
    hire::length(bytes).min(bytes.len())
}

// What a block is refused for behind one with the last labels; else its own labels, and its line in the lent one.
fn judge_block(
    block: &[u8],
    last: Option<Labels>,
    lent: &mut [u8; ENDED_LENGTH],
) -> Result<Labels, Refusal>
    ensures value { number_of result ≡ behind_number (last_keys last) block.now }
    ensures labels { IfOk result (λ labels. labels ≡ block_labels block.now) }
    ensures lent_after { OnOk result (lent.new ≡ block_line block.now ++ drop line_length lent.old) }
    ensures lent_unchanged { drop line_length lent.new ≡ drop line_length lent.old }
{
    line::block(block, lent)?;
    let labels = hire::labels(block);
    match last {
        Some(last) if !follows(last, labels) => Err(Refusal::Order),
        _ => Ok(labels),
    }
}

// Kept: WithinBytes as a clause of the walk, as a state says nothing of the bytes that it lies within.
// The next block: where the walk stands behind it, its line in the lent one; or that it is refused.
fn step(blocks: &[u8], from: State, lent: &mut [u8; ENDED_LENGTH]) -> Result<State, Rejected>
    requires within_bytes { WithinBytes blocks.now from }
    requires bytes_left { from.at < length blocks.now }
    ensures value { MatchResult result
        (λ next. (next_number blocks.now from ≡ 0) × (next ≡ behind_next blocks.now from))
        (λ rejected. (next_number blocks.now from ≡ paper_number rejected.refusal) × (rejected.block ≡ from.count)) }
    ensures lent_after { OnOk result (lent.new ≡ block_line (next_block blocks.now from) ++ drop line_length lent.old) }
    ensures lent_unchanged { drop line_length lent.new ≡ drop line_length lent.old }
{
    let rest = &blocks[from.at..];
    let n = own_length(rest);
    match judge_block(&rest[..n], from.last, lent) {
        Ok(labels) => Ok(State {
            at: from.at + n,
            count: from.count + 1,
            last: Some(labels),
        }),
        Err(refusal) => Err(Rejected {
            refusal,
            block: from.count,
        }),
    }
}

// The rest of the walk, with no line kept: how many blocks there are.
pub fn judge(blocks: &[u8], from: State) -> Result<usize, Rejected>
    requires { WithinBytes blocks.now from }
    ensures { verdict blocks.now from ≡ verdict_of result }
{
    let mut line = [0u8; ENDED_LENGTH];
    let mut state = from;
    // Kept: a while here and in `write`, as the step writes into a lent line, which an iterator's next can't be handed.
    while state.at < blocks.len() {
        state = step(blocks, state, &mut line)?;
    }
    Ok(state.count)
}

// The walk with each line put into its place, as far as there is room.
pub fn write(blocks: &[u8], from: State, file: &mut [u8]) -> Result<State, Rejected>
    requires within_bytes { WithinBytes blocks.now from }
    requires room { ended_length * from.count ≤ length file.old }
    ensures wrote { IfOk result (λ to. Wrote blocks.now from to file.old file.new) }
    ensures stopped { IfOk result (λ to. goes_on blocks.now to && ltb to.count (length file.old / ended_length) ≡ false) }
    ensures rejected { IfErr result (λ r. verdict blocks.now from ≡ rejects r) }
{
    let room = file.len() / ENDED_LENGTH;
    // Block writes the columns alone, so that the line's end behind them stays.
    let mut line = [b'\n'; ENDED_LENGTH];
    line[LINE_LENGTH] = b'\r';
    let mut state = from;
    while (state.at < blocks.len()) & (state.count < room) {
        let next = step(blocks, state, &mut line)?;
        put(&line, file, ENDED_LENGTH * state.count);
        state = next;
    }
    Ok(state)
}

// The lines that are kept, then those of the blocks behind them: the walk goes on where the kept lines end.
pub fn finish(blocks: &[u8], begun: State, kept: &[u8], file: &mut [u8])
    requires within_bytes { WithinBytes blocks.now begun }
    requires accepted { (verdict blocks.now begun).refusal ≡ 0 }
    requires kept_lines { ended_length * begun.count ≤ length kept.now }
    requires room { ended_length * (begun.count + length (left blocks.now begun)) ≤ length file.old }
    ensures { file.new ≡ placed (placed file.old 0 (take (ended_length * begun.count) kept.now))
        (ended_length * begun.count) (file_of (left blocks.now begun)) }
{
    put(&kept[..ENDED_LENGTH * begun.count], file, 0);
    let _ = write(blocks, begun, file);
}

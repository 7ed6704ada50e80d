// The parts of a hire block: its sizes and the length they make, its labels, and Track of its numbers. Sizes and labels that do not lie within
// the bytes read as 0, so that every block is answered; Block asks first whether there are four bytes, then for the sizes, then for the length.
#![tactic(auto)]

ghost use Rattle.std.specs.Prelude.{◌≡◌, IfOk};
ghost use Rattle.limits.specs.Limits.{no_numbers};
ghost use Rattle.limits.specs.Numbers.{reply_of};
ghost use Rattle.exact.specs.Corrected.{steps};
ghost use Rattle.exact.specs.Accurate.{AccurateTrack};
ghost use Rattle.hire.specs.Hire.{blocks_in, sizes_fit_lem, block_length, byte_at, block_labels, block_given};
ghost use Rattle.hire.specs.Found.{block_track_rule};

use decode::{signed64, unsigned16, unsigned32};
use labels::Labels;
use limits::{Delays, Numbers, Refusal, blocks_fit};

// The byte at an offset.
// Kept: a line beside byte_at of `fields`, whose u64 would be cast back, and bring in a crate.
fn byte(block: &[u8], at: usize) -> u8
    ensures { result ≡ byte_at block.now at }
{
    block.get(at).copied().unwrap_or(0)
}

pub fn labels(block: &[u8]) -> Labels
    ensures { result ≡ block_labels block.now }
{
    Labels {
        constellation: byte(block, 4),
        satellite: byte(block, 5),
        cl: byte(block, 6),
        fr: byte(block, 7),
        hc: byte(block, 8),
        frc1: byte(block, 9),
        frc2: byte(block, 10),
        frc3: byte(block, 11),
        mjd: unsigned32(block, 12),
        start: unsigned32(block, 16),
        elv: unsigned16(block, 20),
        azth: unsigned16(block, 22),
        ioe: unsigned16(block, 24),
    }
}

// Whether the sizes are 15n and n, n from 4 to 52.
pub fn sizes_fit(block: &[u8]) -> bool
    ensures { result ≡ sizes_fit_lem block.now }
{
    let measurements = unsigned16(block, 0) as usize;
    let blocks = unsigned16(block, 2) as usize;
    blocks_fit(blocks) & (measurements == 15 * blocks)
}

// The length in bytes that the sizes make.
pub fn length(block: &[u8]) -> usize
    ensures { result ≡ block_length (blocks_in block.now) }
{
    58 + 160 * unsigned16(block, 2) as usize
}

// Track of the block's numbers, which are not copied into lists: it reads them where they stand. 11 where the block is not as long as its sizes make
// it.
pub fn track(block: &[u8]) -> Result<Numbers, Refusal>
    ensures answer { reply_of no_numbers result ≡ block_track_rule block.now }
    ensures accurate { IfOk result (λ numbers. AccurateTrack steps (blocks_in block.now) (block_given block.now) numbers) }
{
    if block.len() != length(block) {
        return Err(Refusal::Length);
    }
    let n = unsigned16(block, 2) as usize;
    let from = 58 + 120 * n;
    let delays = Delays {
        int: signed64(block, 26),
        cab: signed64(block, 34),
        refdly: signed64(block, 42),
        gd: signed64(block, 50),
    };
    fit::track_packed(&block[58..from], delays, &block[from..])
}

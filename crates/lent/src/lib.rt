// Items put into lent ones, as bytes into a line and numbers into a row, from an offset on. What does not fit is not put at all: then the lent
// ones stay as they are.
#![tactic(auto)]

ghost use Rattle.std.specs.Prelude.{length, ◌≡◌, ◌+◌, leb};
ghost use Rattle.lent.specs.Placed.{placed_within};

// Whether so many items from an offset on lie within the room there is.
fn fits(at: usize, items: usize, room: usize) -> bool
    ensures { result ≡ leb (at + items) room }
{
    if room < at {
        return false;
    }
    items <= room - at
}

// Copies items over as many lent ones.
// Kept: a loop, as copy_from_slice calls memmove and the archive may need memset alone.
fn copy<T: Copy>(items: &[T], lent: &mut [T])
    requires { length lent.old ≡ length items.now }
    ensures { lent.new ≡ items.now }
{
    for (i, item) in items.iter().enumerate() {
        lent[i] = *item;
    }
}

// Puts items into lent ones, from an offset on.
pub fn put<T: Copy>(items: &[T], lent: &mut [T], at: usize)
    ensures { lent.new ≡ placed_within lent.old at items.now }
{
    if fits(at, items.len(), lent.len()) {
        let end = at + items.len();
        copy(items, &mut lent[at..end]);
    }
}

//! Many bytes at once: a mask has a bit for each.

ghost use Rattle.std.specs.Prelude.{◌≡◌};
ghost use Rattle.page_env.specs.Lanes.{first_set};

/// Where the lowest bit that is set stands, or how many lanes there are where none is.
#[inline(always)]
pub(crate) fn first_set(mask: u64, lanes: usize) -> usize
    ensures { result ≡ first_set mask lanes }
{
    if mask == 0 {
        lanes
    } else {
        mask.trailing_zeros() as usize
    }
}

//! The lowest page with the tag, over the frames.
ghost use Rattle.std.specs.Prelude.{◌≡◌, ◌<◌};
ghost use Rattle.frame_pool.specs.Pool.{frames_of};
ghost use Rattle.paged_memory.specs.Marking.{lower_of, IsFirst, IsTagged, HasTag};

use frame_pool::FramePool;

/// The lower of two pages, of those that there are.
pub(crate) fn lower(one: Option<u32>, two: Option<u32>) -> Option<u32>
    ensures { result ≡ lower_of one two }
{
    match (one, two) {
        (Some(a), Some(b)) => Some(a.min(b)),
        (Some(a), None) => Some(a),
        (None, _) => two,
    }
}

/// The page in a frame, if it has the tag and isn't below `from`.
fn tagged_page(pool: &FramePool, frame: u32, from: u32) -> Option<u32>
    requires { frame < frames_of pool.now }
    ensures { IsFirst (IsTagged pool.now frame) from result }
{
    if !pool.tagged(frame) {
        return None;
    }
    match pool.page_of(frame) {
        Some(page) if from <= page => Some(page),
        _ => None,
    }
}

/// The lowest page, not below `from`, that is in a frame with the tag.
pub(crate) fn lowest_tagged(pool: &FramePool, frames: u32, from: u32) -> Option<u32>
    requires { frames ≡ frames_of pool.now }
    ensures { IsFirst (HasTag pool.now frames) from result }
{
    let mut lowest = None;
    for frame in 0..frames {
        lowest = lower(lowest, tagged_page(pool, frame, from));
    }
    lowest
}

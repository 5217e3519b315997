//! A table of the events of three frames, and which page is then the least recently used.
ghost use Rattle.std.specs.Prelude.{◌≡◌};
ghost use Rattle.frame_pool.specs.Pool.{frames_of};

use frame_pool::FramePool;
use std::test::Fail;
use store_word::Word;

#[derive(Clone, Copy)]
enum Event {
    Take(u32),
    Touch(u32),
    GiveBack(u32),
}

use Event::{GiveBack, Take, Touch};

// Applies an event, if it is allowed.
fn apply(pool: &mut FramePool, event: Event) -> bool
    requires { frames_of pool.old ≡ 3 }
    ensures { frames_of pool.new ≡ 3 }
{
    match event {
        Take(page) => match pool.free_frame() {
            Some(frame) => {
                pool.take(frame, page);
                pool.set_word(frame, 255, Word::nil());
            }
            None => return false,
        },
        Touch(frame) => {
            if frame >= 3 || pool.page_of(frame).is_none() {
                return false;
            }
            pool.touch(frame);
        }
        GiveBack(frame) => {
            if frame >= 3 || pool.page_of(frame).is_none() {
                return false;
            }
            pool.give_back(frame);
        }
    }
    true
}

// An event, and which page is then the least recently used.
const EVENTS: [(Event, Option<u32>); 10] = [
    (Take(70), Some(0)),
    (Take(71), Some(0)),
    (Take(72), Some(0)),
    (Touch(2), Some(0)),
    (Touch(0), Some(1)),
    (GiveBack(1), Some(2)),
    (Touch(2), Some(0)),
    (Take(73), Some(0)),
    (GiveBack(0), Some(2)),
    (GiveBack(2), Some(1)),
];

#[test]
fn events_of_three_frames(rt: HostRuntime) -> Result<(), Fail> {
    let mut pool = FramePool::new(rt.alloc(), 3)?;
    assert!(rt; pool.oldest().is_none());
    for (event, oldest) in EVENTS {
        assert!(rt; apply(&mut pool, event));
        assert!(rt; pool.oldest() == oldest);
    }
    assert!(rt; pool.page_of(1) == Some(73));
    Ok(())
}

#[test]
fn a_frame_taken_with_its_words(rt: HostRuntime) -> Result<(), Fail> {
    let mut pool = FramePool::new(rt.alloc(), 1)?;
    let frame = pool.free_frame().ok_or("no frame")?;
    pool.take_filled(frame, 70, &[Word::fixnum(7); 256]);
    assert!(rt; pool.page_of(frame) == Some(70));
    assert!(rt; pool.words(frame)[255].bits() == Word::fixnum(7).bits());
    Ok(())
}

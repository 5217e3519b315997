//! Page frames: the words of the pages in memory, a tag for each frame, and the order of their use.
//!
//! Contracts see the free frames, the taken ones with the least recently used first, and for each
//! frame its page, its tag and its 256 words (`specs/Pool.antt`). Begin with `pool`, the calls;
//! `words` has the two changes of a whole frame.
#![tactic(auto)]

mod pool;
mod words;

pub use pool::FramePool;

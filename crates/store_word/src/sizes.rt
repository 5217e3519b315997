//! The sizes of pages, regions and objects. `_WORDS` counts words, `_PAGES` pages. A name with `_LEN` is the same
//! number as the length of a slice.

/// The number of words on a page.
pub const PAGE_WORDS: u32 = 256;

/// The length of a slice that has the words of a page.
pub const PAGE_LEN: usize = 256;

/// The offset of the last word of a page.
pub const LAST_OFFSET: u32 = 255;

/// The number of words in a region.
pub const REGION_WORDS: u32 = 4096;

/// The length of a slice that has the words of a region.
pub const REGION_LEN: usize = 4096;

/// The number of pages in a region.
pub const REGION_PAGES: u32 = 16;

/// The greatest number of words of an object: a block of 2,047 fields, with its header.
pub const MAX_OBJECT_WORDS: u32 = 2048;

/// The greatest number of words that a command copies if it transports two objects.
pub const MAX_MOVED_WORDS: u32 = 4096;

//! The sessions. Areas 0, 1 and 2 are dynamic, ephemeral and static; register 7 is always nil.
use crate::call::Call;
use lisp_graph::{CommandHead, Condemn};

/// A scan to the end of a collection.
const ALL: Call = Call::Do(CommandHead::Scavenge { count: 1_000_000 });

const EVICT: Call = Call::Do(CommandHead::PageOut { count: 32 });

/// Begins a collection of everything outside static areas.
const FLIP: Call = Call::Do(CommandHead::Flip {
    what: Condemn::Full,
});

const RECLAIM: Call = Call::Do(CommandHead::Reclaim);

// Conses in pairs and in cells, a cell that becomes a pair, blocks, and registers that hold neither a cons nor a block; in each area.
static SHAPES: [Call; 41] = [
    Call::Do(CommandHead::Car { to: 0, from: 7 }),
    Call::Do(CommandHead::Size { of: 7 }),
    Call::Do(CommandHead::Make {
        to: 0,
        area: 0,
        code: 1,
        length: 3,
    }),
    Call::Do(CommandHead::Cons {
        to: 1,
        area: 0,
        car: 0,
        cdr: 7,
    }),
    Call::List {
        to: 2,
        area: 0,
        item: 0,
        count: 5,
    },
    Call::Do(CommandHead::Cdr { to: 3, from: 2 }),
    Call::Do(CommandHead::Cdr { to: 3, from: 3 }),
    Call::Do(CommandHead::Rplacd { target: 3, from: 1 }),
    Call::Do(CommandHead::Rplacd { target: 3, from: 7 }),
    Call::Do(CommandHead::Put {
        target: 0,
        index: 1,
        from: 2,
    }),
    Call::Do(CommandHead::Put {
        target: 0,
        index: 3,
        from: 2,
    }),
    Call::Do(CommandHead::Get {
        to: 4,
        from: 0,
        index: 4_294_967_295,
    }),
    Call::Do(CommandHead::Get {
        to: 4,
        from: 0,
        index: 1,
    }),
    Call::Do(CommandHead::Eq { left: 4, right: 2 }),
    Call::Do(CommandHead::Rplaca { target: 4, from: 1 }),
    Call::Do(CommandHead::Cons {
        to: 4,
        area: 1,
        car: 2,
        cdr: 0,
    }),
    Call::List {
        to: 5,
        area: 1,
        item: 0,
        count: 3,
    },
    Call::Do(CommandHead::Make {
        to: 6,
        area: 1,
        code: 65_535,
        length: 256,
    }),
    Call::Do(CommandHead::Put {
        target: 6,
        index: 255,
        from: 4,
    }),
    Call::Do(CommandHead::Cons {
        to: 3,
        area: 2,
        car: 6,
        cdr: 3,
    }),
    EVICT,
    FLIP,
    FLIP,
    RECLAIM,
    Call::Do(CommandHead::Scavenge { count: 5 }),
    EVICT,
    ALL,
    EVICT,
    RECLAIM,
    RECLAIM,
    Call::Do(CommandHead::Make {
        to: 6,
        area: 0,
        code: 9,
        length: 0,
    }),
    Call::Do(CommandHead::Grow {
        target: 6,
        length: 0,
    }),
    Call::Do(CommandHead::Grow {
        target: 6,
        length: 1,
    }),
    Call::Do(CommandHead::Grow {
        target: 5,
        length: 1,
    }),
    Call::Do(CommandHead::Move { to: 0, from: 7 }),
    Call::Do(CommandHead::Move { to: 2, from: 5 }),
    EVICT,
    FLIP,
    ALL,
    RECLAIM,
    Call::Do(CommandHead::Scavenge { count: 1 }),
];

// Objects of two levels, that a dynamic and a static area refer to; the second collection takes those of the first that survived.
static LEVELS: [Call; 30] = [
    Call::Do(CommandHead::Make {
        to: 0,
        area: 0,
        code: 1,
        length: 300,
    }),
    Call::Do(CommandHead::Make {
        to: 1,
        area: 2,
        code: 2,
        length: 300,
    }),
    Call::List {
        to: 2,
        area: 1,
        item: 0,
        count: 4,
    },
    Call::Do(CommandHead::Cons {
        to: 3,
        area: 1,
        car: 2,
        cdr: 7,
    }),
    Call::Do(CommandHead::Put {
        target: 0,
        index: 0,
        from: 2,
    }),
    Call::Do(CommandHead::Put {
        target: 1,
        index: 299,
        from: 3,
    }),
    Call::Do(CommandHead::Make {
        to: 2,
        area: 1,
        code: 3,
        length: 2,
    }),
    Call::Do(CommandHead::Put {
        target: 2,
        index: 1,
        from: 3,
    }),
    Call::Do(CommandHead::Make {
        to: 3,
        area: 1,
        code: 4,
        length: 600,
    }),
    EVICT,
    Call::FlipLevels { up_to: 1 },
    ALL,
    RECLAIM,
    Call::Do(CommandHead::Move { to: 3, from: 7 }),
    Call::List {
        to: 4,
        area: 1,
        item: 1,
        count: 3,
    },
    Call::Do(CommandHead::Put {
        target: 0,
        index: 299,
        from: 4,
    }),
    Call::Do(CommandHead::Move { to: 4, from: 7 }),
    EVICT,
    Call::FlipLevels { up_to: 1 },
    Call::Do(CommandHead::Scavenge { count: 3 }),
    EVICT,
    ALL,
    RECLAIM,
    EVICT,
    Call::FlipLevels { up_to: 2 },
    ALL,
    RECLAIM,
    FLIP,
    ALL,
    RECLAIM,
];

// Base pages that are partly used at the flip. Between single scans, objects after their used words are made, written and grown.
static CUT_PAGE: [Call; 36] = [
    Call::Do(CommandHead::Make {
        to: 0,
        area: 2,
        code: 1,
        length: 99,
    }),
    Call::Do(CommandHead::Make {
        to: 1,
        area: 0,
        code: 2,
        length: 99,
    }),
    Call::List {
        to: 2,
        area: 1,
        item: 0,
        count: 4,
    },
    Call::Do(CommandHead::Make {
        to: 3,
        area: 1,
        code: 3,
        length: 3,
    }),
    Call::Do(CommandHead::Put {
        target: 3,
        index: 2,
        from: 2,
    }),
    Call::Do(CommandHead::Put {
        target: 0,
        index: 98,
        from: 3,
    }),
    Call::Do(CommandHead::Put {
        target: 1,
        index: 98,
        from: 2,
    }),
    Call::Do(CommandHead::Move { to: 2, from: 7 }),
    EVICT,
    Call::FlipLevels { up_to: 1 },
    Call::Do(CommandHead::Cons {
        to: 4,
        area: 2,
        car: 3,
        cdr: 0,
    }),
    Call::Do(CommandHead::Scavenge { count: 1 }),
    Call::Do(CommandHead::Make {
        to: 5,
        area: 0,
        code: 4,
        length: 5,
    }),
    Call::Do(CommandHead::Put {
        target: 5,
        index: 4,
        from: 4,
    }),
    Call::Do(CommandHead::Scavenge { count: 1 }),
    Call::Do(CommandHead::Get {
        to: 6,
        from: 0,
        index: 98,
    }),
    Call::Do(CommandHead::Scavenge { count: 1 }),
    Call::Do(CommandHead::Get {
        to: 2,
        from: 3,
        index: 2,
    }),
    Call::Do(CommandHead::Cdr { to: 6, from: 2 }),
    Call::Do(CommandHead::Rplacd { target: 2, from: 5 }),
    Call::Do(CommandHead::Scavenge { count: 9 }),
    EVICT,
    Call::List {
        to: 6,
        area: 1,
        item: 2,
        count: 3,
    },
    Call::Do(CommandHead::Rplaca { target: 4, from: 6 }),
    Call::Do(CommandHead::Scavenge { count: 9 }),
    Call::Do(CommandHead::Grow {
        target: 5,
        length: 6,
    }),
    Call::Do(CommandHead::Grow {
        target: 0,
        length: 100,
    }),
    Call::Do(CommandHead::Scavenge { count: 100 }),
    Call::Do(CommandHead::Cons {
        to: 6,
        area: 0,
        car: 6,
        cdr: 5,
    }),
    ALL,
    Call::Do(CommandHead::Cons {
        to: 6,
        area: 1,
        car: 6,
        cdr: 5,
    }),
    RECLAIM,
    EVICT,
    FLIP,
    ALL,
    RECLAIM,
];

// A block that grows from no field to 2,047, the last times in other regions; its places lead to each other.
static CHAIN: [Call; 27] = [
    Call::Do(CommandHead::Make {
        to: 0,
        area: 0,
        code: 1,
        length: 0,
    }),
    Call::Do(CommandHead::Cons {
        to: 1,
        area: 0,
        car: 0,
        cdr: 7,
    }),
    Call::Do(CommandHead::Grow {
        target: 0,
        length: 1,
    }),
    Call::Do(CommandHead::Grow {
        target: 0,
        length: 2,
    }),
    Call::Do(CommandHead::Grow {
        target: 0,
        length: 4,
    }),
    Call::Do(CommandHead::Grow {
        target: 0,
        length: 8,
    }),
    Call::Do(CommandHead::Make {
        to: 2,
        area: 0,
        code: 2,
        length: 2_000,
    }),
    Call::Do(CommandHead::Grow {
        target: 0,
        length: 16,
    }),
    Call::Do(CommandHead::Grow {
        target: 0,
        length: 32,
    }),
    Call::Do(CommandHead::Grow {
        target: 0,
        length: 64,
    }),
    Call::Do(CommandHead::Grow {
        target: 0,
        length: 128,
    }),
    Call::Do(CommandHead::Grow {
        target: 0,
        length: 256,
    }),
    Call::Do(CommandHead::Grow {
        target: 0,
        length: 512,
    }),
    Call::Do(CommandHead::Put {
        target: 0,
        index: 1_022,
        from: 1,
    }),
    Call::Do(CommandHead::Move { to: 2, from: 7 }),
    Call::Do(CommandHead::Grow {
        target: 0,
        length: 1_024,
    }),
    EVICT,
    FLIP,
    Call::Do(CommandHead::Car { to: 3, from: 1 }),
    Call::Do(CommandHead::Get {
        to: 4,
        from: 3,
        index: 1_022,
    }),
    Call::Do(CommandHead::Get {
        to: 4,
        from: 3,
        index: 2_046,
    }),
    ALL,
    RECLAIM,
    Call::Do(CommandHead::Grow {
        target: 0,
        length: 2_047,
    }),
    FLIP,
    ALL,
    RECLAIM,
];

// Blocks that grow before they are scanned and after it, in old places and in new ones.
static GROWING: [Call; 25] = [
    Call::List {
        to: 0,
        area: 0,
        item: 0,
        count: 2,
    },
    Call::Do(CommandHead::Make {
        to: 1,
        area: 0,
        code: 1,
        length: 3,
    }),
    Call::Do(CommandHead::Put {
        target: 1,
        index: 0,
        from: 0,
    }),
    Call::Do(CommandHead::Make {
        to: 2,
        area: 0,
        code: 2,
        length: 3,
    }),
    Call::Do(CommandHead::Put {
        target: 2,
        index: 2,
        from: 1,
    }),
    Call::Do(CommandHead::Make {
        to: 3,
        area: 1,
        code: 3,
        length: 3,
    }),
    Call::Do(CommandHead::Put {
        target: 3,
        index: 1,
        from: 2,
    }),
    Call::Do(CommandHead::Cons {
        to: 4,
        area: 0,
        car: 3,
        cdr: 7,
    }),
    Call::Do(CommandHead::Put {
        target: 1,
        index: 1,
        from: 4,
    }),
    EVICT,
    FLIP,
    Call::Do(CommandHead::Grow {
        target: 1,
        length: 4,
    }),
    Call::Do(CommandHead::Scavenge { count: 2 }),
    Call::Do(CommandHead::Grow {
        target: 2,
        length: 9,
    }),
    Call::Do(CommandHead::Scavenge { count: 8 }),
    Call::Do(CommandHead::Grow {
        target: 1,
        length: 300,
    }),
    EVICT,
    Call::Do(CommandHead::Scavenge { count: 40 }),
    Call::Do(CommandHead::Grow {
        target: 3,
        length: 8,
    }),
    ALL,
    RECLAIM,
    Call::Do(CommandHead::Grow {
        target: 3,
        length: 20,
    }),
    FLIP,
    ALL,
    RECLAIM,
];

// Cells whose cars are old become pairs, before a scan and between two; and a flip of levels whose marks are in frames.
static RELAID: [Call; 23] = [
    Call::Do(CommandHead::Make {
        to: 1,
        area: 0,
        code: 1,
        length: 1,
    }),
    Call::List {
        to: 0,
        area: 0,
        item: 1,
        count: 3,
    },
    Call::Do(CommandHead::Cdr { to: 2, from: 0 }),
    Call::Do(CommandHead::Rplaca { target: 2, from: 1 }),
    EVICT,
    FLIP,
    Call::Do(CommandHead::Rplacd { target: 0, from: 7 }),
    Call::Do(CommandHead::Scavenge { count: 1 }),
    Call::Do(CommandHead::Rplacd { target: 2, from: 0 }),
    ALL,
    Call::Do(CommandHead::Car { to: 3, from: 0 }),
    Call::Do(CommandHead::Car { to: 4, from: 2 }),
    Call::Do(CommandHead::Eq { left: 3, right: 4 }),
    RECLAIM,
    Call::Do(CommandHead::Make {
        to: 0,
        area: 2,
        code: 2,
        length: 1,
    }),
    Call::Do(CommandHead::Cons {
        to: 1,
        area: 1,
        car: 3,
        cdr: 7,
    }),
    Call::Do(CommandHead::Put {
        target: 0,
        index: 0,
        from: 1,
    }),
    Call::Do(CommandHead::Move { to: 1, from: 7 }),
    Call::FlipLevels { up_to: 1 },
    Call::Do(CommandHead::Scavenge { count: 9 }),
    ALL,
    Call::Do(CommandHead::Get {
        to: 1,
        from: 0,
        index: 0,
    }),
    RECLAIM,
];

// A list of 1,024 cells that is cut, and a block of 2,047 fields after a cell, whose words are on nine pages.
static LARGE: [Call; 18] = [
    Call::List {
        to: 0,
        area: 0,
        item: 6,
        count: 1,
    },
    Call::Do(CommandHead::Make {
        to: 1,
        area: 0,
        code: 1,
        length: 2_047,
    }),
    Call::Do(CommandHead::Put {
        target: 1,
        index: 2_046,
        from: 0,
    }),
    Call::List {
        to: 2,
        area: 0,
        item: 0,
        count: 1_024,
    },
    Call::Do(CommandHead::Cdr { to: 3, from: 2 }),
    Call::Do(CommandHead::Cdr { to: 3, from: 3 }),
    Call::Do(CommandHead::Rplacd { target: 3, from: 2 }),
    Call::Do(CommandHead::Cdr { to: 4, from: 2 }),
    Call::Do(CommandHead::Rplaca { target: 4, from: 1 }),
    EVICT,
    FLIP,
    Call::Do(CommandHead::Scavenge { count: 3 }),
    EVICT,
    ALL,
    RECLAIM,
    FLIP,
    ALL,
    RECLAIM,
];

/// The end of each session: a running collection is ended; then a full one leaves only what the registers
/// lead to, and what is static.
pub(crate) const END: [Call; 5] = [ALL, RECLAIM, FLIP, ALL, RECLAIM];

/// How many sessions there are.
pub(crate) const SESSIONS: u32 = 7;

/// The calls of a session, by its number; none from their number on.
pub(crate) fn calls(number: u32) -> &'static [Call] {
    match number {
        0 => &SHAPES,
        1 => &LEVELS,
        2 => &CUT_PAGE,
        3 => &CHAIN,
        4 => &GROWING,
        5 => &RELAID,
        6 => &LARGE,
        _ => &[],
    }
}

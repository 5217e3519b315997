//! Sessions, with the expected replies.

/// A world, commands that are run in it, and the text of their replies.
#[derive(Clone, Copy)]
pub(crate) struct Case {
    pub world: &'static str,
    pub commands: &'static str,
    pub replies: &'static str,
}

/// A world with an area for three cells.
pub(crate) const NINE_WORDS: &str = "lispm-world 1\nspace 16 32 8 1 2\narea work dynamic 9\n";

/// A world with a dynamic area.
pub(crate) const HUNDRED_WORDS: &str = "lispm-world 1\nspace 16 32 8 1 2\narea work dynamic 100\n";

/// A world with a static area and an ephemeral one.
pub(crate) const TWO_AREAS: &str =
    "lispm-world 1\nspace 16 32 8 1 2\narea perm static 100\narea pool ephemeral 100\n";

/// A page outside leads into what is condemned.
pub(crate) const BASE_PAGE: Case = Case {
    world: TWO_AREAS,
    commands: "set 0 7\ncons 1 pool 0 0\ncons 2 perm 1 0\nset 1 nil\npage-out 32\nflip 1\nscavenge 1000\nreclaim\ncar 3 2\ncar 4 3\nstats\n",
    replies: "ok\nok\nok\nok\nok\nflipped 1\ndone\nreclaimed\ncons\n7\narea perm 2 100\narea pool 2 100\n",
};

/// Both forwards in one list.
pub(crate) const BOTH_FORWARDS: Case = Case {
    world: HUNDRED_WORDS,
    commands: "set 0 7\nlist 1 work 0 0\ncdr 2 1\nflip full\nrplacd 2 0\ncdr 3 1\neq 3 2\ncdr 4 3\n",
    replies: "ok\nok\ncons\nflipped 0\nok\ncons\nt\n7\n",
};

pub(crate) const CASES: [Case; 22] = [
    // The last cell of a full area's list gets another cdr.
    Case {
        world: NINE_WORDS,
        commands: "set 0 7\nlist 1 work 0 0 0\ncdr 2 1\nset 3 nil\nrplacd 2 3\ncdr 4 2\nstats\n",
        replies: "ok\nok\ncons\nok\nok\nnil\narea work 9 9\n",
    },
    // It is the same cons after its forward.
    Case {
        world: NINE_WORDS,
        commands: "set 0 7\nlist 1 work 0 0 0\ncdr 2 1\nset 3 nil\nrplacd 2 3\ncdr 4 2\nstats\ncdr 5 1\neq 5 2\neq 5 1\n",
        replies: "ok\nok\ncons\nok\nok\nnil\narea work 9 9\ncons\nt\nnil\n",
    },
    // The first cell is released.
    Case {
        world: NINE_WORDS,
        commands: "set 0 7\nlist 1 work 0 0 0\ncdr 2 1\nset 1 nil\nflip full\nscavenge 100\nreclaim\nstats\n",
        replies: "ok\nok\ncons\nok\nflipped 0\ndone\nreclaimed\narea work 6 9\n",
    },
    // The rest of a list moves before its first cell.
    Case {
        world: NINE_WORDS,
        commands: "set 0 7\nlist 2 work 0 0 0\ncdr 1 2\nflip full\nscavenge 100\nreclaim\ncdr 3 2\neq 3 1\nstats\n",
        replies: "ok\nok\ncons\nflipped 0\ndone\nreclaimed\ncons\nt\narea work 9 9\n",
    },
    // What is unreachable is freed.
    Case {
        world: "lispm-world 1\nspace 16 32 8 1 2\narea work dynamic 4\n",
        commands: "set 0 1\ncons 1 work 0 0\ncons 1 work 0 0\ncons 2 work 0 0\nflip full\nscavenge 100\nreclaim\ncons 2 work 0 0\nstats\n",
        replies: "ok\nok\nok\nexhausted work 4 2 4\nflipped 0\ndone\nreclaimed\nok\narea work 4 4\n",
    },
    // The program goes on between a flip and a reclaim.
    Case {
        world: HUNDRED_WORDS,
        commands: "set 0 5\ncons 1 work 0 0\nflip full\ncar 2 1\ncons 3 work 1 2\nreclaim\nscavenge 100\nreclaim\ncar 4 3\neq 4 1\ncdr 5 3\n",
        replies: "ok\nok\nflipped 0\n5\nok\nnot-done\ndone\nreclaimed\ncons\nt\n5\n",
    },
    // What commands on collections reply out of turn.
    Case {
        world: HUNDRED_WORDS,
        commands: "flip full\nflip full\nreclaim\nscavenge 7\nscavenge 1\nreclaim\nreclaim\nscavenge 5\n",
        replies: "flipped 0\nbusy\nnot-done\nmore\ndone\nreclaimed\nnot-flipped\nnot-flipped\n",
    },
    BASE_PAGE,
    // A page that no longer leads there isn't a base page of the next collection.
    Case {
        world: TWO_AREAS,
        commands: "set 0 7\ncons 1 pool 0 0\ncons 2 perm 1 0\nset 1 nil\npage-out 32\ncar 3 2\nset 3 nil\nflip 1\nscavenge 1000\nreclaim\nflip 1\n",
        replies: "ok\nok\nok\nok\nok\ncons\nok\nflipped 1\ndone\nreclaimed\nflipped 0\n",
    },
    // The last level becomes dynamic.
    Case {
        world: TWO_AREAS,
        commands: "set 0 7\ncons 1 pool 0 0\nflip 1\nscavenge 100\nreclaim\nset 1 nil\nflip 1\nscavenge 100\nreclaim\nstats\nflip full\nscavenge 100\nreclaim\nstats\n",
        replies: "ok\nok\nflipped 0\ndone\nreclaimed\nok\nflipped 0\ndone\nreclaimed\narea perm 0 100\narea pool 2 100\nflipped 0\ndone\nreclaimed\narea perm 0 100\narea pool 0 100\n",
    },
    // A circular list is loaded and dumped.
    Case {
        world: "lispm-world 2\nspace 16 32 8 1 2\narea work dynamic 100\ncapacity 0\ncons work 1 #0\nroot 0 #0\n",
        commands: "dump\n",
        replies: "lispm-world 2\nspace 16 32 8 1 2\narea work dynamic 100\ncapacity 0\ncons work 1 #0\nroot 0 #0\nend-world\n",
    },
    // Parts of values that aren't conses, aren't blocks or don't have the field.
    Case {
        world: HUNDRED_WORDS,
        commands: "set 0 3\nmake 1 work 9 2\nget 2 1 2\nget 2 1 1\ncar 3 0\nget 3 0 0\nsize 1\ncons 4 work 1 0\ncar 5 4\neq 5 1\n",
        replies: "ok\nok\nno-field 2\nnil\nwrong-type\nwrong-type\n2\nok\nblock 9 2\nt\n",
    },
    BOTH_FORWARDS,
    // Two levels.
    Case {
        world: "lispm-world 1\nspace 16 32 8 2 0\narea pool ephemeral 100\n",
        commands: "set 0 7\ncons 1 pool 0 0\nflip 1\nscavenge 100\nreclaim\nset 1 nil\nflip 1\nscavenge 100\nreclaim\nstats\nflip 1,2\nscavenge 100\nreclaim\nstats\n",
        replies: "ok\nok\nflipped 0\ndone\nreclaimed\nok\nflipped 0\ndone\nreclaimed\narea pool 2 100\nflipped 0\ndone\nreclaimed\narea pool 0 100\n",
    },
    // Nothing is allowed, and nothing is scanned.
    Case {
        world: "lispm-world 1\nspace 16 32 8 1 2\narea work dynamic 0\n",
        commands: "make 1 work 0 0\nflip full\nscavenge 0\n",
        replies: "exhausted work 0 1 0\nflipped 0\nmore\n",
    },
    // An object that was copied is released within its collection.
    Case {
        world: "lispm-world 1\nspace 16 32 8 1 0\narea work dynamic 100\n",
        commands: "set 0 5\ncons 2 work 0 0\ncons 0 work 2 0\nset 2 nil\ncons 1 work 2 2\nflip full\nscavenge 2\nset 1 nil\nscavenge 100\nreclaim\nstats\n",
        replies: "ok\nok\nok\nok\nok\nflipped 0\nmore\nok\ndone\nreclaimed\narea work 4 100\n",
    },
    // A block grows, is collected, and is refused.
    Case {
        world: "lispm-world 1\nspace 16 32 8 1 2\narea work dynamic 12\n",
        commands: "set 0 5\nmake 1 work 9 1\nput 1 0 0\nmove 2 1\ngrow 1 3\nsize 2\nget 3 2 0\neq 1 2\nstats\nflip full\nscavenge 100\nreclaim\nstats\nget 3 2 0\ngrow 1 2\ngrow 1 2000\n",
        replies: "ok\nok\nok\nok\nok\n3\n5\nt\narea work 6 12\nflipped 0\ndone\nreclaimed\narea work 4 12\n5\nok\nexhausted work 4 2001 12\n",
    },
    // A block without fields grows twice.
    Case {
        world: HUNDRED_WORDS,
        commands: "make 1 work 9 0\nmove 2 1\ngrow 1 1\ngrow 2 2\nsize 1\neq 1 2\ngrow 3 1\nstats\n",
        replies: "ok\nok\nok\nok\n3\nt\nwrong-type\narea work 7 100\n",
    },
    // A level that is full is collected by the allocations.
    Case {
        world: "lispm-world 2\nspace 16 32 8 1 4\narea pool ephemeral 100\ncapacity 4\n",
        commands: "set 0 7\ncons 1 pool 0 0\ncons 2 pool 0 0\nset 2 nil\ncons 3 pool 0 0\nreclaim\nscavenge 100\nstats\ncons 4 pool 0 0\nstats\nreclaim\n",
        replies: "ok\nok\nok\nok\nok\nnot-done\ndone\narea pool 6 100\nok\narea pool 6 100\nnot-flipped\n",
    },
    // A compact list is loaded, and its first cons is released.
    Case {
        world: "lispm-world 2\nspace 16 32 8 1 2\narea work dynamic 9\ncapacity 0\nrun work 1 2 3\nroot 0 #1\n",
        commands: "stats\ncdr 1 0\ndump\n",
        replies: "area work 9 9\ncons\nlispm-world 2\nspace 16 32 8 1 2\narea work dynamic 9\ncapacity 0\nrun work 2 3\nroot 0 #0\nroot 1 #1\nend-world\n",
    },
    // Two areas, one of which is full of one cons that refers to itself.
    Case {
        world: LARGE,
        commands: "set 0 -7\ncons 1 perm 0 3\ncons 2 work 1 1\ncons 1 perm 0 0\ncar 3 2\neq 3 1\neq 3 2\nmove 2 3\ncar 3 2\ncdr 2 2\ncar 3 2\nrplacd 1 1\ncdr 2 1\neq 2 1\nrplaca 2 1\ncar 0 1\neq 0 1\npage-out 1\nget 0 1 0\nput 1 0 3\nsize 1\nrplaca 3 1\nrplacd 3 1\nmake 0 work 7 1\ngrow 0 2\nsize 0\ngrow 1 2\n",
        replies: "ok\nok\nok\nexhausted perm 2 2 3\ncons\nt\nnil\nok\n-7\nnil\nwrong-type\nok\ncons\nt\nok\ncons\nt\nok\nwrong-type\nwrong-type\nwrong-type\nwrong-type\nwrong-type\nok\nok\n3\nwrong-type\n",
    },
    // A list, conses and a block that refer to each other are loaded and dumped.
    Case {
        world: "lispm-world 2\nspace 16 32 8 1 2\narea work dynamic 100\ncapacity 0\ncons work #3 #1\nrun work #1 nil\ncons work #4 #1\nblock work 7 #0 5\nroot 0 #0\nroot 2 #2\n",
        commands: "dump\n",
        replies: "lispm-world 2\nspace 16 32 8 1 2\narea work dynamic 100\ncapacity 0\ncons work #3 #1\nrun work #1 nil\ncons work #4 #1\nblock work 7 #0 5\nroot 0 #0\nroot 2 #2\nend-world\n",
    },
];

/// The third page call of this session fails. Its first two are a write and a read.
pub(crate) const SWAP_FAULT: Case = Case {
    world: HUNDRED_WORDS,
    commands: "set 0 5\ncons 1 work 0 0\npage-out 32\ncar 2 1\npage-out 1\ncar 2 1\npage-out 1\n",
    replies: "ok\nok\nok\n5\nfault\n5\nok\n",
};

/// A cons is made, and a collection begins.
pub(crate) const FLIPPED: &str = "set 0 5\ncons 1 work 0 0\nflip full\n";

/// A world whose dynamic area has room for 4,101 conses, on three regions.
pub(crate) const LARGE: &str =
    "lispm-world 1\nspace 20 32 4 1 2\narea work dynamic 8203\narea perm static 3\n";

/// A list fills its area. It is dropped, and a collection frees it. The next collection keeps the one cons that remains.
pub(crate) const COLLECTIONS: Case = Case {
    world: LARGE,
    commands: "cons 1 work 0 1\nreclaim\nflip full\nflip full\nreclaim\nscavenge 2\nscavenge 100\nreclaim\ncons 1 work 0 3\nflip full\nscavenge 100\nreclaim\ncar 2 1\ncdr 2 1\nstats\n",
    replies: "exhausted work 8202 2 8203\nnot-flipped\nflipped 0\nbusy\nnot-done\nmore\ndone\nreclaimed\nok\nflipped 0\ndone\nreclaimed\n4101\nnil\narea work 2 8203\narea perm 0 3\n",
};

/// Worlds for commands without a pattern, each with the number of its first sequence: levels are collected by commands only, or also by
/// allocations, early; and allocations scan much or nothing.
pub(crate) const WORLDS: [(&str, u64); 3] = [
    (
        "lispm-world 2\nspace 48 32 8 2 4\narea work dynamic 8000\narea young ephemeral 6000\narea perm static 3000\ncapacity 0 0\n",
        0,
    ),
    (
        "lispm-world 2\nspace 48 32 8 2 16\narea work dynamic 8000\narea young ephemeral 6000\narea perm static 3000\ncapacity 600 900\n",
        100,
    ),
    (
        "lispm-world 2\nspace 48 40 8 2 0\narea work dynamic 4000\narea young ephemeral 5000\narea perm static 2000\ncapacity 1500 0\n",
        200,
    ),
];

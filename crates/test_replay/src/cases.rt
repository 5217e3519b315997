//! The tables. In their texts a semicolon represents a line feed. After an equals sign is how a run ends: its status, and what it wrote.

/// Inputs, and how they end.
pub const SESSIONS: &str = "\
lispm-world 1;space 16 32 8 1 2;area work dynamic 100;trace;set 0 5;cons 1 work 0 0;car 2 1;end; = 0 ok;ok;5;
lispm-world 1;space 16 32 8 1 2;area work dynamic 4;trace;set 0 1;cons 1 work 0 0;cons 2 work 1 0;cons 3 work 0 0;car 4 1;end; = 0 ok;ok;ok;exhausted work 4 2 4;1;
lispm-world 1;space 16 32 8 1 2;area work dynamic 9;trace;set 0 7;list 1 work 0 0 0;cdr 2 1;set 3 nil;rplacd 2 3;cdr 4 2;stats;end; = 0 ok;ok;cons;ok;ok;nil;area work 9 9;
lispm-world 1;space 16 32 8 1 2;area work dynamic 9;trace;set 0 7;list 1 work 0 0 0;cdr 2 1;set 3 nil;rplacd 2 3;cdr 4 2;stats;cdr 5 1;eq 5 2;eq 5 1;end; = 0 ok;ok;cons;ok;ok;nil;area work 9 9;cons;t;nil;
lispm-world 1;space 16 32 8 1 2;area work dynamic 9;trace;set 0 7;list 1 work 0 0 0;cdr 2 1;set 1 nil;flip full;scavenge 100;reclaim;stats;end; = 0 ok;ok;cons;ok;flipped 0;done;reclaimed;area work 6 9;
lispm-world 1;space 16 32 8 1 2;area work dynamic 9;trace;set 0 7;list 2 work 0 0 0;cdr 1 2;flip full;scavenge 100;reclaim;cdr 3 2;eq 3 1;stats;end; = 0 ok;ok;cons;flipped 0;done;reclaimed;cons;t;area work 9 9;
lispm-world 1;space 16 32 8 1 2;area work dynamic 4;trace;set 0 1;cons 1 work 0 0;cons 1 work 0 0;cons 2 work 0 0;flip full;scavenge 100;reclaim;cons 2 work 0 0;stats;end; = 0 ok;ok;ok;exhausted work 4 2 4;flipped 0;done;reclaimed;ok;area work 4 4;
lispm-world 1;space 16 32 8 1 2;area work dynamic 100;trace;set 0 5;cons 1 work 0 0;flip full;car 2 1;cons 3 work 1 2;reclaim;scavenge 100;reclaim;car 4 3;eq 4 1;cdr 5 3;end; = 0 ok;ok;flipped 0;5;ok;not-done;done;reclaimed;cons;t;5;
lispm-world 1;space 16 32 8 1 2;area work dynamic 100;trace;flip full;flip full;reclaim;scavenge 7;scavenge 1;reclaim;reclaim;scavenge 5;end; = 0 flipped 0;busy;not-done;more;done;reclaimed;not-flipped;not-flipped;
lispm-world 1;space 16 32 8 1 2;area perm static 100;area pool ephemeral 100;trace;set 0 7;cons 1 pool 0 0;cons 2 perm 1 0;set 1 nil;page-out 32;flip 1;scavenge 1000;reclaim;car 3 2;car 4 3;stats;end; = 0 ok;ok;ok;ok;ok;flipped 1;done;reclaimed;cons;7;area perm 2 100;area pool 2 100;
lispm-world 1;space 16 32 8 1 2;area perm static 100;area pool ephemeral 100;trace;set 0 7;cons 1 pool 0 0;cons 2 perm 1 0;set 1 nil;page-out 32;car 3 2;set 3 nil;flip 1;scavenge 1000;reclaim;flip 1;end; = 0 ok;ok;ok;ok;ok;cons;ok;flipped 1;done;reclaimed;flipped 0;
lispm-world 1;space 16 32 8 1 2;area perm static 100;area pool ephemeral 100;trace;set 0 7;cons 1 pool 0 0;flip 1;scavenge 100;reclaim;set 1 nil;flip 1;scavenge 100;reclaim;stats;flip full;scavenge 100;reclaim;stats;end; = 0 ok;ok;flipped 0;done;reclaimed;ok;flipped 0;done;reclaimed;area perm 0 100;area pool 2 100;flipped 0;done;reclaimed;area perm 0 100;area pool 0 100;
lispm-world 2;space 16 32 8 1 2;area work dynamic 100;capacity 0;cons work 1 #0;root 0 #0;trace;dump;end; = 0 lispm-world 2;space 16 32 8 1 2;area work dynamic 100;capacity 0;cons work 1 #0;root 0 #0;end-world;
lispm-world 1;space 16 32 8 1 2;area work dynamic 100;trace;set 0 3;make 1 work 9 2;get 2 1 2;get 2 1 1;car 3 0;get 3 0 0;size 1;cons 4 work 1 0;car 5 4;eq 5 1;end; = 0 ok;ok;no-field 2;nil;wrong-type;wrong-type;2;ok;block 9 2;t;
lispm-world 1;space 16 32 8 1 2;area work dynamic 100;trace;set 0 -2147483648;set 0 2147483648;end; = 2 ok;error line 6: bad value;
lispm-world 1;space 16 32 8 1 2;area work dynamic 100;trace;set 0 5; = 2 ok;error line 6: no end;
lispm-world 1;space 5 32 8 1 2;area work dynamic 1025;trace;end; = 4 error line 3: space too small;
lispm-world 1;space 5 32 8 1 2;area work dynamic 1024;trace;end; = 0
lispm-world 1;space 16 32 8 1 2;area work dynamic 3;cons work 1 nil;cons work 2 nil;trace;end; = 4 error line 5: exhausted work 2 2 3;
lispm-world 1;space 16 32 8 1 2;area work dynamic 100;trace;set 0 7;list 1 work 0 0;cdr 2 1;flip full;rplacd 2 0;cdr 3 1;eq 3 2;cdr 4 3;end; = 0 ok;ok;cons;flipped 0;ok;cons;t;7;
lispm-world 1;space 16 32 8 2 0;area pool ephemeral 100;trace;set 0 7;cons 1 pool 0 0;flip 1;scavenge 100;reclaim;set 1 nil;flip 1;scavenge 100;reclaim;stats;flip 1,2;scavenge 100;reclaim;stats;end; = 0 ok;ok;flipped 0;done;reclaimed;ok;flipped 0;done;reclaimed;area pool 2 100;flipped 0;done;reclaimed;area pool 0 100;
lispm-world 1;space 16 32 8 1 2;area work dynamic 0;trace;make 1 work 0 0;flip full;scavenge 0;end; = 0 exhausted work 0 1 0;flipped 0;more;
lispm-world 1;space 16 32 8 1 2;area work dynamic 100;cons work #7 nil;trace;end; = 2 error line 5: no object 7;
lispm-world 1;space 16 32 8 1 2;area work dynamic 100;trace;end;stats; = 2 error line 6: text after end;
lispm-world 1;space 16 32 8 1 2;area a static 2;area b dynamic 4;trace;set 0 1;cons 1 a 0 0;cons 2 a 0 0;cons 2 b 1 0;move 3 2;eq 3 2;stats;end; = 0 ok;ok;exhausted a 2 2 2;ok;ok;t;area a 2 2;area b 2 4;
lispm-world 1;space 16 32 8 1 0;area work dynamic 100;trace;set 0 5;cons 2 work 0 0;cons 0 work 2 0;set 2 nil;cons 1 work 2 2;flip full;scavenge 2;set 1 nil;scavenge 100;reclaim;stats;end; = 0 ok;ok;ok;ok;ok;flipped 0;more;ok;done;reclaimed;area work 4 100;
lispm-world 1;space 16 32 8 1 2;area work dynamic 12;trace;set 0 5;make 1 work 9 1;put 1 0 0;move 2 1;grow 1 3;size 2;get 3 2 0;eq 1 2;stats;flip full;scavenge 100;reclaim;stats;get 3 2 0;grow 1 2;grow 1 2000;end; = 0 ok;ok;ok;ok;ok;3;5;t;area work 6 12;flipped 0;done;reclaimed;area work 4 12;5;ok;exhausted work 4 2001 12;
lispm-world 1;space 16 32 8 1 2;area work dynamic 100;trace;make 1 work 9 0;move 2 1;grow 1 1;grow 2 2;size 1;eq 1 2;grow 3 1;stats;end; = 0 ok;ok;ok;ok;3;t;wrong-type;area work 7 100;
lispm-world 2;space 16 32 8 1 4;area pool ephemeral 100;capacity 4;trace;set 0 7;cons 1 pool 0 0;cons 2 pool 0 0;set 2 nil;cons 3 pool 0 0;reclaim;scavenge 100;stats;cons 4 pool 0 0;stats;reclaim;end; = 0 ok;ok;ok;ok;ok;not-done;done;area pool 6 100;ok;area pool 6 100;not-flipped;
lispm-world 2;space 16 32 8 1 2;area work dynamic 9;capacity 0;run work 1 2 3;root 0 #1;trace;stats;cdr 1 0;dump;end; = 0 area work 9 9;cons;lispm-world 2;space 16 32 8 1 2;area work dynamic 9;capacity 0;run work 2 3;root 0 #0;root 1 #1;end-world;
lispm-world 2;space 16 32 8 1 2;area work dynamic 9;trace; = 2 error line 4: capacity expected;
lispm-world 1;space 16 32 8 1 2;area work dynamic 100;area rest static 7;trace;stats;cons 1 rest 0 0;cons 1 work 0 1;cons 1 work 0 1;stats;end; = 0 area work 0 100;area rest 0 7;ok;ok;ok;area work 4 100;area rest 2 7;
lispm-world 1;space 16 32 8 1 2;area work dynamic 100;area young ephemeral 50;trace;set 0 5;cons 1 young 0 0;cons 2 work 0 1;set 1 nil;cons 1 work 0 0;set 1 nil;flip full;reclaim;scavenge 100;reclaim;stats;cdr 3 2;car 4 3;end; = 0 ok;ok;ok;ok;ok;ok;flipped 0;not-done;done;reclaimed;area work 2 100;area young 2 50;cons;5;
lispm-world 1;space 16 32 8 1 2;area work dynamic 100;cons work 5 #1;block work 7 #0 6;root 0 #0;trace;car 1 0;cdr 2 0;get 3 2 1;stats;end; = 0 5;block 7 2;6;area work 5 100;
lispm-world 1;space 16 32 8 1 2;area work dynamic 20;trace;make 0 work 9 2;grow 0 4;size 0;stats;flip full;scavenge 100;reclaim;stats;end; = 0 ok;ok;5;area work 9 20;flipped 0;done;reclaimed;area work 6 20;
lispm-world 1;space 16 32 8 1 2;area work dynamic 3;cons work 1 nil;cons work 2 #9;trace;end; = 4 error line 5: exhausted work 2 2 3;
lispm-world 1;space 16 32 8 1 2;area work dynamic 9;cons work #7 #8;root 9 x; = 2 error line 5: no object 7;
lispm-world 1;space 16 32 8 1 2;area work dynamic 9;trace;end;; = 2 error line 6: text after end;
lispm-world 1;space 16 32 8 1 2;area work dynamic 100;trace;set 0 5;cons 3 work 0 0;set 3 nil;cons 1 work 0 2;set 0 nil;dump;flip full;dump;scavenge 3;dump;scavenge 100;dump;reclaim;dump;end; = 0 ok;ok;ok;ok;ok;lispm-world 2;space 16 32 8 1 2;area work dynamic 100;capacity 0;cons work 5 nil;root 1 #0;end-world;flipped 0;lispm-world 2;space 16 32 8 1 2;area work dynamic 100;capacity 0;cons work 5 nil;root 1 #0;end-world;more;lispm-world 2;space 16 32 8 1 2;area work dynamic 100;capacity 0;cons work 5 nil;root 1 #0;end-world;done;lispm-world 2;space 16 32 8 1 2;area work dynamic 100;capacity 0;cons work 5 nil;root 1 #0;end-world;reclaimed;lispm-world 2;space 16 32 8 1 2;area work dynamic 100;capacity 0;cons work 5 nil;root 1 #0;end-world;
lispm-world 1\r;space 16 32 8 1 2\r;area work dynamic 100\r;trace\r;set 0 5\r;cons 1 work 0 0\r;car 2 1\r;end\r; = 2 error line 1: not a world;
lispm-world 1;space 16 32 8 1 2;area work dynamic 100;trace;set 0 5\r;cons 1 work 0 0;car 2 1;end; = 2 error line 5: bad line;
lispm-world 1;space 16 32 8 1 2;area work dynamic 100;trace;set 0 5;cons 1 work 0 0;car 2 1;end\r; = 2 ok;ok;5;error line 8: bad line;
lispm-world 1;space 16 32 8 1 2;area work dynamic 100;trace;set 0 5;cons 1 work 0 0;car 2 1;end;\r = 2 ok;ok;5;error line 9: text after end;
; = 2 error line 1: not a world;
\r; = 2 error line 1: not a world;
 = 2 error line 1: not a world;";

/// The smallest run.
pub const SMALLEST: &str =
    "lispm-world 1;space 16 32 8 1 2;area work dynamic 9;trace;set 0 5;cons 1 work 0 0;car 2 1;end;";

/// A run that fills its area, and a table of its account.
pub const FULL: &str =
    "lispm-world 1;space 16 32 8 1 2;area work dynamic 9;trace;set 0 7;list 1 work 0 0 0;cdr 2 1;set 3 nil;rplacd 2 3;cdr 4 2;stats;end;";

/// What the full run writes.
pub const FULL_REPLIES: &str = "ok;ok;cons;ok;ok;nil;area work 9 9;";

/// The prefixes of either run that are shorter than a number, and not than the one before it, and how they end, while both end alike.
pub const SAME_FRONTS: &str = "\
13 = 2 error line 1: not a world;
15 = 2 error line 2: no end;
19 = 2 error line 2: space expected;
20 = 2 error line 2: wrong count;
21 = 2 error line 2: bad line;
23 = 2 error line 2: wrong count;
24 = 2 error line 2: bad line;
26 = 2 error line 2: wrong count;
27 = 2 error line 2: bad line;
28 = 2 error line 2: wrong count;
29 = 2 error line 2: bad line;
30 = 2 error line 2: wrong count;
31 = 2 error line 2: bad line;
33 = 2 error line 3: no end;
36 = 2 error line 3: area expected;
37 = 2 error line 3: wrong count;
38 = 2 error line 3: bad line;
42 = 2 error line 3: wrong count;
43 = 2 error line 3: bad line;
50 = 2 error line 3: wrong count;
51 = 2 error line 3: bad line;
53 = 2 error line 4: no end;
57 = 2 error line 4: unexpected line;
59 = 2 error line 5: no end;
61 = 2 error line 5: unknown command;
62 = 2 error line 5: wrong count;
63 = 2 error line 5: bad line;
64 = 2 error line 5: wrong count;
65 = 2 error line 5: bad line;
67 = 2 ok;error line 6: no end;
70 = 2 ok;error line 6: unknown command;
71 = 2 ok;error line 6: wrong count;
72 = 2 ok;error line 6: bad line;
73 = 2 ok;error line 6: wrong count;
74 = 2 ok;error line 6: bad line;
78 = 2 ok;error line 6: wrong count;
79 = 2 ok;error line 6: bad line;";

/// The longer prefixes of the smallest run.
pub const FRONTS: &str = "\
80 = 2 ok;error line 6: wrong count;
81 = 2 ok;error line 6: bad line;
83 = 2 ok;ok;error line 7: no end;
85 = 2 ok;ok;error line 7: unknown command;
86 = 2 ok;ok;error line 7: wrong count;
87 = 2 ok;ok;error line 7: bad line;
88 = 2 ok;ok;error line 7: wrong count;
89 = 2 ok;ok;error line 7: bad line;
91 = 2 ok;ok;5;error line 8: no end;
93 = 2 ok;ok;5;error line 8: unknown command;
95 = 0 ok;ok;5;";

/// The longer prefixes of the full run.
pub const FULL_FRONTS: &str = "\
80 = 2 ok;ok;error line 7: no end;
81 = 2 ok;error line 6: bad line;
82 = 2 ok;ok;error line 7: no end;
83 = 2 ok;error line 6: bad line;
85 = 2 ok;ok;error line 7: no end;
87 = 2 ok;ok;error line 7: unknown command;
88 = 2 ok;ok;error line 7: wrong count;
89 = 2 ok;ok;error line 7: bad line;
90 = 2 ok;ok;error line 7: wrong count;
91 = 2 ok;ok;error line 7: bad line;
93 = 2 ok;ok;cons;error line 8: no end;
95 = 2 ok;ok;cons;error line 8: unknown command;
96 = 2 ok;ok;cons;error line 8: wrong count;
97 = 2 ok;ok;cons;error line 8: bad line;
98 = 2 ok;ok;cons;error line 8: wrong count;
99 = 2 ok;ok;cons;error line 8: bad line;
101 = 2 ok;ok;cons;error line 8: bad value;
103 = 2 ok;ok;cons;ok;error line 9: no end;
108 = 2 ok;ok;cons;ok;error line 9: unknown command;
109 = 2 ok;ok;cons;ok;error line 9: wrong count;
110 = 2 ok;ok;cons;ok;error line 9: bad line;
111 = 2 ok;ok;cons;ok;error line 9: wrong count;
112 = 2 ok;ok;cons;ok;error line 9: bad line;
114 = 2 ok;ok;cons;ok;ok;error line 10: no end;
116 = 2 ok;ok;cons;ok;ok;error line 10: unknown command;
117 = 2 ok;ok;cons;ok;ok;error line 10: wrong count;
118 = 2 ok;ok;cons;ok;ok;error line 10: bad line;
119 = 2 ok;ok;cons;ok;ok;error line 10: wrong count;
120 = 2 ok;ok;cons;ok;ok;error line 10: bad line;
122 = 2 ok;ok;cons;ok;ok;nil;error line 11: no end;
126 = 2 ok;ok;cons;ok;ok;nil;error line 11: unknown command;
128 = 2 ok;ok;cons;ok;ok;nil;area work 9 9;error line 12: no end;
130 = 2 ok;ok;cons;ok;ok;nil;area work 9 9;error line 12: unknown command;
132 = 0 ok;ok;cons;ok;ok;nil;area work 9 9;";

/// The smallest run, if a byte that occurs in no line is at a place below a number, and not below the one before it.
pub const BYTES: &str = "\
14 = 2 error line 1: not a world;
32 = 2 error line 2: bad line;
52 = 2 error line 3: bad line;
58 = 2 error line 4: bad line;
66 = 2 error line 5: bad line;
82 = 2 ok;error line 6: bad line;
90 = 2 ok;ok;error line 7: bad line;
94 = 2 ok;ok;5;error line 8: bad line;";

/// The smallest run, if this call of a source fails that gives a byte a call. Call 0 is none.
pub const SOURCES: &str = "\
1 = 0 ok;ok;5;
67 = 3 error: read failed;
83 = 3 ok;error: read failed;
91 = 3 ok;ok;error: read failed;
96 = 3 ok;ok;5;error: read failed;
102 = 0 ok;ok;5;";

/// The same for the full run.
pub const FULL_SOURCES: &str = "\
1 = 0 ok;ok;cons;ok;ok;nil;area work 9 9;
67 = 3 error: read failed;
85 = 3 ok;error: read failed;
93 = 3 ok;ok;error: read failed;
103 = 3 ok;ok;cons;error: read failed;
114 = 3 ok;ok;cons;ok;error: read failed;
122 = 3 ok;ok;cons;ok;ok;error: read failed;
128 = 3 ok;ok;cons;ok;ok;nil;error: read failed;
133 = 3 ok;ok;cons;ok;ok;nil;area work 9 9;error: read failed;
139 = 0 ok;ok;cons;ok;ok;nil;area work 9 9;";

/// The smallest run, and a byte after it.
pub const BEHIND: &str =
    "lispm-world 1;space 16 32 8 1 2;area work dynamic 100;trace;set 0 5;cons 1 work 0 0;car 2 1;end;x";

/// That run, if this call of the source fails. The byte after `end` decides, before the call after it could fail.
pub const BEHIND_SOURCES: &str = "\
1 = 2 ok;ok;5;error line 9: text after end;
69 = 3 error: read failed;
85 = 3 ok;error: read failed;
93 = 3 ok;ok;error: read failed;
98 = 3 ok;ok;5;error: read failed;
104 = 2 ok;ok;5;error line 9: text after end;";

/// A run whose page calls are a write and a read in turn.
pub const PAGED: &str =
    "lispm-world 1;space 16 32 8 1 2;area work dynamic 100;trace;set 0 5;cons 1 work 0 0;page-out 32;car 2 1;page-out 1;car 2 1;page-out 1;end;";

/// That run, if this page call fails.
pub const PAGED_SWAPS: &str = "\
1 = 0 ok;ok;ok;5;ok;5;ok;
2 = 0 ok;ok;fault;5;ok;5;ok;
3 = 0 ok;ok;ok;fault;ok;5;ok;
4 = 0 ok;ok;ok;5;fault;5;ok;
5 = 0 ok;ok;ok;5;ok;fault;ok;
6 = 0 ok;ok;ok;5;ok;5;fault;
61 = 0 ok;ok;ok;5;ok;5;ok;";

/// A run that dumps twice what was paged out.
pub const DUMPED: &str =
    "lispm-world 1;space 16 32 8 1 2;area work dynamic 100;trace;set 0 5;cons 1 work 0 2;set 0 nil;page-out 32;dump;dump;end;";

/// That run, if this page call fails: the write, the read of the first dump, and then the read of the second.
pub const DUMPED_SWAPS: &str = "\
1 = 0 ok;ok;ok;ok;lispm-world 2;space 16 32 8 1 2;area work dynamic 100;capacity 0;cons work 5 nil;root 1 #0;end-world;lispm-world 2;space 16 32 8 1 2;area work dynamic 100;capacity 0;cons work 5 nil;root 1 #0;end-world;
2 = 0 ok;ok;ok;fault;lispm-world 2;space 16 32 8 1 2;area work dynamic 100;capacity 0;cons work 5 nil;root 1 #0;end-world;lispm-world 2;space 16 32 8 1 2;area work dynamic 100;capacity 0;cons work 5 nil;root 1 #0;end-world;
3 = 0 ok;ok;ok;ok;fault;lispm-world 2;space 16 32 8 1 2;area work dynamic 100;capacity 0;cons work 5 nil;root 1 #0;end-world;
61 = 0 ok;ok;ok;ok;lispm-world 2;space 16 32 8 1 2;area work dynamic 100;capacity 0;cons work 5 nil;root 1 #0;end-world;lispm-world 2;space 16 32 8 1 2;area work dynamic 100;capacity 0;cons work 5 nil;root 1 #0;end-world;";

/// The start of an input, a word that is repeated after it, how often, the end, and how the run ends.
pub const LONG: [(&str, &str, u32, &str, &str); 14] = [
    (
        "lispm-world 1;space 16 32 8 1 2;area work dynamic 5000;block work 0",
        " nil",
        2_047,
        ";trace;stats;end;",
        "0 area work 2048 5000;",
    ),
    (
        "lispm-world 1;space 16 32 8 1 2;area work dynamic 5000;block work 0",
        " nil",
        2_048,
        ";trace;stats;end;",
        "2 error line 4: too many fields;",
    ),
    (
        "lispm-world 1;space 16 32 8 1 2;area work dynamic 100;trace;",
        "a",
        32_768,
        ";",
        "2 error line 5: unknown command;",
    ),
    (
        "lispm-world 1;space 16 32 8 1 2;area work dynamic 100;trace;",
        "a",
        32_769,
        ";",
        "2 error line 5: line too long;",
    ),
    (
        "lispm-world 1;space 16 32 8 1 2;area work dynamic 100;trace;set 0 5;",
        "a",
        32_768,
        "",
        "2 ok;error line 6: unknown command;",
    ),
    (
        "lispm-world 1;space 16 32 8 1 2;area work dynamic 100;trace;set 0 5;",
        "a",
        32_769,
        "",
        "2 ok;error line 6: line too long;",
    ),
    (
        "lispm-world 1;space 16 32 8 1 2;area work dynamic 100;trace;scavenge ",
        "9",
        32_759,
        ";end;",
        "2 error line 5: bad number;",
    ),
    (
        "lispm-world 1;space 16 32 8 1 2;area work dynamic 100;trace;scavenge ",
        "9",
        32_760,
        ";end;",
        "2 error line 5: line too long;",
    ),
    ("", "a", 32_768, "", "2 error line 1: not a world;"),
    ("", "a", 32_769, "", "2 error line 1: line too long;"),
    ("", "a", 32_768, ";", "2 error line 1: not a world;"),
    ("", "a", 100_001, ";", "2 error line 1: line too long;"),
    (
        "lispm-world 1;",
        " ",
        32_768,
        ";",
        "2 error line 2: bad line;",
    ),
    (
        "lispm-world 1;space 16 32 8 1 2;area work dynamic 100;trace;end;",
        "a",
        32_769,
        "",
        "2 error line 6: text after end;",
    ),
];

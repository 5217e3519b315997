//! Worlds with their outcomes, one a line: its lines, then `accepted`, or the number of the line that is refused and why. `1`,
//! `2` and `16` represent the lines before the objects in formats 1 and 2, and those for 16 areas of format 2.

/// The lines that an abbreviation represents.
pub const FIRST: &str = "lispm-world 1\nspace 16 32 8 1 2\narea work dynamic 100";

pub const SECOND: &str = "lispm-world 2\nspace 16 32 8 1 2\narea work dynamic 100\ncapacity 0";

pub const SIXTEEN: &str =
    "lispm-world 2\nspace 64 32 8 1 2\narea a0 dynamic 0\narea a1 dynamic 0\narea a2 dynamic 0\narea a3 dynamic 0\narea a4 dynamic 0\narea a5 dynamic 0\narea a6 dynamic 0\narea a7 dynamic 0\narea a8 dynamic 0\narea a9 dynamic 0\narea a10 dynamic 0\narea a11 dynamic 0\narea a12 dynamic 0\narea a13 dynamic 0\narea a14 dynamic 0\narea a15 dynamic 0";

/// The worlds of inputs, accepted or refused as by an independent program.
pub const INPUTS: &str = "\
lispm-world 3 = 1 Bad(NotAWorld)
lispm-world 1  = 1 Bad(NotAWorld)
 lispm-world 1 = 1 Bad(NotAWorld)
lispm-world 1;foo  foo = 2 Bad(BadLine)
lispm-world 1;foo = 2 Bad(SpaceExpected)
 = 1 Bad(NotAWorld)
lispm-world 1;space = 2 Bad(WrongCount)
lispm-world 1;space 4 31 0 0 17 = 2 Bad(BadNumber)
lispm-world 1;space 1024 4096 256 6 16;area a static 0 = accepted
lispm-world 1;space 1025 32 8 1 2 = 2 Bad(BadNumber)
lispm-world 1;space 64 31 8 1 2 = 2 Bad(BadNumber)
lispm-world 1;space 64 4097 8 1 2 = 2 Bad(BadNumber)
lispm-world 1;space 64 32 0 1 2 = 2 Bad(BadNumber)
lispm-world 1;space 64 32 257 1 2 = 2 Bad(BadNumber)
lispm-world 1;space 64 32 8 0 2 = 2 Bad(BadNumber)
lispm-world 1;space 64 32 8 7 2 = 2 Bad(BadNumber)
lispm-world 1;space 64 32 8 1 17 = 2 Bad(BadNumber)
lispm-world 1;space 64 032 8 1 2 = 2 Bad(BadNumber)
lispm-world 1;space 64 32 8 1 2  = 2 Bad(BadLine)
lispm-world 1;space 16 32 8 1 2; = 3 Bad(BadLine)
lispm-world 1;space 16 32 8 1 2;trace = 3 Bad(AreaExpected)
lispm-world 1;space 16 32 8 1 2;area work foo = 3 Bad(WrongCount)
lispm-world 1;space 16 32 8 1 2;area 1 foo x = 3 Bad(BadName)
lispm-world 1;space 16 32 8 1 2;area a-23456789012345 static 0 = accepted
lispm-world 1;space 16 32 8 1 2;area a-234567890123456 static 0 = 3 Bad(BadName)
lispm-world 1;space 16 32 8 1 2;area Work static 0 = 3 Bad(BadName)
lispm-world 1;space 1024 32 8 1 2;area a dynamic 1048577 = 3 Bad(BadNumber)
lispm-world 1;space 5 32 8 1 2;area a dynamic 1024 = accepted
lispm-world 1;space 5 32 8 1 2;area a dynamic 1025 = 3 TooSmall
1;area work foo 9 = 4 Bad(AreaTwice)
1;area b foo x = 4 Bad(BadKind)
1;area b static 01 = 4 Bad(BadNumber)
1;cons work 1 = 4 Bad(WrongCount)
1;cons nowhere x y = 4 Bad(NoArea)
1;cons work #7 nil;foo = 5 Bad(UnexpectedLine)
1;cons work #7 nil;trace = 5 Bad(NoObject { object: 7 })
1;cons work #7 nil;root = 5 Bad(NoObject { object: 7 })
1;cons work #7 nil; root = 5 Bad(BadLine)
1;cons work #7 #5;block work 1 #6 #3 #9;trace = 6 Bad(NoObject { object: 3 })
1;cons work #1 nil;block work 1 #0;trace = accepted
1;cons work #4294967295 nil;trace = 5 Bad(NoObject { object: 4294967295 })
1;cons work #4294967296 nil = 4 Bad(BadValue)
1;cons work 2147483647 -2147483648 = accepted
1;cons work 2147483648 nil = 4 Bad(BadValue)
1;cons work -2147483649 nil = 4 Bad(BadValue)
1;cons work -0 nil = 4 Bad(BadValue)
1;cons work 00 nil = 4 Bad(BadValue)
1;cons work # nil = 4 Bad(BadValue)
1;cons work NIL nil = 4 Bad(BadValue)
1;block = 4 Bad(WrongCount)
1;block work = 4 Bad(WrongCount)
1;block work 65535 = accepted
1;block work 65536 = 4 Bad(BadNumber)
1;block work 1 1 x = 4 Bad(BadValue)
1;run work 1 = 4 Bad(UnexpectedLine)
1;capacity 0 = 4 Bad(UnexpectedLine)
1;area b static 9;trace = accepted
1;block work 0;area b static 9 = 5 Bad(UnexpectedLine)
1;root 0 nil;block work 0 = 5 Bad(UnexpectedLine)
1;root = 4 Bad(WrongCount)
1;root 8 x = 4 Bad(NoRegister)
1;root 3 nil;root 3 x = 5 Bad(RegisterTwice)
1;root 3 #0 = 4 Bad(NoObject { object: 0 })
1;block work 0;root 7 #0;root 0 #1 = 6 Bad(NoObject { object: 1 })
1;trace x = 4 Bad(WrongCount)
1;end-world = 4 Bad(UnexpectedLine)
2;area b static 9 = 5 Bad(UnexpectedLine)
2;capacity 0 = 5 Bad(UnexpectedLine)
2;run work = 5 Bad(WrongCount)
2;run nowhere 1 = 5 Bad(NoArea)
2;run work 1 2 3;cons work #3 #4;trace = 7 Bad(NoObject { object: 4 })
2;root 0 nil;run work 1 = 6 Bad(UnexpectedLine)
lispm-world 2;space 16 32 8 2 2;area a static 9;trace = 4 Bad(CapacityExpected)
lispm-world 2;space 16 32 8 2 2;area a static 9;capacity 1 = 4 Bad(WrongCount)
lispm-world 2;space 16 32 8 2 2;area a static 9;capacity 1 16777216 = accepted
lispm-world 2;space 16 32 8 2 2;area a static 9;capacity 1 16777217 = 4 Bad(BadNumber)
16;trace = 19 Bad(CapacityExpected)
16;area b foo = 19 Bad(TooManyAreas)
1;run-work = 4 Bad(UnexpectedLine)
lispm-world 2;space 16 32 8 1 2;area work dynamic 8;capacity 0;run work 1 2;block work 0 nil nil = 6 Exhausted { area: 0, charged: 6, wanted: 3, quota: 8 }
lispm-world 2;space 16 32 8 1 2;area work dynamic 9;capacity 0;run work 1 2;block work 0 nil nil;trace = accepted
1;cons work x nil = 4 Bad(BadValue)";

/// World files.
pub const FILES: &str = "\
1;root 3 nil;end-world = accepted
1;trace = 4 Bad(UnexpectedLine)
1;cons work #7 nil;root = 5 Bad(NoObject { object: 7 })
1;cons work #7 nil;end-world x = 5 Bad(NoObject { object: 7 })
1;end-world x = 4 Bad(WrongCount)
2;end = 5 Bad(UnexpectedLine)
2;space 16 32 8 1 2 = 5 Bad(UnexpectedLine)
lispm-world 2;space 16 32 8 1 2;area a static 9;trace = 4 Bad(CapacityExpected)
lispm-world 2;space 16 32 8 1 2;area work dynamic 1;capacity 0;block work 0;cons work nil nil = 6 Exhausted { area: 0, charged: 1, wanted: 2, quota: 1 }";

/// A world with a line of each kind except `cons`, and for each byte of a line a letter: the outcome of the line that ends there. `.` accepted,
/// w not a world, b bad line, s space expected, a area expected, p capacity expected, u unexpected line, c wrong count, v bad value.
pub const FRONTS: &str = "\
lispm-world 2
wwwwwwwwwwww.
space 9 32 1 1 0
sssscbcbccbcbcb.
area a static 5
aaacbcbccccccb.
capacity 7
pppppppcb.
run a 1
uucbcb.
block a 0
uuuucbcb.
root 0 #1
uuucbcbv.
trace
uuuu.";

/// Lines after those of an abbreviation, and the lines of their dump after its `capacity` line.
pub const DUMPS: &str = "\
1;cons work 1 #0;root 0 #0 = cons work 1 #0;root 0 #0
2;run work 1 2 3;root 0 #1;root 1 #2 = run work 2 3;root 0 #0;root 1 #1
2 = 
1;cons work 1 2;cons work 3 4;root 5 #1 = cons work 3 4;root 5 #0
1;block work 9 #2 #1 #2;cons work 5 #3;cons work #1 #3;cons work #0 nil;root 3 #0;root 1 #1 = cons work 5 #1;cons work #2 nil;block work 9 #3 #0 #3;cons work #0 #1;root 1 #0;root 3 #2
2;run work #4 #1 nil;cons work #0 #1;block work 7 #3 5;root 0 #3;root 2 #2 = cons work #3 #1;run work #1 nil;cons work #4 #1;block work 7 #0 5;root 0 #0;root 2 #2
2;cons work -1 #1;run work 2147483647 -2147483648;root 7 #0 = cons work -1 #1;run work 2147483647 -2147483648;root 7 #0
2;run work 1 2;run work #0 #1;root 0 #2 = run work #2 #3;run work 1 2;root 0 #0
2;block work 65535;root 0 #0;root 1 #0;root 2 -5 = block work 65535;root 0 #0;root 1 #0;root 2 -5";

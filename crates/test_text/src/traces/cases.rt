//! Lines of a trace with their outcomes, which an independent program has judged.

/// The world of the trace: 8 registers, 3 levels, and the areas `work` and `pool`.
pub const WORLD: &str =
    "lispm-world 1\nspace 64 32 8 3 2\narea work dynamic 100\narea pool ephemeral 9\ntrace";

/// A line, and its command or why it is refused. A list command is shown by its register, its area and its items.
pub const LINES: &str = "\
set 0 nil = Set { to: 0, value: Nil }
set 7 -2147483648 = Set { to: 7, value: Fix(-2147483648) }
set 7 2147483647 = Set { to: 7, value: Fix(2147483647) }
set 8 nil = NoRegister
set 00 nil = NoRegister
set 0 2147483648 = BadValue
set 0 -0 = BadValue
set 0 #0 = BadValue
set 0 = WrongCount
set 0 1 2 = WrongCount
set  0 1 = BadLine
 set 0 1 = BadLine
move 1 2 = Move { to: 1, from: 2 }
move 1 = WrongCount
cons 0 work 1 7 = Cons { to: 0, area: 0, car: 1, cdr: 7 }
cons 0 pool 1 8 = NoRegister
cons 8 nowhere 1 8 = NoRegister
cons 0 nowhere 1 8 = NoArea
cons 0 work 1 = WrongCount
list 0 work 1 = list 0 0 [1]
list 7 pool 0 0 3 = list 7 1 [0, 0, 3]
list 7 pool 0 9 3 = NoRegister
list 0 work = WrongCount
list = WrongCount
make 0 work 65535 2047 = Make { to: 0, area: 0, code: 65535, length: 2047 }
make 0 work 65536 2048 = BadNumber
make 0 work 0 2048 = BadNumber
make 0 work 0 01 = BadNumber
grow 1 2047 = Grow { target: 1, length: 2047 }
grow 1 2048 = BadNumber
grow x 2048 = NoRegister
car 1 0 = Car { to: 1, from: 0 }
cdr 1 0 = Cdr { to: 1, from: 0 }
cdr 1 0 0 = WrongCount
rplaca 1 0 = Rplaca { target: 1, from: 0 }
rplacd 1 0 = Rplacd { target: 1, from: 0 }
get 1 2 4294967295 = Get { to: 1, from: 2, index: 4294967295 }
get 1 2 4294967296 = BadNumber
get 1 2 -1 = BadNumber
put 1 4294967295 2 = Put { target: 1, index: 4294967295, from: 2 }
put 1 x 9 = BadNumber
put 1 0 9 = NoRegister
size 3 = Size { of: 3 }
size = WrongCount
eq 0 7 = Eq { left: 0, right: 7 }
eq 0 = WrongCount
flip full = Flip { what: Full }
flip 1 = Flip { what: Chosen(Levels(1)) }
flip 1,2,3 = Flip { what: Chosen(Levels(7)) }
flip 2,3 = Flip { what: Chosen(Levels(6)) }
flip 2,1 = BadLevels
flip 1,1 = BadLevels
flip 1,4 = BadLevels
flip 0 = BadLevels
flip 01 = BadLevels
flip ,1 = BadLevels
flip 1, = BadLevels
flip 1,,2 = BadLevels
flip Full = BadLevels
flip 1 2 = WrongCount
flip = WrongCount
scavenge 0 = Scavenge { count: 0 }
scavenge 4294967295 = Scavenge { count: 4294967295 }
scavenge 4294967296 = BadNumber
reclaim = Reclaim
reclaim 1 = WrongCount
page-out 20 = PageOut { count: 20 }
page-out +1 = BadNumber
stats = Stats
stats x = WrongCount
dump = Dump
dump x = WrongCount
end = End
end x = WrongCount
End = UnknownCommand
conz 1 = UnknownCommand
root 0 nil = UnknownCommand
trace = UnknownCommand
end-world = UnknownCommand";

/// A line, and for each of its bytes a letter: the outcome of the line that ends there. `.` accepted, u unknown command, b bad line,
/// c wrong count, r no register, a no area, n bad number, v bad value, l bad levels.
pub const FRONTS: &str = "\
cons 7 work 0 1
uuucbcbccccbcb.
list 3 pool 4 5
uuucbcbccccb.b.
make 1 work 65 4
uuucbcbccccbccb.
set 2 -13
uucbcbv..
put 1 40 2
uucbcbccb.
flip 1,3
uuucb.l.
page-out 2
uuuuuuucb.
end
uu.";

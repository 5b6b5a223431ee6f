// Scripts: each row is a line, `=`, and what is printed for it, of which `/` parts the lines.

/// What is printed with a log and without.
pub const BOTH: [&str; 11] = [
    // A key is written, read, removed, and read at older snapshots.
    "put a x=ok 0
get a=value x
del a=ok 1
get a=none
get a 1=value x
get a 0=none
rotate=rotated 0
rotate=nothing
get a 1=value x",
    // Any byte from 33 to 126 makes a word, and the greatest number is a snapshot.
    "put ! ~=ok 0
get ! 18446744073709551615=value ~
get ~ 0=none",
    "get a=none
=error 0 Usage
rotate=nothing",
    "put a 1=ok 0
put b 2=ok 1
put c 3=ok 2
range a c=a 1/b 2/end 2
range c a=end 0
range - - 1=a 1/end 1
range b -=b 2/c 3/end 2
range - b=a 1/end 1
prefix -=a 1/b 2/c 3/end 3
prefix b=b 2/end 1
prefix - 1=a 1/end 1",
    "put a x=ok 0
flush 0=flushed 50 installed
del a=ok 2
get a 2=value x
get a=none
stats=tables 1 runs 1 sealed 0 len 2 bytes 37
now 18446744073709551615=ok
flush 0=flushed 49 installed",
    // A value and its weak removal leave together.
    "put a x=ok 0
weak a=ok 1
flush 2=flushed 99 installed
get a 1=value x
get a 2=none
get a 3=none
stats=tables 0 runs 0 sealed 0 len 0 bytes 0",
    // A first level of four tables goes into the last level.
    "put a 1=ok 0
flush 0=flushed 50 installed
put a 2=ok 2
flush 0=flushed 50 installed
put a 3=ok 4
flush 0=flushed 50 installed
compact leveled 0=nothing
put a 4=ok 6
flush 0=flushed 50 installed
compact leveled 8=installed
stats=tables 1 runs 0 sealed 0 len 1 bytes 37
get a 9=value 4
get a 7=error 8 SnapshotTooOld",
    // A tombstone that hides nothing more goes from the last level, and with it the table.
    "put a x=ok 0
flush 0=flushed 50 installed
compact major 0=installed
del a=ok 3
flush 0=flushed 49 installed
compact major 5=installed
stats=tables 0 runs 0 sealed 0 len 0 bytes 0
get a 4=error 8 SnapshotTooOld
get a 5=none
get a 6=none",
    // Without a watermark nothing is forgotten.
    "put a x=ok 0
flush 0=flushed 50 installed
del a=ok 2
flush 0=flushed 49 installed
compact major 0=installed
get a 6=none",
    // Of two tables, made at 1000 and at 1005 seconds, one is older than 10 seconds at 1011.
    "now 1000000000000=ok
put a x=ok 0
flush 0=flushed 50 installed
now 1005000000000=ok
put b y=ok 2
flush 0=flushed 50 installed
now 1011000000000=ok
stats=tables 2 runs 1 sealed 0 len 2 bytes 74
compact fifo 18446744073709551615 10 0=installed
range - -=b y/end 1",
    // A drop takes what lies within its bounds, at the snapshots above its number.
    "put a x=ok 0
flush 0=flushed 50 installed
put b x=ok 2
flush 0=flushed 50 installed
put c x=ok 4
flush 0=flushed 50 installed
drop a b=installed
stats=tables 1 runs 1 sealed 0 len 1 bytes 37
get b 7=none
get c 7=value x
get b 6=value x
drop c a=nothing
put b z=ok 7
get b 8=value z",
];

/// What is printed without a log.
pub const PLAIN: [&str; 7] = [
    "weak a=ok 0
put a x=ok 1
put a y=error 18 OutOfOrder",
    // What is synced outlives a crash, and what is in memory doesn't.
    "put a x=ok 0
flush 0=flushed 50 installed
put b y=ok 2
crash=crashed
reopen=opened 1
get a=value x
get b=none",
    // After a crash the tree is to be opened again before all else; a tree that is open may be opened again as well.
    "flush 0=nothing
put a x=ok 0
crash=crashed
get a=error 0 Usage
crash=error 0 Usage
stats=error 0 Usage
reopen=opened 0
get a=none
reopen=opened 0",
    // After a clear nothing is read, but at the snapshots that aren't above its number.
    "clear=cleared 0
put a x=ok 1
flush 0=flushed 50 installed
put b y=ok 3
clear=cleared 4
range - -=end 0
range - - 4=a x/b y/end 2
stats=tables 0 runs 0 sealed 0 len 0 bytes 0
put b z=ok 5
get b=value z
get b 5=none
crash=crashed
reopen=opened 0
range - -=end 0",
    // Three tables of 37 bytes are over a limit of one byte.
    "put a x=ok 0
flush 0=flushed 50 installed
put b y=ok 2
flush 0=flushed 50 installed
put c z=ok 4
flush 0=flushed 50 installed
stats=tables 3 runs 1 sealed 0 len 3 bytes 111
compact fifo 1 0 3=installed
stats=tables 0 runs 0 sealed 0 len 0 bytes 0
compact fifo 1 0 3=nothing",
    // `Fifo` wants a first level of one run.
    "put a x=ok 0
flush 0=flushed 50 installed
put a y=ok 2
flush 0=flushed 50 installed
compact fifo 1 0 0=error 15 NotDisjoint",
    // An open drop takes every table, and no memtable.
    "put a x=ok 0
flush 0=flushed 50 installed
put b y=ok 2
drop - -=installed
range - -=b y/end 1",
];

/// What is printed with a log.
pub const LOGGED: [&str; 3] = [
    // What was answered is there after a crash, also at older snapshots, and numbers go on after it.
    "put a x=ok 0
crash=crashed
get a=error 0 Usage
reopen=opened 0
put b y=ok 1
del a=ok 2
crash=crashed
reopen=opened 0
range - -=b y/end 1
get a 1=value x",
    // A flush passes records, and those after it count.
    "put a x=ok 0
flush 0=flushed 50 installed
put b y=ok 2
crash=crashed
reopen=opened 1
prefix -=a x/b y/end 2
put c z=ok 3
stats=tables 1 runs 1 sealed 0 len 3 bytes 37",
    // A clear passes them as well.
    "put a x=ok 0
clear=cleared 1
range - -=end 0
put b y=ok 2
crash=crashed
reopen=opened 0
range - -=b y/end 1",
];

/// Lines that ask nothing.
pub const OTHERS: &[u8] =
    b"\n \nput a\nput a x y\nput a \x80\nput a \x7f\nput a\tx\ndel\ndel a b\nweak\nget\n\
get  a\nget a \nget a\r\nget a 18446744073709551616\nget a 01\nget a +5\n rotate\n\
rotate x\nRotate\nprefix\nprefix a 01\nrange a\nrange a c 01\nrange a c 1 2\nflush\n\
flush 01\nflush a\ncompact\ncompact leveled\ncompact leveled x\ncompact minor 1\n\
compact major 1 2\ncompact fifo 1 2\ncompact fifo 1 x 2\ncompact fifo 1 2 3 4\n\
drop a\ndrop a b c\nnow -1\nstats 1\nclear 1\nreopen x\n";

pub const OTHER_COUNT: usize = 42;

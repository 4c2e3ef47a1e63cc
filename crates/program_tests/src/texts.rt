//! What commands write.

/// What `lumps` writes of the sample level.
pub const LISTED: &[u8] = b"file 1 PWAD 11
0 12 0 E1M1
1 12 10 THINGS
2 22 14 LINEDEFS
3 36 60 SIDEDEFS
4 96 8 VERTEXES
5 104 24 SEGS
6 128 8 SSECTORS
7 136 28 NODES
8 164 52 SECTORS
9 216 1 REJECT
10 217 16 BLOCKMAP
";

/// What `show` writes of the sample level.
pub const SHOWN: &[u8] = b"level E1M1 at 0
THINGS 1 rest 0
0 8 8 0 1 7
LINEDEFS 1 rest 0
0 0 1 4 0 0 0 1
SIDEDEFS 2 rest 0
0 0 0 - - - 0
1 0 0 - - - 1
VERTEXES 2 rest 0
0 0 0
1 0 64
SEGS 2 rest 0
0 0 1 16384 0 0 0
1 1 0 -16384 0 1 0
SSECTORS 2 rest 0
0 1 0
1 1 1
NODES 1 rest 0
0 0 0 0 64 64 0 0 0 64 0 0 0 32768 32769
SECTORS 2 rest 0
0 0 128 FLAT1 FLAT1 160 0 0
1 0 128 FLAT1 FLAT1 160 0 0
REJECT 1
BLOCKMAP 16
";

/// What `audit` writes of the sample level with the linedef `sample::LINE_WITHOUT_SIDE_1`.
pub const SIDE_MISSING: &[u8] = b"F9 1 seg's linedef has no side there
N3 0 two-sided flag without side 1
faults 1 notes 1
";

/// What `audit` writes of `sample::base_not_reached`.
pub const NOT_REACHED: &[u8] = b"F14 0 node not reached
F14 1 node not reached
F16 2 ssector not reached
F16 3 ssector not reached
faults 4 notes 0
";

use chunk_file::{ChunkErr, has_counts, list, read, write};

// The chunk of the empty script.
const EMPTY: &[u8] = &[
    0x4C, 0x57, 0x43, 0x48, 1, 0, 1, 1, 0, 0, 1, 2, 0x3F, 0, 0, 0, 0x15, 0, 1, 0, 0, 0, 0,
];

// A chunk with a string, a constant of each kind, numbers and indices at their limits, and a prototype with a child.
const LARGE: &[u8] = &[
    0x4C, 0x57, 0x43, 0x48, 1, 1, 2, 0x61, 0xFF, 2, 250, 3, 200, 0, 0, 9, 0, 1, 2, 3, 0, 0, 0, 0,
    0, 0, 0x20, 0, 3, 0, 0, 0, 0, 0, 0, 0xE0, 0xFF, 3, 0xFF, 0xFF, 0xFF, 0xFF, 0xFF, 0xFF, 0xFF,
    0xFF, 4, 0xFF, 0xFF, 0xFF, 0xFF, 0x0F, 4, 0xAC, 0x02, 5, 0, 4, 0, 0x80, 0, 1, 0, 0, 1, 1, 0x3F,
    0, 0, 0, 0, 1, 0, 1,
];

// What follows the version in a file, and why it is no chunk.
const FAULTS: [(&[u8], ChunkErr); 21] = [
    (&[0x80, 0], ChunkErr::BadField { at: 5 }),
    (
        &[0xFF, 0xFF, 0xFF, 0xFF, 0x10],
        ChunkErr::BadField { at: 5 },
    ),
    (
        &[0xFF, 0xFF, 0xFF, 0xFF, 0x8F],
        ChunkErr::BadField { at: 5 },
    ),
    (&[1, 0x81, 0], ChunkErr::BadField { at: 6 }),
    (&[0, 1, 1, 0, 0, 2], ChunkErr::BadField { at: 10 }),
    (&[0, 1, 1, 0, 0, 1, 0, 1, 6], ChunkErr::BadField { at: 13 }),
    (
        &[0, 1, 1, 0, 0, 1, 0, 1, 3, 1, 0, 0, 0, 0, 0, 0x20, 0],
        ChunkErr::BadField { at: 14 },
    ),
    (
        &[
            0, 1, 1, 0, 0, 1, 0, 1, 3, 0xFF, 0xFF, 0xFF, 0xFF, 0xFF, 0xFF, 0xDF, 0xFF,
        ],
        ChunkErr::BadField { at: 14 },
    ),
    (
        &[0, 1, 1, 0, 0, 1, 0, 1, 4, 0x80, 0],
        ChunkErr::BadField { at: 14 },
    ),
    (
        &[0, 1, 1, 0, 0, 1, 0, 0, 1, 0x80, 0],
        ChunkErr::BadField { at: 14 },
    ),
    (
        &[0, 1, 1, 0, 0, 1, 0, 0, 0, 0x80, 0],
        ChunkErr::BadField { at: 14 },
    ),
    (
        &[0xFF, 0xFF, 0xFF, 0xFF, 0x0F],
        ChunkErr::Truncated { at: 10 },
    ),
    (&[0, 0x80, 0], ChunkErr::BadField { at: 6 }),
    (&[0, 1, 1, 0, 0, 1, 0x80, 0], ChunkErr::BadField { at: 11 }),
    (
        &[0, 1, 1, 0, 0, 1, 0, 0x80, 0],
        ChunkErr::BadField { at: 12 },
    ),
    (&[0, 0, 0x80, 0], ChunkErr::BadField { at: 7 }),
    // Seven bytes of eight: some eighth byte makes them a number in range, or none does.
    (
        &[0, 1, 1, 0, 0, 1, 0, 1, 3, 0, 0, 0, 0, 0, 0, 0x20],
        ChunkErr::Truncated { at: 21 },
    ),
    (
        &[0, 1, 1, 0, 0, 1, 0, 1, 3, 1, 0, 0, 0, 0, 0, 0x20],
        ChunkErr::BadField { at: 14 },
    ),
    (
        &[
            0, 1, 1, 0, 0, 1, 0, 1, 3, 0xFF, 0xFF, 0xFF, 0xFF, 0xFF, 0xFF, 0xDF,
        ],
        ChunkErr::BadField { at: 14 },
    ),
    (
        &[0, 1, 1, 0, 0, 1, 0, 1, 3, 0, 0, 0, 0, 0, 0, 0xE0],
        ChunkErr::Truncated { at: 21 },
    ),
    (
        &[0, 1, 1, 0, 0, 1, 0, 1, 3, 0, 0, 0, 0, 0, 0x40],
        ChunkErr::Truncated { at: 20 },
    ),
];

// Files whose first bytes are wrong.
const HEADS: [(&[u8], ChunkErr); 4] = [
    (&[], ChunkErr::Truncated { at: 0 }),
    (&[0], ChunkErr::BadMagic { at: 0 }),
    (&[0x4C, 0x57, 0x43, 0x49, 1], ChunkErr::BadMagic { at: 3 }),
    (&[0x4C, 0x57, 0x43, 0x48, 2], ChunkErr::BadVersion { at: 4 }),
];

// A chunk with every instruction, two strings and a constant of each kind.
const EVERY: &[u8] = &[
    0x4C, 0x57, 0x43, 0x48, 1, 2, 8, 0x73, 0x61, 0x79, 0x20, 0x22, 0x68, 0x69, 0x22, 6, 0x5C, 0x20,
    0x0A, 0x7F, 0x80, 0x7E, 2, 0xFA, 2, 3, 0, 0x61, 0, 1, 0, 0, 1, 1, 0, 0, 2, 2, 0x66, 0x98, 3, 3,
    0x2C, 1, 4, 4, 0x6F, 0xFE, 5, 5, 0x69, 0, 6, 6, 0, 0, 0x70, 0x17, 0, 0, 7, 7, 0, 0, 0xF8, 0xFF,
    0xFF, 0xFF, 8, 8, 0x6C, 0, 9, 9, 0x6D, 0, 0x0A, 0x0A, 0, 0, 0x0B, 0x0B, 0x4C, 4, 0xF4, 0xFF,
    0xFF, 0xFF, 0x0C, 0x0C, 0x70, 0xA2, 0x0D, 0x0D, 0x71, 0xA3, 0x0E, 0x0E, 0x72, 0, 0xB0, 0x36, 0,
    0, 0x0F, 0x0F, 0x73, 0, 0xF0, 0xFF, 0xFF, 0xFF, 0x10, 0x10, 0x74, 0xA6, 0x11, 0x11, 0x75, 0xA7,
    0x12, 0x12, 0xF7, 0xF8, 0x13, 0x13, 0x77, 0, 0xEC, 0xFF, 0xFF, 0xFF, 0x14, 0x14, 0x78, 0xAA,
    0x15, 0x15, 0x79, 0, 0x16, 0, 0x67, 0xF7, 0x17, 0, 0xFC, 8, 0x18, 0x18, 0x9F, 0xF6, 0x19, 0x19,
    0xC4, 9, 0x1A, 0x1A, 0xD7, 0xF5, 0x90, 0x65, 0, 0, 0x1B, 0x1B, 0x8C, 0x0A, 0xE4, 0xFF, 0xFF,
    0xFF, 0x1C, 0x1C, 0x0F, 0xF5, 0x60, 0x6D, 0, 0, 0x1D, 0x1D, 0x54, 0x0B, 0xE2, 0xFF, 0xFF, 0xFF,
    0x1E, 0x1E, 0x47, 0xF4, 0x30, 0x75, 0, 0, 0x1F, 0x1F, 0x1C, 0x0C, 0xE0, 0xFF, 0xFF, 0xFF, 0x20,
    0x20, 0x84, 0xB6, 0x21, 0x21, 0x85, 0xB7, 0x22, 0x22, 0x86, 0xB8, 0x23, 0x23, 0x87, 0xB9, 0x24,
    0x24, 0x88, 0xBA, 0x25, 0x25, 0x89, 0xBB, 0x26, 0x26, 0x8A, 0xBC, 0x27, 0x27, 0x8B, 0xBD, 0x28,
    0x28, 0x8C, 0xBE, 0x29, 0x29, 0x8D, 0xBF, 0x2A, 0x2A, 0x8E, 0xC0, 0x2B, 0x2B, 0x8F, 0xC1, 0x2C,
    0x2C, 0x90, 0xC2, 0x2D, 0x2D, 0x91, 0xC3, 0x2E, 0x2E, 0x92, 0xC4, 0x2F, 0x2F, 0x93, 0xC5, 0x30,
    0x30, 0x94, 0xC6, 0x31, 0x31, 0x95, 0xC7, 0x32, 0x32, 0x96, 0xC8, 0x33, 0x33, 0x97, 0xC9, 0x34,
    0x34, 0x98, 0xCA, 0x35, 0x35, 0x99, 0, 0x36, 0x36, 0x9A, 0, 0x37, 0x37, 0x9B, 0, 0x38, 0x38, 0,
    0, 0, 0, 0, 0, 0x39, 0x39, 0x9D, 0xCF, 0xC6, 0xFF, 0xFF, 0xFF, 0x3A, 0x3A, 0x57, 0xE9, 0x3B,
    0x3B, 0x0C, 0x17, 0x3C, 0x3C, 0x8F, 0xE8, 0x3D, 0x3D, 0xD4, 0x17, 0xC2, 0xFF, 0xFF, 0xFF, 0x3E,
    0x3E, 0xA2, 0, 0x3F, 0x3F, 0, 0, 0x40, 0x40, 0xA4, 0, 0x41, 0x41, 0, 0xD7, 0x42, 0x42, 0xA6,
    0xD8, 0x43, 0x43, 0xA7, 0xD9, 0xBC, 0xFF, 0xFF, 0xFF, 0x44, 0x44, 0xA8, 0xDA, 0xA0, 9, 1, 0,
    0x45, 0, 0, 0x80, 0x46, 0x46, 0, 0, 0x70, 0x11, 1, 0, 0x47, 0x47, 0xBC, 0x1B, 0xB8, 0xFF, 0xFF,
    0xFF, 0x48, 0x48, 0xDF, 0xE3, 0x40, 0x19, 1, 0, 0x49, 0x49, 0x84, 0x1C, 0xB6, 0xFF, 0xFF, 0xFF,
    0x4A, 0x4A, 0x17, 0xE3, 0x10, 0x21, 1, 0, 7, 0, 1, 2, 3, 0, 0, 0, 0, 0, 0, 0xE0, 0xFF, 4, 0, 4,
    1, 5, 0, 4, 0, 0x80, 2, 1, 0xAC, 2, 1, 0, 0, 1, 2, 0x3F, 0, 0, 0, 0x15, 0, 1, 0, 0, 0, 1,
];

// Its listing.
const LISTING: &str = "proto 0 250 2 3 0
k 0 nil
k 1 false
k 2 true
k 3 -9007199254740992
k 4 \"say \\22hi\\22\"
k 5 \"\\5c \\0a\\7f\\80~\"
k 6 import 2147484672
child 0 1
child 1 300
0 NOP 1
1 LOADNIL 1
2 LOADB 2 102 152
3 LOADN 3 300
4 LOADK 4 -401
5 MOVE 5 105
6 GETGLOBAL 6 6000
8 SETGLOBAL 7 4294967288
10 GETUPVAL 8 108
11 SETUPVAL 9 109
12 CLOSEUPVALS 10
13 GETIMPORT 11 1100 4294967284
15 GETTABLE 12 112 162
16 SETTABLE 13 113 163
17 GETTABLEKS 14 114 14000
19 SETTABLEKS 15 115 4294967280
21 GETTABLEN 16 116 166
22 SETTABLEN 17 117 167
23 NEWCLOSURE 18 -1801
24 NAMECALL 19 119 4294967276
26 CALL 20 120 170
27 RETURN 21 121
28 JUMP -2201
29 JUMPBACK 2300
30 JUMPIF 24 -2401
31 JUMPIFNOT 25 2500
32 JUMPIFEQ 26 -2601 26000
34 JUMPIFLE 27 2700 4294967268
36 JUMPIFLT 28 -2801 28000
38 JUMPIFNOTEQ 29 2900 4294967266
40 JUMPIFNOTLE 30 -3001 30000
42 JUMPIFNOTLT 31 3100 4294967264
44 ADD 32 132 182
45 SUB 33 133 183
46 MUL 34 134 184
47 DIV 35 135 185
48 MOD 36 136 186
49 POW 37 137 187
50 IDIV 38 138 188
51 ADDK 39 139 189
52 SUBK 40 140 190
53 MULK 41 141 191
54 DIVK 42 142 192
55 MODK 43 143 193
56 POWK 44 144 194
57 IDIVK 45 145 195
58 SUBRK 46 146 196
59 DIVRK 47 147 197
60 AND 48 148 198
61 OR 49 149 199
62 ANDK 50 150 200
63 ORK 51 151 201
64 CONCAT 52 152 202
65 NOT 53 153
66 MINUS 54 154
67 LENGTH 55 155
68 NEWTABLE 56
70 SETLIST 57 157 207 4294967238
72 FORNPREP 58 -5801
73 FORNLOOP 59 5900
74 FORGPREP 60 -6001
75 FORGLOOP 61 6100 4294967234
77 GETVARARGS 62 162
78 PREPVARARGS 63
79 CAPTURE 64 164
80 FASTCALL 65 215
81 FASTCALL1 66 166 216
82 FASTCALL2 67 167 217 4294967228
84 FASTCALL2K 68 168 218 68000
86 JUMPX -8388608
87 LOADKX 70 70000
89 JUMPXEQKNIL 71 7100 4294967224
91 JUMPXEQKB 72 -7201 72000
93 JUMPXEQKN 73 7300 4294967222
95 JUMPXEQKS 74 -7401 74000
proto 1 1 0 0 1
0 PREPVARARGS 0
1 RETURN 0 1
main 1
";

// Code in which no instruction stands behind the first.
const BROKEN: &[u8] = &[
    0x4C, 0x57, 0x43, 0x48, 1, 0, 1, 1, 0, 0, 0, 3, 1, 0, 0, 0, 0x4B, 0, 0, 0, 1, 0, 0, 0, 0, 0, 0,
];

// Files, and their listings.
const LISTINGS: [(&[u8], &str); 4] = [
    (
        EMPTY,
        "proto 0 1 0 0 1
0 PREPVARARGS 0
1 RETURN 0 1
main 0
",
    ),
    (
        LARGE,
        "proto 0 250 3 200 0
k 0 nil
k 1 false
k 2 true
k 3 9007199254740992
k 4 -9007199254740992
k 5 -1
k 6 \"\"
k 7 \"\"
k 8 import 2147484672
proto 1 1 0 0 1
child 0 0
0 PREPVARARGS 0
main 1
",
    ),
    (EVERY, LISTING),
    (
        BROKEN,
        "proto 0 1 0 0 0
0 LOADNIL 0
main 0
",
    ),
];

#[test]
fn chunks_both_ways(rt: HostRuntime) {
    for bytes in &[EMPTY, LARGE] {
        let bytes = *bytes;
        let chunk = read(rt.alloc(), bytes).expect(&rt, "a chunk");
        assert!(rt; has_counts(&chunk));
        assert_eq!(rt;
            write(rt.alloc(), &chunk).expect(&rt, "memory").as_slice(),
            bytes
        );
        for length in 0..bytes.len() {
            let found = read(rt.alloc(), &bytes[..length]);
            assert_eq!(rt; found.err(), Some(ChunkErr::Truncated { at: length }));
        }
    }
}

#[test]
fn faults(rt: HostRuntime) {
    for (bytes, wanted) in &HEADS {
        assert_eq!(rt; read(rt.alloc(), bytes).err(), Some(*wanted));
    }
    for (behind, wanted) in &FAULTS {
        let mut bytes = vec![in rt.alloc(); 0x4C, 0x57, 0x43, 0x48, 1].expect(&rt, "memory");
        bytes.extend_from_slice(behind).expect(&rt, "memory");
        assert_eq!(rt; read(rt.alloc(), bytes.as_slice()).err(), Some(*wanted));
    }
    let mut bytes = Vec::new(rt.alloc());
    bytes.extend_from_slice(EMPTY).expect(&rt, "memory");
    bytes.push(0).expect(&rt, "memory");
    assert_eq!(rt;
        read(rt.alloc(), bytes.as_slice()).err(),
        Some(ChunkErr::Trailing { at: 23 })
    );
}

#[test]
fn listings(rt: HostRuntime) {
    for (bytes, wanted) in &LISTINGS {
        let chunk = read(rt.alloc(), bytes).expect(&rt, "a chunk");
        let listing = list(rt.alloc(), &chunk).expect(&rt, "memory");
        assert_eq!(rt; listing.as_slice(), wanted.as_bytes());
    }
}

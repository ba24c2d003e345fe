//! What stands in the tables, entry by entry.

pub(crate) const GLOBAL: &str = "print = function: print
type = function: type
typeof = function: typeof
tostring = function: tostring
tonumber = function: tonumber
assert = function: assert
error = function: error
pcall = function: pcall
xpcall = function: xpcall
select = function: select
next = function: next
pairs = function: pairs
ipairs = function: ipairs
rawget = function: rawget
rawset = function: rawset
rawequal = function: rawequal
rawlen = function: rawlen
getmetatable = function: getmetatable
setmetatable = function: setmetatable
unpack = function: table.unpack
getfenv = function: getfenv
setfenv = function: setfenv
math = table: math
string = table: string
table = table: table
coroutine = table: coroutine
";

pub(crate) const STRING_META: &str = "__index = table: string
";

/// The libraries, by their places in the global table.
pub(crate) const LIBRARIES: [(usize, &str); 4] = [
    (
        22,
        "abs = function: math.abs
ceil = function: math.ceil
floor = function: math.floor
round = function: math.round
sign = function: math.sign
max = function: math.max
min = function: math.min
clamp = function: math.clamp
",
    ),
    (
        23,
        "byte = function: string.byte
char = function: string.char
len = function: string.len
sub = function: string.sub
lower = function: string.lower
upper = function: string.upper
rep = function: string.rep
reverse = function: string.reverse
split = function: string.split
format = function: string.format
",
    ),
    (
        24,
        "insert = function: table.insert
remove = function: table.remove
concat = function: table.concat
unpack = function: table.unpack
pack = function: table.pack
create = function: table.create
find = function: table.find
clear = function: table.clear
clone = function: table.clone
freeze = function: table.freeze
isfrozen = function: table.isfrozen
move = function: table.move
sort = function: table.sort
",
    ),
    (
        25,
        "create = function: coroutine.create
resume = function: coroutine.resume
yield = function: coroutine.yield
status = function: coroutine.status
wrap = function: coroutine.wrap
isyieldable = function: coroutine.isyieldable
running = function: coroutine.running
close = function: coroutine.close
",
    ),
];

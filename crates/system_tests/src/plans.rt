// Texts of plans, the rows of their inputs, and the text that is printed of what they give.

/// Two operators, one behind the other.
pub(crate) const CHAIN: &[u8] = b"output out: rows(1);
input in: rows(1);
queue q: rows(1);
op a: (q) <- (in) { code(1, 0) (1) () { push 0 (-input[0]); } }
op b: (out) <- (q) { code(1, 0) (1) () { push 0 (input[0] + 1); } }
";

/// The same with a body that keeps a slot.
pub(crate) const SUMS: &[u8] = b"output out: rows(1);
input in: rows(1);
queue q: rows(1);
var $n;
op a: (q, $n) <- (in, $n) { code(1, 1) (1) (5) { slot[0] = slot[0] + input[0]; push 0 (slot[0]); } }
op b: (out) <- (q) { code(1, 0) (1) () { push 0 (input[0] + 1); } }
";

/// A join with shares.
pub(crate) const JOIN: &[u8] = b"output out: rows(1);
input a: rows(1);
input b: rows(1);
var $j;
op join: (out, $j) <- (a, b, $j) { collect(1, 2) }
";

/// A split and a join with shares, and a filter. A copy of each queue between them goes to an output.
pub(crate) const SPLITS: &[u8] = b"output out: rows(1);
output ta: rows(1);
output tb: rows(1);
output tc: rows(1);
output td: rows(1);
output te: rows(1);
input in: rows(1);
queue a: rows(1);
queue b: rows(1);
queue c: rows(1);
queue d: rows(1);
queue e: rows(1);
queue a1: rows(1);
queue b1: rows(1);
queue c1: rows(1);
queue d1: rows(1);
queue e1: rows(1);
var $s;
var $j;
var $f;
op split: (a, b, $s) <- (in, $s) { deal(1, 2) }
op a: (a1, ta) <- (a) { duplicate(2) }
op b: (b1, tb) <- (b) { duplicate(2) }
op minus: (c) <- (a1) { code(1, 0) (1) () { push 0 (-input[0]); } }
op twice: (d) <- (b1) { code(1, 0) (1) () { push 0 (input[0] * 2); } }
op c: (c1, tc) <- (c) { duplicate(2) }
op d: (d1, td) <- (d) { duplicate(2) }
op join: (e, $j) <- (c1, d1, $j) { collect(1, 2) }
op e: (e1, te) <- (e) { duplicate(2) }
op sum: (out, $f) <- (e1, $f) { filter(3, 2, 1, 0) () { push 0 (input[0] + input[1] + input[2]); } }
";

/// Packs of two inputs that are joined. The packs of the first are made once more, and opened alone to an output.
pub(crate) const PACKS: &[u8] = b"output out: rows(1);
output alone: rows(1);
output tx: rows(1);
output tz: rows(1);
input in: rows(1);
input more: rows(1);
queue x: rows(1);
queue y: rows(1);
queue z: rows(1);
queue p: pack(rows(1));
queue q: pack(rows(1));
queue r: pack(rows(1));
var $u;
var $v;
op x: (x, y, tx) <- (in) { duplicate(3) }
op z: (z, tz) <- (more) { duplicate(2) }
op p: (p) <- (x) { packed { code(1, 0) (1) () { push 0 (input[0]); push 0 (input[0] + 1); } } }
op q: (q) <- (y) { packed { code(1, 0) (1) () { push 0 (input[0]); push 0 (input[0] + 1); } } }
op r: (r) <- (z) { packed { duplicate(1) } }
op out: (out, $u) <- (p, r, $u) { unpack(2) }
op alone: (alone, $v) <- (q, $v) { unpack(1) }
";

/// The rows of each input of a plan.
pub(crate) type Lists<'a> = &'a [&'a [&'a [i64]]];

/// The rows of the input of `SUMS`.
pub(crate) const FOUR: Lists<'_> = &[&[&[4], &[-9]]];

/// What `SUMS` gives for it.
pub(crate) const SUMS_TEXT: &[u8] = b"# out
10
1
## firings
a,2
b,2
";

/// The rows of the inputs of `JOIN`.
pub(crate) const FIVE: Lists<'_> = &[&[&[1], &[2]], &[&[7], &[8], &[9]]];

/// What `JOIN` gives for them.
pub(crate) const JOIN_TEXT: &[u8] = b"# out
1
7
8
2
9
## firings
join,5
";

/// The rows of the input of `SPLITS`.
pub(crate) const SEVEN: Lists<'_> = &[&[&[1], &[2], &[3], &[4], &[5], &[6], &[7]]];

/// What `SPLITS` gives for it.
pub(crate) const SPLITS_TEXT: &[u8] = b"# out
9
12
15
# ta
1
4
7
# tb
2
3
5
6
# tc
-1
-4
-7
# td
4
6
10
12
# te
-1
4
6
-4
10
12
-7
## firings
split,7
a,3
b,4
minus,3
twice,4
c,3
d,4
join,7
e,7
sum,7
";

/// The rows of the inputs of `PACKS`.
pub(crate) const TWO: Lists<'_> = &[&[&[10], &[20], &[30]], &[&[7], &[8]]];

/// What `PACKS` gives for them.
pub(crate) const PACKS_TEXT: &[u8] = b"# out
10
11
7
20
21
8
30
31
# alone
10
11
20
21
30
31
# tx
10
20
30
# tz
7
8
## firings
x,3
z,2
p,3
q,3
r,2
out,5
alone,3
";

/// Two operators that add to one table, the second two rows for each item.
pub(crate) const SHARED: &[u8] = b"input a: rows(1);
input b: rows(1);
queue p: rows(2);
queue q: rows(2);
table $best: maximum(4, 0);
op a: (p) <- (a) { code(1, 0) (2) () { push 0 (input[0], 5); } }
op b: (q) <- (b) { code(1, 0) (2) () { push 0 (input[0], 5); push 0 (input[0] + 1, 4); } }
op ta: ($best) <- (p, $best) { tally }
op tb: ($best) <- (q, $best) { tally }
";

/// What `SHARED` gives for the rows of `TWO`.
pub(crate) const SHARED_TEXT: &[u8] = b"# best
7,5
8,5
10,5
20,5
## firings
a,3
b,2
ta,3
tb,4
";

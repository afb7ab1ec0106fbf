//! Rows of streams: what, the stream, how many items, types, values and bytes its whole items have, and what is refused
//! behind them.

/// Those of the format.
pub(crate) const STRICT: &str = "
nothing |  | 0 0 0 0
an int | 03 04 00 06 | 1 0 1 4
three ints | 03 04 00 06 03 04 00 08 04 04 00 ff 80 | 3 0 3 13
a definition | 0c ff 81 02 01 02 ff 82 00 01 0c 00 00 | 1 1 0 13
and a value of it | 0c ff 81 02 01 02 ff 82 00 01 0c 00 00 06 ff 82 00 01 01 61 03 04 00 06 | 3 1 2 24
an item that ends too early | 03 04 00 | 0 0 0 0 | refused 22 Ended at 3 seen 3
behind a definition | 0c ff 81 02 01 02 ff 82 00 01 0c 00 00 03 04 | 1 1 0 13 | refused 22 Ended at 15 seen 15
a bool of 2 behind an int | 03 04 00 06 03 02 00 02 | 1 0 1 4 | refused 13 Bool at 7 seen 8
an interface that holds something | 03 04 00 06 0a 10 00 03 69 6e 74 04 02 00 0a | 1 0 1 4 | \
refused 16 InterfaceValue at 7 seen 8
";

/// Those of Go's encoder.
pub(crate) const GO: &str = "
nothing |  | 0 0 0 0
an int in an interface | 0a 10 00 03 69 6e 74 04 02 00 0a | 1 0 1 11
a definition in a value | 12 10 00 03 69 6e 74 ff 81 02 01 02 ff 82 00 01 04 00 00 04 04 02 00 0a | 1 1 1 24
and a value of its type | 12 10 00 03 69 6e 74 ff 81 02 01 02 ff 82 00 01 04 00 00 04 04 02 00 0a 05 ff 82 00 01 06 \
| 2 1 2 30
in an item that is refused | 03 04 00 06 12 10 00 03 69 6e 74 ff 81 02 01 02 ff 82 00 01 04 00 00 04 02 02 00 02 \
| 1 0 1 4 | refused 13 Bool at 27 seen 28
in an item that ends too early | 03 04 00 06 12 10 00 03 69 6e 74 ff 81 02 01 02 ff 82 00 01 04 00 00 04 04 02 \
| 1 0 1 4 | refused 22 Ended at 26 seen 26
a definition by itself and a value | 0c ff 81 02 01 02 ff 82 00 01 0c 00 00 06 ff 82 00 01 01 61 | 2 1 1 20
";

//! Streams, and the JSON of their last values.

/// What, the stream, and the JSON of its last value. An empty line stands between two rows.
pub(crate) const ROWS: &str = r#"
true | 03 02 00 01 | true

false | 03 02 00 00 | false

an int beyond 2 to the 53 | 0a 04 00 f9 40 00 00 00 00 00 02 | 9007199254740993

the least int | 0b 04 00 f8 ff ff ff ff ff ff ff ff | -9223372036854775808

the greatest uint | 0b 06 00 f8 ff ff ff ff ff ff ff ff | 18446744073709551615

a whole float | 05 08 00 fe 31 40 | 17.0

minus zero | 04 08 00 ff 80 | -0.0

a tenth | 0b 08 00 f8 9a 99 99 99 99 99 b9 3f | 0.1

a large float | 0b 08 00 f8 50 ef e2 d6 e4 1a 4b 44 | 1e21

the greatest float | 0b 08 00 f8 ff ff ff ff ff ff ef 7f | 1.7976931348623157e308

the least float above zero | 0b 08 00 f8 01 00 00 00 00 00 00 00 | 5e-324

infinity | 05 08 00 fe f0 7f | "Infinity"

minus infinity | 05 08 00 fe f0 ff | "-Infinity"

a NaN | 0b 08 00 f8 01 00 00 00 00 00 f8 7f | "NaN"

a NaN with a sign | 0b 08 00 f8 01 00 00 00 00 00 f8 ff | "NaN"

a complex number | 06 0e 00 fe 31 40 00 | [17.0,0.0]

no bytes | 03 0a 00 00 | ""

one byte | 04 0a 00 01 66 | "Zg=="

two bytes | 05 0a 00 02 00 ff | "AP8="

three bytes | 06 0a 00 03 61 62 63 | "YWJj"

a text with a quote and a line feed | 06 0c 00 03 61 22 0a | "a\"\n"

a text beyond ASCII | 05 0c 00 02 c3 bc | "ü"

a text that is no UTF-8 | 04 0c 00 01 ff | {"hex":"ff"}

nil | 03 10 00 00 | null

a struct | POINT 07 ff 82 01 2c 01 42 00 | {"X":22,"Y":33}

a struct whose first field is absent | POINT 05 ff 82 02 42 00 | {"Y":33}

a struct without fields | POINT 03 ff 82 00 | {}

a struct in a struct | NODE 09 ff 82 01 02 01 01 04 00 00 | {"V":1,"Next":{"V":2}}

an array | ARRAY 06 ff 82 00 02 02 04 | [1,2]

a slice of slices | LIST 05 ff 82 00 01 00 | [[]]

an empty slice | LIST 04 ff 82 00 00 | []

a map of texts, one of them twice | MAP 0a ff 82 00 02 01 61 02 01 61 04 | {"a":1,"a":2}

an empty map of texts | MAP 04 ff 82 00 00 | {}

a map of ints | 0e ff 81 04 01 02 ff 82 00 01 04 01 0c 00 00 07 ff 82 00 01 05 01 6d | {"-3":"m"}

a map of uints | 0e ff 81 04 01 02 ff 82 00 01 06 01 02 00 00 0e ff 82 00 01 f8 ff ff ff ff ff ff ff ff
01 | {"18446744073709551615":true}

a map of bools | 0e ff 81 04 01 02 ff 82 00 01 02 01 04 00 00 06 ff 82 00 01 01 02 | [[true,1]]

an empty map of bools | 0e ff 81 04 01 02 ff 82 00 01 02 01 04 00 00 04 ff 82 00 00 | []

a map of bytes | 0e ff 81 04 01 02 ff 82 00 01 0a 01 04 00 00 07 ff 82 00 01 01 66 02 | [["Zg==",1]]

a map of structs | 0f ff 83 04 01 02 ff 84 00 01 ff 82 01 02 00 00 18 ff 81 03 01 02 ff 82 00 01 02 01 01 41 01 04 00 01
01 42 01 0c 00 00 00 0b ff 84 00 01 01 02 01 01 7a 00 01 | [[{"A":1,"B":"z"},true]]

a field whose name is no UTF-8 | 15 ff 81 03 01 01 01 53 01 ff 82 00 01 01 01 01 ff 01 04 00 00 00 05 ff 82 01 02
00 | {"0xff":1}

two fields of one name | 1b ff 81 03 01 01 01 53 01 ff 82 00 01 02 01 01 58 01 04 00 01 01 58 01 04 00 00 00 07 ff 82 01
2c 01 42 00 | {"X":22,"X":33}

bytes that only their Go type explains | TIME 06 ff 82 00 02 0a 0b | "Cgs="
"#;

/// So of maps that may be objects or arrays, which their fronts don't tell.
pub(crate) const MAPS: &str = r#"
a map of a text that is no UTF-8 | MAP 07 ff 82 00 01 01 ff 02 | {"0xff":1}

a key that is no UTF-8, and the text of its name | MAP 0d ff 82 00 02 01 ff 02 04 30 78 66 66
04 | [[{"hex":"ff"},1],["0xff",2]]

a key that is no UTF-8, and another name | MAP 0d ff 82 00 02 01 ff 02 04 30 78 66 65 04 | {"0xff":1,"0xfe":2}

a key that is no UTF-8, and a text twice | MAP 0d ff 82 00 03 01 ff 02 01 61 04 01 61
06 | [[{"hex":"ff"},1],["a",2],["a",3]]

an empty map of interfaces | 0e ff 81 04 01 02 ff 82 00 01 10 01 10 00 00 04 ff 82 00 00 | {}

a map of an interface that holds nothing | 0e ff 81 04 01 02 ff 82 00 01 10 01 10 00 00
06 ff 82 00 01 00 00 | [[null,null]]
"#;

/// So of streams whose last value is written in a style that has the pairs of a map as an array.
pub(crate) const LISTED: &str = r#"
a text twice | MAP 0a ff 82 00 02 01 61 02 01 61 04 | [["a",1],["a",2]]

texts that are no UTF-8, and the name of one | MAP 10 ff 82 00 03 01 ff 02 04 30 78 66 66 04 01
fe 06 | [[{"hex":"ff"},1],["0xff",2],[{"hex":"fe"},3]]

a whole number | 0e ff 81 04 01 02 ff 82 00 01 04 01 0c 00 00 07 ff 82 00 01 09 01 78 | [[-5,"x"]]

interfaces that hold nothing | 0e ff 81 04 01 02 ff 82 00 01 10 01 10 00 00 08 ff 82 00 02 00 00 00
00 | [[null,null],[null,null]]

an empty map | MAP 04 ff 82 00 00 | []

a map in a map | MAP 0f ff 83 04 01 02 ff 84 00 01 0c 01 ff 82 00 00 0a ff 84 00 01 01 78 01 01 61 02 | [["x",{"a":1}]]

maps in a list | MAP 0d ff 83 02 01 02 ff 84 00 01 ff 82 00 00 08 ff 84 00 01 01 01 61 02 | [{"a":1}]

a list of whole numbers | 0c ff 83 02 01 02 ff 84 00 01 04 00 00 06 ff 84 00 02 02 04 | [1,2]
"#;

//! Streams of structs without some of their fields, and the JSON of their last values with zeros.

/// The rows.
pub(crate) const ZEROS: &str = r#"
a struct with no field of each kind that has a zero, and an interface | 46 ff 81 03 01 01 01 53 01 ff 82 00 01 09 01 01
42 01 02 00 01 01 49 01 04 00 01 01 55 01 06 00 01 01 46 01 08 00 01 01 43 01 0e 00 01 01 59 01 0a 00 01 01 53 01 0c 00
01 01 4c 01 ff 84 00 01 01 41 01 10 00 00 00 0c ff 83 02 01 02 ff 84 00 01 04 00 00 03 ff 82
00 | {"B":false,"I":0,"U":0,"F":0.0,"C":[0.0,0.0],"Y":"","S":"","L":[]}

absent fields of types without a zero | 38 ff 81 03 01 01 01 50 01 ff 82 00 01 06 01 01 41 01 ff 84 00 01 01 53 01 ff 86
00 01 01 4d 01 ff 88 00 01 01 54 01 ff 8a 00 01 01 4e 01 ff 82 00 01 01 58 01 04 00 00 00 0e ff 83 01 01 02 ff 84 00 01
04 01 02 00 00 15 ff 85 03 01 01 01 45 01 ff 86 00 01 01 01 01 59 01 04 00 00 00 0e ff 87 04 01 02 ff 88 00 01 0c 01 04
00 00 10 ff 89 05 01 01 04 54 69 6d 65 01 ff 8a 00 00 00 03 ff 82 00 | {"X":0}

a struct without its last field | POINT 05 ff 82 01 2c 00 | {"X":22,"Y":0}

a struct without its first field | POINT 05 ff 82 02 42 00 | {"X":0,"Y":33}

a struct in a struct | 23 ff 81 03 01 01 01 4f 01 ff 82 00 01 03 01 01 41 01 04 00 01 02 49 6e 01 ff 84 00 01 01 42 01
0c 00 00 00 1c ff 83 03 01 01 02 49 6e 01 ff 84 00 01 02 01 01 58 01 04 00 01 01 59 01 0c 00 00 00 07 ff 82 02 01 2c 00
00 | {"A":0,"In":{"X":22,"Y":""},"B":""}

a struct without the struct in it | 23 ff 81 03 01 01 01 4f 01 ff 82 00 01 03 01 01 41 01 04 00 01 02 49 6e 01 ff 84 00
01 01 42 01 0c 00 00 00 1c ff 83 03 01 01 02 49 6e 01 ff 84 00 01 02 01 01 58 01 04 00 01 01 59 01 0c 00 00 00 05 ff 82
01 02 00 | {"A":1,"B":""}

a struct in one of its own type | 1f ff 81 03 01 01 01 4e 01 ff 82 00 01 02 01 01 56 01 04 00 01 04 4e 65 78 74 01 ff 82
00 00 00 07 ff 82 02 01 02 00 00 | {"V":0,"Next":{"V":1}}

structs in a list | 0d ff 81 02 01 02 ff 82 00 01 ff 84 00 00 1f ff 83 03 01 01 05 50 6f 69 6e 74 01 ff 84 00 01 02 01
01 58 01 04 00 01 01 59 01 04 00 00 00 08 ff 82 00 02 01 2c 00 00 | [{"X":22,"Y":0},{"X":0,"Y":0}]

structs in a map | 0f ff 81 04 01 02 ff 82 00 01 0c 01 ff 84 00 00 1f ff 83 03 01 01 05 50 6f 69 6e 74 01 ff 84 00 01 02
01 01 58 01 04 00 01 01 59 01 04 00 00 00 09 ff 82 00 01 01 61 02 42 00 | {"a":{"X":0,"Y":33}}

structs as keys of a map | 0f ff 81 04 01 02 ff 82 00 01 ff 84 01 02 00 00 1f ff 83 03 01 01 05 50 6f 69 6e 74 01 ff 84
00 01 02 01 01 58 01 04 00 01 01 59 01 04 00 00 00 08 ff 82 00 01 01 2c 00 01 | [[{"X":22,"Y":0},true]]

a struct with a field in its middle | 27 ff 81 03 01 01 01 4d 01 ff 82 00 01 04 01 01 41 01 04 00 01 01 42 01 0c 00 01
01 43 01 02 00 01 01 44 01 08 00 00 00 06 ff 82 02 01 61 00 | {"A":0,"B":"a","C":false,"D":0.0}
"#;

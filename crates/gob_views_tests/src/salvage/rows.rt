//! Damaged bytes, what is kept of them, and what is told.

/// A row. Bytes are in the notation of `gob_test_rows`.
#[derive(Clone, Copy)]
pub(crate) struct Row {
    pub what: &'static str,
    pub bytes: &'static str,
    /// How many items are kept.
    pub items: u64,
    /// Their bytes.
    pub kept: &'static str,
    /// The lines that are told.
    pub told: &'static str,
    /// Whether anything is lost.
    pub is_damaged: bool,
}

pub(crate) const ROWS: [Row; 21] = [
    Row {
        what: "no bytes",
        bytes: "",
        items: 0,
        kept: "",
        told: "gob: kept 0 items, 0 bytes; left out nothing",
        is_damaged: false,
    },
    Row {
        what: "a whole stream",
        bytes: "POINT 07 ff 82 01 2c 01 42 00",
        items: 2,
        kept: "POINT 07 ff 82 01 2c 01 42 00",
        told: "gob: kept 2 items, 40 bytes; left out nothing",
        is_damaged: false,
    },
    Row {
        what: "a changed byte in the middle",
        bytes: "POINT 07 ff 82 01 2c 01 42 00 07 ff 82 03 2c 01 42 00 07 ff 82 01 02 01 04 00",
        items: 3,
        kept: "POINT 07 ff 82 01 2c 01 42 00 07 ff 82 01 02 01 04 00",
        told: "gob: left out 8 bytes, 40 to 47: FieldNumber at 43
gob: kept 3 items, 48 bytes; left out 8 bytes in 1 place",
        is_damaged: true,
    },
    Row {
        what: "a byte too many between items",
        bytes: "POINT 07 ff 82 01 2c 01 42 00 00 07 ff 82 01 02 01 04 00",
        items: 3,
        kept: "POINT 07 ff 82 01 2c 01 42 00 07 ff 82 01 02 01 04 00",
        told: "gob: left out 1 byte, 40 to 40: Short at 41
gob: kept 3 items, 48 bytes; left out 1 byte in 1 place",
        is_damaged: true,
    },
    Row {
        what: "a count that is too large",
        bytes: "POINT 07 ff 82 01 2c 01 42 00 70 ff 82 01 2c 01 42 00 07 ff 82 01 02 01 04 00",
        items: 3,
        kept: "POINT 07 ff 82 01 2c 01 42 00 07 ff 82 01 02 01 04 00",
        told: "gob: left out 8 bytes, 40 to 47: Extra at 48
gob: kept 3 items, 48 bytes; left out 8 bytes in 1 place",
        is_damaged: true,
    },
    Row {
        what: "a count that is too large, where no value of the type was kept",
        bytes: "POINT 70 ff 82 01 2c 01 42 00 07 ff 82 01 02 01 04 00",
        items: 1,
        kept: "POINT",
        told: "gob: left out 16 bytes, 32 to 47: Extra at 40
gob: kept 1 item, 32 bytes; left out 16 bytes in 1 place",
        is_damaged: true,
    },
    Row {
        what: "cut off",
        bytes: "POINT 07 ff 82 01 2c 01 42 00 07 ff 82 01",
        items: 2,
        kept: "POINT 07 ff 82 01 2c 01 42 00",
        told: "gob: left out 4 bytes, 40 to 43: Ended at 44
gob: kept 2 items, 40 bytes; left out 4 bytes in 1 place",
        is_damaged: true,
    },
    Row {
        what: "the definition again",
        bytes: "POINT 07 ff 82 01 2c 01 42 00 POINT 07 ff 82 01 02 01 04 00",
        items: 3,
        kept: "POINT 07 ff 82 01 2c 01 42 00 07 ff 82 01 02 01 04 00",
        told: "gob: left out 32 bytes, 40 to 71: type 65 is defined again, in the same way
gob: kept 3 items, 48 bytes; left out 32 bytes in 1 place",
        is_damaged: false,
    },
    Row {
        what: "a value that defines a type within itself, again",
        bytes: "57 10 00 0d 2a 69 6e 74 65 72 66 61 63 65 20 7b 7d 10 45 00 0d 2a 69 6e 74 65 72 66 \
            61 63 65 20 7b 7d 10 2b 00 0a 6d 61 69 6e 2e 50 6f 69 6e 74 ff 81 03 01 01 05 50 6f \
            69 6e 74 01 ff 82 00 01 02 01 01 58 01 04 00 01 01 59 01 04 00 00 00 08 ff 82 05 01 \
            02 01 04 00 57 10 00 0d 2a 69 6e 74 65 72 66 61 63 65 20 7b 7d 10 45 00 0d 2a 69 6e \
            74 65 72 66 61 63 65 20 7b 7d 10 2b 00 0a 6d 61 69 6e 2e 50 6f 69 6e 74 ff 81 03 01 \
            01 05 50 6f 69 6e 74 01 ff 82 00 01 02 01 01 58 01 04 00 01 01 59 01 04 00 00 00 08 \
            ff 82 05 01 02 01 04 00",
        items: 3,
        kept: "POINT 37 10 00 0d 2a 69 6e 74 65 72 66 61 63 65 20 7b 7d 10 25 00 0d 2a 69 6e 74 65 72 66 \
            61 63 65 20 7b 7d 10 14 00 0a 6d 61 69 6e 2e 50 6f 69 6e 74 ff 82 05 01 02 01 04 00 \
            37 10 00 0d 2a 69 6e 74 65 72 66 61 63 65 20 7b 7d 10 25 00 0d 2a 69 6e 74 65 72 66 \
            61 63 65 20 7b 7d 10 14 00 0a 6d 61 69 6e 2e 50 6f 69 6e 74 ff 82 05 01 02 01 04 00",
        told: "gob: kept 3 items, 144 bytes; left out nothing",
        is_damaged: false,
    },
    Row {
        what: "another encoder's stream, with another type under the id",
        bytes: "POINT 07 ff 82 01 2c 01 42 00 ARRAY 06 ff 82 00 02 02 04",
        items: 4,
        kept: "POINT 07 ff 82 01 2c 01 42 00 \
            0e ff 83 01 01 02 ff 84 00 01 04 01 04 00 00 06 ff 84 00 02 02 04",
        told: "gob: kept 4 items, 62 bytes; left out nothing",
        is_damaged: false,
    },
    Row {
        what: "another definition of the same type, and no value",
        bytes: "POINT 07 ff 82 01 2c 01 42 00 ARRAY",
        items: 2,
        kept: "POINT 07 ff 82 01 2c 01 42 00",
        told: "gob: left out 15 bytes, 40 to 54: DefinedTwice(65) at 41
gob: kept 2 items, 40 bytes; left out 15 bytes in 1 place",
        is_damaged: true,
    },
    // Go's: `type A struct { Name string; N int }` and `B { X float64; Tags []string }` of one program, and A and
    // `C { Y int; Z []int }` of the other.
    Row {
        what: "two programs, the second of which says a type again that it needs behind another",
        bytes: "1e ff 81 03 01 01 01 41 01 ff 82 00 01 02 01 04 4e 61 6d 65 01 0c 00 01 01 4e 01 04 \
            00 00 00 09 ff 82 01 02 61 31 01 02 00 1f ff 83 03 01 01 01 42 01 ff 84 00 01 02 01 \
            01 58 01 08 00 01 04 54 61 67 73 01 ff 86 00 00 00 16 ff 85 02 01 01 08 5b 5d 73 74 \
            72 69 6e 67 01 ff 86 00 01 0c 00 00 05 ff 84 01 40 00 09 ff 82 01 02 61 33 01 06 00 \
            1e ff 81 03 01 01 01 41 01 ff 82 00 01 02 01 04 4e 61 6d 65 01 0c 00 01 01 4e 01 04 \
            00 00 00 09 ff 82 01 02 62 31 01 02 00 1c ff 83 03 01 01 01 43 01 ff 84 00 01 02 01 \
            01 59 01 04 00 01 01 5a 01 ff 86 00 00 00 13 ff 85 02 01 01 05 5b 5d 69 6e 74 01 ff \
            86 00 01 04 00 00 05 ff 84 01 04 00 09 ff 82 01 02 62 33 01 06 00 09 ff 82 01 02 62 \
            34 01 08 00 05 ff 84 01 0a 00",
        items: 13,
        kept: "1e ff 81 03 01 01 01 41 01 ff 82 00 01 02 01 04 4e 61 6d 65 01 0c 00 01 01 4e 01 04 \
            00 00 00 09 ff 82 01 02 61 31 01 02 00 1f ff 83 03 01 01 01 42 01 ff 84 00 01 02 01 \
            01 58 01 08 00 01 04 54 61 67 73 01 ff 86 00 00 00 16 ff 85 02 01 01 08 5b 5d 73 74 \
            72 69 6e 67 01 ff 86 00 01 0c 00 00 05 ff 84 01 40 00 09 ff 82 01 02 61 33 01 06 00 \
            09 ff 82 01 02 62 31 01 02 00 1c ff 87 03 01 01 01 43 01 ff 88 00 01 02 01 01 59 01 \
            04 00 01 01 5a 01 ff 8a 00 00 00 13 ff 89 02 01 01 05 5b 5d 69 6e 74 01 ff 8a 00 01 \
            04 00 00 05 ff 88 01 04 00 09 ff 82 01 02 62 33 01 06 00 09 ff 82 01 02 62 34 01 08 \
            00 05 ff 88 01 0a 00",
        told: "gob: left out 31 bytes, 112 to 142: type 65 is defined again, in the same way
gob: kept 13 items, 203 bytes; left out 31 bytes in 1 place",
        is_damaged: false,
    },
    Row {
        what: "two encoders, each of a slice whose first element holds a struct",
        bytes: "0c ff 81 02 01 02 ff 82 00 01 10 00 00 29 ff 82 00 01 06 6d 61 69 6e 2e 41 ff 83 03 \
            01 01 01 41 01 ff 84 00 01 02 01 04 4e 61 6d 65 01 0c 00 01 01 4e 01 04 00 00 00 09 \
            ff 84 06 01 01 61 01 02 00 0c ff 81 02 01 02 ff 82 00 01 10 00 00 29 ff 82 00 01 06 \
            6d 61 69 6e 2e 41 ff 83 03 01 01 01 41 01 ff 84 00 01 02 01 04 4e 61 6d 65 01 0c 00 \
            01 01 4e 01 04 00 00 00 09 ff 84 06 01 01 61 01 02 00",
        items: 4,
        kept: "0c ff 81 02 01 02 ff 82 00 01 10 00 00 1e ff 83 03 01 01 01 41 01 ff 84 00 01 02 01 \
            04 4e 61 6d 65 01 0c 00 01 01 4e 01 04 00 00 00 14 ff 82 00 01 06 6d 61 69 6e 2e 41 \
            ff 84 06 01 01 61 01 02 00 14 ff 82 00 01 06 6d 61 69 6e 2e 41 ff 84 06 01 01 61 01 \
            02 00",
        told: "gob: left out 13 bytes, 65 to 77: type 65 is defined again, in the same way
gob: kept 4 items, 86 bytes; left out 13 bytes in 1 place",
        is_damaged: false,
    },
    Row {
        what: "a definition whose id has changed to that of another, in front of a value of a type that is known",
        bytes: "POINT 07 ff 82 01 2c 01 42 00 ARRAY 03 04 00 06 07 ff 82 01 02 01 04 00",
        items: 4,
        kept: "POINT 07 ff 82 01 2c 01 42 00 03 04 00 06 07 ff 82 01 02 01 04 00",
        told: "gob: left out 15 bytes, 40 to 54: DefinedTwice(65) at 41
gob: kept 4 items, 52 bytes; left out 15 bytes in 1 place",
        is_damaged: true,
    },
    Row {
        what: "a value of a type that isn't defined",
        bytes: "POINT 07 ff 82 01 2c 01 42 00 03 ff 84 00 07 ff 82 01 02 01 04 00",
        items: 3,
        kept: "POINT 07 ff 82 01 2c 01 42 00 07 ff 82 01 02 01 04 00",
        told: "gob: left out 4 bytes, 40 to 43: UndefinedType(66) at 41
gob: kept 3 items, 48 bytes; left out 4 bytes in 1 place",
        is_damaged: true,
    },
    Row {
        what: "two such values",
        bytes: "03 04 00 06 03 ff 84 00 03 ff 84 00 03 04 00 08",
        items: 2,
        kept: "03 04 00 06 03 04 00 08",
        told: "gob: left out 4 bytes, 4 to 7: UndefinedType(66) at 5
gob: left out 4 bytes, 8 to 11: UndefinedType(66) at 9
gob: kept 2 items, 8 bytes; left out 8 bytes in 2 places",
        is_damaged: true,
    },
    Row {
        what: "what isn't a stream before one",
        bytes: "00 POINT 07 ff 82 01 2c 01 42 00",
        items: 2,
        kept: "POINT 07 ff 82 01 2c 01 42 00",
        told: "gob: left out 1 byte, 0 to 0: Short at 1
gob: kept 2 items, 40 bytes; left out 1 byte in 1 place",
        is_damaged: true,
    },
    Row {
        what: "a stream behind a line of text, and with a line feed behind it",
        bytes: "23 21 0a POINT 07 ff 82 01 2c 01 42 00 0a",
        items: 2,
        kept: "POINT 07 ff 82 01 2c 01 42 00",
        told: "gob: left out 3 bytes, 0 to 2: ReservedType(17) at 1
gob: left out 1 byte, 43 to 43: Ended at 44
gob: kept 2 items, 40 bytes; left out 4 bytes in 2 places",
        is_damaged: true,
    },
    Row {
        what: "a lost definition",
        bytes: "07 ff 82 01 2c 01 42 00",
        items: 0,
        kept: "",
        told: "gob: left out 8 bytes, 0 to 7: UndefinedType(65) at 1
gob: kept 0 items, 0 bytes; left out 8 bytes in 1 place",
        is_damaged: true,
    },
    Row {
        what: "a value in an interface",
        bytes: "0a 10 00 03 69 6e 74 04 02 00 0a 00 0a 10 00 03 69 6e 74 04 02 00 08",
        items: 2,
        kept: "0a 10 00 03 69 6e 74 04 02 00 0a 0a 10 00 03 69 6e 74 04 02 00 08",
        told: "gob: left out 1 byte, 11 to 11: Short at 12
gob: kept 2 items, 22 bytes; left out 1 byte in 1 place",
        is_damaged: true,
    },
    Row {
        what: "nothing that stands anywhere",
        bytes: "80 80 80",
        items: 0,
        kept: "",
        told: "gob: left out 3 bytes, 0 to 2: BadHead at 0
gob: kept 0 items, 0 bytes; left out 3 bytes in 1 place",
        is_damaged: true,
    },
];

//! Bodies behind their type numbers, with their lines.

/// A body, and what is due.
#[derive(Clone, Copy)]
pub(crate) struct Row {
    /// What it is.
    pub what: &'static str,
    /// The type of its value.
    pub id: u64,
    /// Its bytes, as docs/FORMAT.md writes them.
    pub bytes: &'static str,
    /// Its lines, with `>` for two spaces.
    pub lines: &'static str,
    /// The path of what is under way where the bytes end.
    pub path: &'static str,
}

/// The rows.
pub(crate) const ROWS: [Row; 11] = [
    Row {
        what: "an int",
        id: 2,
        bytes: "00 06",
        lines: "
     0  00                       >the tag of a value that is no struct
     1  06                       >>3
",
        path: "",
    },
    Row {
        what: "the description of the documented example",
        id: 16,
        bytes: "03 01 01 05 50 6f 69 6e 74 01 ff 82 00 01 02 01 01 58 01 04 00 01 01 59 01 04 00 00 00",
        lines: "
     0  03                       >>StructT
     1  01                       >>>CommonType
     2  01 05 50 6f 69 6e 74     >>>>Name \"Point\"
     9  01 ff 82                 >>>>Id 65
    12  00                       >>>>end of CommonType
    13  01 02                    >>>Field 2 elements
    15  01 01 58                 >>>>>[0].Name \"X\"
    18  01 04                    >>>>>[0].Id 2
    20  00                       >>>>>end of [0]
    21  01 01 59                 >>>>>[1].Name \"Y\"
    24  01 04                    >>>>>[1].Id 2
    26  00                       >>>>>end of [1]
    27  00                       >>>end of structType
    28  00                       >>end of wireType
",
        path: "",
    },
    Row {
        what: "a description that ends in a field's name",
        id: 16,
        bytes: "03 02 01 01 03 58",
        lines: "
     0  03                       >>StructT
     1  02 01                    >>>Field 1 element
     3  01 03                    >>>>>[0].Name 3 bytes
",
        path: ".StructT.Field[0].Name",
    },
    Row {
        what: "a complex",
        id: 7,
        bytes: "00 fe 31 40 00",
        lines: "
     0  00                       >the tag of a value that is no struct
     1  fe 31 40 00              >>17.0 and 0.0i
",
        path: "",
    },
    Row {
        what: "bytes in several lines",
        id: 5,
        bytes: "00 22 00 01 02 03 04 05 06 07 08 09 0a 0b 0c 0d 0e 0f 10 11 12 13 14 15 16 17 18 19 1a 1b 1c 1d 1e 1f
20 21",
        lines: "
     0  00                       >the tag of a value that is no struct
     1  22 00 01 02 03 04 05 06  >>34 bytes
     9  07 08 09 0a 0b 0c 0d 0e
    17  0f 10 11 12 13 14 15 16
    25  17 18 19 1a 1b 1c 1d 1e
        .. 3 bytes more
",
        path: "",
    },
    Row {
        what: "a string that a terminal would obey",
        id: 6,
        bytes: "00 04 1b 5b 32 4a",
        lines: "
     0  00                       >the tag of a value that is no struct
     1  04 1b 5b 32 4a           >>\"\\u{1b}[2J\"
",
        path: "",
    },
    Row {
        what: "an interface that is nil",
        id: 8,
        bytes: "00 00",
        lines: "
     0  00                       >the tag of a value that is no struct
     1  00                       >>nil
",
        path: "",
    },
    Row {
        what: "an interface that holds an int",
        id: 8,
        bytes: "00 03 69 6e 74 04 02 00 0a",
        lines: "
     0  00                       >the tag of a value that is no struct
     1  03 69 6e 74              >>holds \"int\"
     5  04                       >>>a value of type 2, int
     6  02                       >>>a segment of 2 bytes
     7  00                       >>>the tag of a value that is no struct
     8  0a                       >>>>5
",
        path: "",
    },
    Row {
        what: "an interface that defines a type and holds an int",
        id: 8,
        bytes: "00 01 78 ff 81 02 01 02 ff 82 00 01 04 00 00 04 04 02 00 0a",
        lines: "
     0  00                       >the tag of a value that is no struct
     1  01 78                    >>holds \"x\"
     3  ff 81                    >>>defines type 65
     5  02                       >>>>SliceT
     6  01                       >>>>>CommonType
     7  02 ff 82                 >>>>>>Id 65
    10  00                       >>>>>>end of CommonType
    11  01 04                    >>>>>Elem 2
    13  00                       >>>>>end of sliceType
    14  00                       >>>>end of wireType
    15  04                       >>>a segment of 4 bytes
    16  04                       >>>a value of type 2, int
    17  02                       >>>a segment of 2 bytes
    18  00                       >>>the tag of a value that is no struct
    19  0a                       >>>>5
",
        path: "",
    },
    Row {
        what: "an interface that holds one that holds a string, which ends in it",
        id: 8,
        bytes: "00 01 69 10 0a 00 01 73 0c 04 00 02 61",
        lines: "
     0  00                       >the tag of a value that is no struct
     1  01 69                    >>holds \"i\"
     3  10                       >>>a value of type 8, interface{}
     4  0a                       >>>a segment of 10 bytes
     5  00                       >>>the tag of a value that is no struct
     6  01 73                    >>>>holds \"s\"
     8  0c                       >>>>>a value of type 6, string
     9  04                       >>>>>a segment of 4 bytes
    10  00                       >>>>>the tag of a value that is no struct
    11  02                       >>>>>>2 bytes
",
        path: ".(interface{}).(string)",
    },
    Row {
        what: "an interface that ends in the name of what it holds",
        id: 8,
        bytes: "00 03 69 6e",
        lines: "
     0  00                       >the tag of a value that is no struct
     1  03                       >>holds something, by a name of 3 bytes
",
        path: "",
    },
];

//! Streams, and the source of their definitions.

/// A stream, and what is due.
#[derive(Clone, Copy)]
pub(crate) struct Row {
    /// What it is.
    pub what: &'static str,
    /// Its bytes, as docs/FORMAT.md writes them.
    pub stream: &'static str,
    /// The source of its definitions.
    pub source: &'static str,
}

/// The rows.
pub(crate) const ROWS: [Row; 17] = [
    Row {
        what: "no definition",
        stream: "03 04 00 06",
        source: "package types
",
    },
    Row {
        what: "a struct",
        stream: "POINT 07 ff 82 01 2c 01 42 00",
        source: "package types

// type 65
type Point struct {
>X int
>Y int
}
",
    },
    Row {
        what: "a refused item behind a definition",
        stream: "POINT 01 00",
        source: "package types

// type 65
type Point struct {
>X int
>Y int
}
",
    },
    Row {
        what: "a field of each kind",
        stream: "
6d ff 81 03 01 01 03 52 65 63 01 ff 82 00 01 0b 01 02 49 44 01 04 00 01 04 54 61 67 73 01 ff 84 00 01 05 42 79 4e 75
6d 01 ff 86 00 01 04 57 68 65 6e 01 ff 88 00 01 04 47 72 69 64 01 ff 8c 00 01 03 4f 64 64 01 ff 90 00 01 03 41 6e 79
01 10 00 01 03 52 61 77 01 0a 00 01 01 43 01 0e 00 01 02 4f 6b 01 02 00 01 01 4e 01 06 00 00 00
16 ff 83 02 01 01 08 5b 5d 73 74 72 69 6e 67 01 ff 84 00 01 0c 00 00
1e ff 85 04 01 01 0e 6d 61 70 5b 69 6e 74 5d 73 74 72 69 6e 67 01 ff 86 00 01 04 01 0c 00 00
10 ff 87 05 01 01 04 54 69 6d 65 01 ff 88 00 00 00
1e ff 8b 01 01 01 0d 5b 32 5d 5b 32 5d 66 6c 6f 61 74 36 34 01 ff 8c 00 01 ff 8a 01 04 00 00
0e ff 89 01 01 02 ff 8a 00 01 08 01 04 00 00
24 ff 8f 04 01 01 13 6d 61 70 5b 6d 61 69 6e 2e 49 6e 6e 65 72 5d 62 6f 6f 6c 01 ff 90 00 01 ff 8e 01 02 00 00
18 ff 8d 03 01 02 ff 8e 00 01 02 01 01 41 01 04 00 01 01 42 01 0c 00 00 00
0d ff 82 01 02 04 02 02 00 00 02 00 00 00",
        source: "package types

import (
>\"time\"
)

// type 65
type Rec struct {
>ID    int
>Tags  []string
>ByNum map[int]string
>When  time.Time
>Grid  [2][2]float64
>Odd   map[T71]bool
>Any   interface{}
>Raw   []byte
>C     complex128
>Ok    bool
>N     uint
}

// type 66
type T66 []string

// type 67
type T67 map[int]string

// type 68, which encodes itself by GobEncode
type Time = time.Time

// type 70
type T70 [2][2]float64

// type 69
type T69 [2]float64

// type 72
type T72 map[T71]bool

// type 71
type T71 struct {
>A int
>B string
}
",
    },
    Row {
        what: "two structs that hold one another",
        stream: "
28 ff 81 03 01 01 07 48 75 73 62 61 6e 64 01 ff 82 00 01 02 01 04 4e 61 6d 65 01 0c 00 01 04 57 69 66 65 01 ff 84 00
00 00
28 ff 83 03 01 01 04 57 69 66 65 01 ff 84 00 01 02 01 04 4e 61 6d 65 01 0c 00 01 07 48 75 73 62 61 6e 64 01 ff 82 00
00 00",
        source: "package types

// type 65
type Husband struct {
>Name string
>Wife Wife
}

// type 66
type Wife struct {
>Name    string
>Husband *Husband
}
",
    },
    Row {
        what: "the first of them alone",
        stream: "
28 ff 81 03 01 01 07 48 75 73 62 61 6e 64 01 ff 82 00 01 02 01 04 4e 61 6d 65 01 0c 00 01 04 57 69 66 65 01 ff 84 00
00 00",
        source: "package types

// type 65
type Husband struct {
>Name string
>Wife struct{}
}
",
    },
    Row {
        what: "two types of one name",
        stream: "
1f ff 81 03 01 01 05 50 6f 69 6e 74 01 ff 82 00 01 02 01 01 58 01 04 00 01 01 59 01 04 00 00 00
21 ff 83 03 01 01 05 50 6f 69 6e 74 01 ff 84 00 01 02 01 01 52 01 08 00 01 03 50 68 69 01 08 00 00 00",
        source: "package types

// type 65
type Point struct {
>X int
>Y int
}

// type 66
type Point_66 struct {
>R   float64
>Phi float64
}
",
    },
    Row {
        what: "a name that is no identifier",
        stream: "
27 ff 81 03 01 01 09 50 61 69 72 5b 69 6e 74 5d 01 ff 82 00 01 02 01 03 4f 6e 65 01 04 00 01 03 54 77 6f 01 04 00 00
00",
        source: "package types

// type 65
type T65 struct {
>One int
>Two int
}
",
    },
    Row {
        what: "names with letters beyond ASCII",
        stream: "
20 ff 81 03 01 01 07 47 72 c3 b6 c3 9f 65 01 ff 82 00 01 01 01 06 4c c3 a4 6e 67 65 01 04 00 00 00",
        source: "package types

// type 65
type Größe struct {
>Länge int
}
",
    },
    Row {
        what: "names that look like made ones",
        stream: "
28 ff 81 03 01 01 05 4e 61 6d 65 64 01 ff 82 00 01 03 01 01 41 01 ff 84 00 01 01 42 01 ff 86 00 01 01 43 01 ff 88 00
00 00
17 ff 83 03 01 01 03 54 37 30 01 ff 84 00 01 01 01 01 58 01 04 00 00 00
1c ff 85 03 01 01 08 50 6f 69 6e 74 5f 37 31 01 ff 86 00 01 01 01 01 58 01 04 00 00 00
15 ff 87 03 01 01 01 54 01 ff 88 00 01 01 01 01 58 01 04 00 00 00",
        source: "package types

// type 65
type Named struct {
>A T70_66
>B Point_71_67
>C T
}

// type 66
type T70_66 struct {
>X int
}

// type 67
type Point_71_67 struct {
>X int
}

// type 68
type T struct {
>X int
}
",
    },
    Row {
        what: "slices five levels deep",
        stream: "
1c ff 81 03 01 01 04 44 65 65 70 01 ff 82 00 01 01 01 04 43 75 62 65 01 ff 8c 00 00 00
1c ff 8b 02 01 01 0d 5b 5d 5b 5d 5b 5d 5b 5d 5b 5d 69 6e 74 01 ff 8c 00 01 ff 8a 00 00
0d ff 89 02 01 02 ff 8a 00 01 ff 88 00 00 0d ff 87 02 01 02 ff 88 00 01 ff 86 00 00
0d ff 85 02 01 02 ff 86 00 01 ff 84 00 00 0c ff 83 02 01 02 ff 84 00 01 04 00 00",
        source: "package types

// type 65
type Deep struct {
>Cube [][][]T67
}

// type 70
type T70 [][][]T67

// type 69
type T69 [][][]T66

// type 68
type T68 [][][]int

// type 67
type T67 [][]int

// type 66
type T66 []int
",
    },
    Row {
        what: "an array with a name, of structs that hold it",
        stream: "
22 ff 81 03 01 01 04 43 65 6c 6c 01 ff 82 00 01 02 01 04 47 72 69 64 01 ff 84 00 01 01 58 01 04 00 00 00
15 ff 83 01 01 01 04 47 72 69 64 01 ff 84 00 01 ff 82 01 04 00 00",
        source: "package types

// type 65
type Cell struct {
>Grid Grid
>X    int
}

// type 66
type Grid [2]*Cell
",
    },
    Row {
        what: "keys that Go can't compare",
        stream: "
1a ff 81 03 01 01 05 4b 65 79 65 64 01 ff 82 00 01 01 01 01 4d 01 ff 88 00 00 00
20 ff 87 04 01 01 0f 6d 61 70 5b 2a 6d 61 69 6e 2e 4b 5d 69 6e 74 01 ff 88 00 01 ff 84 01 04 00 00
13 ff 83 03 01 02 ff 84 00 01 01 01 01 42 01 ff 86 00 00 00
13 ff 85 02 01 01 05 5b 5d 69 6e 74 01 ff 86 00 01 04 00 00",
        source: "package types

// type 65
type Keyed struct {
>M map[*T66]int
}

// type 68
type T68 map[*T66]int

// type 66
type T66 struct {
>B []int
}

// type 67
type T67 []int
",
    },
    // its fields are X, X, go and one without a name
    Row {
        what: "a keyword, and fields that Go lets no struct have",
        stream: "
28 ff 81 03 01 01 04 74 79 70 65 01 ff 82 00 01 04 01 01 58 01 04 00 01 01 58 01 04 00 01 02 67 6f 01 06 00 02 02 00
00 00",
        source: "package types

// type 65
type type_65 struct {
>X int
>// X int
>// go uint
>//  bool
}
",
    },
    // the fields are Länge, X and an Arabic 3, Y, and three whose names Go takes for none
    Row {
        what: "names as Go takes them",
        stream: "
41 ff 81 03 01 01 06 e5 af b8 e6 b3 95 01 ff 82 00 01 06 01 06 4c c3 a4 6e 67 65 01 04 00 01 03 58 d9 a3 01 06 00 01 01
59 01 04 00 01 02 41 ff 01 04 00 01 02 41 2d 01 04 00 01 01 39 01 04 00 00 00",
        source: "package types

// type 65
type 寸法 struct {
>Länge int
>X٣    uint
>Y     int
>// A\\xff int
>// A- int
>// 9 int
}
",
    },
    Row {
        what: "types of Go's library, and keys of math/big",
        stream: "
39 ff 81 03 01 01 04 50 61 67 65 01 ff 82 00 01 04 01 02 41 74 01 ff 84 00 01 05 57 68 65 72 65 01 ff 86 00 01 04 46 72
6f 6d 01 ff 88 00 01 04 53 65 65 6e 01 ff 8a 00 00 00
10 ff 83 05 01 01 04 54 69 6d 65 01 ff 84 00 00 00
0f ff 85 06 01 01 03 55 52 4c 01 ff 86 00 00 00
14 ff 87 06 01 01 08 41 64 64 72 50 6f 72 74 01 ff 88 00 00 00
2b ff 89 04 01 01 19 6d 61 70 5b 2a 62 69 67 2e 49 6e 74 5d 6e 65 74 69 70 2e 50 72 65 66 69 78 01 ff 8a 00 01 ff 8c 01
ff 8e 00 00
0f ff 8b 05 01 01 03 49 6e 74 01 ff 8c 00 00 00
12 ff 8d 06 01 01 06 50 72 65 66 69 78 01 ff 8e 00 00 00",
        source: "package types

import (
>\"math/big\"
>\"net/netip\"
>\"net/url\"
>\"time\"
)

// type 65
type Page struct {
>At    time.Time
>Where url.URL
>From  netip.AddrPort
>Seen  map[*big.Int]netip.Prefix
}

// type 66, which encodes itself by GobEncode
type Time = time.Time

// type 67, which encodes itself by MarshalBinary
type URL = url.URL

// type 68, which encodes itself by MarshalBinary
type AddrPort = netip.AddrPort

// type 69
type T69 map[*big.Int]netip.Prefix

// type 70, which encodes itself by GobEncode
type Int = big.Int

// type 71, which encodes itself by MarshalBinary
type Prefix = netip.Prefix
",
    },
    Row {
        what: "types that encode themselves, of no library: a name by another marshal, one taken, and one in text",
        stream: "
20 ff 81 03 01 01 04 4b 65 70 74 01 ff 82 00 01 02 01 01 41 01 ff 84 00 01 01 42 01 ff 8a 00 00 00
0f ff 83 05 01 01 03 55 52 4c 01 ff 84 00 00 00
2b ff 89 04 01 01 19 6d 61 70 5b 6d 61 69 6e 2e 76 61 6c 75 65 5d 6d 61 69 6e 2e 65 72 72 6f 72 01 ff 8a 00 01 ff 86 01
ff 88 00 00
11 ff 85 06 01 01 05 76 61 6c 75 65 01 ff 86 00 00 00
11 ff 87 07 01 01 05 65 72 72 6f 72 01 ff 88 00 00 00",
        source: "package types

// type 65
type Kept struct {
>A URL
>B map[value_67]error_68
}

// type 66, which encodes itself by GobEncode
type URL string

func (value URL) GobEncode() ([]byte, error) {
>return []byte(value), nil
}

func (value *URL) GobDecode(data []byte) error {
>*value = URL(data)
>return nil
}

// type 69
type T69 map[value_67]error_68

// type 67, which encodes itself by MarshalBinary
type value_67 string

func (value value_67) MarshalBinary() ([]byte, error) {
>return []byte(value), nil
}

func (value *value_67) UnmarshalBinary(data []byte) error {
>*value = value_67(data)
>return nil
}

// type 68, which encodes itself by MarshalText
type error_68 string

func (value error_68) MarshalText() ([]byte, error) {
>return []byte(value), nil
}

func (value *error_68) UnmarshalText(data []byte) error {
>*value = error_68(data)
>return nil
}
",
    },
];

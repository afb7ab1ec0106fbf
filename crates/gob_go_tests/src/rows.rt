//! The rows of interop/filled/rows: what, a stream, what it gives, which is how many items it begins with and what is
//! refused behind these, and the limits: for an item, for the depth, for types and for the stream. An empty line stands
//! between two rows.

use gob_stream::Limits;
use gob_test_rows::{number, part};

// The rows. Those without limits are read under the standard ones.
const ROWS: &str = "
an int in an interface | 0a 10 00 03 69 6e 74 04 02 00 0a | 1 items

definitions in items of their own | 25 ff 81 03 01 01 05 4f 75 74 65 72 01 ff 82 00 01 03 01 01 4e 01 04 00 01 01 49
01 10 00 01 01 4d 01 04 00 00 00 20 ff 83 03 01 01 04 50 61 69 72 01 ff 84 00 01 02 01 01 41 01 ff 86 00 01 01 42 01
ff 86 00 00 00 17 ff 85 03 01 01 03 52 65 67 01 ff 86 00 01 01 01 01 41 01 04 00 00 00 1e ff 82 01 08 01 09 6d 61 69
6e 2e 50 61 69 72 ff 84 09 01 01 06 00 01 01 08 00 00 01 0a 00 | 4 items

definitions in the order that Go never sends: the inner one first | 25 ff 81 03 01 01 05 4f 75 74 65 72 01 ff 82 00
01 03 01 01 4e 01 04 00 01 01 49 01 10 00 01 01 4d 01 04 00 00 00 26 ff 82 01 08 01 09 6d 61 69 6e 2e 50 61 69 72 ff
85 03 01 01 03 52 65 67 01 ff 86 00 01 01 01 01 41 01 04 00 00 00 20 ff 83 03 01 01 04 50 61 69 72 01 ff 84 00 01 02
01 01 41 01 ff 86 00 01 01 42 01 ff 86 00 00 00 0f ff 84 09 01 01 06 00 01 01 08 00 00 01 0a 00 | 2 items

a definition in a filling that nothing there needs, and a later item that needs it | 12 10 00 03 69 6e 74 ff 81 02
01 02 ff 82 00 01 04 00 00 04 04 02 00 0a 05 ff 82 00 01 06 | 2 items

a segment that ends in a type number | 0c ff 81 02 01 02 ff 82 00 01 10 00 00 07 ff 82 00 01 01 61 ff 82 03 00 01
00 | 1 items, refused 5 Short at 21 seen 21

a list that holds itself | 0c ff 81 02 01 02 ff 82 00 01 10 00 00 0c ff 82 00 01 01 61 ff 82 03 00 01 00 | 2 items

a name that isn't UTF-8 | 08 10 00 01 ff 04 02 00 0a | 1 items

a name that isn't the type's | 08 10 00 01 61 04 02 00 0a | 1 items

nil held | 08 10 00 01 61 10 02 00 00 | 1 items

a type that describes types held | 07 10 00 01 77 20 01 00 | 1 items

a zero that is present where a struct is held | 0c ff 81 02 01 02 ff 82 00 01 10 00 00 12 ff 82 00 02 01 77 20 05 03
01 00 00 00 01 78 20 01 00 | 2 items

a cut in what is held, whose item is not cut | 22 10 00 01 61 10 14 00 08 2a 62 69 67 2e 49 6e 74 ff 81 05 01 02 ff
84 00 00 00 07 ff 82 04 00 02 02 05 | 1 items

the same, and a depth that is too low for the description | 22 10 00 01 61 10 14 00 08 2a 62 69 67 2e 49 6e 74 ff 81
05 01 02 ff 84 00 00 00 07 ff 82 04 00 02 02 05 | 0 items, refused 17 TooDeep at 22 seen 22 | 34 3 1 35

the same, under limits that are just enough | 22 10 00 01 61 10 14 00 08 2a 62 69 67 2e 49 6e 74 ff 81 05 01 02 ff
84 00 00 00 07 ff 82 04 00 02 02 05 | 1 items | 34 4 1 35

a big number under an item limit that is just enough | 15 10 00 08 2a 62 69 67 2e 49 6e 74 ff 81 05 01 02 ff 84 00
00 00 07 ff 82 04 00 02 02 05 | 1 items | 28 1000 10000 1000

a big number under an item limit below its segments together | 15 10 00 08 2a 62 69 67 2e 49 6e 74 ff 81 05 01 02 ff
84 00 00 00 07 ff 82 04 00 02 02 05 | 0 items, refused 3 ItemTooLong at 22 seen 23 | 27 1000 10000 1000

a big number under a stream limit below the end of its second segment | 15 10 00 08 2a 62 69 67 2e 49 6e 74 ff 81 05
01 02 ff 84 00 00 00 07 ff 82 04 00 02 02 05 | 0 items, refused 4 StreamTooLong at 22 seen 23 | 28 1000 10000 29

an Id above the defined one, as binary and as text | 0a ff 81 06 01 02 ff 84 00 00 00 0a ff 83 07 01 02 ff 86 00 00
00 | 2 items

the greatest Id that is said | 0d ff 81 05 01 02 fc ff ff ff fe 00 00 00 | 1 items

an Id above the greatest | 0e ff 81 05 01 02 fb 01 00 00 00 00 00 00 00 | 0 items, refused 19 WrongId at 3 seen 15

an Id below the defined one | 0a ff 81 05 01 02 ff 80 00 00 00 | 0 items, refused 19 WrongId at 3 seen 11

no Id of an opaque type, and a name | 0a ff 81 05 01 01 01 61 00 00 00 | 0 items, refused 19 WrongId at 3 seen 11

no Id of an opaque type | 07 ff 81 05 01 00 00 00 | 0 items, refused 19 WrongId at 3 seen 8

an Id above the defined one, of a slice | 0c ff 81 02 01 02 ff 84 00 01 04 00
00 | 0 items, refused 19 WrongId at 3 seen 13

an Id that was said is still free | 0a ff 81 05 01 02 ff 84 00 00 00 0c ff 83 02 01 02 ff 84 00 01 04 00 00 | 2 items

a count of what is held that is too high | 0a 10 00 03 69 6e 74 04 03 00
0a | 0 items, refused 3 ItemTooLong at 8 seen 9

a count of what is held that is too high, at the end of its segment | 08 10 00 03 69 6e 74 04
01 | 0 items, refused 3 ItemTooLong at 8 seen 9

no count of what is held | 07 10 00 03 69 6e 74 04 | 0 items, refused 5 Short at 8 seen 8

a count of what is held that is cut off | 08 10 00 03 69 6e 74 04 ff | 0 items, refused 5 Short at 9 seen 9

a count of 0 of what is held | 08 10 00 03 69 6e 74 04 00 | 0 items, refused 5 Short at 9 seen 9

a count of what is held that is too low | 0a 10 00 03 69 6e 74 04 01 00 0a | 0 items, refused 5 Short at 10 seen 10

what is held ends before its segment | 0b 10 00 03 69 6e 74 04 03 00 0a 00 | 0 items, refused 6 Extra at 11 seen 11

the interface value ends before its segment | 0b 10 00 03 69 6e 74 04 02 00 0a
00 | 0 items, refused 6 Extra at 11 seen 11

a segment that ends in a name | 05 10 00 03 69 6e | 0 items, refused 5 Short at 6 seen 6

an input that ends in a name | 06 10 00 03 69 | 0 items, refused 22 Ended at 5 seen 5

a segment that ends behind a name | 06 10 00 03 69 6e 74 | 0 items, refused 5 Short at 7 seen 7

a name as long as the rest of its segment | 0a 10 00 07 69 6e 74 04 02 00 0a | 0 items, refused 5 Short at 11 seen 11

a name of the greatest length | 0b 10 00 f8 ff ff ff ff ff ff ff ff | 0 items, refused 5 Short at 12 seen 12

a name's count with a digit too many | 06 10 00 ff 7f 61 61 | 0 items, refused 2 NotMinimal at 3 seen 5

a type number that begins no number, where a field holds | 25 ff 81 03 01 01 05 4f 75 74 65 72 01 ff 82 00 01 03 01
01 4e 01 04 00 01 01 49 01 10 00 01 01 4d 01 04 00 00 00 06 ff 82 02 01 61
f7 | 1 items, refused 1 BadHead at 44 seen 45

a name's count that begins no number | 25 ff 81 03 01 01 05 4f 75 74 65 72 01 ff 82 00 01 03 01 01 4e 01 04 00 01 01
49 01 10 00 01 01 4d 01 04 00 00 00 04 ff 82 02 f7 | 1 items, refused 1 BadHead at 42 seen 43

an undefined type held | 0b 10 00 03 69 6e 74 ff 82 02 00 0a | 0 items, refused 10 UndefinedType(65) at 7 seen 9

no type held | 08 10 00 01 61 00 02 00 0a | 0 items, refused 10 UndefinedType(0) at 5 seen 6

the private type held | 08 10 00 01 61 30 02 00 0a | 0 items, refused 10 UndefinedType(24) at 5 seen 6

a type held that needs one that isn't defined, at the end of a segment | 16 10 00 01 61 ff 83 03 01 01 04 50 61 69
72 01 ff 84 00 01 02 01 01 41 01 ff 86 00 01 01 42 01 ff 86 00 00 00 | 0 items, refused 5 Short at 23 seen 23

a type held that needs one that isn't defined | 24 10 00 01 61 ff 83 03 01 01 04 50 61 69 72 01 ff 84 00 01 02 01 01
41 01 ff 86 00 01 01 42 01 ff 86 00 00 00 02 ff 84 | 0 items, refused 10 UndefinedType(67) at 38 seen 40

a type held that has no finite value | 13 10 00 01 61 ff 81 01 01 02 ff 82 00 01 ff 82 01 02 00 00 02 ff
82 | 0 items, refused 11 Bottomless(65) at 21 seen 23

a tag of what is held that isn't 0 | 0a 10 00 03 69 6e 74 04 02 01 0a | 0 items, refused 12 SingleTag at 9 seen 10

a bool above 1 held | 0b 10 00 04 62 6f 6f 6c 02 02 00 02 | 0 items, refused 13 Bool at 11 seen 12

a count that isn't the array's, where one is held | 0e ff 81 01 01 02 ff 82 00 01 04 01 04 00 00 0a 10 00 01 61 ff
82 03 00 01 06 | 1 items, refused 14 ArrayCount at 24 seen 25

a field that isn't there where a struct is held | 07 10 00 01 77 20 01
08 | 0 items, refused 15 FieldNumber at 7 seen 8

a definition that doesn't end its segment | 16 10 00 03 69 6e 74 ff 81 02 01 02 ff 82 00 01 04 00 00 04 02 00
0a | 0 items, refused 6 Extra at 19 seen 19

a definition that its segment cuts off | 0d 10 00 03 69 6e 74 ff 81 02 01 02 ff 82 00 01 04 00
00 | 0 items, refused 5 Short at 14 seen 14

a segment behind a definition that has nothing | 12 10 00 03 69 6e 74 ff 81 02 01 02 ff 82 00 01 04 00 00
00 | 0 items, refused 5 Short at 20 seen 20

an input that ends behind a definition in a value | 12 10 00 03 69 6e 74 ff 81 02 01 02 ff 82 00 01 04 00
00 | 0 items, refused 22 Ended at 19 seen 19

an input that ends in the count behind a definition in a value | 12 10 00 03 69 6e 74 ff 81 02 01 02 ff 82 00 01 04
00 00 ff | 0 items, refused 22 Ended at 20 seen 20

the segment around ends where the count of the next segment is due | 1a 10 00 01 61 10 14 00 08 2a 62 69 67 2e 49 6e
74 ff 81 05 01 02 ff 84 00 00 00 | 0 items, refused 5 Short at 27 seen 27

a next segment in the segment around that is too long for it | 22 10 00 01 61 10 14 00 08 2a 62 69 67 2e 49 6e 74 ff
81 05 01 02 ff 84 00 00 00 08 ff 82 04 00 02 02 05 | 0 items, refused 3 ItemTooLong at 27 seen 28

a definition again | 0c ff 81 02 01 02 ff 82 00 01 10 00 00 08 ff 82 00 01 01 61 ff
81 | 1 items, refused 8 DefinedTwice(65) at 20 seen 22

a definition again, of a type first defined in a filling | 15 10 00 08 2a 62 69 67 2e 49 6e 74 ff 81 05 01 02 ff 84
00 00 00 07 ff 82 04 00 02 02 05 0a ff 81 05 01 02 ff 84 00 00 00 | 1 items, refused 8 DefinedTwice(65) at 31 seen 33

a definition of a reserved id in a filling | 0c ff 81 02 01 02 ff 82 00 01 10 00 00 07 ff 82 00 01 01 61
7d | 1 items, refused 7 ReservedType(63) at 20 seen 21

one definition too many, in a filling | 0c ff 81 02 01 02 ff 82 00 01 10 00 00 08 ff 82 00 01 01 61 ff
83 | 1 items, refused 9 TooManyTypes at 20 seen 22 | 1000 1000 1 1000

a description without a kind in a filling | 0c ff 81 02 01 02 ff 82 00 01 10 00 00 09 ff 82 00 01 01 61 ff 83
00 | 1 items, refused 18 KindCount at 22 seen 23

a description with a wrong Id in a filling | 0c ff 81 02 01 02 ff 82 00 01 10 00 00 12 ff 82 00 01 01 61 ff 83 02 01
02 ff 86 00 01 04 00 00 | 1 items, refused 19 WrongId at 22 seen 32

a description without an element in a filling | 0c ff 81 02 01 02 ff 82 00 01 10 00 00 10 ff 82 00 01 01 61 ff 83 02
01 02 ff 84 00 00 00 | 1 items, refused 20 BadReference at 22 seen 30

a description of a length below 0 in a filling | 0c ff 81 02 01 02 ff 82 00 01 10 00 00 14 ff 82 00 01 01 61 ff 83
01 01 02 ff 84 00 01 04 01 01 00 00 | 1 items, refused 21 BadLength at 22 seen 34

what is held is too deep, behind its tag | 0a 10 00 03 69 6e 74 04 02 00
0a | 0 items, refused 17 TooDeep at 10 seen 10 | 1000 1 1000 1000

what is held is too deep, a struct | 0c 10 00 01 61 10 06 00 01 77 20 01
00 | 0 items, refused 17 TooDeep at 12 seen 12 | 1000 2 1000 1000

a struct held in a field | 25 ff 81 03 01 01 05 4f 75 74 65 72 01 ff 82 00 01 03 01 01 4e 01 04 00 01 01 49 01 10 00
01 01 4d 01 04 00 00 00 09 ff 82 02 01 61 20 01 00 00 | 2 items

lists that hold lists, down to the limit | 0c ff 81 02 01 02 ff 82 00 01 10 00 00 13 ff 82 00 01 01 61 ff 82 0a 00
01 01 61 ff 82 03 00 01 00 | 2 items | 1000 6 1000 1000

lists that hold lists, deeper than the limit | 0c ff 81 02 01 02 ff 82 00 01 10 00 00 13 ff 82 00 01 01 61 ff 82 0a
00 01 01 61 ff 82 03 00 01 00 | 1 items, refused 17 TooDeep at 32 seen 32 | 1000 5 1000 1000

an int held in what is held, down to the limit | 0c ff 81 02 01 02 ff 82 00 01 10 00 00 11 ff 82 00 01 01 61 ff 82
08 00 01 01 61 04 02 00 02 | 2 items | 1000 5 1000 1000

an int held in what is held, deeper than the limit | 0c ff 81 02 01 02 ff 82 00 01 10 00 00 11 ff 82 00 01 01 61 ff
82 08 00 01 01 61 04 02 00 02 | 1 items, refused 17 TooDeep at 30 seen 30 | 1000 4 1000 1000

a count that is too high for the segment around, and not for the item | 0c ff 81 02 01 02 ff 82 00 01 10 00 00 11 ff
82 00 01 01 61 ff 82 07 00 01 01 61 04 02 00 02 | 1 items, refused 3 ItemTooLong at 28 seen 29

failed | 25 ff 81 03 01 01 05 4f 75 74 65 72 01 ff 82 00 01 03 01 01 4e 01 04 00 01 01 49 01 10 00 01 01 4d 01 04 00
00 00 33 ff 82 01 02 01 09 6d 61 69 6e 2e 57 72 61 70 ff 83 03 01 01 04 57 72 61 70 01 ff 84 00 01 03 01 01 4e 01 04
00 01 01 49 01 10 00 01 01 53 01 0c 00 00 00 07 ff 82 01 0a 02 0c 00 | 1 items, refused 15 FieldNumber at 94 seen 95

failed, and a type that was defined in what never went out | 25 ff 81 03 01 01 05 4f 75 74 65 72 01 ff 82 00 01 03
01 01 4e 01 04 00 01 01 49 01 10 00 01 01 4d 01 04 00 00 00 17 ff 82 01 02 01 08 6d 61 69 6e 2e 52 65 67 ff 88 03 01
0e 00 01 08 00 | 1 items, refused 10 UndefinedType(68) at 53 seen 55
";

/// The rows.
pub(crate) fn rows() -> &'static str {
    ROWS
}

/// The limits of a row, which are the standard ones where it has none.
pub(crate) fn limits_of(row: &str) -> Limits {
    let limits = part(row, 3);
    Limits::new(
        number(limits, 0),
        number(limits, 1),
        number(limits, 2),
        number(limits, 3),
    )
    .unwrap_or(Limits::standard())
}

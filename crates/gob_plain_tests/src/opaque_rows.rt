//! Streams of opaque values, and the JSON of their last values, in the usual style, raw, and where it is said what they
//! are. The bytes of times are those of Go's Time.MarshalBinary, and those of whole numbers of Go's big.Int.GobEncode,
//! worked out by hand. The JSON of types without a name, of addresses, of UUIDs and of fractions is that of Go's
//! encoding/json, where it isn't base64, and that of floats has the digits of Go's big.Float.Text('f', 2400) without
//! zeros at its end.

/// The rows of the usual style.
pub(crate) const OPAQUE: &str = r#"
a time in UTC | TIME 13 ff 82 00 0f 01 00 00 00 0e c2 8b e7 70 00 00 00 00 ff ff | "2009-11-10T23:00:00Z"

a time in UTC with nanoseconds | TIME 13 ff 82 00 0f 01 00 00 00 0e 77 91 f7 01 00 00 00 05 ff
ff | "1970-01-01T00:00:01.000000005Z"

Go's zero time | TIME 13 ff 82 00 0f 01 00 00 00 00 00 00 00 00 00 00 00 00 ff ff | "0001-01-01T00:00:00Z"

the time of Go's layouts, behind UTC | TIME 13 ff 82 00 0f 01 00 00 00 0e bb 4b 9a 55 00 00 00 00 fe
5c | "2006-01-02T15:04:05-07:00"

a time ahead of UTC, with half a second | TIME 13 ff 82 00 0f 01 00 00 00 0e bb 4a ea 8d 1d cd 65 00 01
4a | "2006-01-02T15:04:05.5+05:30"

a time at an offset of nothing | TIME 13 ff 82 00 0f 01 00 00 00 0e c2 8b e7 70 00 00 00 00 00
00 | "2009-11-10T23:00:00+00:00"

a time ahead by minutes and seconds | TIME 14 ff 82 00 10 02 00 00 00 0d f3 e7 73 ec 00 00 00 00 00 13
20 | "1900-01-01T00:00:00+00:19"

a time behind by minutes and seconds | TIME 14 ff 82 00 10 02 00 00 00 0d f3 e7 7e 71 00 00 00 00 ff e7
eb | "1900-01-01T00:00:00-00:25"

a time of version 3 | TIME 13 ff 82 00 0f 03 00 00 00 0e 77 91 f7 00 00 00 00 00 ff ff | "AwAAAA53kfcAAAAAAP//"

a time of version 1 with a byte more | TIME 14 ff 82 00 10 01 00 00 00 0e 77 91 f7 00 00 00 00 00 ff ff
00 | "AQAAAA53kfcAAAAAAP//AA=="

a time of version 2 with a byte less | TIME 13 ff 82 00 0f 02 00 00 00 0e 77 91 f7 00 00 00 00 00 ff
ff | "AgAAAA53kfcAAAAAAP//"

a time that ends in its offset | TIME 12 ff 82 00 0e 01 00 00 00 0e 77 91 f7 00 00 00 00 00 ff | "AQAAAA53kfcAAAAAAP8="

a time with a second of nanoseconds | TIME 13 ff 82 00 0f 01 00 00 00 0e 77 91 f7 00 3b 9a ca 00 ff
ff | "AQAAAA53kfcAO5rKAP//"

a time beyond the year 9999 | TIME 13 ff 82 00 0f 01 00 00 00 49 77 87 8a 00 00 00 00 00 ff ff | "AQAAAEl3h4oAAAAAAP//"

a time 26 hours ahead of UTC | TIME 13 ff 82 00 0f 01 00 00 00 0e 77 91 f7 00 00 00 00 00 06 18 | "AQAAAA53kfcAAAAAAAYY"

the bytes of a time in a type of another name | 10 ff 81 05 01 01 04 44 61 74 65 01 ff 82 00 00 00 13 ff 82 00 0f 01 00
00 00 0e 77 91 f7 00 00 00 00 00 ff ff | "AQAAAA53kfcAAAAAAP//"

the bytes of a time in a binary type | 10 ff 81 06 01 01 04 54 69 6d 65 01 ff 82 00 00 00 13 ff 82 00 0f 01 00 00 00 0e
77 91 f7 00 00 00 00 00 ff ff | "AQAAAA53kfcAAAAAAP//"

a text that its type gives | 0e ff 81 07 01 01 02 49 50 01 ff 82 00 00 00 0c ff 82 00 08 31 30 2e 30 2e 30 2e
31 | "10.0.0.1"

a text that is no UTF-8 | 0e ff 81 07 01 01 02 49 50 01 ff 82 00 00 00 05 ff 82 00 01 ff | "/w=="

a URL | 0f ff 81 06 01 01 03 55 52 4c 01 ff 82 00 00 00 17 ff 82 00 13 68 74 74 70 73 3a 2f 2f 67 6f 2e 64 65 76 2f 64
6f 63 2f | "https://go.dev/doc/"

a URL that is no UTF-8 | 0f ff 81 06 01 01 03 55 52 4c 01 ff 82 00 00 00 05 ff 82 00 01 ff | "/w=="

a text of a binary type of another name | 0f ff 81 06 01 01 03 55 72 6c 01 ff 82 00 00 00 06 ff 82 00 02 61 62 | "YWI="

a whole number that is 0 | 0f ff 81 05 01 01 03 49 6e 74 01 ff 82 00 00 00 05 ff 82 00 01 02 | 0

a whole number of one digit | 0f ff 81 05 01 01 03 49 6e 74 01 ff 82 00 00 00 06 ff 82 00 02 02 07 | 7

a negative whole number | 0f ff 81 05 01 01 03 49 6e 74 01 ff 82 00 00 00 06 ff 82 00 02 03 ff | -255

10 to the 40 as a whole number | 0f ff 81 05 01 01 03 49 6e 74 01 ff 82 00 00 00 16 ff 82 00 12 02 1d 63 29 f1 c3 5c a4
bf ab b9 f5 61 00 00 00 00 00 | 10000000000000000000000000000000000000000

2 to the 64 as a whole number | 0f ff 81 05 01 01 03 49 6e 74 01 ff 82 00 00 00 0e ff 82 00 0a 02 01 00 00 00 00 00 00
00 00 | 18446744073709551616

a whole number whose digits end in zeros | 0f ff 81 05 01 01 03 49 6e 74 01 ff 82 00 00 00 06 ff 82 00 02 02 64 | 100

a negative zero | 0f ff 81 05 01 01 03 49 6e 74 01 ff 82 00 00 00 05 ff 82 00 01 03 | "Aw=="

a whole number with a zero in front | 0f ff 81 05 01 01 03 49 6e 74 01 ff 82 00 00 00 07 ff 82 00 03 02 00 07 | "AgAH"

a whole number of version 2 | 0f ff 81 05 01 01 03 49 6e 74 01 ff 82 00 00 00 06 ff 82 00 02 04 07 | "BAc="

a whole number without bytes | 0f ff 81 05 01 01 03 49 6e 74 01 ff 82 00 00 00 04 ff 82 00 00 | ""

the bytes of a whole number in a type of another name | 0f ff 81 05 01 01 03 52 61 74 01 ff 82 00 00 00 06 ff 82 00 02
02 07 | "Agc="

the bytes of a whole number in a binary type | 0f ff 81 06 01 01 03 49 6e 74 01 ff 82 00 00 00 06 ff 82 00 02 02
07 | "Agc="

a map of times, whose type has no name | 0f ff 83 04 01 02 ff 84 00 01 0c 01 ff 82 00 00 0a ff 81 05 01 02 ff 82 00 00
00 16 ff 84 00 01 01 61 0f 01 00 00 00 0e c2 8b e7 70 00 00 00 00 ff ff | {"a":"2009-11-10T23:00:00Z"}

a time behind a pointer | 17 ff 85 03 01 01 01 50 01 ff 86 00 01 01 01 02 41 74 01 ff 82 00 00 00 0a ff 81 05 01 02 ff
82 00 00 00 14 ff 86 01 0f 01 00 00 00 0e c2 8b e7 70 00 00 00 00 ff ff 00 | {"At":"2009-11-10T23:00:00Z"}

a whole number behind a pointer | 16 ff 89 03 01 01 01 4e 01 ff 8a 00 01 01 01 01 4e 01 ff 8c 00 00 00 0a ff 8b 05 01 02
ff 8c 00 00 00 07 ff 8a 01 02 03 ff 00 | {"N":-255}

a slice of whole numbers | 0d ff 8f 02 01 02 ff 90 00 01 ff 8c 00 00 0a ff 8b 05 01 02 ff 8c 00 00 00 07 ff 90 00 01 02
02 07 | [7]

the last time in UTC | 0a ff 81 05 01 02 ff 82 00 00 00 13 ff 82 00 0f 01 00 00 00 49 77 86 38 7f 3b 9a c9 ff ff
ff | "9999-12-31T23:59:59.999999999Z"

the last time on a clock behind UTC | 0a ff 81 05 01 02 ff 82 00 00 00 13 ff 82 00 0f 01 00 00 00 49 77 86 7e cf 00 00
00 00 fe d4 | "9999-12-31T23:59:59-05:00"

the first time on a clock ahead of UTC | 0a ff 81 05 01 02 ff 82 00 00 00 13 ff 82 00 0f 01 00 00 00 00 00 00 00 00 00
00 00 00 00 3c | "0001-01-01T01:00:00+01:00"

the first time on a clock behind UTC, which shows the year 0 | 0a ff 81 05 01 02 ff 82 00 00 00 13 ff 82 00 0f 01 00 00
00 00 00 00 00 00 00 00 00 00 ff c4 | "AQAAAAAAAAAAAAAAAP/E"

the year 10000 | 0a ff 81 05 01 02 ff 82 00 00 00 13 ff 82 00 0f 01 00 00 00 49 77 86 38 80 00 00 00 00 ff
ff | "AQAAAEl3hjiAAAAAAP//"

a second before the first time | 0a ff 81 05 01 02 ff 82 00 00 00 13 ff 82 00 0f 01 ff ff ff ff ff ff ff ff 00 00 00 00
00 3c | "Af//////////AAAAAAA8"

a time ahead by seconds | 0a ff 81 05 01 02 ff 82 00 00 00 14 ff 82 00 10 02 00 00 00 0d f3 e7 78 60 00 00 00 00 00 00
20 | "1900-01-01T00:00:00+00:00"

a time behind by seconds | 0a ff 81 05 01 02 ff 82 00 00 00 14 ff 82 00 10 02 00 00 00 0d f3 e7 78 a0 00 00 00 00 00 00
e0 | "1900-01-01T00:00:00+00:00"

a time almost a day ahead | 0a ff 81 05 01 02 ff 82 00 00 00 14 ff 82 00 10 02 00 00 00 0e af fd e9 01 00 00 00 00 05 9f
3b | "2000-01-01T00:00:00+23:59"

a time almost a day behind | 0a ff 81 05 01 02 ff 82 00 00 00 14 ff 82 00 10 02 00 00 00 0e b0 00 8b ff 00 00 00 00 fa
61 c5 | "2000-01-01T00:00:00-23:59"

a time a day ahead | 0a ff 81 05 01 02 ff 82 00 00 00 13 ff 82 00 0f 01 00 00 00 0e af fd e9 00 00 00 00 00 05
a0 | "AQAAAA6v/ekAAAAAAAWg"

a time of version 2 without seconds | 0a ff 81 05 01 02 ff 82 00 00 00 14 ff 82 00 10 02 00 00 00 0d f3 e7 73 ec 00 00
00 00 00 13 00 | "AgAAAA3z53PsAAAAAAATAA=="

a time of version 2 with a minute of seconds | 0a ff 81 05 01 02 ff 82 00 00 00 14 ff 82 00 10 02 00 00 00 0d f3 e7 73
ec 00 00 00 00 00 13 3c | "AgAAAA3z53PsAAAAAAATPA=="

a time whose seconds go back from its minutes | 0a ff 81 05 01 02 ff 82 00 00 00 14 ff 82 00 10 02 00 00 00 0d f3 e7 73
ec 00 00 00 00 00 13 e0 | "AgAAAA3z53PsAAAAAAAT4A=="

a time whose seconds go on from minutes behind | 0a ff 81 05 01 02 ff 82 00 00 00 14 ff 82 00 10 02 00 00 00 0d f3 e7 73
ec 00 00 00 00 ff e7 15 | "AgAAAA3z53PsAAAAAP/nFQ=="

UTC with seconds | 0a ff 81 05 01 02 ff 82 00 00 00 14 ff 82 00 10 02 00 00 00 0d f3 e7 73 ec 00 00 00 00 ff ff
eb | "AgAAAA3z53PsAAAAAP//6w=="

bytes without a name that are neither | 0a ff 81 05 01 02 ff 82 00 00 00 07 ff 82 00 03 02 00 07 | "AgAH"

no bytes without a name | 0a ff 81 05 01 02 ff 82 00 00 00 04 ff 82 00 00 | ""

a whole number of 15 bytes without a name | 0a ff 81 05 01 02 ff 82 00 00 00 14 ff 82 00 10 02 ff 00 00 00 00 00 00 00
00 00 00 00 00 00 00 | 1324035698926381045275276563951124480

a whole number of 0 without a name | 0a ff 81 05 01 02 ff 82 00 00 00 05 ff 82 00 01 02 | 0

an address of IPv4 | 10 ff 81 06 01 01 04 41 64 64 72 01 ff 82 00 00 00 08 ff 82 00 04 0a 00 00 01 | "10.0.0.1"

an address of IPv6 | 10 ff 81 06 01 01 04 41 64 64 72 01 ff 82 00 00 00 14 ff 82 00 10 20 01 0d b8 00 00 00 00 00 00 00
00 00 00 00 01 | "2001:db8::1"

an address of IPv6 with a zone | 10 ff 81 06 01 01 04 41 64 64 72 01 ff 82 00 00 00 18 ff 82 00 14 fe 80 00 00 00 00 00
00 00 00 00 00 00 00 00 01 65 74 68 30 | "fe80::1%eth0"

an address of IPv4 in IPv6 | 10 ff 81 06 01 01 04 41 64 64 72 01 ff 82 00 00 00 14 ff 82 00 10 00 00 00 00 00 00 00 00
00 00 ff ff 0a 00 00 01 | "::ffff:10.0.0.1"

an address of IPv4 in IPv6 with a zone | 10 ff 81 06 01 01 04 41 64 64 72 01 ff 82 00 00 00 18 ff 82 00 14 00 00 00 00
00 00 00 00 00 00 ff ff 0a 00 00 01 65 74 68 30 | "::ffff:10.0.0.1%eth0"

an address of IPv6 with two runs of zeros | 10 ff 81 06 01 01 04 41 64 64 72 01 ff 82 00 00 00 14 ff 82 00 10 00 01 00
00 00 00 00 02 00 00 00 00 00 00 00 03 | "1:0:0:2::3"

an address with one zero | 10 ff 81 06 01 01 04 41 64 64 72 01 ff 82 00 00 00 14 ff 82 00 10 00 01 00 00 00 02 00 03 00
04 00 05 00 06 00 07 | "1:0:2:3:4:5:6:7"

the address of zeros | 10 ff 81 06 01 01 04 41 64 64 72 01 ff 82 00 00 00 14 ff 82 00 10 00 00 00 00 00 00 00 00 00 00
00 00 00 00 00 00 | "::"

no address | 10 ff 81 06 01 01 04 41 64 64 72 01 ff 82 00 00 00 04 ff 82 00 00 | ""

an address of IPv4 and a port | 14 ff 81 06 01 01 08 41 64 64 72 50 6f 72 74 01 ff 82 00 00 00 0a ff 82 00 06 0a 00 00
01 90 1f | "10.0.0.1:8080"

an address of IPv6, its zone and a port | 14 ff 81 06 01 01 08 41 64 64 72 50 6f 72 74 01 ff 82 00 00 00 1a ff 82 00 16
fe 80 00 00 00 00 00 00 00 00 00 00 00 00 00 01 65 74 68 30 bb 01 | "[fe80::1%eth0]:443"

an address of IPv6 and a port | 14 ff 81 06 01 01 08 41 64 64 72 50 6f 72 74 01 ff 82 00 00 00 16 ff 82 00 12 00 00 00
00 00 00 00 00 00 00 00 00 00 00 00 01 ff ff | "[::1]:65535"

a prefix of IPv4 | 12 ff 81 06 01 01 06 50 72 65 66 69 78 01 ff 82 00 00 00 09 ff 82 00 05 0a 00 00 00 08 | "10.0.0.0/8"

a prefix of IPv6 | 12 ff 81 06 01 01 06 50 72 65 66 69 78 01 ff 82 00 00 00 15 ff 82 00 11 20 01 0d b8 00 00 00 00 00 00
00 00 00 00 00 00 20 | "2001:db8::/32"

a prefix of all bits | 12 ff 81 06 01 01 06 50 72 65 66 69 78 01 ff 82 00 00 00 15 ff 82 00 11 00 00 00 00 00 00 00 00
00 00 00 00 00 00 00 01 80 | "::1/128"

a UUID | 10 ff 81 06 01 01 04 55 55 49 44 01 ff 82 00 00 00 14 ff 82 00 10 6b a7 b8 10 9d ad 11 d1 80 b4 00 c0 4f d4 30
c8 | "6ba7b810-9dad-11d1-80b4-00c04fd430c8"

no address and no port | 14 ff 81 06 01 01 08 41 64 64 72 50 6f 72 74 01 ff 82 00 00 00 06 ff 82 00 02 00 00 | "AAA="

no prefix | 12 ff 81 06 01 01 06 50 72 65 66 69 78 01 ff 82 00 00 00 05 ff 82 00 01 00 | "AA=="

an address of 3 bytes | 10 ff 81 06 01 01 04 41 64 64 72 01 ff 82 00 00 00 07 ff 82 00 03 0a 00 00 | "CgAA"

an address of 15 bytes | 10 ff 81 06 01 01 04 41 64 64 72 01 ff 82 00 00 00 13 ff 82 00 0f 00 00 00 00 00 00 00 00 00 00
00 00 00 00 00 | "AAAAAAAAAAAAAAAAAAAA"

an address whose zone is no UTF-8 | 10 ff 81 06 01 01 04 41 64 64 72 01 ff 82 00 00 00 15 ff 82 00 11 00 00 00 00 00 00
00 00 00 00 00 00 00 00 00 00 ff | "AAAAAAAAAAAAAAAAAAAAAP8="

a prefix of more bits than IPv4 has | 12 ff 81 06 01 01 06 50 72 65 66 69 78 01 ff 82 00 00 00 09 ff 82 00 05 0a 00 00
00 21 | "CgAAACE="

a prefix of more bits than IPv6 has | 12 ff 81 06 01 01 06 50 72 65 66 69 78 01 ff 82 00 00 00 15 ff 82 00 11 00 00 00
00 00 00 00 00 00 00 00 00 00 00 00 00 81 | "AAAAAAAAAAAAAAAAAAAAAIE="

a prefix with a zone | 12 ff 81 06 01 01 06 50 72 65 66 69 78 01 ff 82 00 00 00 16 ff 82 00 12 00 00 00 00 00 00 00 00
00 00 00 00 00 00 00 00 65 20 | "AAAAAAAAAAAAAAAAAAAAAGUg"

an address of IPv4 and half a port | 14 ff 81 06 01 01 08 41 64 64 72 50 6f 72 74 01 ff 82 00 00 00 09 ff 82 00 05 0a 00
00 01 90 | "CgAAAZA="

a UUID of 15 bytes | 10 ff 81 06 01 01 04 55 55 49 44 01 ff 82 00 00 00 13 ff 82 00 0f 00 00 00 00 00 00 00 00 00 00 00
00 00 00 00 | "AAAAAAAAAAAAAAAAAAAA"

a float of a half | 11 ff 81 05 01 01 05 46 6c 6f 61 74 01 ff 82 00 00 00 16 ff 82 00 12 01 0a 00 00 00 35 00 00 00 00
80 00 00 00 00 00 00 00 | "0.5"

a float of 1.5 | 11 ff 81 05 01 01 05 46 6c 6f 61 74 01 ff 82 00 00 00 16 ff 82 00 12 01 0a 00 00 00 35 00 00 00 01 c0
00 00 00 00 00 00 00 | "1.5"

a float of a tenth, with all its digits | 11 ff 81 05 01 01 05 46 6c 6f 61 74 01 ff 82 00 00 00 16 ff 82 00 12 01 0a
00 00 00 35 ff ff ff fd cc cc cc cc cc cc d0 00 | "0.1000000000000000055511151231257827021181583404541015625"

a negative float | 11 ff 81 05 01 01 05 46 6c 6f 61 74 01 ff 82 00 00 00 16 ff 82 00 12 01 0b 00 00 00 35 00 00 00 02
b0 00 00 00 00 00 00 00 | "-2.75"

a float of 100 | 11 ff 81 05 01 01 05 46 6c 6f 61 74 01 ff 82 00 00 00 16 ff 82 00 12 01 0a 00 00 00 35 00 00 00 07 c8
00 00 00 00 00 00 00 | "100"

a float of 0 | 11 ff 81 05 01 01 05 46 6c 6f 61 74 01 ff 82 00 00 00 0a ff 82 00 06 01 08 00 00 00 35 | "0"

a float of minus 0 | 11 ff 81 05 01 01 05 46 6c 6f 61 74 01 ff 82 00 00 00 0a ff 82 00 06 01 09 00 00 00 35 | "-0"

a float of infinity | 11 ff 81 05 01 01 05 46 6c 6f 61 74 01 ff 82 00 00 00 0a ff 82 00 06 01 0c 00 00 00 35 | "+Inf"

a float of minus infinity | 11 ff 81 05 01 01 05 46 6c 6f 61 74 01 ff 82 00 00 00 0a ff 82 00 06 01 0d 00 00 00
35 | "-Inf"

a float of 2 to the 100 | 11 ff 81 05 01 01 05 46 6c 6f 61 74 01 ff 82 00 00 00 16 ff 82 00 12 01 0a 00 00 00 35 00 00
00 65 80 00 00 00 00 00 00 00 | "1267650600228229401496703205376"

a float of 2 to the minus 20 | 11 ff 81 05 01 01 05 46 6c 6f 61 74 01 ff 82 00 00 00 16 ff 82 00 12 01 0a 00 00 00 35
ff ff ff ed 80 00 00 00 00 00 00 00 | "0.00000095367431640625"

a float whose exponent is beyond 1100 | 11 ff 81 05 01 01 05 46 6c 6f 61 74 01 ff 82 00 00 00 16 ff 82 00 12 01 0a 00
00 00 35 00 00 04 4e 80 00 00 00 00 00 00 00 | "AQoAAAA1AAAEToAAAAAAAAAA"

toward zero | 11 ff 81 05 01 01 05 46 6c 6f 61 74 01 ff 82 00 00 00 16 ff 82 00 12 01 42 00 00 00 0a ff ff ff fd cc c0
00 00 00 00 00 00 | "0.0999755859375"

a fraction | 0f ff 81 05 01 01 03 52 61 74 01 ff 82 00 00 00 0b ff 82 00 07 02 00 00 00 01 03 04 | "3/4"

a negative fraction | 0f ff 81 05 01 01 03 52 61 74 01 ff 82 00 00 00 0b ff 82 00 07 03 00 00 00 01 16 07 | "-22/7"

a fraction over 1 | 0f ff 81 05 01 01 03 52 61 74 01 ff 82 00 00 00 0b ff 82 00 07 02 00 00 00 01 05 01 | "5"

a fraction of 0 | 0f ff 81 05 01 01 03 52 61 74 01 ff 82 00 00 00 09 ff 82 00 05 02 00 00 00 00 | "0"

a long fraction | 0f ff 81 05 01 01 03 52 61 74 01 ff 82 00 00 00 1d ff 82 00 19 02 00 00 00 0c 0a c8 07 59 b2 41 66
f1 af 16 75 ea 25 0b 62 f3 b3 2a 8d cf | "3336669973306639970303636970/2669336002969636303"

a fraction of 0 over 1 | 0f ff 81 05 01 01 03 52 61 74 01 ff 82 00 00 00 0a ff 82 00 06 02 00 00 00 00 01 | "0"

a float of version 2 | 11 ff 81 05 01 01 05 46 6c 6f 61 74 01 ff 82 00 00 00 16 ff 82 00 12 02 0a 00 00 00 35 00 00 00
00 80 00 00 00 00 00 00 00 | "AgoAAAA1AAAAAIAAAAAAAAAA"

a float of a form that Go has not | 11 ff 81 05 01 01 05 46 6c 6f 61 74 01 ff 82 00 00 00 0a ff 82 00 06 01 0e 00 00
00 35 | "AQ4AAAA1"

a zero with an exponent | 11 ff 81 05 01 01 05 46 6c 6f 61 74 01 ff 82 00 00 00 0e ff 82 00 0a 01 08 00 00 00 35 00 00
00 00 | "AQgAAAA1AAAAAA=="

a float whose mantissa begins with a 0 | 11 ff 81 05 01 01 05 46 6c 6f 61 74 01 ff 82 00 00 00 16 ff 82 00 12 01 0a 00
00 00 35 00 00 00 00 70 00 00 00 00 00 00 00 | "AQoAAAA1AAAAAHAAAAAAAAAA"

a float whose mantissa ends in a word | 11 ff 81 05 01 01 05 46 6c 6f 61 74 01 ff 82 00 00 00 14 ff 82 00 10 01 0a 00
00 00 35 00 00 00 00 80 00 00 00 00 00 | "AQoAAAA1AAAAAIAAAAAAAA=="

a float of more words than bits | 11 ff 81 05 01 01 05 46 6c 6f 61 74 01 ff 82 00 00 00 1e ff 82 00 1a 01 0a 00 00 00
35 00 00 00 00 80 00 00 00 00 00 00 00 00 00 00 00 00 00 00 00 | "AQoAAAA1AAAAAIAAAAAAAAAAAAAAAAAAAAA="

a negative fraction of 0 | 0f ff 81 05 01 01 03 52 61 74 01 ff 82 00 00 00 0a ff 82 00 06 03 00 00 00 00
01 | "AwAAAAAB"

a fraction whose numerator is cut | 0f ff 81 05 01 01 03 52 61 74 01 ff 82 00 00 00 0a ff 82 00 06 02 00 00 00 02
03 | "AgAAAAID"

a fraction with a zero in front | 0f ff 81 05 01 01 03 52 61 74 01 ff 82 00 00 00 0c ff 82 00 08 02 00 00 00 02 00 03
04 | "AgAAAAIAAwQ="

a fraction over a number with a zero in front | 0f ff 81 05 01 01 03 52 61 74 01 ff 82 00 00 00 0c ff 82 00 08 02 00
00 00 01 03 00 04 | "AgAAAAEDAAQ="

a fraction of version 2 | 0f ff 81 05 01 01 03 52 61 74 01 ff 82 00 00 00 0b ff 82 00 07 04 00 00 00 01 03
04 | "BAAAAAEDBA=="
"#;

/// The rows of the raw style.
pub(crate) const RAW: &str = r#"
a time, raw | TIME 13 ff 82 00 0f 01 00 00 00 0e c2 8b e7 70 00 00 00 00 ff ff | "AQAAAA7Ci+dwAAAAAP//"

a text that its type gives, raw | 0e ff 81 07 01 01 02 49 50 01 ff 82 00 00 00 0c ff 82 00 08 31 30 2e 30 2e 30 2e
31 | "MTAuMC4wLjE="

a URL, raw | 0f ff 81 06 01 01 03 55 52 4c 01 ff 82 00 00 00 17 ff 82 00 13 68 74 74 70 73 3a 2f 2f 67 6f 2e 64 65 76 2f
64 6f 63 2f | "aHR0cHM6Ly9nby5kZXYvZG9jLw=="

a whole number, raw | 0f ff 81 05 01 01 03 49 6e 74 01 ff 82 00 00 00 06 ff 82 00 02 03 ff | "A/8="
"#;

/// Streams whose type is said to be a float.
pub(crate) const SAID_FLOAT: &str = r#"
said to be a float | 0a ff 81 05 01 02 ff 82 00 00 00 16 ff 82 00 12 01 0a 00 00 00 35 00 00 00 01 c0 00 00 00 00 00 00
00 | "1.5"

but of another layout | 0a ff 81 05 01 02 ff 82 00 00 00 06 ff 82 00 02 02 07 | "Agc="
"#;

/// Streams whose type is said to be a fraction.
pub(crate) const SAID_FRACTION: &str = r#"
of a type of which nothing is said | 0a ff 83 05 01 02 ff 84 00 00 00 0b ff 84 00 07 02 00 00 00 01 03
04 | "AgAAAAEDBA=="

said to be a fraction | 0a ff 81 05 01 02 ff 82 00 00 00 0b ff 82 00 07 02 00 00 00 01 03 04 | "3/4"

over the name of its type | 0f ff 81 05 01 01 03 49 6e 74 01 ff 82 00 00 00 0b ff 82 00 07 02 00 00 00 01 03 04 | "3/4"
"#;

/// Streams whose type is said to be bytes.
pub(crate) const SAID_BYTES: &str = r#"
a time that is said to be bytes | TIME 13 ff 82 00 0f 01 00 00 00 0e c2 8b e7 70 00 00 00 00 ff
ff | "AQAAAA7Ci+dwAAAAAP//"
"#;

//! What help says. The version stands here alone.

/// The program's name and version, which it prints where that is asked for.
pub const VERSION: &str = "gob 0.1.0";

/// The program.
pub(crate) const PROGRAM: &str = "Shows, checks and rewrites streams of Go's encoding/gob";

/// The commands for people.
pub(crate) const VALUES: &str = "Print each value of a stream as plain JSON, a line each";

pub(crate) const TYPES: &str = "Print the types of a stream as Go source";

pub(crate) const WHY: &str = "Say why a stream is refused, and what to do, or how much is in it";

pub(crate) const EXPLAIN: &str = "Print the bytes of a stream row by row, each with what it is";

pub(crate) const VERIFY: &str =
    "Say of each file whether it is a whole stream, and how much is in it";

pub(crate) const SALVAGE: &str =
    "Write what isn't damaged of a stream as one stream, and say what is left out";

pub(crate) const SPLIT: &str = "Write a stream as files of a directory, each a whole stream";

pub(crate) const JOIN: &str = "Write the values of some streams, in order, as one stream";

/// The exact commands.
pub(crate) const SHOW: &str = "Print each item of a stream as a line of JSON";

pub(crate) const CHECK: &str =
    "Read a whole stream, and print how many items, types and bytes it has";

pub(crate) const REWRITE: &str = "Write a stream anew, without the fields that are zero";

pub(crate) const TAKE: &str = "Print each value as one of the type of the first value in WANTED";

pub(crate) const CONVERT: &str =
    "Write the stream of the values as those of the type of the first value in WANTED";

pub(crate) const WRITE: &str = "Write the stream that lines of JSON say, as show prints them";

pub(crate) const MAKE: &str = "Write the stream of the values that plain JSON says";

pub(crate) const NAME_AND_VERSION: &str = "Print the program's name and version";

/// Their options and files.
pub(crate) const DEPTH_WITH_GO: &str =
    "Refuse deeper values: 1 to 65536, to 1000 with --go, and 1000 without it";

pub(crate) const DEPTH: &str = "Refuse deeper values: 1 to 1000, and 1000 without it";

pub(crate) const ITEM: &str =
    "Refuse items of more bytes: 0 to 18446744073709551615, and 67108864 without it";

pub(crate) const GO: &str = "Take all that Go's encoder writes, as values in interfaces";

pub(crate) const GO_LINES: &str = "Take the lines of show --go, with values in interfaces";

pub(crate) const GO_TAKEN: &str =
    "Print what convert writes, as show --go does: with values in interfaces";

pub(crate) const HOIST: &str =
    "As --go, and put each definition in a value into an item of its own before it";

pub(crate) const ZEROS: &str =
    "Show absent fields too, as zeros: for a table, in which pandas makes floats of int64 else";

pub(crate) const RAW: &str = "Show values of types that encode themselves, as time.Time, in base64";

pub(crate) const TAGGED: &str =
    "Show what an interface holds as {\"NAME\":value}, by its type's name";

pub(crate) const TYPED: &str = "Show each value as {\"NAME\":value}, by its type's name";

pub(crate) const ONLY: &str = "Show only the values of the type of this name or id";

pub(crate) const EACH: &str =
    "Show each element of a list or a map on a line of its own, in place of the whole value";

pub(crate) const AS: &str =
    "Take the bytes of the type of this id for: time.Time, big.Int, big.Float, \
    big.Rat, uuid, netip.Addr, text or base64";

pub(crate) const MAIN: &str = "Print a program that reads the stream and prints its values";

pub(crate) const PROGRESS: &str = "Say on standard error how far it is";

pub(crate) const PROGRESS_WITH_GO: &str = "With --go, say on standard error how far it is";

pub(crate) const KEPT: &str =
    "Show what isn't damaged, as salvage keeps it, and say on standard error what is left out";

pub(crate) const NUMBERS_AS_TEXT: &str =
    "Print each number as a text of its digits, for readers that round numbers, as jq 1.6";

pub(crate) const FAULT: &str = "Show the item that is refused alone";

pub(crate) const AT: &str = "Show the item around the byte at this offset alone";

pub(crate) const WANTED: &str = "The stream that has the wanted type; with --go also Go source";

pub(crate) const WANTED_OR_SOURCE: &str =
    "The file that has the wanted type: a stream, or Go source";

pub(crate) const RENAME: &str =
    "Fill the wanted field NEW from the field OLD of the stream, with STRUCT.OLD=NEW \
    in the wanted struct STRUCT alone; it may be given several times";

pub(crate) const ALL: &str = "Stop at a value that has a field which isn't wanted";

pub(crate) const GOOD: &str =
    "Take the types of this stream for known: of a file that lost its own, of the same program";

pub(crate) const INPUT: &str = "The stream; without it, standard input is read";

pub(crate) const FILE: &str = "The stream; without it, or where it is -, standard input is read";

pub(crate) const LINES: &str = "The lines; without it, or where it is -, standard input is read";

pub(crate) const PLAIN: &str = "The JSON; without it, or where it is -, standard input is read";

pub(crate) const MADE_TYPES: &str = "The file that has the types: a stream, or Go source";

pub(crate) const MADE_TYPE: &str =
    "The type of the values, by its name or id in TYPES, and else that of the first value \
    or the first one declared; without --types the types themselves, as Go source";

pub(crate) const LENIENT: &str =
    "Leave out members that no field has, and say how many on standard error";

pub(crate) const FILES: &str = "The streams";

pub(crate) const LINE: &str =
    "Refuse lines of more bytes: 0 to 18446744073709551615, and 268435456 without it";

pub(crate) const SIZE: &str =
    "End a file with the value with which it has as many bytes: a number, \
    or one with K, M or G, for units of 2^10, 2^20 or 2^30 bytes; 64M without it";

pub(crate) const PART_VALUES: &str = "End a file with the value with which it has as many";

pub(crate) const SPLIT_INPUT: &str = "The stream; where it is -, standard input is read";

pub(crate) const DIRECTORY: &str =
    "Where the files 0000.gob, 0001.gob and so on are made; it is made if it isn't there";

/// How it is used, how it ends, and what to do about the commonest faults.
pub(crate) const USE: &str = "\
Example:
  printf '\\003\\004\\000\\006' >n.gob; gob values n.gob
  3

Exit status:
  0  the whole input is a stream, or help was asked for
  1  an input is refused or damaged, or has a value that doesn't match WANTED
  2  bad arguments, a file that isn't opened, a failed read or write, no memory

A fault is told in a line on standard error: the number and the name of the
reason, the offset of the first byte that is refused, and how many bytes show it.
  gob: refused 22 Ended at 36 seen 36
      The input ends within an item: the file was cut off, or isn't all written
      yet. Get the whole file. The items before the offset are whole.
  gob: refused 16 InterfaceValue at 3 seen 4
      A field of an interface type isn't nil. Type gob show --go: with --go
      show, check, rewrite and take read what an interface holds.
  gob: refused 19 WrongId at 3 seen 11
      A type that encodes itself, as big.Int, was first sent by a pointer, and Go
      described it under two ids. Type gob show --go: with --go show, check,
      rewrite and take read that too.";

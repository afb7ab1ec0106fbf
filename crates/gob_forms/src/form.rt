//! What an input is that is no stream, by a mark near its front.

ghost use Rattle.std.specs.Prelude.{◌≡◌, ◌↔◌, IsTrue, map};
ghost use Rattle.gob_forms.specs.Names.{form_file_name, form_name, form_step};
ghost use Rattle.gob_forms.specs.Forms.{IsFirstForm, IsFormAt, Stands, mark_in};

/// What an input can be that is no stream.
#[derive(Clone, Copy, Debug, PartialEq, Eq)]
pub enum Form {
    /// Packed by gzip.
    Gzip,
    /// Packed by zstd.
    Zstd,
    /// Packed by bzip2.
    Bzip2,
    /// Packed by xz.
    Xz,
    /// Packed by lzma.
    Lzma,
    /// Packed by lz4.
    Lz4,
    /// Packed by zlib.
    Zlib,
    /// Packed by snappy, in frames.
    Snappy,
    /// An archive of zip.
    Zip,
    /// An archive of 7z.
    SevenZip,
    /// An archive of tar.
    Tar,
    /// An archive of ar, as a static library is.
    Ar,
    /// An image in PNG.
    Png,
    /// An image in JPEG.
    Jpeg,
    /// An image in GIF.
    Gif,
    /// A RIFF file, as WebP and WAV are.
    Riff,
    /// A document in PDF.
    Pdf,
    /// A program in ELF, as Linux has them.
    Elf,
    /// A program for Windows.
    Exe,
    /// A program for macOS.
    MachO,
    /// A module of WebAssembly.
    Wasm,
    /// A database of SQLite.
    Sqlite,
    /// A database of bbolt.
    Bolt,
    /// A table in Parquet.
    Parquet,
    /// Rows in Avro.
    Avro,
    /// A pack of git's objects.
    GitPack,
    /// Python's pickle, from its second protocol on.
    Pickle,
    /// MessagePack.
    MessagePack,
    /// CBOR.
    Cbor,
    /// Objects that Java wrote.
    JavaObjects,
    /// Encrypted by OpenSSL, with a word to remember.
    Salted,
    /// Encrypted by OpenPGP, with a word to remember.
    OpenPgp,
    /// Text in UTF-16 behind its mark.
    Utf16,
    /// Text in UTF-16 without a mark, the low byte of each unit first.
    Utf16Low,
    /// Text in UTF-16 without a mark, the high byte of each unit first.
    Utf16High,
    /// Something behind the mark of UTF-8.
    Marked,
}

// Bytes by which a form is known, and the offset at which they stand.
struct Mark {
    form: Form,
    at: usize,
    bytes: &'static [u8],
}

static MARKS: [Mark; 40] = [
    Mark {
        form: Form::Gzip,
        at: 0,
        bytes: b"\x1f\x8b",
    },
    Mark {
        form: Form::Zstd,
        at: 0,
        bytes: b"(\xb5/\xfd",
    },
    Mark {
        form: Form::Bzip2,
        at: 0,
        bytes: b"BZh",
    },
    Mark {
        form: Form::Xz,
        at: 0,
        bytes: b"\xfd7zXZ\0",
    },
    Mark {
        form: Form::Lzma,
        at: 0,
        bytes: b"]\0\0",
    },
    Mark {
        form: Form::Lz4,
        at: 0,
        bytes: b"\x04\x22M\x18",
    },
    Mark {
        form: Form::Zlib,
        at: 0,
        bytes: b"x\x01",
    },
    Mark {
        form: Form::Zlib,
        at: 0,
        bytes: b"x^",
    },
    Mark {
        form: Form::Zlib,
        at: 0,
        bytes: b"x\x9c",
    },
    Mark {
        form: Form::Zlib,
        at: 0,
        bytes: b"x\xda",
    },
    Mark {
        form: Form::Snappy,
        at: 0,
        bytes: b"\xff\x06\0\0sNaPpY",
    },
    Mark {
        form: Form::Zip,
        at: 0,
        bytes: b"PK\x03\x04",
    },
    Mark {
        form: Form::SevenZip,
        at: 0,
        bytes: b"7z\xbc\xaf'\x1c",
    },
    Mark {
        form: Form::Tar,
        at: 257,
        bytes: b"ustar",
    },
    Mark {
        form: Form::Ar,
        at: 0,
        bytes: b"!<arch>\n",
    },
    Mark {
        form: Form::Png,
        at: 0,
        bytes: b"\x89PNG\r\n\x1a\n",
    },
    Mark {
        form: Form::Jpeg,
        at: 0,
        bytes: b"\xff\xd8\xff\xdb\0",
    },
    Mark {
        form: Form::Jpeg,
        at: 0,
        bytes: b"\xff\xd8\xff\xe0\0\x10JFIF",
    },
    Mark {
        form: Form::Jpeg,
        at: 6,
        bytes: b"Exif\0\0",
    },
    Mark {
        form: Form::Gif,
        at: 0,
        bytes: b"GIF8",
    },
    Mark {
        form: Form::Riff,
        at: 0,
        bytes: b"RIFF",
    },
    Mark {
        form: Form::Pdf,
        at: 0,
        bytes: b"%PDF-",
    },
    Mark {
        form: Form::Elf,
        at: 0,
        bytes: b"\x7fELF",
    },
    Mark {
        form: Form::Exe,
        at: 0,
        bytes: b"MZ",
    },
    Mark {
        form: Form::MachO,
        at: 0,
        bytes: b"\xcf\xfa\xed\xfe",
    },
    Mark {
        form: Form::Wasm,
        at: 0,
        bytes: b"\0asm",
    },
    Mark {
        form: Form::Sqlite,
        at: 0,
        bytes: b"SQLite format 3\0",
    },
    Mark {
        form: Form::Bolt,
        at: 16,
        bytes: b"\xed\xda\x0c\xed",
    },
    Mark {
        form: Form::Parquet,
        at: 0,
        bytes: b"PAR1",
    },
    Mark {
        form: Form::Avro,
        at: 0,
        bytes: b"Obj\x01",
    },
    Mark {
        form: Form::GitPack,
        at: 0,
        bytes: b"PACK",
    },
    Mark {
        form: Form::Pickle,
        at: 0,
        bytes: b"\x80\x02",
    },
    Mark {
        form: Form::Pickle,
        at: 0,
        bytes: b"\x80\x03",
    },
    Mark {
        form: Form::Pickle,
        at: 0,
        bytes: b"\x80\x04\x95",
    },
    Mark {
        form: Form::Pickle,
        at: 0,
        bytes: b"\x80\x05\x95",
    },
    Mark {
        form: Form::Cbor,
        at: 0,
        bytes: b"\xd9\xd9\xf7",
    },
    Mark {
        form: Form::JavaObjects,
        at: 0,
        bytes: b"\xac\xed\0\x05",
    },
    Mark {
        form: Form::Salted,
        at: 0,
        bytes: b"Salted__",
    },
    Mark {
        form: Form::OpenPgp,
        at: 0,
        bytes: b"\x8c\r\x04",
    },
    Mark {
        form: Form::Marked,
        at: 0,
        bytes: b"\xef\xbb\xbf",
    },
];

/// The form of the first mark that stands in the bytes: those at the front of an input that is no stream.
pub fn form_of(front: &[u8]) -> Option<Form>
    ensures { IsFormAt front.now result }
{
    first_in(&MARKS, front)
}

// The form of the first of the marks that stands in the bytes.
fn first_in(marks: &[Mark], front: &[u8]) -> Option<Form>
    ensures { IsFirstForm (map mark_in marks.now) front.now result }
{
    for mark in marks {
        if mark.stands_in(front) {
            return Some(mark.form);
        }
    }
    None
}

impl Mark {
    fn stands_in(&self, front: &[u8]) -> bool
        ensures { IsTrue result ↔ Stands (mark_in self.now) front.now }
    {
        match front.get(self.at..) {
            Some(rest) => rest.starts_with(self.bytes),
            None => false,
        }
    }
}

// What to do with a file of another kind.
const OTHER: &str = "Get the file that holds the stream: this is another.";

impl Form {
    /// What it is called, behind "it begins as" and before "does".
    pub fn name(self) -> &'static str
        ensures { result.now ≡ form_name self }
    {
        match self {
            Form::Gzip => "gzip",
            Form::Zstd => "zstd",
            Form::Bzip2 => "bzip2",
            Form::Xz => "xz",
            Form::Lzma => "lzma",
            Form::Lz4 => "lz4",
            Form::Zlib => "zlib",
            Form::Snappy => "snappy",
            Form::Zip => "zip",
            Form::SevenZip => "7z",
            Form::Tar => "tar",
            Form::Ar => "an archive of ar",
            Form::Sqlite => "a SQLite database",
            Form::Bolt => "a bbolt database",
            Form::Parquet => "a Parquet file",
            Form::Avro => "an Avro file",
            Form::GitPack => "a pack of git",
            Form::Pickle => "Python's pickle",
            Form::MessagePack => "MessagePack",
            Form::Cbor => "CBOR",
            Form::JavaObjects => "Java's serialized objects",
            Form::Salted => "a file that OpenSSL encrypted",
            Form::OpenPgp => "a file that OpenPGP encrypted",
            Form::Utf16 | Form::Utf16Low | Form::Utf16High => "text in UTF-16",
            Form::Marked => "the byte order mark of UTF-8",
            _ => self.name_of_file(),
        }
    }

    // The name of what people look at or run.
    fn name_of_file(self) -> &'static str
        ensures { result.now ≡ form_file_name self }
    {
        match self {
            Form::Png => "a PNG image",
            Form::Jpeg => "a JPEG image",
            Form::Gif => "a GIF image",
            Form::Riff => "a RIFF file, as WebP and WAV are,",
            Form::Pdf => "a PDF document",
            Form::Elf => "an ELF program",
            Form::Exe => "a program for Windows",
            Form::MachO => "a program for macOS",
            Form::Wasm => "a WebAssembly module",
            _ => "",
        }
    }

    /// What to do: a command that gives what it holds, where IN is the file, or else a sentence.
    pub fn step(self) -> &'static str
        ensures { result.now ≡ form_step self }
    {
        match self {
            Form::Gzip => "gunzip -c IN | gob why",
            Form::Zstd => "zstd -dc IN | gob why",
            Form::Bzip2 => "bunzip2 -c IN | gob why",
            Form::Xz => "xz -dc IN | gob why",
            Form::Lzma => "xz --format=lzma -dc IN | gob why",
            Form::Lz4 => "lz4 -dc IN | gob why",
            Form::Zlib => INFLATE,
            Form::Snappy => "snzip -dc IN | gob why",
            Form::Zip => "unzip -p IN | gob why",
            Form::SevenZip => "7z x -so IN | gob why",
            Form::Tar => "tar -xOf IN | gob why",
            Form::Ar => "ar p IN | gob why",
            Form::Sqlite => "sqlite3 IN .schema",
            Form::Bolt => "bbolt buckets IN",
            Form::Pickle => "python3 -m pickletools IN",
            Form::Salted => "openssl enc -d -aes-256-cbc -pbkdf2 -in IN | gob why",
            Form::OpenPgp => "gpg -d IN | gob why",
            Form::Utf16 => "iconv -f UTF-16 -t UTF-8 IN | gob why",
            Form::Utf16Low => "iconv -f UTF-16LE -t UTF-8 IN | gob why",
            Form::Utf16High => "iconv -f UTF-16BE -t UTF-8 IN | gob why",
            Form::Marked => "tail -c +4 IN | gob why",
            _ => OTHER,
        }
    }
}

const INFLATE: &str =
    "python3 -c 'import sys, zlib; sys.stdout.buffer.write(zlib.decompress(sys.stdin.buffer.read()))' \
    <IN | gob why";

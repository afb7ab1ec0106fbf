//! A program that prints each value of a stream.

ghost use Rattle.std.specs.Prelude.{◌≡◌, [], IfOk};
ghost use Rattle.gob_source.specs.Adds.{Adds};
ghost use Rattle.gob_source.specs.Program.{buffer_import, case_text, cases_text, go_program, has_one, init_text};
ghost use Rattle.gob_source.specs.Program.{main_text, many_text, one_text, program_imports, registrations_text};
ghost use Rattle.gob_source.specs.Registered.{namings};

use crate::by_type::NamesByType;
use crate::declared::Declared;
use crate::definitions::push_definitions;
use crate::library::{Package, push_import};
use crate::registered::Registered;
use crate::registrations::{push_new, push_registrations};
use crate::text::{push_lines, push_number, push_text};
use gob_types::{Shapes, TypeId};
use std::alloc::{AllocError, Global};

// What `main` is for.
const MAIN_COMMENT: &[u8] =
    b"\n// main prints each value of its standard input: as JSON, or as Go source where JSON has none such.\n";

// It reads values of one type.
const ONE_MAIN: [&[u8]; 18] = [
    b"func main() {\n",
    b"\tdecoder := gob.NewDecoder(os.Stdin)\n",
    b"\tencoder := json.NewEncoder(os.Stdout)\n",
    b"\tencoder.SetEscapeHTML(false)\n",
    b"\tfor {\n",
    b"\t\tplace := newValue()\n",
    b"\t\terr := decoder.Decode(place)\n",
    b"\t\tif err == io.EOF {\n",
    b"\t\t\treturn\n",
    b"\t\t}\n",
    b"\t\tif err != nil {\n",
    b"\t\t\tlog.Fatal(err)\n",
    b"\t\t}\n",
    b"\t\tif encoder.Encode(place) != nil {\n",
    b"\t\t\tfmt.Printf(\"%#v\\n\", reflect.ValueOf(place).Elem())\n",
    b"\t\t}\n",
    b"\t}\n",
    b"}\n",
];

// The id of a value's type stands in front of it, behind definitions.
const MANY_MAIN: [&[u8]; 38] = [
    b"\t}\n",
    b"\tlog.Fatalf(\"no value of type %d is expected\", typeID)\n",
    b"\treturn nil\n",
    b"}\n",
    b"\n",
    b"// readNumber reads a number as gob spells it, and returns how many bytes it has.\n",
    b"func readNumber(text []byte) (uint64, int) {\n",
    b"\tvar head [9]byte\n",
    b"\tcopy(head[:], text)\n",
    b"\tcount := 256 - int(head[0])\n",
    b"\tif count > 8 {\n",
    b"\t\treturn uint64(head[0]), 1\n",
    b"\t}\n",
    b"\tvar number uint64\n",
    b"\tfor _, digit := range head[1 : 1+count] {\n",
    b"\t\tnumber = number<<8 | uint64(digit)\n",
    b"\t}\n",
    b"\treturn number, 1 + count\n",
    b"}\n",
    b"\n",
    b"// nextType returns the id of the type of the next value, which stands behind definitions of types.\n",
    b"func nextType(input *bufio.Reader) (int64, error) {\n",
    b"\tfor at := 0; ; {\n",
    b"\t\thead, err := input.Peek(at + 18)\n",
    b"\t\tif len(head) <= at {\n",
    b"\t\t\treturn 0, err\n",
    b"\t\t}\n",
    b"\t\tlength, begin := readNumber(head[at:])\n",
    b"\t\tif len(head) <= at+begin || length > 1<<30 {\n",
    b"\t\t\treturn 0, io.ErrUnexpectedEOF\n",
    b"\t\t}\n",
    b"\t\tnumber, _ := readNumber(head[at+begin:])\n",
    b"\t\tif number&1 == 0 {\n",
    b"\t\t\treturn int64(number >> 1), nil\n",
    b"\t\t}\n",
    b"\t\tat += begin + int(length)\n",
    b"\t}\n",
    b"}\n",
];

// It reads values of several types.
const MANY_LOOP: [&[u8]; 22] = [
    b"func main() {\n",
    b"\tinput := bufio.NewReaderSize(os.Stdin, 1<<20)\n",
    b"\tdecoder := gob.NewDecoder(input)\n",
    b"\tencoder := json.NewEncoder(os.Stdout)\n",
    b"\tencoder.SetEscapeHTML(false)\n",
    b"\tfor {\n",
    b"\t\tid, err := nextType(input)\n",
    b"\t\tif err == io.EOF {\n",
    b"\t\t\treturn\n",
    b"\t\t}\n",
    b"\t\tif err != nil {\n",
    b"\t\t\tlog.Fatal(err)\n",
    b"\t\t}\n",
    b"\t\tplace := newValue(id)\n",
    b"\t\tif err := decoder.Decode(place); err != nil {\n",
    b"\t\t\tlog.Fatal(err)\n",
    b"\t\t}\n",
    b"\t\tif encoder.Encode(place) != nil {\n",
    b"\t\t\tfmt.Printf(\"%#v\\n\", reflect.ValueOf(place).Elem())\n",
    b"\t\t}\n",
    b"\t}\n",
    b"}\n",
];

/// A program of Go that declares these types of the table as [`crate::named_source_of`] does, registers the names, and
/// prints each value of its standard input, as JSON where it has such a value. `values` are the types of the values,
/// each of them once: where it is one, the program reads a stream of it whatever its id is there, and else it goes by
/// the ids.
pub fn program_of<S: Shapes>(
    alloc: Global,
    shapes: &S,
    ids: &[TypeId],
    registered: &[Registered],
    values: &[TypeId],
) -> Result<Vec<u8>, AllocError>
    ensures { IfOk result (λ text. text.items
        ≡ go_program (S.table shapes.now) ids.now (namings registered.now) values.now) }
{
    let mut out = Vec::new(alloc);
    let types = Declared::new(alloc, shapes, ids)?;
    let names = NamesByType::new(alloc, registered)?;
    push_program(&types, &names, values, &mut out)?;
    Ok(out)
}

// Appends the program.
fn push_program<S: Shapes>(
    types: &Declared<'_, S>,
    names: &NamesByType<'_>,
    values: &[TypeId],
    out: &mut Vec<u8>,
) -> Result<(), AllocError>
    ensures { Adds result out.old.items out.new.items
        (go_program (S.table types.now.shapes.now) types.now.ids.now (namings names.now.all.now) values.now) }
{
    push_text(b"package main\n", out)?;
    push_imports(types, has_one(values), out)?;
    push_definitions(types, names, out)?;
    push_init(types, names.all, out)?;
    push_main(types, values, out)
}

fn has_one(values: &[TypeId]) -> bool
    ensures { result ≡ has_one values.now }
{
    matches!(values, [_])
}

// Appends the import of what the program uses.
fn push_imports<S: Shapes>(
    types: &Declared<'_, S>,
    one: bool,
    out: &mut Vec<u8>,
) -> Result<(), AllocError>
    ensures { Adds result out.old.items out.new.items
        (program_imports (S.table types.now.shapes.now) types.now.ids.now one) }
{
    push_text(b"\nimport (\n", out)?;
    push_text(buffer_import(one), out)?;
    push_text(
        b"\t\"encoding/gob\"\n\t\"encoding/json\"\n\t\"fmt\"\n\t\"io\"\n\t\"log\"\n",
        out,
    )?;
    push_import(types.shapes, types.ids, Package::Big, out)?;
    push_import(types.shapes, types.ids, Package::Netip, out)?;
    push_import(types.shapes, types.ids, Package::Url, out)?;
    push_text(b"\t\"os\"\n\t\"reflect\"\n", out)?;
    push_import(types.shapes, types.ids, Package::Time, out)?;
    push_text(b")\n", out)
}

// A program for values of one type looks at no byte before the decoder does.
fn buffer_import(one: bool) -> &'static [u8]
    ensures { result.now ≡ buffer_import one }
{
    if one { b"" } else { b"\t\"bufio\"\n" }
}

// Appends the function that registers the names, where there are any.
fn push_init<S: Shapes>(
    types: &Declared<'_, S>,
    registered: &[Registered],
    out: &mut Vec<u8>,
) -> Result<(), AllocError>
    ensures { Adds result out.old.items out.new.items
        (init_text (registrations_text (S.table types.now.shapes.now) types.now.ids.now [] (namings registered.now))) }
{
    let mut calls = Vec::new(types.alloc);
    push_registrations(types, registered, &mut calls)?;
    push_init_of(&calls, out)
}

fn push_init_of(calls: &[u8], out: &mut Vec<u8>) -> Result<(), AllocError>
    ensures { Adds result out.old.items out.new.items (init_text calls.now) }
{
    if calls.is_empty() {
        return Ok(());
    }
    push_text(
        b"\n// The names under which interfaces hold values.\nfunc init() {\n",
        out,
    )?;
    push_text(calls, out)?;
    push_text(b"}\n", out)
}

// Appends the functions of the program.
fn push_main<S: Shapes>(
    types: &Declared<'_, S>,
    values: &[TypeId],
    out: &mut Vec<u8>,
) -> Result<(), AllocError>
    ensures { Adds result out.old.items out.new.items
        (main_text (S.table types.now.shapes.now) types.now.ids.now values.now) }
{
    match values {
        [value] => push_one(types, *value, out),
        _ => push_many(types, values, out),
    }
}

// Appends those that read values of one type.
fn push_one<S: Shapes>(
    types: &Declared<'_, S>,
    value: TypeId,
    out: &mut Vec<u8>,
) -> Result<(), AllocError>
    ensures { Adds result out.old.items out.new.items
        (one_text (S.table types.now.shapes.now) types.now.ids.now value) }
{
    push_text(
        b"\n// newValue returns a place for a value.\nfunc newValue() interface{} {\n\treturn ",
        out,
    )?;
    push_new(types, value, out)?;
    push_text(b"\n}\n", out)?;
    push_text(MAIN_COMMENT, out)?;
    push_lines(&ONE_MAIN, out)
}

// Appends those that go by the id of each value's type.
fn push_many<S: Shapes>(
    types: &Declared<'_, S>,
    values: &[TypeId],
    out: &mut Vec<u8>,
) -> Result<(), AllocError>
    ensures { Adds result out.old.items out.new.items
        (many_text (S.table types.now.shapes.now) types.now.ids.now values.now) }
{
    push_text(
        b"\n// newValue returns a place for a value of the type that has this id in the stream.\n",
        out,
    )?;
    push_text(
        b"func newValue(typeID int64) interface{} {\n\tswitch typeID {\n",
        out,
    )?;
    push_cases(types, values, out)?;
    push_lines(&MANY_MAIN, out)?;
    push_text(MAIN_COMMENT, out)?;
    push_lines(&MANY_LOOP, out)
}

// Appends the types, each by its id.
fn push_cases<S: Shapes>(
    types: &Declared<'_, S>,
    values: &[TypeId],
    out: &mut Vec<u8>,
) -> Result<(), AllocError>
    ensures { Adds result out.old.items out.new.items
        (cases_text (S.table types.now.shapes.now) types.now.ids.now values.now) }
{
    for id in values {
        push_case(types, *id, out)?;
    }
    Ok(())
}

fn push_case<S: Shapes>(
    types: &Declared<'_, S>,
    id: TypeId,
    out: &mut Vec<u8>,
) -> Result<(), AllocError>
    ensures { Adds result out.old.items out.new.items
        (case_text (S.table types.now.shapes.now) types.now.ids.now id) }
{
    push_text(b"\tcase ", out)?;
    push_number(id.0, out)?;
    push_text(b":\n\t\treturn ", out)?;
    push_new(types, id, out)?;
    push_text(b"\n", out)
}

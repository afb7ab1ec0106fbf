//! The stream of what is received of a stream's values, as the words ask, and its lines.

ghost use Rattle.std.specs.Prelude.{◌≡◌, ◌↔◌, ℕ, List, Some, length, IfErr, IfOk, IsErrAnd, IsTrue, string_bytes};
ghost use Rattle.std.specs.Io.Buffered.{writer_contents};
ghost use Rattle.gob_stream.specs.Bounds.{within_trees};
ghost use Rattle.gob_stream.specs.Calls.Ends.{failed_reads, failed_writes, reader_of, writer_of};
ghost use Rattle.gob_convert.specs.Faults.{IsAmongRenames, OfRun};
ghost use Rattle.gob_tool.specs.Running.{order_limits};
ghost use Rattle.gob_tool.specs.Showing.{CountsWriteFaults};
ghost use Rattle.gob_tool.specs.Taking.{CountsTakeReads};
ghost use Rattle.gob_words.specs.Escaped.{IsUnobeyed};
ghost use Rattle.gob.specs.Converting.{ConvertsOrTakes, EndsConversion, HasPath, IsFaultShown, IsSettledAs, IsShown};
ghost use Rattle.gob.specs.Converting.{IsClashLine, IsClashed, IsShownLine, IsStopShown, IsStopped, IsTallyShown};
ghost use Rattle.gob.specs.Converting.{TellsClash, TellsWord};
ghost use Rattle.gob.specs.Exit.{IsQuietIfClosed, seen_after, seen_of, unused};

use crate::pipe::Pipe;
use crate::types::{TypesFile, wanted_of};
use crate::{AfterRun, Exit, buffered, opened, settled};
use gob_convert::{
    Clash, ConvertFault, ConvertOptions, MisfitText, WordText, run_convert, run_take_go,
};
use gob_left_out::Tally;
use gob_rename::{Misfit, Rename, WordFault, WordsFault, renames_said_by};
use gob_stream::{Input, Output};
use gob_tool::{ToolFault, limits_of};
use gob_types::Reason;
use gob_words::{Converting, Order, converting_of, escaped};
use std::alloc::{AllocError, Global};
use std::fs::File;
use std::io::{BufWriter, Read, Write};

/// What the words ask of a conversion.
#[derive(Drop)]
struct Conversion<'a> {
    /// The streams and their limits.
    order: Order<'a>,
    /// Those that say which fields of the wanted types have another name in the stream.
    words: Vec<&'a str>,
    /// What each of them says.
    renames: Vec<Rename<'a>>,
    /// Whether no field of a value may be left out.
    all: bool,
    /// Whether the lines of that stream are printed, in place of the stream.
    in_lines: bool,
    ghost as_many: { length renames.items ≡ length words.items },
}

/// Writes the stream of the values as those of the wanted type, whose fields have the names there that the words
/// say, and tells on standard error which fields they leave out.
pub(crate) fn convert<'a>(
    rt: &HostRuntime,
    order: &Order<'a>,
    names: &'a [&'a str],
) -> Result<(), Exit> {
    let asked = conversion_of(rt.alloc(), *order, names)?;
    convert_by(rt, &asked)
}

/// Prints the stream that [`convert`] writes where the words say nothing beside the order, as `show --go` prints it.
pub(crate) fn take_go(rt: &HostRuntime, order: &Order<'_>) -> Result<(), Exit> {
    let asked = Conversion {
        order: *order,
        words: Vec::new(rt.alloc()),
        renames: Vec::new(rt.alloc()),
        all: false,
        in_lines: true,
    };
    convert_by(rt, &asked)
}

// Converts by what has the wanted type.
fn convert_by(rt: &HostRuntime, asked: &Conversion<'_>) -> Result<(), Exit> {
    match asked.order.wanted {
        None => convert_on(rt, asked, b"".as_slice()),
        Some(word) if is_declaration(word) => convert_declared(rt, asked, word.as_bytes()),
        Some(path) => {
            let wanted = opened(File::open(rt, path))?;
            convert_file(rt, asked, wanted)
        }
    }
}

// What the words ask.
fn conversion_of<'a>(
    alloc: Global,
    order: Order<'a>,
    names: &'a [&'a str],
) -> Result<Conversion<'a>, Exit> {
    let Converting {
        renames: words,
        all,
    } = converting_of(alloc, names)?;
    match renames_said_by(alloc, &words) {
        Ok(renames) => Ok(Conversion {
            order,
            words,
            renames,
            all,
            in_lines: false,
        }),
        Err(WordsFault::Memory) => Err(Exit::Run(ToolFault::Memory)),
        Err(WordsFault::Word { number, fault }) => {
            Err(told(word_line(alloc, words[number], fault)))
        }
    }
}

// Whether a word is the declaration of a type, and names no file: a file of such a name has its folder before it.
fn is_declaration(word: &str) -> bool {
    word.starts_with("type ")
}

// Converts by the file that has the wanted type: a stream, or Go source.
fn convert_file(rt: &HostRuntime, asked: &Conversion<'_>, wanted: File) -> Result<(), Exit> {
    match TypesFile::begun(rt.alloc(), wanted)? {
        TypesFile::Stream(first, rest) => convert_on(rt, asked, first.as_slice().chain(rest)),
        TypesFile::Source(text) => convert_declared(rt, asked, &text),
    }
}

// Converts by the first type that Go source declares.
fn convert_declared(rt: &HostRuntime, asked: &Conversion<'_>, source: &[u8]) -> Result<(), Exit> {
    let stream = wanted_of(rt.alloc(), source)?;
    convert_on(rt, asked, stream.as_slice())
}

// Opens the input, then converts it.
fn convert_on<Q: Read + Drop>(
    rt: &HostRuntime,
    asked: &Conversion<'_>,
    wanted: Q,
) -> Result<(), Exit> {
    let writer = buffered(rt.alloc(), rt.stdout())?;
    let mut wanted = Input::new(wanted);
    let mut left_out = Tally::new(rt.alloc());
    let ending = match asked.order.input {
        None => {
            let mut input = Input::new(rt.stdin());
            convert_out(
                rt.alloc(),
                asked,
                &mut wanted,
                &mut input,
                writer,
                &mut left_out,
            )
            .ending
        }
        Some(path) => {
            let mut input = Input::new(opened(File::open(rt, path))?);
            convert_out(
                rt.alloc(),
                asked,
                &mut wanted,
                &mut input,
                writer,
                &mut left_out,
            )
            .ending
        }
    };
    let told = tell_left_out(rt, &left_out);
    shown(rt.alloc(), ending)?;
    told
}

// Tells on standard error what the values leave out, if anything.
fn tell_left_out(rt: &HostRuntime, left_out: &Tally) -> Result<(), Exit> {
    if left_out.is_empty() {
        return Ok(());
    }
    let line = left_out_line(rt.alloc(), left_out)?;
    // Where standard error takes no line, the values are written all the same.
    let _ = eprintln!(rt; "{line}");
    Ok(())
}

// The line of what they leave out: the path of a field has names of the stream.
fn left_out_line(alloc: Global, left_out: &Tally) -> Result<String, AllocError>
    ensures { IfOk result (λ line. IsTallyShown left_out.now (string_bytes line)) }
{
    let line = left_out.to_string(alloc)?;
    escaped(alloc, line.as_str())
}

// The run, as that of an order.
fn convert_out<Q: Read, R: Read, W: Write + Drop>(
    alloc: Global,
    asked: &Conversion<'_>,
    wanted: &mut Input<Q>,
    input: &mut Input<R>,
    writer: BufWriter<Pipe<W>>,
    left_out: &mut Tally,
) -> AfterRun<W>
    ensures ends { EndsConversion asked.now.order asked.now.renames.items asked.now.all asked.now.in_lines
        (seen_of Q.remaining wanted.old) (seen_of Q.remaining wanted.new)
        (seen_of R.remaining input.old) (seen_of R.remaining input.new)
        (unused (writer_contents (λ pipe. W.contents pipe.writer) writer)) (seen_after W.contents result)
        left_out.old left_out.new result.ending }
    ensures quiet { IsQuietIfClosed result }
{
    let mut output = Output::new(writer);
    let answer = run_asked(alloc, asked, wanted, input, &mut output, left_out);
    settled_as(alloc, &asked.words, answer, output)
}

// The run that was asked for.
fn run_asked<Q: Read, R: Read, W: Write>(
    alloc: Global,
    asked: &Conversion<'_>,
    wanted: &mut Input<Q>,
    input: &mut Input<R>,
    output: &mut Output<W>,
    left_out: &mut Tally,
) -> Result<(), ConvertFault>
    ensures does { (wanted_bytes bytes : List ℕ) → Q.remaining (reader_of wanted.old) ≡ Some wanted_bytes
        → R.remaining (reader_of input.old) ≡ Some bytes
        → ConvertsOrTakes asked.now.in_lines asked.now.renames.items asked.now.all
        (within_trees (order_limits asked.now.order)) wanted_bytes bytes
        (Q.remaining (reader_of wanted.new)) (R.remaining (reader_of input.new))
        (W.contents (writer_of output.old)) (W.contents (writer_of output.new)) left_out.old left_out.new result }
    ensures among { IfErr result (IsAmongRenames (length asked.now.renames.items)) }
    ensures reads { OfRun (CountsTakeReads (failed_reads wanted.old) (failed_reads wanted.new)
        (failed_reads input.old) (failed_reads input.new)) result }
    ensures writes { OfRun (CountsWriteFaults (failed_writes output.old) (failed_writes output.new)) result }
{
    let options = ConvertOptions {
        renames: &asked.renames,
        all: asked.all,
        limits: limits_of(&asked.order),
    };
    if asked.in_lines {
        run_take_go(alloc, &options, wanted, input, output, left_out)
    } else {
        run_convert(alloc, &options, wanted, input, output, left_out)
    }
}

// What comes of a conversion that answered this: where a rename doesn't fit the wanted types, its word is told, where a
// value clashes where and why, and where no more goes into the stream why that is.
fn settled_as<W: Write + Drop>(
    alloc: Global,
    words: &[&str],
    answer: Result<(), ConvertFault>,
    output: Output<BufWriter<Pipe<W>>>,
) -> AfterRun<W>
    requires { IfErr answer (IsAmongRenames (length words.now)) }
    ensures settled { IsSettledAs answer
        (writer_contents (λ pipe. W.contents pipe.writer) (writer_of output)) (W.contents result.pipe.writer)
        result.ending }
    ensures counted { result.failures ≡ failed_writes output }
    ensures quiet { IsQuietIfClosed result }
{
    match answer {
        Ok(()) => settled(Ok(()), output),
        Err(ConvertFault::Run(fault)) => settled(Err(fault), output),
        Err(ConvertFault::Clash(clash)) => clashed(alloc, &clash, output),
        Err(ConvertFault::Full(reason)) => stopped(told(full_line(alloc, reason)), output),
        Err(ConvertFault::Misfits { number, misfit }) => {
            stopped(told(misfit_line(alloc, words[number], misfit)), output)
        }
    }
}

// What comes of a run that a clash stopped: it is told, unless bytes that were written are lost.
fn clashed<W: Write + Drop>(
    alloc: Global,
    clash: &Clash,
    output: Output<BufWriter<Pipe<W>>>,
) -> AfterRun<W>
    ensures settled { IsClashed clash.now (writer_contents (λ pipe. W.contents pipe.writer) (writer_of output))
        (W.contents result.pipe.writer) result.ending }
    ensures counted { result.failures ≡ failed_writes output }
    ensures quiet { IsQuietIfClosed result }
{
    let AfterRun {
        ending,
        pipe,
        failures,
    } = settled(Ok(()), output);
    AfterRun {
        ending: ended_at(alloc, clash, ending),
        pipe,
        failures,
    }
}

// How the program ends at a clash, where it would have ended so without one.
fn ended_at(alloc: Global, clash: &Clash, ending: Result<(), Exit>) -> Result<(), Exit>
    ensures clash { ending ≡ Ok tt → IsErrAnd result (TellsClash clash.now) }
    ensures other { IfErr ending (λ stop. result ≡ Err stop) }
{
    match ending {
        Ok(()) => Err(clash_told(alloc, clash)),
        Err(stop) => Err(stop),
    }
}

// What stops the program at a clash.
fn clash_told(alloc: Global, clash: &Clash) -> Exit
    ensures { TellsClash clash.now result }
{
    match clash_line(alloc, clash) {
        Ok(line) => Exit::Lines(line),
        Err(_) => Exit::Run(ToolFault::Memory),
    }
}

// The line of a clash: its path has names of the stream.
fn clash_line(alloc: Global, clash: &Clash) -> Result<String, AllocError>
    ensures { IfOk result (λ line. IsClashLine clash.now (string_bytes line)) }
{
    let line = format!(in alloc; "gob: {clash}")?;
    escaped(alloc, line.as_str())
}

// What comes of a run that is stopped so, though nothing failed.
fn stopped<W: Write + Drop>(stop: Exit, output: Output<BufWriter<Pipe<W>>>) -> AfterRun<W>
    requires { TellsWord stop }
    ensures settled { IsStopped (writer_contents (λ pipe. W.contents pipe.writer) (writer_of output))
        (W.contents result.pipe.writer) result.ending }
    ensures counted { result.failures ≡ failed_writes output }
    ensures quiet { IsQuietIfClosed result }
{
    let after = settled(Ok(()), output);
    AfterRun {
        ending: Err(stop),
        pipe: after.pipe,
        failures: after.failures,
    }
}

// How a conversion that ended so ends the program: the path of a fault has names of the stream, so it is told in
// characters of which a terminal obeys none.
fn shown(alloc: Global, ending: Result<(), Exit>) -> Result<(), Exit>
    ensures { IsShown ending result }
{
    match ending {
        Ok(()) => Ok(()),
        Err(stop) => Err(stop_shown(alloc, stop)),
    }
}

// What stops the program in place of this.
fn stop_shown(alloc: Global, stop: Exit) -> Exit
    ensures { IsStopShown stop result }
{
    match stop {
        Exit::Run(fault) => fault_shown(alloc, fault),
        stop => stop,
    }
}

// What stops the program where this stopped the run.
fn fault_shown(alloc: Global, fault: ToolFault) -> Exit
    ensures { IsFaultShown fault result }
{
    if !has_path(&fault) {
        return Exit::Run(fault);
    }
    match shown_line(alloc, &fault) {
        Ok(line) => Exit::Lines(line),
        Err(_) => Exit::Run(ToolFault::Memory),
    }
}

// Whether the line of the fault has names of the stream.
fn has_path(fault: &ToolFault) -> bool
    ensures { IsTrue result ↔ HasPath fault.now }
{
    matches!(fault, ToolFault::Clash { .. } | ToolFault::LeftOut { .. })
}

// The line of the fault.
fn shown_line(alloc: Global, fault: &ToolFault) -> Result<String, AllocError>
    ensures { IfOk result (λ line. IsShownLine fault.now (string_bytes line)) }
{
    let line = fault.to_string(alloc)?;
    escaped(alloc, line.as_str())
}

// What ends the program where this is wrong with a word.
fn told(line: Result<String, AllocError>) -> Exit
    requires { IfOk line (λ line. IsUnobeyed (string_bytes line)) }
    ensures { TellsWord result }
{
    match line {
        Ok(line) => Exit::View(line),
        Err(_) => Exit::Run(ToolFault::Memory),
    }
}

// Says in clap's words that what was given for `--rename` says nothing of a field.
fn word_line(alloc: Global, word: &str, fault: WordFault) -> Result<String, AllocError>
    ensures { IfOk result (λ line. IsUnobeyed (string_bytes line)) }
{
    let why = WordText(fault);
    let line = format!(in alloc; "invalid value '{word}' for '--rename <OLD=NEW>': {why}")?;
    escaped(alloc, line.as_str())
}

// Says why no more goes into the stream that is written.
fn full_line(alloc: Global, reason: Reason) -> Result<String, AllocError>
    ensures { IfOk result (λ line. IsUnobeyed (string_bytes line)) }
{
    let line = format!(in alloc; "no more goes into one stream: {reason}")?;
    escaped(alloc, line.as_str())
}

// Says why a word doesn't fit the wanted types.
fn misfit_line(alloc: Global, word: &str, misfit: Misfit) -> Result<String, AllocError>
    ensures { IfOk result (λ line. IsUnobeyed (string_bytes line)) }
{
    let why = MisfitText { word, misfit };
    let line = format!(in alloc; "--rename {why}")?;
    escaped(alloc, line.as_str())
}

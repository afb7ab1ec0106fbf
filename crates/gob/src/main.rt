//! The program `gob`: shows and checks gob streams.
//!
//! `gob show [IN]` reads the file IN, or standard input without one, and prints a line of JSON for each item on
//! standard output. `gob check [IN]` prints one line that says how much there is in a whole stream, and `gob rewrite
//! [IN]` writes the stream without the fields that are zero.
//! `gob take WANTED [IN]` receives each value of IN as one of the type of the first value in the file WANTED, and
//! prints a line for each, and with `--go` the lines of what `gob convert` writes; `gob convert WANTED [IN]` writes the
//! stream of what is received, by `--rename` also of fields that have other names in IN. `gob values [IN]` prints each
//! value as plain JSON, `gob types [IN]` the types as Go source, `gob why [IN]` why IN is refused or how much is in it,
//! `gob explain [IN]` the bytes row by row, and `gob version` the version. `gob verify FILE..` prints a line for each
//! file that says whether it is a whole stream.
//! `gob write [LINES]` writes the stream that lines of `gob show` say, and `gob make --types TYPES [JSON]` that of the
//! values that plain JSON says.
//! `gob split IN DIR` writes IN as files of the directory DIR, each a whole stream, and `gob join FILE..` the values of
//! the files as one stream.
//! `gob salvage [IN]` writes what isn't damaged of IN, and says on standard error what is left out, as `--salvage` of
//! `values`, `types` and `show` does of what they print; `gob salvage --types GOOD [IN]` does so under the types of the
//! stream GOOD too.
//! `gob help` says the rest. Where the program stops at a fault, it prints a line on standard error, but none where
//! `why` has said it on standard output, and behind a refusal of another view's file what to type. Its exit status is 0
//! for a whole stream and for help, 1 for an input that is no stream, that is damaged or has values that don't match,
//! and 2 for all else.
#![tactic(auto)]

ghost use Rattle.std.specs.Prelude.{◌≡◌, ◌≢◌, ℕ, List, [], Some, IfOk, IsErrAnd, IsTrue, MatchResult, string_bytes};
ghost use Rattle.std.specs.Io.Buffered.{writer_contents};
ghost use Rattle.std.specs.Io.KnownBytes.{append_known};
ghost use Rattle.std.specs.Process.{exit_status};
ghost use Rattle.gob_stream.specs.Calls.Ends.{failed_writes, writer_of};
ghost use Rattle.gob_tool.specs.declared.fault.ToolFault.TheVariants as fault;
ghost use Rattle.gob_words.specs.Escaped.{IsUnobeyed};
ghost use Rattle.gob.specs.Exit.{stop_status, ending_status, HasAnswered, EndsRun, EndsView, IsAnswered, IsSettled};
ghost use Rattle.gob.specs.Exit.{IsQuietIfClosed, IsToldOnce, IsUnopened, seen_after, seen_of, unused};

mod appended;
mod asked;
mod convert;
mod encoders;
mod join;
mod kept;
mod opening;
mod part_files;
mod pipe;
mod progress;
mod salvage;
mod split;
mod types;
mod verdict;
mod verify;
mod way_on;
mod why;
mod write;

use crate::appended::{in_input, leaves_out};
use crate::asked::{Asked, asked_by};
use crate::convert::{convert, take_go};
use crate::join::join;
use crate::opening::open;
use crate::pipe::Pipe;
use crate::progress::{size_of, watched};
use crate::salvage::salvage;
use crate::split::split;
use crate::verdict::Verdict;
use crate::verify::verify;
use crate::way_on::with_way_on;
use crate::why::why;
use crate::write::{make, write};
use gob_appended::Appended;
use gob_progress::Watched;
use gob_salvage::{Salvaged, report};
use gob_stream::{Input, Output};
use gob_tool::{ToolFault, run_order, status};
use gob_views::run_view;
use gob_words::{
    Chosen, Order, OrderFault, View, ViewCommand, ViewFault, escaped, numbers_are_texts,
};
use json_number_texts::LinesOut;
use std::alloc::{AllocError, Global};
use std::fs::File;
use std::io::{BufWriter, ErrorKind, Read, Stderr, Write};
use std::process::ExitCode;
use std::{env, fmt, io};

// How many bytes of output wait before they are written.
const BLOCK: usize = 65536;

// What ends the program with a line on standard error.
#[derive(Drop)]
enum Exit {
    Words(OrderFault),
    Run(ToolFault),
    // A refusal whose line is on standard output already.
    Told(ToolFault),
    // What is wrong with the words of a view, or with the file that they name.
    View(String),
    // A refusal of the file of a view, and what to type to learn more.
    RefusedFile(ToolFault, String),
    // What is told of an input of which something was left out.
    LeftOut(String),
    // What is wrong with lines, with the stream that they say, or with a value that is to be converted.
    Lines(String),
    // What was said of the worst of the files that were verified.
    Verified(Verdict),
    // Nobody reads what is written any more.
    Unread,
}

// What came of a run: how it ends the program, the writer as it left it, and how many of its writes and flushes failed.
#[derive(Drop)]
struct AfterRun<W> {
    ending: Result<(), Exit>,
    pipe: Pipe<W>,
    failures: u64,
}

impl Exit {
    fn status(&self) -> u8
        ensures { result ≡ stop_status self.now }
    {
        match self {
            Exit::Words(fault) => fault.status(),
            Exit::Run(fault) | Exit::Told(fault) | Exit::RefusedFile(fault, _) => status(fault),
            Exit::LeftOut(_) | Exit::Lines(_) => 1,
            Exit::Verified(verdict) => verdict.status(),
            Exit::View(_) | Exit::Unread => 2,
        }
    }
}

impl fmt::Display for Exit {
    ghost use Rattle.std.specs.Prelude.{Some};
    ghost use Rattle.gob.specs.Exit.{stop_line};

    ghost output = { λ stop. Some (stop_line stop) };

    fn fmt<W: fmt::Write>(&self, f: &mut fmt::Formatter<W>) -> fmt::Result {
        match self {
            Exit::Words(fault) => write!(f, "{fault}"),
            Exit::Run(fault) | Exit::Told(fault) => write!(f, "{fault}"),
            Exit::View(line) => write!(f, "gob: {line}"),
            Exit::RefusedFile(fault, line) => write!(f, "{fault}\n{line}"),
            Exit::LeftOut(report) => f.write_str(report.as_str()),
            Exit::Lines(line) => f.write_str(line.as_str()),
            Exit::Verified(_) => Ok(()),
            Exit::Unread => write!(f, "gob: write fault"),
        }
    }
}

impl From<AllocError> for Exit {
    ghost use Rattle.std.specs.Prelude.{◌≡◌};
    ghost use Rattle.gob.specs.declared.Exit.TheVariants.{Run};
    ghost use Rattle.gob_tool.specs.declared.fault.ToolFault.TheVariants as fault;

    ghost from_gives = { λ _ stop. stop ≡ Run fault.Memory };

    fn from(_: AllocError) -> Exit {
        Exit::Run(ToolFault::Memory)
    }
}

fn main(rt: HostRuntime) -> ExitCode {
    end(&rt, run(&rt))
}

// Tells what stopped the run, and gives the exit status.
fn end(rt: &HostRuntime, ending: Result<(), Exit>) -> ExitCode
    ensures { exit_status result ≡ ending_status ending }
{
    match ending {
        Ok(()) => ExitCode::SUCCESS,
        // Whoever closed the pipe has what they wanted, so nothing is said.
        Err(Exit::Unread) => ExitCode::from(Exit::Unread.status()),
        Err(Exit::Told(fault)) => ExitCode::from(status(&fault)),
        // Each file has its line on standard output.
        Err(Exit::Verified(verdict)) => ExitCode::from(verdict.status()),
        Err(stop) => {
            // Where standard error takes no line, the status still tells.
            let _ = eprintln!(rt; "{stop}");
            ExitCode::from(stop.status())
        }
    }
}

// Judges the words, and does what they ask for.
fn run(rt: &HostRuntime) -> Result<(), Exit> {
    let words = words_of(rt)?;
    let names = words
        .iter()
        .map(|word| word.as_str())
        .collect::<Vec<&str>>(rt.alloc())?;
    match asked_by(rt.alloc(), &names) {
        Ok(Asked::Order(order)) if order.command == Chosen::Show => show(rt, &order, &names),
        Ok(Asked::Order(order)) if order.command == Chosen::Convert => convert(rt, &order, &names),
        Ok(Asked::Order(order)) => run_for(rt, &order),
        Ok(Asked::GoTaking(order)) => take_go(rt, &order),
        Ok(Asked::View(view)) if view.command == ViewCommand::Why => why(rt, &view),
        Ok(Asked::View(view)) if view.command == ViewCommand::Write => write(rt, &view),
        Ok(Asked::View(view)) if view.command == ViewCommand::Salvage => salvage(rt, &view, &names),
        Ok(Asked::View(view)) => run_view_on(rt, &view, &names),
        Ok(Asked::Made(view, making)) => make(rt, &view, &making),
        Ok(Asked::Parts(view, splitting)) => split(rt, &view, &splitting),
        Ok(Asked::Files(view, files)) if view.command == ViewCommand::Join => {
            join(rt, &view, &files)
        }
        Ok(Asked::Files(view, files)) => verify(rt, &view, &files),
        Err(ViewFault::Order(fault)) => answer(rt, fault),
        Err(ViewFault::Word(line)) => Err(Exit::View(line)),
    }
}

// Prints the help that was asked for; any other fault of the words stops the program.
fn answer(rt: &HostRuntime, fault: OrderFault) -> Result<(), Exit>
    ensures { IsAnswered fault result }
{
    match fault {
        OrderFault::Help(text) => printed(println!(rt; "{text}")),
        OrderFault::Words => Err(Exit::Words(OrderFault::Words)),
        OrderFault::Memory => Err(Exit::Words(OrderFault::Memory)),
    }
}

// Help that isn't printed is a failed write.
fn printed(written: io::Result<()>) -> Result<(), Exit>
    ensures { MatchResult written (λ _. result ≡ Ok tt) (λ _. result ≡ Err (Exit.Run fault.Write)) }
{
    written.map_err(|_| Exit::Run(ToolFault::Write))
}

// Shows a stream, with texts in place of the numbers of its lines where the words ask for that.
fn show<'a>(rt: &HostRuntime, order: &Order, names: &'a [&'a str]) -> Result<(), Exit> {
    let texts = numbers_as_text(rt.alloc(), names)?;
    run_on(rt, order, b"".as_slice(), texts)
}

// Whether the words ask for texts in place of numbers.
fn numbers_as_text<'a>(alloc: Global, names: &'a [&'a str]) -> Result<bool, Exit> {
    numbers_are_texts(alloc, names).map_err(|fault| Exit::Words(fault))
}

// Opens the file that has the wanted type, if the command wants one.
fn run_for(rt: &HostRuntime, order: &Order) -> Result<(), Exit> {
    match order.wanted {
        None => run_on(rt, order, b"".as_slice(), false),
        Some(path) => {
            let wanted = opened(File::open(rt, path))?;
            run_on(rt, order, wanted, false)
        }
    }
}

// Opens the input, then runs, with texts in place of the numbers of its lines or without.
fn run_on<Q: Read + Drop>(
    rt: &HostRuntime,
    order: &Order,
    wanted: Q,
    texts: bool,
) -> Result<(), Exit> {
    let writer = buffered(rt.alloc(), LinesOut::new(rt.alloc(), rt.stdout(), texts)?)?;
    let mut wanted = Input::new(wanted);
    match order.input {
        None => {
            let mut input = Input::new(rt.stdin());
            carry_out(rt.alloc(), order, &mut wanted, &mut input, writer).ending
        }
        Some(path) => {
            let mut input = Input::new(opened(File::open(rt, path))?);
            carry_out(rt.alloc(), order, &mut wanted, &mut input, writer).ending
        }
    }
}

// Opens the input of a view, then shows it, as these words ask.
fn run_view_on<'a>(rt: &HostRuntime, view: &View, names: &'a [&'a str]) -> Result<(), Exit> {
    let texts = view.command == ViewCommand::ShowGo && numbers_as_text(rt.alloc(), names)?;
    let writer = buffered(rt.alloc(), LinesOut::new(rt.alloc(), rt.stdout(), texts)?)?;
    let mut told = None;
    let ending = match view.input {
        None => show_watched(rt, view, rt.stdin(), None, writer, &mut told),
        Some(path) => {
            let file = opened_by_name(rt.alloc(), path, open(rt, path))?;
            let size = size_of(&file);
            show_watched(rt, view, file, size, writer, &mut told)
        }
    };
    with_way_on(rt.alloc(), view, ending)?;
    match told {
        Some(kept) => tell(rt, &kept),
        None => Ok(()),
    }
}

// Shows the view of a reader of so many bytes, where that is known, and tells how far it is if that is asked for.
fn show_watched<R: Read + Drop, W: Write + Drop>(
    rt: &HostRuntime,
    view: &View,
    reader: R,
    size: Option<u64>,
    writer: BufWriter<Pipe<W>>,
    told: &mut Option<Salvaged>,
) -> Result<(), Exit> {
    let reader = watched(rt, reader, size, view.progress);
    if leaves_out(view) {
        return show_appended(rt, view, reader, writer, told);
    }
    let mut input = Input::new(reader);
    let ending = show_out(rt.alloc(), view, &mut input, writer, told).ending;
    input.into_inner().end();
    ending
}

// Shows it without the definitions that are said again, and tells a refusal by the offsets of all that was read.
fn show_appended<R: Read + Drop, W: Write + Drop>(
    rt: &HostRuntime,
    view: &View,
    reader: Watched<'_, R, Stderr, HostRuntime>,
    writer: BufWriter<Pipe<W>>,
    told: &mut Option<Salvaged>,
) -> Result<(), Exit> {
    let mut input = Input::new(Appended::new(rt.alloc(), reader)?);
    let ending = show_out(rt.alloc(), view, &mut input, writer, told).ending;
    let appended = input.into_inner();
    let ending = in_input(&appended, ending);
    appended.into_inner().end();
    ending
}

// How the run of `why` ends the program: where it has said why the input is refused, no line says it once more.
fn told_once(ending: Result<(), Exit>) -> Result<(), Exit>
    ensures status { ending_status result ≡ ending_status ending }
    ensures why { IsToldOnce ending result }
{
    match ending {
        Err(Exit::Run(ToolFault::Refused(refusal))) => {
            Err(Exit::Told(ToolFault::Refused(refusal)))
        }
        other => other,
    }
}

// Tells what was kept of an input and what was left out: where that is damaged bytes, this stops the program.
fn tell(rt: &HostRuntime, kept: &Salvaged) -> Result<(), Exit> {
    let text = report(rt.alloc(), kept)?;
    if kept.is_damaged() {
        return Err(Exit::LeftOut(text));
    }
    // Where standard error takes no line, the status still tells.
    let _ = eprintln!(rt; "{text}");
    Ok(())
}

// A run writes line by line, and each write to the system is dear.
fn buffered<W: Write + Drop>(alloc: Global, writer: W) -> Result<BufWriter<Pipe<W>>, Exit>
    ensures { IfOk result (λ buffered.
        writer_contents (λ pipe. W.contents pipe.writer) buffered ≡ append_known (W.contents writer) []) }
{
    match BufWriter::with_capacity(alloc, BLOCK, Pipe::new(writer)) {
        Ok(buffered) => Ok(buffered),
        Err(_) => Err(Exit::Run(ToolFault::Memory)),
    }
}

// The words of the command line. One that isn't UTF-8 is none that the program knows.
fn words_of(rt: &HostRuntime) -> Result<Vec<String>, Exit> {
    match env::args(rt) {
        Ok(words) => Ok(words.collect(rt.alloc())?),
        Err(error) if error.kind() == ErrorKind::OutOfMemory => Err(Exit::Run(ToolFault::Memory)),
        Err(_) => Err(Exit::Words(OrderFault::Words)),
    }
}

// A file that isn't opened is one that isn't read.
fn opened(file: io::Result<File>) -> Result<File, Exit>
    ensures { MatchResult file (λ file. result ≡ Ok file) (λ _. result ≡ Err (Exit.Run fault.Read)) }
{
    file.map_err(|_| Exit::Run(ToolFault::Read))
}

// A view's file that isn't opened is told by its name, with the reason.
fn opened_by_name(alloc: Global, path: &str, file: io::Result<File>) -> Result<File, Exit>
    ensures { MatchResult file (λ file. result ≡ Ok file) (λ _. IsErrAnd result IsUnopened) }
{
    match file {
        Ok(file) => Ok(file),
        Err(error) => match unopened_line(alloc, path, &error) {
            Ok(line) => Err(Exit::View(line)),
            Err(_) => Err(Exit::Run(ToolFault::Memory)),
        },
    }
}

// What is said of it.
fn unopened_line(alloc: Global, path: &str, error: &io::Error) -> Result<String, AllocError>
    ensures { IfOk result (λ line. IsUnobeyed (string_bytes line)) }
{
    let line = format!(in alloc; "{path}: {error}")?;
    escaped(alloc, line.as_str())
}

// The run reads in large pieces, so that nothing need be kept between it and the readers. The writer is given back, as
// the run left it: no buffer is dropped that would write again behind a failed write.
fn carry_out<Q: Read, R: Read, W: Write + Drop>(
    alloc: Global,
    order: &Order,
    wanted: &mut Input<Q>,
    input: &mut Input<R>,
    writer: BufWriter<Pipe<W>>,
) -> AfterRun<W>
    ensures ends { EndsRun order.now (seen_of Q.remaining wanted.old) (seen_of Q.remaining wanted.new)
        (seen_of R.remaining input.old) (seen_of R.remaining input.new)
        (unused (writer_contents (λ pipe. W.contents pipe.writer) writer)) (seen_after W.contents result)
        result.ending }
    ensures quiet { IsQuietIfClosed result }
{
    let mut output = Output::new(writer);
    let answer = run_order(alloc, order, wanted, input, &mut output);
    settled(answer, output)
}

// The run of a view, as that of an order.
fn show_out<R: Read, W: Write + Drop>(
    alloc: Global,
    view: &View,
    input: &mut Input<R>,
    writer: BufWriter<Pipe<W>>,
    told: &mut Option<Salvaged>,
) -> AfterRun<W>
    ensures ends { EndsView view.now (seen_of R.remaining input.old) (seen_of R.remaining input.new)
        (unused (writer_contents (λ pipe. W.contents pipe.writer) writer)) (seen_after W.contents result)
        result.ending }
    ensures quiet { IsQuietIfClosed result }
{
    let mut output = Output::new(writer);
    let answer = run_view(alloc, view, input, &mut output, told);
    settled(answer, output)
}

// What comes of a run that answered this, with the writer behind what it wrote to.
fn settled<W: Write + Drop>(
    answer: Result<(), ToolFault>,
    output: Output<BufWriter<Pipe<W>>>,
) -> AfterRun<W>
    ensures settled { IsSettled answer
        (writer_contents (λ pipe. W.contents pipe.writer) (writer_of output)) (W.contents result.pipe.writer)
        result.ending }
    ensures counted { result.failures ≡ failed_writes output }
    ensures quiet { IsQuietIfClosed result }
{
    let failures = output.failures();
    let (pipe, unwritten) = output.into_inner().into_parts();
    let answer = but_for_lost(answer, &unwritten);
    let ending = ended(answer, pipe.is_closed());
    AfterRun {
        ending,
        pipe,
        failures,
    }
}

// What a run has answered: a failed write where bytes of it were lost, whatever stopped it.
fn but_for_lost(answer: Result<(), ToolFault>, lost: &[u8]) -> Result<(), ToolFault>
    ensures whole { lost.now ≡ [] → result ≡ answer }
    ensures cut { lost.now ≢ [] → result ≡ Err fault.Write }
{
    if lost.is_empty() {
        return answer;
    }
    Err(ToolFault::Write)
}

// What ends the program behind a run that answered this.
fn ended(answer: Result<(), ToolFault>, is_unread: bool) -> Result<(), Exit>
    ensures answered { HasAnswered answer result }
    ensures unread { result ≡ Err Exit.Unread → IsTrue is_unread }
{
    match answer {
        Ok(()) => Ok(()),
        Err(ToolFault::Write) if is_unread => Err(Exit::Unread),
        Err(fault) => Err(Exit::Run(fault)),
    }
}

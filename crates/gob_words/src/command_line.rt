//! The commands, options and files that the words can name, for clap, which reads the words and shows help.

ghost use Rattle.std.specs.Prelude.{◌≡◌, IfOk, codes, false};
ghost use Rattle.clap.specs.Words.{App, Rule, app_of, new_app, rule_of, with_rule, with_subcommand};
ghost use Rattle.clap.specs.declared.builder.Command.TheViews.{out-Command};
ghost use Rattle.gob_words.specs.Words.{bare_program, files_rule, flag_rule, kinds_rule, needed_rule, option_rule};
ghost use Rattle.gob_words.specs.Words.{check, convert, explain, join, make, people_program, program, renames_rule};
ghost use Rattle.gob_words.specs.Words.{rewrite, salvage, show, split};
ghost use Rattle.gob_words.specs.Words.{one_stream, take, two_streams, types, values, verify, write};
ghost use Rattle.gob_words.specs.Words.{with_elements, with_flags, with_go, with_go_flags, with_input, with_made};
ghost use Rattle.gob_words.specs.Words.{with_options, with_parts, with_progress, with_salvage, with_sizes, with_types};

use crate::help;
use clap::{Arg, ArgAction, Command};
use std::alloc::{AllocError, Global};

// A command that is being made: it takes memory. Each call here passes a fault on, so that no command is dropped but
// in two of them.
type Built<'a> = Result<Command<'a>, AllocError>;

// What help calls the number of an option.
const NUMBER: &str = "N";

/// The program, with its commands: behind those for people the ones that write exactly what a stream has.
pub(crate) fn program<'a>(alloc: Global) -> Built<'a>
    ensures { IfOk result (λ command. app_of command ≡ program) }
{
    let showing = with_command(people_program(alloc), show(alloc));
    let checking = with_command(showing, check(alloc));
    let rewriting = with_command(checking, rewrite(alloc));
    let taking = with_command(rewriting, take(alloc));
    let converting = with_command(taking, convert(alloc));
    let writing = with_command(converting, write(alloc));
    let making = with_command(writing, make(alloc));
    with_command(making, version(alloc))
}

// The program with the commands for people.
fn people_program<'a>(alloc: Global) -> Built<'a>
    ensures { IfOk result (λ command. app_of command ≡ people_program) }
{
    let valuing = with_command(bare_program(alloc), values(alloc));
    let typing = with_command(valuing, types(alloc));
    let why = one_stream(alloc, "why", help::WHY);
    let telling = with_command(typing, why);
    let explaining = with_command(telling, explain(alloc));
    let verifying = with_command(explaining, verify(alloc));
    let salvaging = with_command(verifying, salvage(alloc));
    let splitting = with_command(salvaging, split(alloc));
    with_command(splitting, join(alloc))
}

// The program without a command.
fn bare_program<'a>(alloc: Global) -> Built<'a>
    ensures { IfOk result (λ command. app_of command ≡ bare_program) }
{
    Ok(
        Command::new(alloc, "gob")
            .about(help::PROGRAM)
            .version(help::VERSION)
            .after_help(help::USE)
            .subcommand_required(true),
    )
}

// The command that prints the version.
fn version<'a>(alloc: Global) -> Built<'a>
    ensures app { IfOk result (λ command. app_of command ≡ new_app (codes "version")) }
    ensures local { IfOk result (λ command. (out-Command command).has_globals ≡ false) }
{
    Ok(Command::new(alloc, "version").about(help::NAME_AND_VERSION))
}

// The command that shows values, with its options behind those that other commands have too.
fn values<'a>(alloc: Global) -> Built<'a>
    ensures app { IfOk result (λ command. app_of command ≡ values) }
    ensures local { IfOk result (λ command. (out-Command command).has_globals ≡ false) }
{
    let options = with_options(alloc, "values", help::VALUES, help::DEPTH);
    let typed = with_types(alloc, with_flags(alloc, options));
    let spread = with_elements(alloc, typed);
    with_input(alloc, with_salvage(alloc, spread), help::FILE)
}

// The command that shows types, with the flag for a program behind the options that other commands have too.
fn types<'a>(alloc: Global) -> Built<'a>
    ensures app { IfOk result (λ command. app_of command ≡ types) }
    ensures local { IfOk result (λ command. (out-Command command).has_globals ≡ false) }
{
    let options = with_options(alloc, "types", help::TYPES, help::DEPTH);
    let flagged = with_flag(alloc, options, "main", help::MAIN);
    let telling = with_progress(alloc, flagged, help::PROGRESS);
    with_input(alloc, with_salvage(alloc, telling), help::FILE)
}

// The command that reads some streams, with their names behind the options.
fn verify<'a>(alloc: Global) -> Built<'a>
    ensures app { IfOk result (λ command. app_of command ≡ verify) }
    ensures local { IfOk result (λ command. (out-Command command).has_globals ≡ false) }
{
    let options = with_options(alloc, "verify", help::VERIFY, help::DEPTH);
    with_files(alloc, with_progress(alloc, options, help::PROGRESS))
}

// The command that joins some streams, with their names behind the options.
fn join<'a>(alloc: Global) -> Built<'a>
    ensures app { IfOk result (λ command. app_of command ≡ join) }
    ensures local { IfOk result (λ command. (out-Command command).has_globals ≡ false) }
{
    with_files(alloc, with_options(alloc, "join", help::JOIN, help::DEPTH))
}

// The command with the names of one or more streams.
fn with_files<'a>(alloc: Global, command: Built<'a>) -> Built<'a>
    requires { IfOk command (λ made. (out-Command made).has_globals ≡ false) }
    ensures app { (app : App) → IfOk command.entry (λ made. app_of made ≡ app)
        → IfOk result (λ more. app_of more ≡ with_rule app files_rule) }
    ensures local { IfOk result (λ more. (out-Command more).has_globals ≡ false) }
{
    with_arg(command, files(alloc))
}

// The names of one or more streams.
fn files<'a>(alloc: Global) -> Arg<'a>
    ensures rule { rule_of result ≡ files_rule }
    ensures local { result.global ≡ false }
{
    needed(alloc, "FILE", help::FILES).action(ArgAction::Append)
}

// The command that splits a stream, with the options for the size of a part and the directory behind the stream.
fn split<'a>(alloc: Global) -> Built<'a>
    ensures app { IfOk result (λ command. app_of command ≡ split) }
    ensures local { IfOk result (λ command. (out-Command command).has_globals ≡ false) }
{
    let options = with_options(alloc, "split", help::SPLIT, help::DEPTH);
    let sized = with_sizes(alloc, options);
    let reading = with_arg(sized, needed(alloc, "IN", help::SPLIT_INPUT));
    with_arg(reading, needed(alloc, "DIR", help::DIRECTORY))
}

// The command with the options for the size of a part.
fn with_sizes<'a>(alloc: Global, command: Built<'a>) -> Built<'a>
    requires { IfOk command (λ made. (out-Command made).has_globals ≡ false) }
    ensures app { (app : App) → IfOk command.entry (λ made. app_of made ≡ app)
        → IfOk result (λ more. app_of more ≡ with_sizes app) }
    ensures local { IfOk result (λ more. (out-Command more).has_globals ≡ false) }
{
    let sized = with_arg(command, option(alloc, "size", "SIZE", help::SIZE));
    with_arg(sized, option(alloc, "values", NUMBER, help::PART_VALUES))
}

// A file that a command can't do without.
fn needed<'a>(alloc: Global, name: &'a str, about: &'a str) -> Arg<'a>
    ensures rule { rule_of result ≡ needed_rule name.now }
    ensures local { result.global ≡ false }
{
    Arg::new(alloc, name).required(true).help(about)
}

// The command that writes the stream of lines, with the flag for those of `show --go` and the option for long ones.
fn write<'a>(alloc: Global) -> Built<'a>
    ensures app { IfOk result (λ command. app_of command ≡ write) }
    ensures local { IfOk result (λ command. (out-Command command).has_globals ≡ false) }
{
    let options = with_options(alloc, "write", help::WRITE, help::DEPTH);
    let flagged = with_flag(alloc, options, "go", help::GO_LINES);
    with_input(alloc, with_line(alloc, flagged), help::LINES)
}

// The command that writes the stream of plain JSON, with the options for its types and lines.
fn make<'a>(alloc: Global) -> Built<'a>
    ensures app { IfOk result (λ command. app_of command ≡ make) }
    ensures local { IfOk result (λ command. (out-Command command).has_globals ≡ false) }
{
    let options = with_options(alloc, "make", help::MAKE, help::DEPTH);
    let measured = with_line(alloc, options);
    with_input(alloc, with_made(alloc, measured), help::PLAIN)
}

// The command with the option for the greatest length of a line.
fn with_line<'a>(alloc: Global, command: Built<'a>) -> Built<'a>
    requires { IfOk command (λ made. (out-Command made).has_globals ≡ false) }
    ensures app { (app : App) → IfOk command.entry (λ made. app_of made ≡ app)
        → IfOk result (λ more. app_of more ≡ with_rule app (option_rule (codes "line"))) }
    ensures local { IfOk result (λ more. (out-Command more).has_globals ≡ false) }
{
    with_arg(command, option(alloc, "line", NUMBER, help::LINE))
}

// The command with the options that say of which type the values are, and whether members may have no field.
fn with_made<'a>(alloc: Global, command: Built<'a>) -> Built<'a>
    requires { IfOk command (λ made. (out-Command made).has_globals ≡ false) }
    ensures app { (app : App) → IfOk command.entry (λ made. app_of made ≡ app)
        → IfOk result (λ more. app_of more ≡ with_made app) }
    ensures local { IfOk result (λ more. (out-Command more).has_globals ≡ false) }
{
    let typed = with_arg(command, option(alloc, "types", "TYPES", help::MADE_TYPES));
    let named = with_arg(typed, option(alloc, "type", "NAME", help::MADE_TYPE));
    with_flag(alloc, named, "lenient", help::LENIENT)
}

// The command that keeps what isn't damaged, with the option for the file that has types.
fn salvage<'a>(alloc: Global) -> Built<'a>
    ensures app { IfOk result (λ command. app_of command ≡ salvage) }
    ensures local { IfOk result (λ command. (out-Command command).has_globals ≡ false) }
{
    let reading = one_stream(alloc, "salvage", help::SALVAGE);
    with_arg(reading, option(alloc, "types", "GOOD", help::GOOD))
}

// The command that shows values of a wanted type, with the flag for which it shows what `convert` writes.
fn take<'a>(alloc: Global) -> Built<'a>
    ensures app { IfOk result (λ command. app_of command ≡ take) }
    ensures local { IfOk result (λ command. (out-Command command).has_globals ≡ false) }
{
    let wanting = two_streams(alloc, "take", help::TAKE, help::WANTED);
    with_flag(alloc, wanting, "go", help::GO_TAKEN)
}

// The command that writes values of a wanted type, with the flag for values all of whose fields are wanted.
fn convert<'a>(alloc: Global) -> Built<'a>
    ensures app { IfOk result (λ command. app_of command ≡ convert) }
    ensures local { IfOk result (λ command. (out-Command command).has_globals ≡ false) }
{
    let wanting = two_streams(alloc, "convert", help::CONVERT, help::WANTED_OR_SOURCE);
    let renaming = with_arg(wanting, renames(alloc));
    with_flag(alloc, renaming, "all", help::ALL)
}

// The option that says which field has another name: of several fields where it is given several times.
fn renames<'a>(alloc: Global) -> Arg<'a>
    ensures rule { rule_of result ≡ renames_rule }
    ensures local { result.global ≡ false }
{
    option(alloc, "rename", "OLD=NEW", help::RENAME).action(ArgAction::Append)
}

// The command that explains bytes, with a flag and an option behind those that other commands have too.
fn explain<'a>(alloc: Global) -> Built<'a>
    ensures app { IfOk result (λ command. app_of command ≡ explain) }
    ensures local { IfOk result (λ command. (out-Command command).has_globals ≡ false) }
{
    let options = with_options(alloc, "explain", help::EXPLAIN, help::DEPTH);
    with_input(alloc, with_parts(alloc, options), help::FILE)
}

// The command that writes a stream anew, with the flags for Go's encoder behind the options that other commands have.
fn rewrite<'a>(alloc: Global) -> Built<'a>
    ensures app { IfOk result (λ command. app_of command ≡ rewrite) }
    ensures local { IfOk result (λ command. (out-Command command).has_globals ≡ false) }
{
    let options = with_options(alloc, "rewrite", help::REWRITE, help::DEPTH_WITH_GO);
    with_input(alloc, with_go_flags(alloc, options), help::INPUT)
}

// The command that shows items.
fn show<'a>(alloc: Global) -> Built<'a>
    ensures app { IfOk result (λ command. app_of command ≡ show) }
    ensures local { IfOk result (λ command. (out-Command command).has_globals ≡ false) }
{
    let flagged = with_go(alloc, "show", help::SHOW, help::DEPTH);
    let kept = with_salvage(alloc, flagged);
    let quoting = with_flag(alloc, kept, "numbers-as-text", help::NUMBERS_AS_TEXT);
    with_input(alloc, quoting, help::INPUT)
}

// The command that counts items.
fn check<'a>(alloc: Global) -> Built<'a>
    ensures app { IfOk result (λ command. app_of command ≡ check) }
    ensures local { IfOk result (λ command. (out-Command command).has_globals ≡ false) }
{
    let flagged = with_go(alloc, "check", help::CHECK, help::DEPTH_WITH_GO);
    with_input(alloc, flagged, help::INPUT)
}

// A command with the flags for Go's encoder and for progress behind the options that each has.
fn with_go<'a>(alloc: Global, name: &'a str, about: &'a str, depth: &'a str) -> Built<'a>
    ensures app { IfOk result (λ command. app_of command ≡ with_go name.now) }
    ensures local { IfOk result (λ command. (out-Command command).has_globals ≡ false) }
{
    let options = with_options(alloc, name, about, depth);
    let flagged = with_flag(alloc, options, "go", help::GO);
    with_progress(alloc, flagged, help::PROGRESS_WITH_GO)
}

// The program with one command more.
fn with_command<'a>(program: Built<'a>, command: Built<'a>) -> Built<'a>
    requires { IfOk command (λ made. (out-Command made).has_globals ≡ false) }
    ensures { (before app : App) → IfOk program.entry (λ made. app_of made ≡ before)
        → IfOk command.entry (λ made. app_of made ≡ app)
        → IfOk result (λ more. app_of more ≡ with_subcommand before app.top) }
{
    program?.subcommand(command?)
}

// The command with one argument more.
fn with_arg<'a>(command: Built<'a>, arg: Arg<'a>) -> Built<'a>
    requires made { IfOk command (λ made. (out-Command made).has_globals ≡ false) }
    requires local { arg.global ≡ false }
    ensures app { (app : App) (rule : Rule) → IfOk command.entry (λ made. app_of made ≡ app)
        → rule_of arg.entry ≡ rule → IfOk result (λ more. app_of more ≡ with_rule app rule) }
    ensures local { IfOk result (λ more. (out-Command more).has_globals ≡ false) }
{
    command?.arg(arg)
}

// A command that reads one stream.
fn one_stream<'a>(alloc: Global, name: &'a str, about: &'a str) -> Built<'a>
    ensures app { IfOk result (λ command. app_of command ≡ one_stream name.now) }
    ensures local { IfOk result (λ command. (out-Command command).has_globals ≡ false) }
{
    let options = with_options(alloc, name, about, help::DEPTH);
    with_input(alloc, options, help::FILE)
}

// A command that reads the file that has the wanted type, and then a stream.
fn two_streams<'a>(alloc: Global, name: &'a str, about: &'a str, wanted: &'a str) -> Built<'a>
    ensures app { IfOk result (λ command. app_of command ≡ two_streams name.now) }
    ensures local { IfOk result (λ command. (out-Command command).has_globals ≡ false) }
{
    let options = with_options(alloc, name, about, help::DEPTH);
    let wanting = with_arg(options, needed(alloc, "WANTED", wanted));
    with_input(alloc, wanting, help::INPUT)
}

// The command with the stream that it reads behind what else it takes.
fn with_input<'a>(alloc: Global, command: Built<'a>, about: &'a str) -> Built<'a>
    requires { IfOk command (λ made. (out-Command made).has_globals ≡ false) }
    ensures app { (app : App) → IfOk command.entry (λ made. app_of made ≡ app)
        → IfOk result (λ more. app_of more ≡ with_input app) }
    ensures local { IfOk result (λ more. (out-Command more).has_globals ≡ false) }
{
    with_arg(command, Arg::new(alloc, "IN").help(about))
}

// A command with the options that each has.
fn with_options<'a>(alloc: Global, name: &'a str, about: &'a str, depth: &'a str) -> Built<'a>
    ensures app { IfOk result (λ command. app_of command ≡ with_options name.now) }
    ensures local { IfOk result (λ command. (out-Command command).has_globals ≡ false) }
{
    let bare = Ok(Command::new(alloc, name).about(about));
    let deep = with_arg(bare, option(alloc, "depth", NUMBER, depth));
    with_arg(deep, option(alloc, "item", NUMBER, help::ITEM))
}

// The command with the flags that say how values are shown.
fn with_flags<'a>(alloc: Global, command: Built<'a>) -> Built<'a>
    requires { IfOk command (λ made. (out-Command made).has_globals ≡ false) }
    ensures app { (app : App) → IfOk command.entry (λ made. app_of made ≡ app)
        → IfOk result (λ more. app_of more ≡ with_flags app) }
    ensures local { IfOk result (λ more. (out-Command more).has_globals ≡ false) }
{
    let zeros = with_flag(alloc, command, "zeros", help::ZEROS);
    let raw = with_flag(alloc, zeros, "raw", help::RAW);
    with_flag(alloc, raw, "tagged", help::TAGGED)
}

// The command with the flag and the option that say how and of which types values are shown.
fn with_types<'a>(alloc: Global, command: Built<'a>) -> Built<'a>
    requires { IfOk command (λ made. (out-Command made).has_globals ≡ false) }
    ensures app { (app : App) → IfOk command.entry (λ made. app_of made ≡ app)
        → IfOk result (λ more. app_of more ≡ with_types app) }
    ensures local { IfOk result (λ more. (out-Command more).has_globals ≡ false) }
{
    let typed = with_flag(alloc, command, "typed", help::TYPED);
    with_arg(typed, option(alloc, "only", "TYPE", help::ONLY))
}

// The command with the flag for a line an element, the option that says what bytes are, and the flag for progress.
fn with_elements<'a>(alloc: Global, command: Built<'a>) -> Built<'a>
    requires { IfOk command (λ made. (out-Command made).has_globals ≡ false) }
    ensures app { (app : App) → IfOk command.entry (λ made. app_of made ≡ app)
        → IfOk result (λ more. app_of more ≡ with_elements app) }
    ensures local { IfOk result (λ more. (out-Command more).has_globals ≡ false) }
{
    let flagged = with_flag(alloc, command, "each", help::EACH);
    with_progress(alloc, with_arg(flagged, kinds(alloc)), help::PROGRESS)
}

// The option that says what the bytes of a type are: of several types where it is given several times.
fn kinds<'a>(alloc: Global) -> Arg<'a>
    ensures rule { rule_of result ≡ kinds_rule }
    ensures local { result.global ≡ false }
{
    option(alloc, "as", "ID=KIND", help::AS).action(ArgAction::Append)
}

// The command with the flag for which it is told how far the reading is.
fn with_progress<'a>(alloc: Global, command: Built<'a>, about: &'a str) -> Built<'a>
    requires { IfOk command (λ made. (out-Command made).has_globals ≡ false) }
    ensures app { (app : App) → IfOk command.entry (λ made. app_of made ≡ app)
        → IfOk result (λ more. app_of more ≡ with_progress app) }
    ensures local { IfOk result (λ more. (out-Command more).has_globals ≡ false) }
{
    with_flag(alloc, command, "progress", about)
}

// The command with the flag for which what isn't damaged is shown.
fn with_salvage<'a>(alloc: Global, command: Built<'a>) -> Built<'a>
    requires { IfOk command (λ made. (out-Command made).has_globals ≡ false) }
    ensures app { (app : App) → IfOk command.entry (λ made. app_of made ≡ app)
        → IfOk result (λ more. app_of more ≡ with_salvage app) }
    ensures local { IfOk result (λ more. (out-Command more).has_globals ≡ false) }
{
    with_flag(alloc, command, "salvage", help::KEPT)
}

// The command with the flags that say that Go's encoder wrote the stream, and where definitions are to stand.
fn with_go_flags<'a>(alloc: Global, command: Built<'a>) -> Built<'a>
    requires { IfOk command (λ made. (out-Command made).has_globals ≡ false) }
    ensures app { (app : App) → IfOk command.entry (λ made. app_of made ≡ app)
        → IfOk result (λ more. app_of more ≡ with_go_flags app) }
    ensures local { IfOk result (λ more. (out-Command more).has_globals ≡ false) }
{
    let flagged = with_flag(alloc, command, "go", help::GO);
    with_flag(alloc, flagged, "hoist", help::HOIST)
}

// The command with the flag and the option that say which part of a stream is shown.
fn with_parts<'a>(alloc: Global, command: Built<'a>) -> Built<'a>
    requires { IfOk command (λ made. (out-Command made).has_globals ≡ false) }
    ensures app { (app : App) → IfOk command.entry (λ made. app_of made ≡ app)
        → IfOk result (λ more. app_of more ≡ with_parts app) }
    ensures local { IfOk result (λ more. (out-Command more).has_globals ≡ false) }
{
    let flagged = with_flag(alloc, command, "fault", help::FAULT);
    with_arg(flagged, option(alloc, "at", NUMBER, help::AT))
}

// The command with a flag more, which takes no value.
fn with_flag<'a>(alloc: Global, command: Built<'a>, name: &'a str, about: &'a str) -> Built<'a>
    requires { IfOk command (λ made. (out-Command made).has_globals ≡ false) }
    ensures app { (app : App) → IfOk command.entry (λ made. app_of made ≡ app)
        → IfOk result (λ more. app_of more ≡ with_rule app (flag_rule name.now)) }
    ensures local { IfOk result (λ more. (out-Command more).has_globals ≡ false) }
{
    with_arg(command, flag(alloc, name, about))
}

// A flag, which takes no value.
fn flag<'a>(alloc: Global, name: &'a str, about: &'a str) -> Arg<'a>
    ensures rule { rule_of result ≡ flag_rule name.now }
    ensures local { result.global ≡ false }
{
    Arg::new(alloc, name)
        .long(name)
        .action(ArgAction::SetTrue)
        .help(about)
}

// An option of one word, which help calls so.
fn option<'a>(alloc: Global, name: &'a str, word: &'a str, about: &'a str) -> Arg<'a>
    ensures rule { rule_of result ≡ option_rule name.now }
    ensures local { result.global ≡ false }
{
    Arg::new(alloc, name)
        .long(name)
        .value_name(word)
        .help(about)
}

//! The command line, read with `clap`.
ghost use Rattle.std.specs.Prelude.{◌≡◌, ◌≢◌, List, true, false, IfErr, IfOk};
ghost use Rattle.clap.specs.Walk.{texts};
ghost use Rattle.clap.specs.Words.{App, Text, found_of, has_subcommand, kind_of, rows_of, rule_of};
ghost use Rattle.pg_call.specs.Call as spec;
ghost use Rattle.pg_call.specs.CommandLine as command_line;
ghost use Rattle.pg_call.specs.Matches.{AreMatchesOf};
ghost use Rattle.pg_call.specs.Paths.{both_paths, paths_in};
ghost use Rattle.pg_call.specs.inner.Apps.{HasApp};
ghost use Rattle.pg_call.specs.inner.Commands.{app_for, apps_for, rule_for, rules_for};

use crate::commands::{Description, SUBCOMMANDS, Subcommand};
use crate::help::{STATUSES, VIEW};
use crate::{BothFiles, Call, Files, GateAllCall, GateCall, ShowCall};
use clap::error::ErrorKind;
use clap::{Arg, ArgAction, ArgMatches, Command, Error};
use pg_dyn::ViewName;
use std::alloc::{AllocError, Global};

/// What follows the program's name with `--version`.
const VERSION: &str = "unreleased";

/// The names of the views by which enums are compared.
static VIEW_NAMES: [&str; 2] = ["numbers", "names"];

/// An option that may be left out, and then has that value.
fn defaulted<'a>(
    alloc: Global,
    name: &'a str,
    value_name: &'a str,
    value: &'a str,
    help: &'a str,
) -> Arg<'a>
    ensures rule { rule_of result ≡ command_line.defaulted name.entry.now value.entry.now }
    ensures local { result.global ≡ false }
{
    Arg::new(alloc, name)
        .long(name)
        .value_name(value_name)
        .default_value(value)
        .help(help)
}

/// A folder, by default the current one.
fn folder<'a>(alloc: Global, name: &'a str, help: &'a str) -> Arg<'a>
    ensures rule { rule_of result ≡ command_line.folder name.entry.now }
    ensures local { result.global ≡ false }
{
    defaulted(alloc, name, "D", ".", help)
}

/// An option that may be left out.
fn optional<'a>(alloc: Global, name: &'a str, value: &'a str, help: &'a str) -> Arg<'a>
    ensures rule { rule_of result ≡ command_line.optional name.entry.now }
    ensures local { result.global ≡ false }
{
    Arg::new(alloc, name)
        .long(name)
        .value_name(value)
        .help(help)
}

/// An option that may be there as often as needed.
fn each<'a>(alloc: Global, name: &'a str, value: &'a str, help: &'a str) -> Arg<'a>
    ensures rule { rule_of result ≡ command_line.each name.entry.now }
    ensures local { result.global ≡ false }
{
    Arg::new(alloc, name)
        .long(name)
        .value_name(value)
        .action(ArgAction::Append)
        .help(help)
}

/// The view by which enums are compared, one of these names: by default the numbers alone.
fn view_option<'a>(alloc: Global, names: &'a [&'a str]) -> Arg<'a>
    ensures rule { rule_of result ≡ command_line.view_option names.entry }
    ensures local { result.global ≡ false }
{
    let view = defaulted(alloc, "view", "VIEW", "numbers", VIEW);
    view.value_parser(names)
}

/// An option that has to be there.
fn named<'a>(alloc: Global, name: &'a str, value: &'a str, help: &'a str) -> Arg<'a>
    ensures rule { rule_of result ≡ command_line.named name.entry.now }
    ensures local { result.global ≡ false }
{
    Arg::new(alloc, name)
        .long(name)
        .value_name(value)
        .required(true)
        .help(help)
}

/// An argument without a name that has to be there.
fn positional<'a>(alloc: Global, name: &'a str, help: &'a str) -> Arg<'a>
    ensures rule { rule_of result ≡ command_line.positional name.entry.now }
    ensures local { result.global ≡ false }
{
    Arg::new(alloc, name).required(true).help(help)
}

/// An argument without a name that may be there as often as needed.
fn positionals<'a>(alloc: Global, name: &'a str, help: &'a str) -> Arg<'a>
    ensures rule { rule_of result ≡ command_line.positionals name.entry.now }
    ensures local { result.global ≡ false }
{
    Arg::new(alloc, name).action(ArgAction::Append).help(help)
}

/// An option without a value.
fn flag<'a>(alloc: Global, name: &'a str, help: &'a str) -> Arg<'a>
    ensures rule { rule_of result ≡ command_line.flag name.entry.now }
    ensures local { result.global ≡ false }
{
    Arg::new(alloc, name)
        .long(name)
        .action(ArgAction::SetTrue)
        .help(help)
}

/// The names of the views.
#[derive(Clone, Copy)]
struct Views<'a>(&'a [&'a str]);

/// The argument that `description` describes.
fn argument_of<'a>(alloc: Global, description: &Description, views: Views<'a>) -> Arg<'a>
    ensures rule { rule_of result ≡ rule_for views.entry.0 description.now }
    ensures local { result.global ≡ false }
{
    match *description {
        Description::Folder(name, help) => folder(alloc, name, help),
        Description::Optional(name, value, help) => optional(alloc, name, value, help),
        Description::Each(name, value, help) => each(alloc, name, value, help),
        Description::Named(name, value, help) => named(alloc, name, value, help),
        Description::Positional(name, help) => positional(alloc, name, help),
        Description::Positionals(name, help) => positionals(alloc, name, help),
        Description::Flag(name, help) => flag(alloc, name, help),
        Description::View => view_option(alloc, views.0),
    }
}

/// The command with these arguments too.
fn with_arguments<'a>(
    alloc: Global,
    command: Command<'a>,
    arguments: &[Description],
    views: Views<'a>,
) -> Result<Command<'a>, AllocError>
    ensures { (app : App) → HasApp app command.entry → IfOk result
        (HasApp (command_line.with_rules app (rules_for views.entry.0 arguments.now))) }
{
    let mut built = command;
    for argument in arguments {
        built = built.arg(argument_of(alloc, argument, views))?;
    }
    Ok(built)
}

/// The command that `subcommand` describes.
fn command_of<'a>(
    alloc: Global,
    subcommand: &Subcommand,
    views: Views<'a>,
) -> Result<Command<'a>, AllocError>
    ensures { IfOk result (HasApp (app_for views.entry.0 subcommand.now)) }
{
    let command = Command::new(alloc, subcommand.name)
        .about(subcommand.about)
        .after_help(subcommand.answers.text());
    with_arguments(alloc, command, subcommand.arguments, views)
}

/// The command line without its subcommands, but for the program's name.
fn top_command<'a>(alloc: Global) -> Result<Command<'a>, AllocError>
    ensures { IfOk result (HasApp command_line.top_app) }
{
    Command::new(alloc, "protogate")
        .about(
            "Compare proto3 message types before a changed file is released, write descriptor sets, show messages, and name types",
        )
        .after_help(STATUSES)
        .version(VERSION)
        .no_binary_name(true)
        .subcommand_required(true)
        .bin_name("protogate")
}

/// The command line with these subcommands.
fn with_subcommands<'a>(
    alloc: Global,
    subcommands: &[Subcommand],
    views: Views<'a>,
) -> Result<Command<'a>, AllocError>
    ensures { IfOk result (HasApp
        (command_line.with_apps command_line.top_app (apps_for views.entry.0 subcommands.now))) }
{
    let mut built = top_command(alloc)?;
    for subcommand in subcommands {
        let command = command_of(alloc, subcommand, views)?;
        built = built.subcommand(command)?;
    }
    Ok(built)
}

/// The whole command line, but for the program's name.
fn whole_command<'a>(alloc: Global, views: &'a [&'a str]) -> Result<Command<'a>, AllocError>
    ensures { IfOk result (HasApp (command_line.whole_app views.entry)) }
{
    with_subcommands(alloc, SUBCOMMANDS.as_slice(), Views(views))
}

/// The value of an option or of an argument without a name.
fn text<'a>(found: &ArgMatches<'a>, name: &str) -> &'a str
    ensures { result.now ≡ spec.text_at name.now (rows_of (found_of found.now)) }
{
    found.get_str(name).unwrap_or("")
}

/// The values of an option or of an argument without a name.
fn texts<'m>(found: &'m ArgMatches<'_>, name: &str) -> &'m [&'m str]
    ensures { texts result.now ≡ spec.texts_at name.now (rows_of (found_of found.now)) }
{
    found.get_strs(name).unwrap_or(&[])
}

/// Whether an option without a value is there.
fn is_set(found: &ArgMatches<'_>, name: &str) -> bool
    ensures { result ≡ spec.flag_at name.now (rows_of (found_of found.now)) }
{
    match found.get_str(name) {
        Some(value) => value == "true",
        None => false,
    }
}

/// The view by names where it is that, and else the view by numbers.
fn view_if(by_names: bool) -> ViewName
    ensures { result ≡ spec.view_if by_names }
{
    if by_names {
        ViewName::Names
    } else {
        ViewName::Numbers
    }
}

/// The view that an option names.
fn view(found: &ArgMatches<'_>, name: &str) -> ViewName
    ensures { result ≡ spec.view_at name.now (rows_of (found_of found.now)) }
{
    view_if(text(found, name) == "names")
}

/// The files that one option names, below the folder that another does, with the included folders
/// of a third and the list of a fourth.
fn files<'m>(
    found: &'m ArgMatches<'_>,
    folder: &str,
    include: &str,
    name: &str,
    list: &str,
) -> Files<'m>
    ensures { paths_in result
        ≡ spec.paths_at folder.now include.now name.now list.now (rows_of (found_of found.now)) }
{
    Files {
        folder: text(found, folder),
        includes: texts(found, include),
        paths: texts(found, name),
        list: texts(found, list),
    }
}

/// The files of both sides.
fn both_files<'m>(found: &'m ArgMatches<'_>) -> BothFiles<'m>
    ensures { both_paths result ≡ spec.both_in (rows_of (found_of found.now)) }
{
    BothFiles {
        old: files(found, "old-dir", "old-include", "old", "old-files-from"),
        new: files(found, "new-dir", "new-include", "new", "new-files-from"),
    }
}

fn gate_call<'m>(found: &'m ArgMatches<'_>) -> Call<'m>
    ensures { spec.request_of result ≡ spec.gate_in (rows_of (found_of found.now)) }
{
    Call::Gate(GateCall {
        files: both_files(found),
        root: text(found, "type"),
        certificate_only: is_set(found, "cert"),
        both: is_set(found, "both"),
        explain: is_set(found, "explain"),
        json: is_set(found, "json"),
        view: view(found, "view"),
    })
}

fn gate_all_call<'m>(found: &'m ArgMatches<'_>) -> Call<'m>
    ensures { spec.request_of result ≡ spec.gate_all_in (rows_of (found_of found.now)) }
{
    Call::GateAll(GateAllCall {
        files: both_files(found),
        explain: is_set(found, "explain"),
        json: is_set(found, "json"),
        notes: is_set(found, "notes"),
        view: view(found, "view"),
    })
}

fn verify_call<'m>(found: &'m ArgMatches<'_>) -> Call<'m>
    ensures { spec.request_of result ≡ spec.verify_in (rows_of (found_of found.now)) }
{
    Call::Verify {
        files: both_files(found),
        certificate: text(found, "CERT"),
        json: is_set(found, "json"),
    }
}

fn show_call<'m>(found: &'m ArgMatches<'_>) -> Call<'m>
    ensures { spec.request_of result ≡ spec.show_in (rows_of (found_of found.now)) }
{
    Call::Show(ShowCall {
        files: files(found, "dir", "include", "file", "files-from"),
        root: text(found, "type"),
        word: text(found, "HEX"),
        json: is_set(found, "json"),
    })
}

fn types_call<'m>(found: &'m ArgMatches<'_>) -> Call<'m>
    ensures { spec.request_of result ≡ spec.types_in (rows_of (found_of found.now)) }
{
    Call::Types {
        files: files(found, "dir", "include", "FILE", "files-from"),
        json: is_set(found, "json"),
    }
}

/// What the subcommand of this name calls for.
fn call_in<'m>(name: &str, found: &'m ArgMatches<'_>) -> Call<'m>
    ensures { spec.request_of result
        ≡ spec.request_in (name.now, rows_of (found_of found.now)) }
{
    match name {
        "compile" => Call::Compile(files(found, "dir", "include", "FILE", "files-from")),
        "gate" => gate_call(found),
        "gate-all" => gate_all_call(found),
        "verify" => verify_call(found),
        "types" => types_call(found),
        _ => show_call(found),
    }
}

/// What `clap` reads the arguments after the program's name as, or why it doesn't take them. An
/// error of the kind `OutOfMemory` says nothing of the arguments: memory was refused.
pub fn matches_of<'a>(alloc: Global, words: &'a [&'a str]) -> Result<ArgMatches<'a>, Error>
    ensures taken { IfOk result (AreMatchesOf (texts words.entry.now)) }
    ensures refused { IfErr result (λ error. kind_of error ≢ ErrorKind.OutOfMemory
        → spec.IsRefused (texts words.entry.now)) }
{
    let command = whole_command(alloc, VIEW_NAMES.as_slice())?;
    let matches = command.try_get_matches_from(words)?;
    Ok(matches)
}

/// What arguments call for that `clap` reads as these matches. They have a subcommand, as all have
/// that `matches_of` answers.
pub fn call_of<'m>(matches: &'m ArgMatches<'_>) -> Call<'m>
    requires { has_subcommand matches.now ≡ true }
    ensures { (words : List Text) → AreMatchesOf words matches.now
        → spec.CallsFor words (spec.request_of result) }
{
    let (name, found) = matches.subcommand().unwrap();
    call_in(name, found)
}

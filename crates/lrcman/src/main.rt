//! The program `lrcman`: its command line, its standard streams and its exit status.
#![tactic(auto)]

ghost use Rattle.std.specs.Prelude.{◌≡◌, Ok, Err};
ghost use Rattle.lrc_outputs.specs.declared.status.Status.TheVariants as status;
ghost use Rattle.lrc_streams.specs.declared.streams.RunFault.{RunFault};
ghost use Rattle.lrcman.specs.declared.stop.Stop.TheVariants as stop;

mod hints;
mod named;
mod stop;
mod views;

use crate::hints::{Wrong, wrong_in};
use crate::named::parse_named;
use crate::stop::Stop;
use crate::views::parse_view;
use clap::{Arg, ArgAction, ArgMatches, Command};
use lrc_code::Code;
use lrc_tool::{
    Goal, Named, Outage, Plain, RunFault, Status, View, ask, check, go_on, matrix, recipe, recover,
    run,
};
use std::alloc::{AllocError, Global};
use std::process::ExitCode;
use std::sync::Wait;
use std::thread::Threads;
use std::{env, io};

/// What the command line asks for.
#[derive(Drop)]
enum Request<'a> {
    Run,
    Check,
    Resume,
    Image,
    Show(View),
    Forecast(Outage, Vec<Named>),
    Recover(Code, &'a str),
    Recipe(Code, RecipeWords<'a>),
    Matrix(Code),
}

/// The words that ask for a recipe.
#[derive(Clone, Copy)]
struct RecipeWords<'a> {
    mask: &'a str,
    fragment: &'a str,
}

/// The command lines that the program takes. Each step hands the only command on, so that none is dropped between.
fn command_line<'a>(alloc: Global) -> Result<Command<'a>, AllocError> {
    let command = Command::new(alloc, "lrcman").subcommand(Command::new(alloc, "run"))?;
    let command = command.subcommand(Command::new(alloc, "check"))?;
    let command = command.subcommand(Command::new(alloc, "image"))?;
    let command = command.subcommand(Command::new(alloc, "resume"))?;
    let command = with_one(command, of_words(alloc, "show", "what"))?;
    let command = with_one(command, of_words(alloc, "may-stop", "nodes"))?;
    let command = with_one(command, of_words(alloc, "may-lose", "nodes"))?;
    with_codes(alloc, command)
}

/// Adds the command lines that ask about a code, and read no input.
fn with_codes<'a>(alloc: Global, command: Command<'a>) -> Result<Command<'a>, AllocError> {
    let command = with_one(command, of_word(alloc, "recover", "mask"))?;
    let command = with_one(command, of_word(alloc, "recover6", "mask"))?;
    let command = with_one(command, of_two(alloc, "recipe"))?;
    let command = with_one(command, of_two(alloc, "recipe6"))?;
    let command = command.subcommand(Command::new(alloc, "matrix"))?;
    command.subcommand(Command::new(alloc, "matrix6"))
}

fn with_one<'a>(
    command: Command<'a>,
    one: Result<Command<'a>, AllocError>,
) -> Result<Command<'a>, AllocError> {
    command.subcommand(one?)
}

/// The command line of a word and one argument or more.
fn of_words<'a>(alloc: Global, word: &'a str, name: &'a str) -> Result<Command<'a>, AllocError> {
    let arguments = Arg::new(alloc, name)
        .required(true)
        .num_args(1..)
        .action(ArgAction::Set);
    Command::new(alloc, word).arg(arguments)
}

/// The command line of a word and an argument.
fn of_word<'a>(alloc: Global, word: &'a str, name: &'a str) -> Result<Command<'a>, AllocError> {
    let argument = Arg::new(alloc, name).required(true).action(ArgAction::Set);
    Command::new(alloc, word).arg(argument)
}

/// The command line of a word, a mask and a fragment.
fn of_two<'a>(alloc: Global, word: &'a str) -> Result<Command<'a>, AllocError> {
    let fragment = Arg::new(alloc, "fragment")
        .required(true)
        .action(ArgAction::Set);
    of_word(alloc, word, "mask")?.arg(fragment)
}

fn parse_request<'a>(alloc: Global, words: &'a [String]) -> Result<Request<'a>, Stop> {
    let matches = command_line(alloc)?.try_get_matches_from(words)?;
    request_in(alloc, &matches)
}

/// The request that the words were matched with.
fn request_in<'a>(alloc: Global, matches: &ArgMatches<'a>) -> Result<Request<'a>, Stop> {
    let (word, found) = matches.subcommand().ok_or(Stop::Usage)?;
    match word {
        "run" => Ok(Request::Run),
        "check" => Ok(Request::Check),
        "image" => Ok(Request::Image),
        "resume" => Ok(Request::Resume),
        "recover" => Ok(Request::Recover(Code::Wide, mask_in(found)?)),
        "recover6" => Ok(Request::Recover(Code::Narrow, mask_in(found)?)),
        "recipe" => Ok(Request::Recipe(Code::Wide, words_in(found)?)),
        "recipe6" => Ok(Request::Recipe(Code::Narrow, words_in(found)?)),
        "matrix" => Ok(Request::Matrix(Code::Wide)),
        "matrix6" => Ok(Request::Matrix(Code::Narrow)),
        "show" => Ok(Request::Show(view_in(found)?)),
        "may-stop" => Ok(Request::Forecast(Outage::Stop, named_in(alloc, found)?)),
        "may-lose" => Ok(Request::Forecast(Outage::Lose, named_in(alloc, found)?)),
        _ => Err(Stop::Usage),
    }
}

fn mask_in<'a>(matches: &ArgMatches<'a>) -> Result<&'a str, Stop> {
    matches.get_str("mask").ok_or(Stop::Usage)
}

fn words_in<'a>(matches: &ArgMatches<'a>) -> Result<RecipeWords<'a>, Stop> {
    let mask = mask_in(matches)?;
    let fragment = matches.get_str("fragment").ok_or(Stop::Usage)?;
    Ok(RecipeWords { mask, fragment })
}

fn named_in(alloc: Global, matches: &ArgMatches<'_>) -> Result<Vec<Named>, Stop> {
    parse_named(alloc, matches.get_strs("nodes").ok_or(Stop::Usage)?)
}

fn view_in(matches: &ArgMatches<'_>) -> Result<View, Stop> {
    parse_view(matches.get_strs("what").ok_or(Stop::Usage)?)
}

/// Does what the command line asks for; scripts run on these threads.
fn perform<T: Threads + Wait + Sync>(rt: &HostRuntime, threads: &T) -> Result<Status, Stop> {
    let words = words_of(rt)?;
    let request = match parse_request(rt.alloc(), words.as_slice()) {
        Ok(request) => request,
        Err(Stop::Usage) => {
            tell_wrong_words(rt, words.as_slice())?;
            return Err(Stop::Usage);
        }
        Err(stop) => return Err(stop),
    };
    Ok(serve(rt, threads, &request)?)
}

/// The words of the command line, with the name of the program.
fn words_of(rt: &HostRuntime) -> Result<Vec<String>, Stop> {
    let words = collected(rt);
    if let Err(Stop::Usage) = &words {
        tell(rt, Wrong::Bytes);
    }
    words
}

fn collected(rt: &HostRuntime) -> Result<Vec<String>, Stop> {
    Ok(env::args(rt)?.collect::<Vec<String>>(rt.alloc())?)
}

/// Tells what is wrong with the words of a command line, and the usage. A word `--` is passed over.
fn tell_wrong_words(rt: &HostRuntime, words: &[String]) -> Result<(), AllocError> {
    let mut texts = Vec::new(rt.alloc());
    for word in words.iter().skip(1) {
        if word.as_str() != "--" {
            texts.push(word.as_str())?;
        }
    }
    tell(rt, wrong_in(texts.as_slice()));
    Ok(())
}

fn tell(rt: &HostRuntime, wrong: Wrong<'_>) {
    let _ = eprintln!(rt; "lrcman: {wrong}\n{}", Stop::Usage);
}

fn serve<T: Threads + Wait + Sync>(
    rt: &HostRuntime,
    threads: &T,
    request: &Request,
) -> Result<Status, RunFault> {
    match request {
        Request::Run => run_input(rt, threads),
        Request::Check => check_input(rt),
        Request::Resume => go_on_input(rt, Goal::Replies),
        Request::Image => ask_input(rt, Goal::Image),
        Request::Show(view) => ask_input(rt, Goal::Table(*view)),
        Request::Forecast(outage, named) => {
            ask_input(rt, Goal::Forecast(*outage, named.as_slice()))
        }
        Request::Recover(code, mask) => {
            recover(rt.alloc(), *code, mask, &mut Plain::new(io::writer(rt)))
        }
        Request::Recipe(code, words) => tell_recipe(rt, *code, *words),
        Request::Matrix(code) => matrix(rt.alloc(), *code, &mut Plain::new(io::writer(rt))),
    }
}

fn tell_recipe(rt: &HostRuntime, code: Code, words: RecipeWords<'_>) -> Result<Status, RunFault> {
    let mut sink = Plain::new(io::writer(rt));
    let stderr = rt.stderr();
    let mut errors = Plain::new(io::writer(&stderr));
    let RecipeWords { mask, fragment } = words;
    recipe(rt.alloc(), code, mask, fragment, &mut sink, &mut errors)
}

fn run_input<T: Threads + Wait + Sync>(rt: &HostRuntime, threads: &T) -> Result<Status, RunFault> {
    let mut source = Plain::new(rt.reader());
    let mut sink = Plain::new(io::writer(rt));
    run(threads, rt.alloc(), &mut source, &mut sink)
}

fn check_input(rt: &HostRuntime) -> Result<Status, RunFault> {
    let mut source = Plain::new(rt.reader());
    let mut sink = Plain::new(io::writer(rt));
    let stderr = rt.stderr();
    let mut errors = Plain::new(io::writer(&stderr));
    check(rt.alloc(), &mut source, &mut sink, &mut errors)
}

fn go_on_input(rt: &HostRuntime, goal: Goal<'_>) -> Result<Status, RunFault> {
    let mut source = Plain::new(rt.reader());
    let mut sink = Plain::new(io::writer(rt));
    go_on(rt.alloc(), goal, &mut source, &mut sink)
}

fn ask_input(rt: &HostRuntime, goal: Goal<'_>) -> Result<Status, RunFault> {
    let mut source = Plain::new(rt.reader());
    let mut sink = Plain::new(io::writer(rt));
    let stderr = rt.stderr();
    let mut errors = Plain::new(io::writer(&stderr));
    ask(rt.alloc(), goal, &mut source, &mut sink, &mut errors)
}

/// The exit status for how a command ended, or for why the program stopped.
fn exit_status(ended: &Result<Status, Stop>) -> u8
    ensures done { (ended.now ≡ Ok status.Done → result ≡ 0) × (ended.now ≡ Ok status.BadLine → result ≡ 1)
        × (ended.now ≡ Ok status.Refused → result ≡ 2) × (ended.now ≡ Ok status.Unsafe → result ≡ 4) }
    ensures stopped { (ended.now ≡ Err stop.Usage → result ≡ 2)
        × ((fault : RunFault) → ended.now ≡ Err (stop.Fault fault) → result ≡ 3) }
{
    match ended {
        Ok(status) => *status as u8,
        Err(stop) => stop.status(),
    }
}

fn main(rt: HostRuntime) -> ExitCode {
    let ended = perform(&rt, &rt);
    if let Err(Stop::Fault(fault)) = &ended {
        let _ = eprintln!(&rt; "lrcman: {fault}");
    }
    ExitCode::from(exit_status(&ended))
}

//! The words of the program, and what they ask for.

ghost use Rattle.std.specs.Prelude.{◌≡◌, [], map, false, IfOk, IfErr, string_bytes};
ghost use Rattle.clap.specs.Words.{HasKind, app_of, found_of, rows_of, rule_of};
ghost use Rattle.clap.specs.declared.builder.command.Command.TheViews.{out-Command};
ghost use Rattle.ns_command.specs.Words.{application, drawn_app, flag_rule, from_rule, items_rule, kinds_of, limit_rule, live_app, outcomes_app, replay_app, schedule_app, script_app, seed_rule, seeds_rule, timeline_app};
ghost use Rattle.ns_command.specs.Asked.{asked_by, asked_in, is_set as is_given, items_in, limit_in, number_at, options_in, picture_in, seeds_in};

use crate::wanted::Wanted;
use clap::builder::Command;
use clap::{Arg, ArgAction, ArgMatches, Error, value_parser};
use ns_outcomes::Seeds;
use ns_replay::Options;
use std::alloc::{AllocError, Global};

/// How many turns a schedule may need where `--limit` isn't given.
const LIMIT: u32 = 1_000_000;

/// A word that is there or not.
fn flag<'a>(alloc: Global, name: &'a str, help: &'a str) -> Arg<'a>
    ensures rule { rule_of result ≡ flag_rule name.entry.now }
    ensures local { result.global ≡ false }
{
    Arg::new(alloc, name)
        .long(name)
        .help(help)
        .action(ArgAction::SetTrue)
}

/// How many turns a schedule may need.
fn limit<'a>(alloc: Global) -> Arg<'a>
    ensures rule { rule_of result ≡ limit_rule }
    ensures local { result.global ≡ false }
{
    Arg::new(alloc, "limit")
        .long("limit")
        .value_name("N")
        .help("Refuse a schedule that needs more turns than N, from 1 to 10000000, as: --limit 7")
        .value_parser(value_parser!(u32).range(1..=10_000_000))
        .default_value("1000000")
}

/// `replay [--history] [--tests] [--state] [--limit N]`
fn replay_command<'a>(alloc: Global) -> Result<Command<'a>, AllocError>
    ensures { IfOk result (λ command. (app_of command ≡ replay_app)
        × ((out-Command command).has_globals ≡ false)) }
{
    let history = flag(
        alloc,
        "history",
        "Print the lock's history, a line for each event, as: section 0 w plain plain 0,0,0,0,0,0,0,0 5,0,0,0,0,0,0,0",
    );
    let tests = flag(
        alloc,
        "tests",
        "Print how many conditions each release tested, as: 0 3 ok tests 0",
    );
    let state = flag(
        alloc,
        "state",
        "Print the lock word, the queues and the wakes that are owed, as: word write readers=0",
    );
    Command::new(alloc, "replay")
        .about("Replay a script from standard input: ns_cli replay < examples/first_path.json")
        .arg(history)?
        .arg(tests)?
        .arg(state)?
        .arg(limit(alloc))
}

/// `timeline [--svg] [--limit N]`
fn timeline_command<'a>(alloc: Global) -> Result<Command<'a>, AllocError>
    ensures { IfOk result (λ command. (app_of command ≡ timeline_app)
        × ((out-Command command).has_globals ≡ false)) }
{
    let svg = flag(
        alloc,
        "svg",
        "Draw it as one SVG document, as: ns_cli timeline --svg < SCRIPT > run.svg",
    );
    Command::new(alloc, "timeline")
        .about(
            "Draw a run of a script from standard input: ns_cli timeline < examples/first_path.json",
        )
        .arg(svg)?
        .arg(limit(alloc))
}

/// How many seeds there are.
fn seeds<'a>(alloc: Global) -> Arg<'a>
    ensures rule { rule_of result ≡ seeds_rule }
    ensures local { result.global ≡ false }
{
    Arg::new(alloc, "seeds")
        .long("seeds")
        .value_name("N")
        .help("Run the script once for each of N seeds, from 1 to 1000000, as: --seeds 10000")
        .value_parser(value_parser!(u32).range(1..=1_000_000))
        .default_value("1000")
}

/// The first seed.
fn from<'a>(alloc: Global) -> Arg<'a>
    ensures rule { rule_of result ≡ from_rule }
    ensures local { result.global ≡ false }
{
    Arg::new(alloc, "from")
        .long("from")
        .value_name("S")
        .help("Begin with the seed S, from 0 to 4000000000, as: --from 57")
        .value_parser(value_parser!(u32).range(0..=4_000_000_000))
        .default_value("1")
}

/// The seed of a run.
fn seed<'a>(alloc: Global) -> Arg<'a>
    ensures rule { rule_of result ≡ seed_rule }
    ensures local { result.global ≡ false }
{
    Arg::new(alloc, "seed")
        .long("seed")
        .value_name("S")
        .help("Print the schedule that the seed S draws, from 0 to 4294967295, as: --seed 57")
        .value_parser(value_parser!(u32).range(0..=4_294_967_295))
        .required(true)
}

/// `outcomes [--seeds N] [--from S] [--limit N]`
fn outcomes_command<'a>(alloc: Global) -> Result<Command<'a>, AllocError>
    ensures { IfOk result (λ command. (app_of command ≡ outcomes_app)
        × ((out-Command command).has_globals ≡ false)) }
{
    Command::new(alloc, "outcomes")
        .about(
            "Draw schedules of a script at random, and print what it comes to: ns_cli outcomes < examples/look_then_wait.json",
        )
        .arg(seeds(alloc))?
        .arg(from(alloc))?
        .arg(limit(alloc))
}

/// `schedule --seed S [--limit N]`
fn schedule_command<'a>(alloc: Global) -> Result<Command<'a>, AllocError>
    ensures { IfOk result (λ command. (app_of command ≡ schedule_app)
        × ((out-Command command).has_globals ≡ false)) }
{
    Command::new(alloc, "schedule")
        .about(
            "Print a script with the schedule that a seed draws: ns_cli schedule --seed 1 < examples/look_then_wait.json",
        )
        .arg(seed(alloc))?
        .arg(limit(alloc))
}

/// How many items go through the ring.
fn items<'a>(alloc: Global) -> Arg<'a>
    ensures rule { rule_of result ≡ items_rule }
    ensures local { result.global ≡ false }
{
    Arg::new(alloc, "items")
        .long("items")
        .value_name("N")
        .help("Add the numbers from 1 to N, from 1 to 100000, as: --items 10")
        .value_parser(value_parser!(u32).range(1..=100_000))
        .required(true)
}

/// `live --items N`
fn live_command<'a>(alloc: Global) -> Result<Command<'a>, AllocError>
    ensures { IfOk result (λ command. (app_of command ≡ live_app)
        × ((out-Command command).has_globals ≡ false)) }
{
    Command::new(alloc, "live")
        .about(
            "Pass numbers from two threads to two others, and add them there: ns_cli live --items 10",
        )
        .arg(items(alloc))
}

/// The program, with what it makes of a script.
fn script_commands<'a>(alloc: Global) -> Result<Command<'a>, AllocError>
    ensures { IfOk result (λ command. app_of command ≡ script_app) }
{
    let replay = replay_command(alloc)?;
    let timeline = timeline_command(alloc)?;
    Command::new(alloc, "ns_cli")
        .version("0.1.0")
        .about("Replay scripts of calls on a lock, turn by turn, or run live threads on it")
        .subcommand_required(true)
        .subcommand(replay)?
        .subcommand(timeline)
}

/// The program, with what it draws of a script, too.
fn drawn_commands<'a>(alloc: Global) -> Result<Command<'a>, AllocError>
    ensures { IfOk result (λ command. app_of command ≡ drawn_app) }
{
    let outcomes = outcomes_command(alloc)?;
    let schedule = schedule_command(alloc)?;
    script_commands(alloc)?
        .subcommand(outcomes)?
        .subcommand(schedule)
}

/// The words that the program takes.
///
/// They are written down twice, as clap's builder and as a definition (`application`), and the
/// first is proved to be the second. What the words ask for is then a function of them, and the
/// options that reach a replay are a clause.
fn command<'a>(alloc: Global) -> Result<Command<'a>, AllocError>
    ensures { IfOk result (λ command. app_of command ≡ application) }
{
    let live = live_command(alloc)?;
    drawn_commands(alloc)?.subcommand(live)
}

/// Whether a flag was given. (`get_flag` says the same, but its contract says less.)
fn is_set(matches: &ArgMatches, name: &str) -> bool
    ensures { result ≡ is_given name.now (rows_of (found_of matches.now)) }
{
    matches.get_one::<bool>(name).unwrap_or(false)
}

/// How many turns a schedule may need, by the words that were given.
fn limit_of(matches: &ArgMatches) -> u32
    ensures { result ≡ limit_in (rows_of (found_of matches.now)) }
{
    matches.get_one::<u32>("limit").unwrap_or(LIMIT)
}

/// How to replay, by the words that were given.
fn options(matches: &ArgMatches) -> Options
    ensures { result ≡ options_in (rows_of (found_of matches.now)) }
{
    Options {
        history: is_set(matches, "history"),
        tests: is_set(matches, "tests"),
        state: is_set(matches, "state"),
        limit: limit_of(matches),
    }
}

/// How many items there are, by the words that were given.
fn items_of(matches: &ArgMatches) -> u32
    ensures { result ≡ items_in (rows_of (found_of matches.now)) }
{
    matches.get_one::<u32>("items").unwrap_or(0)
}

/// Which picture to draw, by the words that were given.
fn picture(matches: &ArgMatches) -> Wanted
    ensures { result ≡ picture_in (rows_of (found_of matches.now)) }
{
    let limit = limit_of(matches);
    if is_set(matches, "svg") {
        Wanted::Drawing(limit)
    } else {
        Wanted::Timeline(limit)
    }
}

/// The number of this name, by the words that were given, and else another one.
fn number_of(matches: &ArgMatches, name: &str, other: u32) -> u32
    ensures { result ≡ number_at name.now other (rows_of (found_of matches.now)) }
{
    matches.get_one::<u32>(name).unwrap_or(other)
}

/// Which seeds there are, by the words that were given.
fn seeds_of(matches: &ArgMatches) -> Seeds
    ensures { result ≡ seeds_in (rows_of (found_of matches.now)) }
{
    Seeds {
        count: number_of(matches, "seeds", 1000),
        from: u64::from(number_of(matches, "from", 1)),
        limit: limit_of(matches),
    }
}

/// What the subcommand of this name asks for.
fn wanted(name: &str, matches: &ArgMatches) -> Wanted
    ensures { result ≡ asked_in (name.now, rows_of (found_of matches.now)) }
{
    if name == "live" {
        Wanted::Live(items_of(matches))
    } else if name == "timeline" {
        picture(matches)
    } else if name == "outcomes" {
        Wanted::Outcomes(seeds_of(matches))
    } else if name == "schedule" {
        Wanted::Schedule(number_of(matches, "seed", 1), limit_of(matches))
    } else {
        Wanted::Replay(options(matches))
    }
}

/// What the words ask for, if they are right; else what clap has to say of them.
pub fn asked(alloc: Global, words: &[String]) -> Result<Wanted, Error>
    ensures ok { IfOk result (λ wanted. (kinds_of (map string_bytes words.now) ≡ [])
        × (wanted ≡ asked_by (map string_bytes words.now))) }
    ensures err { IfErr result (HasKind (kinds_of (map string_bytes words.now))) }
{
    let matches = command(alloc)?.try_get_matches_from(words)?;
    match matches.subcommand() {
        Some((name, inner)) => Ok(wanted(name, inner)),
        // Never: the command wants a subcommand.
        None => Err(Error::from(AllocError)),
    }
}

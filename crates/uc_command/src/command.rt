//! The command line: its subcommands, their options, and what `--help` says.

use clap::{Arg, ArgMatches, Command, value_parser};
use std::alloc::{AllocError, Global};
use uc_tool_io::{OPERATORS, OperatorName};
use uc_version_state::Options;

const ABOUT: &str = "A log-structured merge store in memory, proved.";

const PLAY_ABOUT: &str =
    "Run a script: write its changes as a log, open a store from it, and carry out its calls";

const PLAY_HELP: &str = "\
Reads a script on standard input, at most 64 MiB, and checks all of it before it does anything.
A script has one line for each change or call; fields are separated by one space. Empty lines and
lines that begin with # are skipped. Keys and values are hexadecimal, . for the empty text.

  before open:  put KEY VALUE   delete KEY   merge KEY OPERAND   range BEGIN END   keep SEQUENCE
                open
  after it:     put   delete   merge   range   as before   feed   keep   release SEQUENCE
                get KEY SEQUENCE   scan LOW HIGH LIMIT SEQUENCE
                claim NAME FIRST COUNT   install NAME   abandon NAME
                compact FIRST COUNT   pick   report

Change number i has the sequence i. Changes after open are gathered, and `feed` writes them. A `keep`
after open keeps the last sequence written; `release` ends it. SEQUENCE is a number, or after open
`last`, the last sequence at opening. It has to be kept to be read, as `last` is until its release.
HIGH is a key or - for none. NAME is a number below 128; FIRST counts runs from 0, the newest.

A script with a fault prints `fault line N` and nothing else; standard error says what is wrong with
that line. A refused opening prints `refused` and why; standard error names the option or number.

Status: 0 done, 2 a refused command line, script or opening, 4 out of memory, 5 a read or write fault
or too long an input.";

/// Strings of the command line's help that are made at run time, so that each fact is written in one place.
#[derive(Drop)]
pub struct Shown {
    operators: [&'static str; OPERATORS],
    memtable: String,
    trigger: String,
    ratio: String,
    percent: String,
    least: String,
    greatest: String,
}

impl Shown {
    /// The names of the operators, and the usual options as numbers.
    pub fn new(alloc: Global) -> Result<Shown, AllocError> {
        let usual = Options::usual();
        Ok(Shown {
            operators: OperatorName::words(),
            memtable: usual.memtable.to_string(alloc)?,
            trigger: usual.trigger.to_string(alloc)?,
            ratio: usual.ratio.to_string(alloc)?,
            percent: usual.percent.to_string(alloc)?,
            least: usual.least.to_string(alloc)?,
            greatest: usual.greatest.to_string(alloc)?,
        })
    }
}

/// The numbers that an option accepts.
#[derive(Clone, Copy)]
enum Accepted {
    /// Numbers of 32 bits.
    Short,
    /// Numbers of 64 bits.
    Long,
    /// Numbers of 64 bits, except 0.
    FromOne,
    /// Numbers from a least to a greatest one.
    Within(i64, i64),
}

/// An option whose value is a number.
#[derive(Clone, Copy)]
struct NumberOption<'a> {
    name: &'a str,
    /// The value if the words set none.
    usual: &'a str,
    accepted: Accepted,
    help: &'a str,
}

/// An option that `clap` parses.
fn number<'a>(alloc: Global, option: &NumberOption<'a>) -> Arg<'a> {
    let arg = Arg::new(alloc, option.name)
        .long(option.name)
        .value_name("NUMBER")
        .default_value(option.usual)
        .help(option.help);
    match option.accepted {
        Accepted::Short => arg.value_parser(value_parser!(u32)),
        Accepted::Long => arg.value_parser(value_parser!(u64)),
        Accepted::FromOne => arg.value_parser(value_parser!(u64).range(1..)),
        Accepted::Within(least, greatest) => {
            arg.value_parser(value_parser!(u64).range(least..=greatest))
        }
    }
}

/// A subcommand with more options.
fn with_numbers<'a>(
    alloc: Global,
    command: Command<'a>,
    options: &[NumberOption<'a>],
) -> Result<Command<'a>, AllocError> {
    let mut command = command;
    for option in options {
        command = command.arg(number(alloc, option))?;
    }
    Ok(command)
}

/// `--operator`.
fn operator<'a>(alloc: Global, shown: &'a Shown) -> Arg<'a> {
    Arg::new(alloc, "operator")
        .long("operator")
        .required(true)
        .value_parser(shown.operators.as_slice())
        .help(
            "How merges combine: sums of 64-bit numbers, texts joined by commas, the greater text, or the last 4 bytes of all texts",
        )
}

/// The options of a store.
fn store_options(shown: &Shown) -> [NumberOption<'_>; 6] {
    [
        NumberOption {
            name: "memtable",
            usual: shown.memtable.as_str(),
            accepted: Accepted::Long,
            help: "Flush a memtable once it holds this many bytes (write_buffer_size)",
        },
        NumberOption {
            name: "trigger",
            usual: shown.trigger.as_str(),
            accepted: Accepted::Short,
            help: "Compact once there are this many runs (level0_file_num_compaction_trigger)",
        },
        NumberOption {
            name: "ratio",
            usual: shown.ratio.as_str(),
            accepted: Accepted::Short,
            help: "Take the next run too while it is at most this many percent larger than the newer ones \
                together (size_ratio)",
        },
        NumberOption {
            name: "percent",
            usual: shown.percent.as_str(),
            accepted: Accepted::Short,
            help: "Compact everything once the newer runs together exceed this percentage of the oldest run's \
                size (max_size_amplification_percent)",
        },
        NumberOption {
            name: "least",
            usual: shown.least.as_str(),
            accepted: Accepted::Short,
            help: "Compact at least this many runs of similar size (min_merge_width); to lower their number, 2 do",
        },
        NumberOption {
            name: "greatest",
            usual: shown.greatest.as_str(),
            accepted: Accepted::Short,
            help: "Compact at most this many runs at once (max_merge_width)",
        },
    ]
}

/// A subcommand that opens a store, with the store's operator and options.
fn over_a_store<'a>(
    alloc: Global,
    command: Command<'a>,
    shown: &'a Shown,
) -> Result<Command<'a>, AllocError> {
    let command = command.arg(operator(alloc, shown))?;
    with_numbers(alloc, command, &store_options(shown))
}

const REPORT_ABOUT: &str = "Open a write-ahead log, report what the store holds, compact it as \
    universal compaction would, and report again";

const REPORT_HELP: &str = "\
Reads a write-ahead log of LevelDB or RocksDB on standard input, at most 64 MiB, of the kinds that dump
reads, and opens a store from it. A log that ends inside a payload is read up to there. Prints

  run ID slot S points P fragments F size Z seqs LOW HIGH    for each run, the newest first
  total runs R points P fragments F size Z
  keeps SEQUENCE ...
  last SEQUENCE

then a line for each compaction, as long as one is due,

  compacted FIRST COUNT ID    of so many runs from FIRST on, 0 for the newest, into run ID

and what the store holds then. A refused opening prints `refused` and why; standard error names the
option or number.

Status: 0 done, 2 a refused command line or opening, 3 a log with a fault, 4 out of memory, 5 a read or
write fault or too long an input.";

const ASK_ABOUT: &str =
    "Answer queries over a write-ahead log, by workers, while compactors compact its store";

const ASK_HELP: &str = "\
Reads queries on standard input, then a line `log`, and behind it the bytes of a write-ahead log of
LevelDB or RocksDB, of the kinds that dump reads: at most 64 MiB in all. A log that ends inside a
payload is read up to there. The lines are those of a script, and are checked before the log is read.
Empty lines and lines that begin with # are skipped.

  keep SEQUENCE   get KEY SEQUENCE   scan LOW HIGH LIMIT SEQUENCE
  log

Keys are hexadecimal, . for the empty text. SEQUENCE is a number or `last`; a query's has to be kept or
the last one. HIGH is a key or - for none. Prints for each query, in order,

  value VALUE   or   none         what get reads
  rows ROWS, then KEY VALUE ...   what scan reads
  not protected SEQUENCE          where the sequence isn't kept

whatever the numbers of workers, compactors and queries of a piece are. With --later N the answers are
those of the log without its last N writes, which are fed to the store while it answers. A line with a
fault prints `fault line N` and nothing else, a refused opening `refused` and why; standard error
says what is wrong.

Example: (printf 'get 6b last\\nlog\\n'; cat 000003.log) | ucstore ask --operator append

Status: 0 done, 2 a refused command line, query or opening, 3 a log with a fault, 4 out of memory, 5 a
read or write fault or too long an input.";

/// The options of `ask` alone.
static ASK_OPTIONS: [NumberOption<'static>; 4] = [
    NumberOption {
        name: "workers",
        usual: "4",
        accepted: Accepted::Within(1, 64),
        help: "Answer the queries by this many workers, 1 to 64",
    },
    NumberOption {
        name: "piece",
        usual: "16",
        accepted: Accepted::FromOne,
        help: "A worker takes this many queries at a time, at least 1",
    },
    NumberOption {
        name: "compactors",
        usual: "0",
        accepted: Accepted::Within(0, 16),
        help: "Compact by this many threads meanwhile, at most 16",
    },
    NumberOption {
        name: "later",
        usual: "0",
        accepted: Accepted::Long,
        help: "Open without the log's last writes, this many, and feed them one by one meanwhile",
    },
];

const DUMP_ABOUT: &str = "Print what a write-ahead log holds, and where it breaks";

const DUMP_HELP: &str = "\
Reads a write-ahead log of LevelDB or RocksDB on standard input, at most 64 MiB. Prints a line for each
write, in the words of a script behind its sequence, and then one that says how the log ends:

  clean               it was read to its end
  torn OFFSET         it ends inside a payload, which begins there, as when its writer was stopped
  log fault ...       no record may stand at that offset
  batch fault ...     the payload of that number, from 1, is not a batch, or not one that may follow

Of RocksDB's logs these are read: records that aren't recycled, uncompressed, without timestamps, of the
default column family, and of transactions those that aren't prepared.

Status: 0 clean or torn, 3 a fault, 2 a refused command line, 4 out of memory, 5 a read or write fault or
too long an input.";

/// A subcommand: its name, and what its `--help` says.
struct Subcommand {
    name: &'static str,
    about: &'static str,
    help: &'static str,
    options: OptionsOf,
}

/// The options that a subcommand has.
#[derive(Clone, Copy)]
enum OptionsOf {
    None,
    /// The operator and the options of a store.
    Store,
    /// The options of a store, after those of threads.
    Threads,
}

/// The subcommands, in the order in which `--help` names them.
static SUBCOMMANDS: [Subcommand; 4] = [
    Subcommand {
        name: "play",
        about: PLAY_ABOUT,
        help: PLAY_HELP,
        options: OptionsOf::Store,
    },
    Subcommand {
        name: "ask",
        about: ASK_ABOUT,
        help: ASK_HELP,
        options: OptionsOf::Threads,
    },
    Subcommand {
        name: "report",
        about: REPORT_ABOUT,
        help: REPORT_HELP,
        options: OptionsOf::Store,
    },
    Subcommand {
        name: "dump",
        about: DUMP_ABOUT,
        help: DUMP_HELP,
        options: OptionsOf::None,
    },
];

/// A subcommand as `clap` parses it.
fn parsed_subcommand<'a>(
    alloc: Global,
    subcommand: &'a Subcommand,
    shown: &'a Shown,
) -> Result<Command<'a>, AllocError> {
    let command = Command::new(alloc, subcommand.name)
        .about(subcommand.about)
        .after_help(subcommand.help);
    match subcommand.options {
        OptionsOf::None => Ok(command),
        OptionsOf::Store => over_a_store(alloc, command, shown),
        OptionsOf::Threads => {
            over_a_store(alloc, with_numbers(alloc, command, &ASK_OPTIONS)?, shown)
        }
    }
}

/// A command with one more subcommand, unless that could not be allocated.
fn with_subcommand<'a>(
    command: Command<'a>,
    subcommand: Result<Command<'a>, AllocError>,
) -> Result<Command<'a>, AllocError> {
    command.subcommand(subcommand?)
}

/// The whole command line.
pub fn ucstore<'a>(alloc: Global, shown: &'a Shown) -> Result<Command<'a>, AllocError> {
    let mut command = Command::new(alloc, "ucstore")
        .about(ABOUT)
        .version("0.2.0")
        .subcommand_required(true);
    for each in &SUBCOMMANDS {
        command = with_subcommand(command, parsed_subcommand(alloc, each, shown))?;
    }
    Ok(command)
}

/// The options of a subcommand that opens a store that the words set.
pub fn options(matches: &ArgMatches<'_>) -> Options {
    let usual = Options::usual();
    Options {
        memtable: matches.get_one::<u64>("memtable").unwrap_or(usual.memtable),
        trigger: matches.get_one::<u32>("trigger").unwrap_or(usual.trigger),
        ratio: matches.get_one::<u32>("ratio").unwrap_or(usual.ratio),
        percent: matches.get_one::<u32>("percent").unwrap_or(usual.percent),
        least: matches.get_one::<u32>("least").unwrap_or(usual.least),
        greatest: matches.get_one::<u32>("greatest").unwrap_or(usual.greatest),
        first_id: usual.first_id,
    }
}

/// The operator of a subcommand that opens a store. The parser requires one of the names that there are.
pub fn operator_name(matches: &ArgMatches<'_>) -> Option<OperatorName> {
    matches.get_str("operator").and_then(OperatorName::named)
}

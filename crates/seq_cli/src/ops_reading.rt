//! The options of a list of operations.

use crate::command::Command;
use clap::ArgMatches;
use operation_commands::{OpsFilter, OpsForm, OpsRequest, OpsText};
use recording::{Targets, TraceRequest};
use shown_text::Shown;
use std::fmt;
use trace_faults::Beginning;

/// An option of a list of operations that isn't what it takes.
#[derive(Clone, Copy, Debug, PartialEq, Eq)]
pub struct OpsMistake<'a> {
    /// The option, and what it takes.
    pub option: &'static str,
    pub takes: &'static str,
    pub word: &'a str,
}

impl fmt::Display for OpsMistake<'_> {
    fn fmt<W: fmt::Write>(&self, f: &mut fmt::Formatter<W>) -> fmt::Result {
        write!(
            f,
            "--{} takes {}, and not `{}`",
            self.option,
            self.takes,
            Shown::line(self.word)
        )
    }
}

// A number that an option takes.
fn read_number<'a>(
    matches: &ArgMatches<'a>,
    option: &'static str,
) -> Result<Option<u64>, OpsMistake<'a>> {
    let Some(word) = matches.get_str(option) else {
        return Ok(None);
    };
    match u64::from_str_radix(word, 10) {
        Ok(number) => Ok(Some(number)),
        Err(_) => Err(OpsMistake {
            option,
            takes: "a decimal number",
            word,
        }),
    }
}

// A digit of a target or of a LUN.
fn digit_of(word: &str) -> Option<u8> {
    match word {
        "0" => Some(0),
        "1" => Some(1),
        "2" => Some(2),
        "3" => Some(3),
        _ => None,
    }
}

// A chip enable and a LUN of it.
fn lun_of(word: &str) -> Option<(u8, u8)> {
    let (ce, lun) = word.split_once('.')?;
    Some((digit_of(ce)?, digit_of(lun)?))
}

fn read_lun<'a>(
    matches: &ArgMatches<'a>,
    targets: Targets,
) -> Result<Option<(u8, u8)>, OpsMistake<'a>> {
    let Some(word) = matches.get_str("lun") else {
        return Ok(None);
    };
    match lun_of(word) {
        Some((ce, lun)) if ce < targets.count() => Ok(Some((ce, lun))),
        Some(_) | None => Err(OpsMistake {
            option: "lun",
            takes: "a chip enable below TARGETS and a LUN of it, as in 0.1",
            word,
        }),
    }
}

// Two numbers with `-` between, the second no less than the first.
fn span_of(word: &str) -> Option<(usize, usize)> {
    let (first, last) = word.split_once('-')?;
    let first = u64::from_str_radix(first, 10).ok()?;
    let last = u64::from_str_radix(last, 10).ok()?;
    if last < first {
        return None;
    }
    Some((usize::try_from(first).ok()?, usize::try_from(last).ok()?))
}

fn read_items<'a>(matches: &ArgMatches<'a>) -> Result<Option<(usize, usize)>, OpsMistake<'a>> {
    let Some(word) = matches.get_str("items") else {
        return Ok(None);
    };
    match span_of(word) {
        Some(items) => Ok(Some(items)),
        None => Err(OpsMistake {
            option: "items",
            takes: "the numbers of the first item and of the last, as in 100-200",
            word,
        }),
    }
}

fn read_block<'a>(matches: &ArgMatches<'a>) -> Result<Option<u32>, OpsMistake<'a>> {
    match read_number(matches, "block")? {
        None => Ok(None),
        Some(block) => Ok(Some(u32::try_from(block).unwrap_or(u32::MAX))),
    }
}

// The names of operations but for those of openers that have none.
const KINDS: [&str; 32] = [
    "column",
    "column-enhanced",
    "copyback-program",
    "copyback-read",
    "cut",
    "erase",
    "erase-plane",
    "get-features",
    "id",
    "lun-get-features",
    "lun-set-features",
    "odt-configure",
    "parameters",
    "program",
    "program-cache",
    "program-plane",
    "read",
    "read-cache",
    "read-cache-end",
    "read-cache-random",
    "read-plane",
    "ready",
    "reset",
    "reset-lun",
    "resume",
    "set-features",
    "status",
    "synchronous-reset",
    "unique-id",
    "volume-select",
    "zq-long",
    "zq-short",
];

// Whether operations have this name.
fn is_kind(word: &str) -> bool {
    match word.strip_prefix("unknown-") {
        Some(byte) => byte.len() == 2 && u8::from_str_radix(byte, 16).is_ok(),
        None => KINDS.as_slice().contains(&word),
    }
}

fn read_kinds<'a>(matches: &ArgMatches<'a>) -> Result<Option<&'a str>, OpsMistake<'a>> {
    let Some(kinds) = matches.get_str("kind") else {
        return Ok(None);
    };
    match kinds.split(',').find(|kind| !is_kind(kind)) {
        None => Ok(Some(kinds)),
        Some(word) => Err(OpsMistake {
            option: "kind",
            takes: "names that `ops` prints, with commas between several, as in erase,program",
            word,
        }),
    }
}

// The time up to which operations are listed, where it isn't before that of the first.
fn read_end<'a>(
    matches: &ArgMatches<'a>,
    from: Option<u64>,
) -> Result<Option<u64>, OpsMistake<'a>> {
    match read_number(matches, "to")? {
        Some(to) if to < from.unwrap_or(0) => Err(OpsMistake {
            option: "to",
            takes: "a time that isn't before that of --from",
            word: matches.get_str("to").unwrap_or(""),
        }),
        to => Ok(to),
    }
}

fn read_filter<'a>(
    matches: &ArgMatches<'a>,
    targets: Targets,
) -> Result<OpsFilter<'a>, OpsMistake<'a>> {
    let from = read_number(matches, "from")?;
    Ok(OpsFilter {
        lun: read_lun(matches, targets)?,
        block: read_block(matches)?,
        kinds: read_kinds(matches)?,
        items: read_items(matches)?,
        from,
        to: read_end(matches, from)?,
    })
}

// How the operations are printed.
fn read_form(matches: &ArgMatches<'_>) -> OpsForm {
    if matches.get_flag("csv") {
        OpsForm::Csv
    } else if matches.get_flag("json") {
        OpsForm::Json {
            has_bytes: matches.get_flag("bytes"),
        }
    } else {
        OpsForm::Text(OpsText {
            has_polls: matches.get_flag("polls"),
            has_bytes: matches.get_flag("bytes"),
            has_summary: !matches.get_flag("no-summary"),
        })
    }
}

/// What a list of operations is asked for, of these files.
pub(crate) fn read_ops<'a>(
    matches: &ArgMatches<'a>,
    trace: TraceRequest<'a>,
    beginning: Beginning,
) -> Result<Command<'a>, OpsMistake<'a>> {
    Ok(Command::ListOperations(OpsRequest {
        trace,
        beginning,
        form: read_form(matches),
        filter: read_filter(matches, trace.targets)?,
    }))
}

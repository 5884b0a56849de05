//! The options of a check that say how its times are judged.

use clap::ArgMatches;
use recording::{TimesRequest, TimingSource};
use shown_text::Shown;
use std::fmt;
use trace_timing::TimingMode;

/// What is wrong with the options about times.
#[derive(Clone, Copy, Debug, PartialEq, Eq)]
pub enum TimingMistake<'a> {
    /// `--timing` wants a unit.
    NoUnit,
    /// This is no unit.
    Unit(&'a str),
    /// This is no number of units.
    Slack(&'a str),
    /// `--unit` and `--slack` are for `--timing`.
    NoTiming,
    /// Edges are judged by a mode or by a timing file.
    NoSource,
}

impl fmt::Display for TimingMistake<'_> {
    fn fmt<W: fmt::Write>(&self, f: &mut fmt::Formatter<W>) -> fmt::Result {
        match self {
            TimingMistake::NoUnit => f.write_str(
                "--timing wants --unit, what 1 of a time is: 1ns, 10ns, 100ps; the dump of a capture says it as its $timescale",
            ),
            TimingMistake::Unit(word) => write!(
                f,
                "--unit takes 1, 10 or 100 of s, ms, us, ns, ps or fs, as in 1ns, and not `{}`",
                Shown::line(word)
            ),
            TimingMistake::Slack(word) => write!(
                f,
                "--slack takes a decimal number of units, 0 to 18446744073709551615, and not `{}`",
                Shown::line(word)
            ),
            TimingMistake::NoTiming => f.write_str("--unit and --slack go with --timing"),
            TimingMistake::NoSource => f.write_str(
                "`timing` wants --timing, a timing mode, 0 to 5, or a timing file",
            ),
        }
    }
}

// The femtoseconds of one of these.
fn femtoseconds_of(name: &str) -> Option<u64> {
    match name {
        "fs" => Some(1),
        "ps" => Some(1_000),
        "ns" => Some(1_000_000),
        "us" => Some(1_000_000_000),
        "ms" => Some(1_000_000_000_000),
        "s" => Some(1_000_000_000_000_000),
        _ => None,
    }
}

// The femtoseconds of a unit: 1, 10 or 100 of s, ms, us, ns, ps or fs.
fn unit_of(word: &str) -> Option<u64> {
    for (count, digits) in [(100u64, "100"), (10, "10"), (1, "1")] {
        if let Some(name) = word.strip_prefix(digits) {
            return femtoseconds_of(name)?.checked_mul(count);
        }
    }
    None
}

// The unit that is given.
fn read_unit<'a>(given: Option<&'a str>) -> Result<u64, TimingMistake<'a>> {
    let Some(word) = given else {
        return Err(TimingMistake::NoUnit);
    };
    unit_of(word).ok_or(TimingMistake::Unit(word))
}

// The slack that is given, in units.
fn read_slack<'a>(given: Option<&'a str>) -> Result<u64, TimingMistake<'a>> {
    let Some(word) = given else {
        return Ok(0);
    };
    u64::from_str_radix(word, 10).map_err(|_| TimingMistake::Slack(word))
}

// A mode is one digit; any other word is the path of a timing file.
fn source_of(word: &str) -> TimingSource<'_> {
    match TimingMode::of(word) {
        Some(mode) => TimingSource::Mode(mode),
        None => TimingSource::File(word),
    }
}

/// How the times of a trace are judged, if they are.
pub(crate) fn read_times<'a>(
    matches: &ArgMatches<'a>,
) -> Result<Option<TimesRequest<'a>>, TimingMistake<'a>> {
    let (unit, slack) = (matches.get_str("unit"), matches.get_str("slack"));
    let Some(word) = matches.get_str("timing") else {
        return match (unit, slack) {
            (None, None) => Ok(None),
            (Some(_), _) | (None, Some(_)) => Err(TimingMistake::NoTiming),
        };
    };
    let unit = read_unit(unit)?;
    Ok(Some(TimesRequest {
        source: source_of(word),
        unit,
        slack: read_slack(slack)?.saturating_mul(unit),
    }))
}

/// How the edges of a capture are judged.
#[derive(Clone, Copy)]
pub(crate) struct EdgeOptions<'a> {
    pub(crate) source: TimingSource<'a>,
    /// Where the capture doesn't say it.
    pub(crate) unit: Option<u64>,
    /// In units.
    pub(crate) slack: u64,
}

// The unit that is given, if one is.
fn read_unit_if<'a>(given: Option<&'a str>) -> Result<Option<u64>, TimingMistake<'a>> {
    match given {
        None => Ok(None),
        Some(_) => Ok(Some(read_unit(given)?)),
    }
}

/// How the edges of a capture are judged.
pub(crate) fn read_edge_options<'a>(
    matches: &ArgMatches<'a>,
) -> Result<EdgeOptions<'a>, TimingMistake<'a>> {
    let Some(word) = matches.get_str("timing") else {
        return Err(TimingMistake::NoSource);
    };
    Ok(EdgeOptions {
        source: source_of(word),
        unit: read_unit_if(matches.get_str("unit"))?,
        slack: read_slack(matches.get_str("slack"))?,
    })
}

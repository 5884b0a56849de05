//! A command line that asks for nothing that can be done.

use crate::command::{Command, Paths};
use crate::data_reading::DataMistake;
use crate::named_command::NamedCommand;
use crate::ops_reading::OpsMistake;
use crate::times_reading::TimingMistake;
use clap::Error;
use seq_files::{Clash, FileError, Files, Use, UsedFile, find_clash};
use shown_text::Shown;
use std::alloc::{AllocError, Global};
use std::fmt;

/// What is wrong with the paths of a command.
#[derive(Clone, Copy, Debug, PartialEq, Eq)]
pub enum PathMistake<'a> {
    /// What is written would go where `ok` or the trace is printed.
    OutputToStream,
    /// Two files are to be read from standard input.
    InputTwice,
    /// What is read would be written over.
    WrittenOver(&'a str),
    /// Two files would be written to one path.
    WrittenTwice(&'a str),
    /// What is read by one path would be written over by another.
    WrittenOverBy { output: &'a str, input: &'a str },
    /// One file would be written to by two paths.
    WrittenTwiceBy { output: &'a str, other: &'a str },
    /// The traces of several checks would be written to one file.
    SeveralWritten,
}

impl fmt::Display for PathMistake<'_> {
    fn fmt<W: fmt::Write>(&self, f: &mut fmt::Formatter<W>) -> fmt::Result {
        match self {
            PathMistake::OutputToStream => f.write_str(
                "a file to write can't be `-`: what the command prints would be mixed with it",
            ),
            PathMistake::InputTwice => {
                f.write_str("`-` stands for standard input, which can be read once")
            }
            PathMistake::WrittenOver(path) => write!(
                f,
                "{} would be written over: it is read by this command",
                Shown::path(path)
            ),
            PathMistake::WrittenTwice(path) => write!(
                f,
                "{} would be written twice: each file to write has a path of its own",
                Shown::path(path)
            ),
            PathMistake::WrittenOverBy { output, input } => write!(
                f,
                "{} would be written over: it is the same file as {}, which is read by this command",
                Shown::path(output),
                Shown::path(input)
            ),
            PathMistake::WrittenTwiceBy { output, other } => write!(
                f,
                "{} would be written twice: it is the same file as {}",
                Shown::path(output),
                Shown::path(other)
            ),
            PathMistake::SeveralWritten => f.write_str("--write takes one trace"),
        }
    }
}

// The files of these paths, which are used so.
fn list_uses<'a>(
    alloc: Global,
    paths: &[Option<&'a str>],
    usage: Use,
) -> Result<Vec<UsedFile<'a>>, AllocError> {
    let mut uses = Vec::new(alloc);
    for path in paths {
        if let Some(path) = *path {
            uses.push(UsedFile {
                path,
                usage,
                line: None,
            })?;
        }
    }
    Ok(uses)
}

impl<'a> From<Clash<'a>> for PathMistake<'a> {
    fn from(clash: Clash<'a>) -> Self {
        let output = clash.output.path;
        let other = clash.other.path;
        match clash.other.usage {
            Use::Written => PathMistake::WrittenTwiceBy { output, other },
            Use::Read => PathMistake::WrittenOverBy {
                output,
                input: other,
            },
        }
    }
}

impl<'a> PathMistake<'a> {
    /// What is wrong with the files that this command names, if two of its paths lead to one file that it writes. `upgrade` may write over what it has read.
    pub(crate) fn among_files<F: Files>(
        alloc: Global,
        files: &F,
        command: Command<'a>,
    ) -> Result<Option<PathMistake<'a>>, FileError> {
        if matches!(command, Command::Upgrade { .. }) {
            return Ok(None);
        }
        let Paths { inputs, outputs } = command.paths();
        let outputs = list_uses(alloc, &outputs, Use::Written)?;
        let inputs = list_uses(alloc, &inputs, Use::Read)?;
        let clash = find_clash(alloc, files, outputs.as_slice(), inputs.as_slice())?;
        Ok(clash.map(PathMistake::from))
    }

    /// What is wrong with further files that a command is to read, if something is. What stands beside these files is read for each of them, so it can't be a stream.
    pub(crate) fn among(first: Command<'a>, more: &[&'a str]) -> Option<PathMistake<'a>> {
        let Paths { inputs, outputs } = first.paths();
        if more.is_empty() {
            return None;
        }
        if outputs != [None, None, None] {
            return Some(PathMistake::SeveralWritten);
        }
        let named = inputs.iter().filter(|path| **path == Some("-")).count();
        let further = more.iter().filter(|path| **path == "-").count();
        let is_file = NamedCommand::of(first).is_some_and(|named| named.path() == "-");
        if usize::from(is_file) < named || 1 < named.saturating_add(further) {
            return Some(PathMistake::InputTwice);
        }
        None
    }

    // What is wrong with a path that is written beside these, if something is.
    fn of_output(output: &'a str, command: Command<'a>) -> Option<PathMistake<'a>> {
        let Paths { inputs, outputs } = command.paths();
        if output == "-" {
            return Some(PathMistake::OutputToStream);
        }
        if inputs.contains(&Some(output)) && !matches!(command, Command::Upgrade { .. }) {
            return Some(PathMistake::WrittenOver(output));
        }
        let same = outputs.iter().filter(|other| **other == Some(output));
        if 1 < same.count() {
            return Some(PathMistake::WrittenTwice(output));
        }
        None
    }

    /// What is wrong with the paths of this command, if something is. `upgrade` may write over what it has read.
    pub(crate) fn find(command: Command<'a>) -> Option<PathMistake<'a>> {
        let Paths { inputs, outputs } = command.paths();
        if 1 < inputs.iter().filter(|path| **path == Some("-")).count() {
            return Some(PathMistake::InputTwice);
        }
        for output in outputs {
            if let Some(path) = output
                && let Some(mistake) = PathMistake::of_output(path, command)
            {
                return Some(mistake);
            }
        }
        None
    }
}

/// Why the words of a command line give no command.
#[derive(Drop)]
pub enum Mistake<'a> {
    /// The parser has a text for the user: of a mistake, or help that was asked for.
    Words(Error),
    /// No command is asked for.
    NoCommand,
    /// The index of `--base` isn't a number.
    Base(&'a str),
    /// The number of steps of an option isn't one of 64 bits.
    Steps { option: &'static str, word: &'a str },
    /// The number of `--glitch` isn't one of 64 bits.
    Glitch(&'a str),
    /// The word of `--outputs` is neither `rise` nor `+` and a number of 64 bits.
    Outputs(&'a str),
    /// A part of `--map` isn't a role and the name of a signal.
    Mapping(&'a str),
    /// This option describes a chip whose page is made, and none is.
    NotMade(&'static str),
    /// A word of `--declare` names nothing that a page declares beyond the base profile.
    Declared(&'a str),
    /// A word of `--deny` or `--allow` isn't the code of a note.
    NoteCode { option: &'static str, word: &'a str },
    /// A code stands in both.
    NoteTwice(&'a str),
    /// `page` is asked neither to show a page nor to make one.
    NoPage,
    /// The number of an option of `page` isn't one.
    PageNumber { option: &'static str, word: &'a str },
    /// This option doesn't go with `--from-middle`.
    FromMiddle(&'static str),
    /// The options about times don't go together, or one isn't what it takes.
    Timing(TimingMistake<'a>),
    /// The options about data don't go together, or one isn't what it takes.
    Data(DataMistake<'a>),
    /// An option of a list of operations isn't what it takes.
    Ops(OpsMistake<'a>),
    /// The paths don't go together.
    Paths(PathMistake<'a>),
}

impl<'a> From<OpsMistake<'a>> for Mistake<'a> {
    fn from(mistake: OpsMistake<'a>) -> Self {
        Mistake::Ops(mistake)
    }
}

impl<'a> From<DataMistake<'a>> for Mistake<'a> {
    fn from(mistake: DataMistake<'a>) -> Self {
        Mistake::Data(mistake)
    }
}

impl<'a> From<TimingMistake<'a>> for Mistake<'a> {
    fn from(mistake: TimingMistake<'a>) -> Self {
        Mistake::Timing(mistake)
    }
}

impl From<Error> for Mistake<'_> {
    fn from(error: Error) -> Self {
        Mistake::Words(error)
    }
}

impl fmt::Display for Mistake<'_> {
    fn fmt<W: fmt::Write>(&self, f: &mut fmt::Formatter<W>) -> fmt::Result {
        match self {
            Mistake::Words(error) => write!(f, "{error}"),
            Mistake::NoCommand => writeln!(
                f,
                "error: a command is wanted; `onfiseq help` names them"
            ),
            Mistake::Base(word) => writeln!(
                f,
                "error: --base takes a row, 0 to 31, as a decimal number or as 0x and hexadecimal digits, and not `{}`",
                Shown::line(word)
            ),
            Mistake::Steps { option, word } => writeln!(
                f,
                "error: {option} takes a decimal number, 0 to 18446744073709551615, and not `{}`",
                Shown::line(word)
            ),
            Mistake::Glitch(word) => writeln!(
                f,
                "error: --glitch takes a decimal number, 0 to 18446744073709551615, and not `{}`",
                Shown::line(word)
            ),
            Mistake::NotMade(option) => writeln!(
                f,
                "error: --{option} describes a chip whose page is made, so it goes with neither --from nor --show"
            ),
            Mistake::Declared(word) => writeln!(
                f,
                "error: --declare takes names with commas between several, program-cache, group-cache, features, copyback, odd-even, unique-id, enhanced-column, lun-reset, synchronous-reset, plane-reads and free-blocks, and not `{}`",
                Shown::line(word)
            ),
            Mistake::Outputs(word) => writeln!(
                f,
                "error: --outputs takes rise, or + and a decimal number, 0 to 18446744073709551615, and not `{}`",
                Shown::line(word)
            ),
            Mistake::Mapping(part) => writeln!(
                f,
                "error: --map takes ROLE=NAME with commas between several, the role one of CE0 to CE3, CLE, ALE, WE, RE, DQ, DQ0 to DQ7 and RB0 to RB3, and not `{}`",
                Shown::line(part)
            ),
            Mistake::NoteCode { option, word } => writeln!(
                f,
                "error: --{option} takes codes of notes, N1 to N8, with commas between several, and not `{}`",
                Shown::line(word)
            ),
            Mistake::NoteTwice(code) => {
                writeln!(
                    f,
                    "error: --deny and --allow both have {code}: leave it out of one"
                )
            }
            Mistake::NoPage => writeln!(
                f,
                "error: page takes --show PAGE, or a file to write with --from IN or with --data, --spare, --pages and --blocks"
            ),
            Mistake::PageNumber { option, word } => writeln!(
                f,
                "error: --{option} takes a decimal number, 0 to 4294967295, and not `{}`",
                Shown::line(word)
            ),
            Mistake::FromMiddle(option) => writeln!(
                f,
                "error: --{option} and --from-middle don't go together: what the dies held and what their LUNs were at when the recording began isn't known"
            ),
            Mistake::Ops(mistake) => writeln!(f, "error: {mistake}"),
            Mistake::Timing(mistake) => writeln!(f, "error: {mistake}"),
            Mistake::Data(mistake) => writeln!(f, "error: {mistake}"),
            Mistake::Paths(mistake) => writeln!(f, "error: {mistake}"),
        }
    }
}

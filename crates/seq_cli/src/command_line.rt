//! The command line.

use crate::command::Command;
use crate::data_reading::{number_of, read_data, read_image};
use crate::declarations;
use crate::declared::{Declaration, with_all};
use crate::mistake::{Mistake, PathMistake};
use crate::named_command::NamedCommand;
use crate::ops_reading::read_ops;
use crate::times_reading::{EdgeOptions, read_edge_options, read_times};
use bus_capture::CaptureForm;
use bus_signals::{Family, named, plain_of};
use clap::{ArgMatches, Error};
use edge_commands::EdgeRequest;
use nand_geometry::{Optional, Parts, Profile};
use onfi_cycle::Lun;
use page_commands::declared_by;
use program_commands::{LintOutput, LintRequest, NoteRules, VerifyRequest};
use recording::{CaptureRequest, CheckRequest, GivenImage, Targets, TraceRequest};
use seq_inputs::{PageFile, Style};
use seq_run::{MOST_STEPS, RunRequest};
use std::alloc::Global;
use trace_commands::{DrawRequest, ImageRequest, PageRequest, PageSource};
use trace_faults::{Beginning, Readies};
use trace_files::{DrawForm, Drawing, TraceOutputs};
use trace_text::TraceForm;
use trace_timing::TimingMode;

/// The commands by their words, in the order in which an author uses them. One that is declared here is declared to the parser, and read, or
/// nothing of it compiles.
#[derive(Clone, Copy, Debug, PartialEq, Eq)]
enum Verb {
    Assemble,
    Verify,
    Lint,
    Explain,
    Once,
    Run,
    Capture,
    Check,
    Timing,
    Image,
    Ops,
    Wave,
    Draw,
    Disassemble,
    Page,
    Upgrade,
}

// All of them.
const VERBS: [Verb; 16] = [
    Verb::Assemble,
    Verb::Verify,
    Verb::Lint,
    Verb::Explain,
    Verb::Once,
    Verb::Run,
    Verb::Capture,
    Verb::Check,
    Verb::Timing,
    Verb::Image,
    Verb::Ops,
    Verb::Wave,
    Verb::Draw,
    Verb::Disassemble,
    Verb::Page,
    Verb::Upgrade,
];

impl Verb {
    // Its word.
    fn word<'a>(self) -> &'a str {
        match self {
            Verb::Assemble => "asm",
            Verb::Verify => "verify",
            Verb::Lint => "lint",
            Verb::Explain => "explain",
            Verb::Once => "once",
            Verb::Run => "run",
            Verb::Capture => "capture",
            Verb::Check => "check",
            Verb::Timing => "timing",
            Verb::Image => "image",
            Verb::Ops => "ops",
            Verb::Wave => "wave",
            Verb::Draw => "draw",
            Verb::Disassemble => "dis",
            Verb::Page => "page",
            Verb::Upgrade => "upgrade",
        }
    }

    // The verb of a word.
    fn find(word: &str) -> Option<Verb> {
        VERBS
            .as_slice()
            .iter()
            .copied()
            .find(|verb| verb.word() == word)
    }

    // What the parser is told of it.
    fn declaration(self) -> Declaration {
        match self {
            Verb::Assemble => declarations::ASSEMBLE,
            Verb::Verify => declarations::VERIFY,
            Verb::Lint => declarations::LINT,
            Verb::Explain => declarations::EXPLAIN,
            Verb::Once => declarations::ONCE,
            Verb::Run => declarations::RUN,
            Verb::Capture => declarations::CAPTURE,
            Verb::Check => declarations::CHECK,
            Verb::Timing => declarations::TIMING,
            Verb::Image => declarations::WRITE_IMAGE,
            Verb::Ops => declarations::OPS,
            Verb::Wave => declarations::DRAW_WAVE,
            Verb::Draw => declarations::DRAW_PICTURE,
            Verb::Disassemble => declarations::DISASSEMBLE,
            Verb::Page => declarations::MAKE_PAGE,
            Verb::Upgrade => declarations::UPGRADE,
        }
    }

    // The command of the parser.
    fn declare<'a>(self, alloc: Global) -> Result<clap::Command<'a>, Error> {
        let Declaration {
            about,
            example,
            arguments,
        } = self.declaration();
        let command = clap::Command::new(alloc, self.word())
            .about(about)
            .after_help(example);
        with_all(alloc, command, arguments)
    }

    // The command that it and its arguments ask for.
    fn read<'a>(
        self,
        matches: &ArgMatches<'a>,
        images: &'a [GivenImage<'a>],
    ) -> Result<Command<'a>, Mistake<'a>> {
        let input = find_word(matches, "IN");
        let page = find_word(matches, "PAGE");
        let target = find_word(matches, "OUT");
        Ok(match self {
            Verb::Assemble => read_assemble(matches),
            Verb::Verify => Command::Verify(VerifyRequest {
                page: read_page_file(matches, page),
                input,
                counter: read_outputs(matches, "counter"),
                search: read_steps("--search", matches.get_str("search"), MOST_SEARCHED)?,
                is_quiet: matches.get_flag("quiet"),
                style: read_style(matches),
            }),
            Verb::Lint => Command::Lint(LintRequest {
                page: read_page_file(matches, page),
                input,
                output: read_lint_output(matches),
                rules: read_note_rules(matches)?,
            }),
            Verb::Explain => Command::Explain {
                page: read_page_file(matches, page),
                input,
                style: read_style(matches),
            },
            Verb::Once => Command::Once {
                base: read_base(find_word(matches, "base"))?,
            },
            Verb::Run => Command::Run(read_run(matches)?),
            Verb::Capture => Command::Capture(read_capture(matches)?),
            Verb::Check => Command::Check(read_check(matches, images)?),
            Verb::Timing => Command::Timing(read_edges(matches)?),
            Verb::Image => Command::WriteImage(read_image_request(matches)),
            Verb::Ops => read_ops(
                matches,
                TraceRequest {
                    form: TraceForm::Recorded,
                    ..read_trace(matches)
                },
                read_beginning(matches),
            )?,
            Verb::Wave => Command::Draw(read_draw(matches, DrawForm::Waveform)),
            Verb::Draw => Command::Draw(read_draw(matches, form_of(target))),
            Verb::Disassemble => Command::Disassemble { input },
            Verb::Page => read_page(matches)?,
            Verb::Upgrade => Command::Upgrade { input, target },
        })
    }
}

// How many steps a search for the run of a refusal takes at most, if nothing is said.
const MOST_SEARCHED: u64 = 100_000;

// The command line, as it is declared. It has its name in usage, however the program was called.
fn declare<'a>(alloc: Global) -> Result<clap::Command<'a>, Error> {
    let mut command = clap::Command::new(alloc, "onfiseq")
        .bin_name("onfiseq")?
        .version("0.2.0")
        .about("Verifies microprograms of NAND flash, and runs them on a modelled channel")
        .after_help(
            "Examples: onfiseq verify die.page erase.asm; onfiseq check die.page 1 bus.trace; onfiseq run channel.run",
        )
        .subcommand_required(true);
    for verb in VERBS {
        command = command.subcommand(verb.declare(alloc)?)?;
    }
    Ok(command)
}

// The word that is given for an argument; one that has to be given is there.
fn find_word<'a>(matches: &ArgMatches<'a>, id: &str) -> &'a str {
    matches.get_str(id).unwrap_or("")
}

// The number of targets; the parser takes no other word than 1 to 4.
fn read_targets(word: &str) -> Targets {
    match word {
        "1" => Targets::One,
        "2" => Targets::Two,
        "3" => Targets::Three,
        _ => Targets::Four,
    }
}

// What a lint prints.
fn read_lint_output(matches: &ArgMatches<'_>) -> LintOutput {
    if matches.get_flag("fix") {
        LintOutput::Header
    } else if matches.get_flag("json") {
        LintOutput::Json
    } else {
        LintOutput::Notes
    }
}

// The codes of notes.
const NOTE_CODES: [&str; 8] = ["N1", "N2", "N3", "N4", "N5", "N6", "N7", "N8"];

// The codes that an option lists.
fn read_codes<'a>(
    matches: &ArgMatches<'a>,
    option: &'static str,
) -> Result<Option<&'a str>, Mistake<'a>> {
    let codes = matches.get_str(option);
    let other = codes.and_then(|codes| {
        codes
            .split(',')
            .find(|code| !NOTE_CODES.as_slice().contains(code))
    });
    match other {
        Some(word) => Err(Mistake::NoteCode { option, word }),
        None => Ok(codes),
    }
}

// A code that two lists have.
fn find_shared<'a>(codes: &'a str, others: &str) -> Option<&'a str> {
    codes
        .split(',')
        .find(|code| others.split(',').any(|other| other == *code))
}

// Which notes count.
fn read_note_rules<'a>(matches: &ArgMatches<'a>) -> Result<NoteRules<'a>, Mistake<'a>> {
    let allowed = read_codes(matches, "allow")?;
    let denied = read_codes(matches, "deny")?;
    if let (Some(codes), Some(others)) = (denied, allowed)
        && let Some(code) = find_shared(codes, others)
    {
        return Err(Mistake::NoteTwice(code));
    }
    Ok(NoteRules { allowed, denied })
}

// How what is wrong is said.
fn read_style(matches: &ArgMatches<'_>) -> Style {
    if matches.get_flag("json") {
        Style::Json
    } else {
        Style::Plain
    }
}

// What a page is read for; the parser takes no other word than base and onfi.
fn read_profile(matches: &ArgMatches<'_>) -> Profile {
    match matches.get_str("profile") {
        Some("onfi") => Profile::Onfi,
        _ => Profile::Base,
    }
}

// A page at this path with its profile.
fn read_page_file<'a>(matches: &ArgMatches<'_>, path: &'a str) -> PageFile<'a> {
    PageFile {
        path,
        profile: read_profile(matches),
    }
}

// The form of a trace; times stand in a recorded one.
fn read_form(matches: &ArgMatches<'_>) -> TraceForm {
    if matches.get_flag("recorded") || matches.get_str("timing").is_some() {
        TraceForm::Recorded
    } else {
        TraceForm::Strict
    }
}

// Where the readies of a trace are.
fn read_readies(matches: &ArgMatches<'_>) -> Readies {
    if matches.get_flag("readies-from-status") {
        Readies::Shown
    } else {
        Readies::Written
    }
}

// Something is a role that signals may have.
fn is_role(word: &str) -> bool {
    named(plain_of(word.as_bytes())).family != Family::Other
}

// What is said of one signal: of which role it is.
fn is_mapping(part: &str) -> bool {
    match part.split_once('=') {
        Some((role, name)) => is_role(role) && !name.is_empty(),
        None => false,
    }
}

// The first part of a line of mappings that is none.
fn find_other(line: &str) -> Option<&str> {
    line.split(',').find(|part| !is_mapping(part))
}

// What is said of signals.
fn read_mappings<'a>(matches: &ArgMatches<'a>) -> Result<Option<&'a str>, Mistake<'a>> {
    let line = matches.get_str("map");
    match line.and_then(find_other) {
        Some(part) => Err(Mistake::Mapping(part)),
        None => Ok(line),
    }
}

// A name ends so, in small letters or in capitals.
fn has_extension(path: &str, extension: &str) -> bool {
    let name = path.as_bytes();
    match name.len().checked_sub(extension.len()) {
        Some(start) => name[start..].eq_ignore_ascii_case(extension.as_bytes()),
        None => false,
    }
}

// As what a capture of this name is read.
fn form_of_capture(matches: &ArgMatches<'_>, input: &str) -> CaptureForm {
    if matches.get_flag("csv") || has_extension(input, ".csv") {
        CaptureForm::Table
    } else {
        CaptureForm::Dump
    }
}

// What the edges of a capture are judged for.
fn read_edges<'a>(matches: &ArgMatches<'a>) -> Result<EdgeRequest<'a>, Mistake<'a>> {
    let input = find_word(matches, "IN");
    let EdgeOptions {
        source,
        unit,
        slack,
    } = read_edge_options(matches)?;
    Ok(EdgeRequest {
        page: find_word(matches, "PAGE"),
        profile: read_profile(matches),
        targets: read_targets(find_word(matches, "TARGETS")),
        input,
        form: form_of_capture(matches, input),
        mappings: read_mappings(matches)?,
        source,
        unit,
        slack,
        tells_all: matches.get_flag("all"),
    })
}

// The time after which a strobe may change again.
fn read_glitch<'a>(given: Option<&'a str>) -> Result<u64, Mistake<'a>> {
    let Some(word) = given else {
        return Ok(0);
    };
    u64::from_str_radix(word, 10).map_err(|_| Mistake::Glitch(word))
}

// How far behind the rise of RE# an output is taken: `rise`, or `+` and a number.
fn read_output_delay<'a>(given: Option<&'a str>) -> Result<Option<u64>, Mistake<'a>> {
    let Some(word) = given else {
        return Ok(None);
    };
    if word == "rise" {
        return Ok(None);
    }
    let Some(digits) = word.strip_prefix('+') else {
        return Err(Mistake::Outputs(word));
    };
    match u64::from_str_radix(digits, 10) {
        Ok(late) if !digits.starts_with('+') => Ok(Some(late)),
        Ok(_) | Err(_) => Err(Mistake::Outputs(word)),
    }
}

// What a capture is read for.
fn read_capture<'a>(matches: &ArgMatches<'a>) -> Result<CaptureRequest<'a>, Mistake<'a>> {
    let input = find_word(matches, "IN");
    Ok(CaptureRequest {
        page: find_word(matches, "PAGE"),
        profile: read_profile(matches),
        targets: read_targets(find_word(matches, "TARGETS")),
        input,
        form: form_of_capture(matches, input),
        target: target_of(find_word(matches, "OUT")),
        mappings: read_mappings(matches)?,
        has_times: matches.get_flag("times"),
        glitch: read_glitch(matches.get_str("glitch"))?,
        late: read_output_delay(matches.get_str("outputs"))?,
        vendor: matches.get_str("vendor"),
    })
}

// Where the trace of a capture is written to; `-` prints it.
fn target_of(word: &str) -> Option<&str> {
    match word {
        "-" => None,
        _ => Some(word),
    }
}

// Which trace is read.
fn read_trace<'a>(matches: &ArgMatches<'a>) -> TraceRequest<'a> {
    TraceRequest {
        page: find_word(matches, "PAGE"),
        profile: read_profile(matches),
        targets: read_targets(find_word(matches, "TARGETS")),
        input: find_word(matches, "TRACE"),
        form: read_form(matches),
        vendor: matches.get_str("vendor"),
    }
}

// The number of an option of `page`; none where it isn't given.
fn read_chip_number<'a>(
    matches: &ArgMatches<'a>,
    option: &'static str,
) -> Result<Option<u32>, Mistake<'a>> {
    match matches.get_str(option) {
        None => Ok(None),
        Some(word) => match u32::from_str_radix(word, 10) {
            Ok(number) => Ok(Some(number)),
            Err(_) => Err(Mistake::PageNumber { option, word }),
        },
    }
}

// A number of `page` that has to be given.
fn need_chip_number<'a>(
    matches: &ArgMatches<'a>,
    option: &'static str,
) -> Result<u32, Mistake<'a>> {
    read_chip_number(matches, option)?.ok_or(Mistake::NoPage)
}

// The plane bits of a number of planes; the parser takes no other word than 1, 2 and 4.
fn read_plane_bits(given: Option<&str>) -> u8 {
    match given {
        Some("2") => 1,
        Some("4") => 2,
        _ => 0,
    }
}

// What the page declares beyond the base profile.
fn read_declared<'a>(names: Option<&'a str>) -> Result<Optional, Mistake<'a>> {
    match names {
        None => Ok(Optional::NONE),
        Some(names) => declared_by(names).map_err(Mistake::Declared),
    }
}

// The chip whose page is made. A number of LUNs that no byte holds is one that no chip has, as the greatest byte is.
fn read_chip<'a>(matches: &ArgMatches<'a>) -> Result<Parts, Mistake<'a>> {
    let luns = read_chip_number(matches, "luns")?.unwrap_or(1);
    let plane_bits = read_plane_bits(matches.get_str("planes"));
    Ok(Parts {
        page_bytes: need_chip_number(matches, "data")?,
        spare_bytes: need_chip_number(matches, "spare")?,
        pages: need_chip_number(matches, "pages")?,
        blocks: need_chip_number(matches, "blocks")?,
        luns: luns.min(255) as u8,
        plane_bits,
        enhanced: matches.get_flag("status-enhanced"),
        multi_plane: plane_bits > 0,
        cache: matches.get_flag("cache"),
        optional: read_declared(matches.get_str("declare"))?,
    })
}

// What a parameter page is taken of: a capture, where its name or an option says so, and else a trace.
fn read_page_source<'a>(
    matches: &ArgMatches<'a>,
    input: &str,
) -> Result<PageSource<'a>, Mistake<'a>> {
    let form = form_of_capture(matches, input);
    let mappings = read_mappings(matches)?;
    if form == CaptureForm::Table || has_extension(input, ".vcd") || mappings.is_some() {
        Ok(PageSource::Capture { form, mappings })
    } else {
        Ok(PageSource::Trace)
    }
}

// The options of `page` that describe a chip: those with a value, and flags.
const CHIP_VALUES: [&str; 7] = [
    "data", "spare", "pages", "blocks", "luns", "planes", "declare",
];

const CHIP_FLAGS: [&str; 2] = ["cache", "status-enhanced"];

// The page isn't made of numbers: no option describes a chip.
fn refuse_chip<'a>(matches: &ArgMatches<'a>) -> Result<(), Mistake<'a>> {
    let value = CHIP_VALUES
        .iter()
        .find(|name| matches.get_str(name).is_some());
    match value.or_else(|| CHIP_FLAGS.iter().find(|name| matches.get_flag(name))) {
        Some(option) => Err(Mistake::NotMade(option)),
        None => Ok(()),
    }
}

// What is asked of a parameter page.
fn read_page<'a>(matches: &ArgMatches<'a>) -> Result<Command<'a>, Mistake<'a>> {
    let from = matches.get_str("from");
    let show = matches.get_str("show");
    if from.is_some() || show.is_some() {
        refuse_chip(matches)?;
    }
    match (show, matches.get_str("OUT"), from) {
        (Some(page), None, None) => Ok(Command::ShowPage(read_page_file(matches, page))),
        (None, Some(target), None) => Ok(Command::MakePage {
            parts: read_chip(matches)?,
            target,
        }),
        (None, Some(target), Some(input)) => Ok(Command::TakePage(PageRequest {
            source: read_page_source(matches, input)?,
            input,
            vendor: matches.get_str("vendor"),
            target,
        })),
        (Some(_), Some(_), _) | (Some(_), _, Some(_)) | (None, None, _) => Err(Mistake::NoPage),
    }
}

// The assembly that is asked for.
fn read_assemble<'a>(matches: &ArgMatches<'a>) -> Command<'a> {
    let input = find_word(matches, "IN");
    let target = find_word(matches, "OUT");
    match matches.get_str("auto") {
        None => Command::Assemble { input, target },
        Some(page) => Command::AssembleFor {
            page: read_page_file(matches, page),
            input,
            target,
        },
    }
}

// Where the recording of a trace begins.
fn read_beginning(matches: &ArgMatches<'_>) -> Beginning {
    if matches.get_flag("from-middle") {
        Beginning::Middle
    } else {
        Beginning::Start
    }
}

// Nobody knows what the dies held, nor what a LUN was at, where a recording begins in the middle.
fn refuse_middle<'a>(matches: &ArgMatches<'a>) -> Result<(), Mistake<'a>> {
    if !matches.get_flag("from-middle") {
        return Ok(());
    }
    if matches.get_flag("data") {
        return Err(Mistake::FromMiddle("data"));
    }
    match matches.get_str("write") {
        Some(_) => Err(Mistake::FromMiddle("write")),
        None => Ok(()),
    }
}

// What a check is asked for, where these images are given.
fn read_check<'a>(
    matches: &ArgMatches<'a>,
    images: &'a [GivenImage<'a>],
) -> Result<CheckRequest<'a>, Mistake<'a>> {
    refuse_middle(matches)?;
    Ok(CheckRequest {
        trace: read_trace(matches),
        tells_all: matches.get_flag("all"),
        readies: read_readies(matches),
        assumes_ready: matches.get_flag("assume-ready"),
        beginning: read_beginning(matches),
        judges_bytes: matches.get_flag("bytes"),
        has_notes: matches.get_flag("notes"),
        times: read_times(matches)?,
        dies: read_data(matches, images)?,
        style: read_style(matches),
        copy: matches.get_str("write"),
    })
}

// What an image is asked for; the parser takes no other number of a chip enable and of a LUN than 0 to 3.
fn read_image_request<'a>(matches: &ArgMatches<'a>) -> ImageRequest<'a> {
    ImageRequest {
        trace: read_trace(matches),
        readies: read_readies(matches),
        lun: Lun {
            ce: number_of(find_word(matches, "CE")).unwrap_or(0),
            lun: number_of(find_word(matches, "LUN")).unwrap_or(0),
        },
        output: find_word(matches, "OUT"),
        on: matches.get_str("on"),
        fills_reads: matches.get_flag("reads"),
    }
}

// As what a trace is drawn into a file of this name.
fn form_of(target: &str) -> DrawForm {
    if has_extension(target, ".html") {
        DrawForm::Page
    } else {
        DrawForm::Picture
    }
}

// The files of a trace; that of its text has this word.
fn read_outputs<'a>(matches: &ArgMatches<'a>, text: &str) -> TraceOutputs<'a> {
    TraceOutputs {
        text: matches.get_str(text),
        wave: matches.get_str("wave"),
        drawing: matches.get_str("draw").map(|path| Drawing {
            form: form_of(path),
            path,
        }),
    }
}

// What a drawing is asked for.
fn read_draw<'a>(matches: &ArgMatches<'a>, form: DrawForm) -> DrawRequest<'a> {
    DrawRequest {
        form,
        trace: read_trace(matches),
        target: find_word(matches, "OUT"),
    }
}

// The number of workers; the parser takes no other word than 1 to 8.
fn count_workers(word: &str) -> u8 {
    match word.as_bytes() {
        [digit @ b'1'..=b'8'] => *digit - b'0',
        _ => 1,
    }
}

// How many steps an option allows at most.
fn read_steps<'a>(
    option: &'static str,
    given: Option<&'a str>,
    most: u64,
) -> Result<u64, Mistake<'a>> {
    match given {
        None => Ok(most),
        Some(word) => { u64::from_str_radix(word, 10).map_err(|_| Mistake::Steps { option, word }) }
    }
}

// The timing mode that is given, if one is.
fn mode_of(digit: Option<&str>) -> Option<TimingMode> {
    match digit {
        Some(digit) => TimingMode::of(digit),
        None => None,
    }
}

// What a run is asked for.
fn read_run<'a>(matches: &ArgMatches<'a>) -> Result<RunRequest<'a>, Mistake<'a>> {
    Ok(RunRequest {
        path: find_word(matches, "FILE"),
        profile: read_profile(matches),
        max_steps: read_steps("--max-steps", matches.get_str("max-steps"), MOST_STEPS)?,
        workers: count_workers(find_word(matches, "workers")),
        is_quiet: matches.get_flag("quiet"),
        times: mode_of(matches.get_str("times")),
        trace: read_outputs(matches, "trace"),
        has_stats: matches.get_flag("stats"),
    })
}

// A row: decimal digits, or 0x and hexadecimal ones.
fn read_base<'a>(word: &'a str) -> Result<u32, Mistake<'a>> {
    let number = match word.strip_prefix("0x") {
        Some(digits) => u32::from_str_radix(digits, 16),
        None => u32::from_str_radix(word, 10),
    };
    number.map_err(|_| Mistake::Base(word))
}

// The command of a verb and its arguments, if its paths go together.
fn read_command<'a>(
    verb: Verb,
    given: &ArgMatches<'a>,
    images: &'a [GivenImage<'a>],
) -> Result<Command<'a>, Mistake<'a>> {
    let command = verb.read(given, images)?;
    match PathMistake::find(command) {
        Some(mistake) => Err(Mistake::Paths(mistake)),
        None => Ok(command),
    }
}

// The word of the files of which a command may take several.
fn word_of_files(verb: Verb) -> Option<&'static str> {
    match verb {
        Verb::Check => Some("TRACE"),
        Verb::Lint => Some("IN"),
        Verb::Assemble
        | Verb::Verify
        | Verb::Explain
        | Verb::Once
        | Verb::Run
        | Verb::Capture
        | Verb::Timing
        | Verb::Image
        | Verb::Ops
        | Verb::Wave
        | Verb::Draw
        | Verb::Disassemble
        | Verb::Page
        | Verb::Upgrade => None,
    }
}

// The files behind the first that a command is to work on.
fn more_files<'a>(
    alloc: Global,
    verb: Verb,
    given: &ArgMatches<'a>,
) -> Result<Vec<&'a str>, Mistake<'a>> {
    let mut more = Vec::new(alloc);
    if let Some(word) = word_of_files(verb)
        && let Some([_, rest @ ..]) = given.get_strs(word)
    {
        more.extend_from_slice(rest).map_err(Error::from)?;
    }
    Ok(more)
}

// The images that a check is given.
fn images_in<'a>(
    alloc: Global,
    given: &ArgMatches<'a>,
) -> Result<Vec<GivenImage<'a>>, Mistake<'a>> {
    let mut images = Vec::new(alloc);
    if let Some(words) = given.get_strs("on") {
        for word in words {
            let image = read_image(images.as_slice(), *word)?;
            images.push(image).map_err(Error::from)?;
        }
    }
    Ok(images)
}

/// The images that these words give of what LUNs held, which [`parse_all`] takes; the first word is the name of the program.
pub(crate) fn read_images<'a>(
    alloc: Global,
    words: &'a [String],
) -> Result<Vec<GivenImage<'a>>, Mistake<'a>> {
    if !words.iter().any(|word| word.starts_with("--on")) {
        return Ok(Vec::new(alloc));
    }
    let matches = declare(alloc)?.try_get_matches_from(words)?;
    match matches.subcommand() {
        Some(("check", given)) => images_in(alloc, given),
        Some(_) | None => Ok(Vec::new(alloc)),
    }
}

// The command that these words ask for, and the files behind the first that it is to work on.
fn read_words<'a>(
    alloc: Global,
    words: &'a [String],
    images: &'a [GivenImage<'a>],
) -> Result<(Command<'a>, Vec<&'a str>), Mistake<'a>> {
    let declared = declare(alloc)?;
    let matches = declared.try_get_matches_from(words)?;
    // The parser takes no word that isn't declared, and asks for one.
    let Some((word, given)) = matches.subcommand() else {
        return Err(Mistake::NoCommand);
    };
    let Some(verb) = Verb::find(word) else {
        return Err(Mistake::NoCommand);
    };
    Ok((
        read_command(verb, given, images)?,
        more_files(alloc, verb, given)?,
    ))
}

/// The command that these words ask for, where they give these images ([`read_images`]); the first is the name of the program. Of a command on several files it is
/// that of the first.
pub fn parse<'a>(
    alloc: Global,
    words: &'a [String],
    images: &'a [GivenImage<'a>],
) -> Result<Command<'a>, Mistake<'a>> {
    let (command, _) = read_words(alloc, words, images)?;
    Ok(command)
}

/// The commands that these words ask for, in order, where they give these images: one, or one for each of several files; the first word is the name of the program.
pub(crate) fn parse_all<'a>(
    alloc: Global,
    words: &'a [String],
    images: &'a [GivenImage<'a>],
) -> Result<Vec<Command<'a>>, Mistake<'a>> {
    let (first, more) = read_words(alloc, words, images)?;
    if let Some(mistake) = PathMistake::among(first, more.as_slice()) {
        return Err(Mistake::Paths(mistake));
    }
    let mut commands = Vec::new(alloc);
    commands.push(first).map_err(Error::from)?;
    if let Some(named) = NamedCommand::of(first) {
        for input in more.as_slice() {
            commands.push(named.with_path(*input)).map_err(Error::from)?;
        }
    }
    Ok(commands)
}

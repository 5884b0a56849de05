//! What the parser is told of each command.

use crate::choices::Choices;
use crate::declared::{Declaration, Declared, FLAG, REQUIRED};
use crate::form::Form;

// ---- arguments of several commands

const PAGE: Declared = Declared {
    name: "PAGE",
    help: "The parameter page of the die",
    ..REQUIRED
};

const PAGE_OF_EACH: Declared = Declared {
    name: "PAGE",
    help: "The parameter page of each die",
    ..REQUIRED
};

const TARGETS: Declared = Declared {
    name: "TARGETS",
    help: "How many targets the channel has",
    choices: Choices::OneToFour,
    ..REQUIRED
};

const PROGRAM: Declared = Declared {
    name: "IN",
    help: "The assembly text, or a word file of either format",
    ..REQUIRED
};

const TRACE: Declared = Declared {
    name: "TRACE",
    help: "The text of the trace, as docs/use/TRACES.md has it",
    ..REQUIRED
};

const WAVE: Declared = Declared {
    name: "wave",
    form: Form::Value("OUT"),
    ..REQUIRED
};

const DRAW: Declared = Declared {
    name: "draw",
    form: Form::Value("OUT"),
    ..REQUIRED
};

const JSON: Declared = Declared {
    name: "json",
    ..FLAG
};

const JSON_ERRORS: Declared = Declared {
    help: "Says on standard error what is wrong as JSON, one object a line: code, file, line, word or item, message",
    ..JSON
};

const RECORDED: Declared = Declared {
    name: "recorded",
    help: "For a trace with blanks, comments, CR LF or times in its lines, as docs/use/TRACES.md has it",
    ..FLAG
};

const READIES_FROM_STATUS: Declared = Declared {
    name: "readies-from-status",
    help: "For a recording without readies: where a status output first shows a LUN or its array ready, that ready is put before it",
    ..FLAG
};

const VENDOR: Declared = Declared {
    name: "vendor",
    form: Form::Value("FILE"),
    help: "Passes over the sequences of this file, as docs/use/VENDOR.md has it; `linux` is what a Linux host sends besides the profile",
    ..REQUIRED
};

const PROFILE: Declared = Declared {
    name: "profile",
    form: Form::Value("PROFILE"),
    help: "Which commands are known: `base`, or `onfi`, the optional ones too that the page declares; `base` if not given",
    choices: Choices::Profiles,
    ..REQUIRED
};

const MAP: Declared = Declared {
    name: "map",
    form: Form::Value("ROLE=NAME"),
    help: "Which signal is what, where its name doesn't tell: CE0 to CE3, CLE, ALE, WE, RE, DQ, DQ0 to DQ7, RB0 to RB3; as WE=P17,RE=P18",
    ..REQUIRED
};

const CSV: Declared = Declared {
    name: "csv",
    help: "The capture is a CSV, as Saleae Logic 2, DSView, sigrok-cli and PulseView export it; so is one whose name ends in .csv",
    ..FLAG
};

// ---- the commands

pub(crate) const ASSEMBLE: Declaration = Declaration {
    about: "Assembles a text into a word file, and prints `ok`",
    example: "Example: onfiseq asm erase.asm erase.nmp --auto die.page",
    arguments: &[
        Declared {
            name: "IN",
            help: "The assembly text, as docs/use/ASSEMBLY.md has it",
            ..REQUIRED
        },
        Declared {
            name: "OUT",
            help: "The word file to write, in format 2",
            ..REQUIRED
        },
        Declared {
            name: "auto",
            form: Form::Value("PAGE"),
            help: "Counts the header for the die of this parameter page, whatever the text has or without one, and verifies: an unsafe text isn't written",
            ..REQUIRED
        },
        Declared {
            help: "With `--auto`: which commands are known, as `verify --profile` says",
            ..PROFILE
        },
    ],
};

pub(crate) const VERIFY: Declaration = Declaration {
    about: "Verifies a microprogram for a die, and prints `accepted`",
    example: "Example: onfiseq verify die.page erase.asm --counter wrong.trace --draw wrong.svg",
    arguments: &[
        PAGE,
        PROGRAM,
        PROFILE,
        Declared {
            name: "counter",
            form: Form::Value("OUT"),
            help: "Where a refusal has its run: the file to write its trace to, with the cycle that isn't permitted last",
            ..REQUIRED
        },
        Declared {
            help: "Where a refusal has its run: the waveform of that to write, for GTKWave or PulseView",
            ..WAVE
        },
        Declared {
            help: "Where a refusal has its run: the picture of that to write, an SVG; with a name that ends in .html a page",
            ..DRAW
        },
        Declared {
            name: "search",
            form: Form::Value("N"),
            help: "How many steps a search for the run of a refusal may take, 100000 if nothing is said",
            ..REQUIRED
        },
        Declared {
            name: "quiet",
            help: "Says no notes on standard error, as `lint` prints them",
            ..FLAG
        },
        JSON_ERRORS,
    ],
};

pub(crate) const LINT: Declaration = Declaration {
    about: "Verifies microprograms for a die, and prints what their author surely didn't mean",
    example: "Example: onfiseq lint die.page read.asm erase.asm --deny N1,N3",
    arguments: &[
        PAGE,
        Declared {
            form: Form::Words,
            ..PROGRAM
        },
        PROFILE,
        Declared {
            name: "fix",
            help: "Prints the header lines with the least numbers that are enough, and nothing else",
            conflicts: &["deny", "allow"],
            ..FLAG
        },
        Declared {
            name: "deny",
            form: Form::Value("CODE,.."),
            help: "Ends with status 5 where a note of these codes is printed, as in N1,N3",
            ..REQUIRED
        },
        Declared {
            name: "allow",
            form: Form::Value("CODE,.."),
            help: "Prints no note of these codes, as in N5",
            ..REQUIRED
        },
        Declared {
            help: "Prints the notes as JSON, one object a line, and says so what is wrong: code, file, line, word, message",
            ..JSON
        },
    ],
};

pub(crate) const EXPLAIN: Declaration = Declaration {
    about: "Prints a microprogram, with comments that say what is open, ready and held in the register before each word",
    example: "Example: onfiseq explain die.page retry.asm",
    arguments: &[
        PAGE,
        PROGRAM,
        PROFILE,
        Declared {
            help: "Prints a JSON object for each word, and what is wrong as one",
            ..JSON
        },
    ],
};

pub(crate) const ONCE: Declaration = Declaration {
    about: "Runs the microprogram on standard input once, a word file or an assembly text, and prints the trace. It runs on an erased die: 1 LUN, 1 plane, 8 blocks of 4 pages of 512 + 16 bytes",
    example: "Example: onfiseq once --base 4 < erase.nmp",
    arguments: &[Declared {
        name: "base",
        form: Form::Value("n"),
        help: "The index within a plane that row 0 of the program stands for, 0 to 31, or 0x0 to 0x1f",
        default: Some("0"),
        ..REQUIRED
    }],
};

pub(crate) const RUN: Declaration = Declaration {
    about: "Runs a channel as a run file says, and prints the trace and each job's code",
    example: "Example: onfiseq run examples/two_luns.run --workers 2",
    arguments: &[
        Declared {
            name: "FILE",
            help: "The run file, as docs/use/RUNFILES.md has it",
            ..REQUIRED
        },
        PROFILE,
        Declared {
            name: "workers",
            form: Form::Value("n"),
            help: "How many workers run the channel; with 1 the trace of jobs on one target is always the same",
            default: Some("1"),
            choices: Choices::OneToEight,
            ..REQUIRED
        },
        Declared {
            name: "max-steps",
            form: Form::Value("n"),
            help: "How many words the programs may step at most, all together and with their loops written out, before the run is refused; 10000000000 if not given",
            ..REQUIRED
        },
        Declared {
            name: "quiet",
            help: "Prints no trace, only the jobs' codes",
            ..FLAG
        },
        Declared {
            name: "times",
            form: Form::Value("MODE"),
            help: "Gives each item of the trace a time in ns, as check --recorded reads it, by this timing mode and by tR, tPROG and tBERS of the parameter page",
            choices: Choices::ZeroToFive,
            ..REQUIRED
        },
        Declared {
            name: "trace",
            form: Form::Value("OUT"),
            help: "Writes the trace to this file too",
            ..REQUIRED
        },
        Declared {
            help: "Writes the waveform of the trace to this file, for GTKWave or PulseView",
            ..WAVE
        },
        Declared {
            help: "Writes the picture of the trace to this file, an SVG; with a name that ends in .html a page, with the trace beside the picture",
            ..DRAW
        },
        Declared {
            name: "stats",
            help: "Says on standard error how many jobs, cycles, polls and bytes there were, the seconds that the jobs took, and the cycles a second",
            ..FLAG
        },
    ],
};

pub(crate) const CAPTURE: Declaration = Declaration {
    about: "Writes the trace that a capture of a bus shows, and prints `ok`",
    example: "Example: onfiseq capture die.page 1 bus.vcd bus.trace --map WE=P17,RE=P18",
    arguments: &[
        PAGE_OF_EACH,
        TARGETS,
        PROFILE,
        Declared {
            name: "IN",
            help: "The capture, a value change dump or a CSV, as docs/use/CAPTURES.md has it",
            ..REQUIRED
        },
        Declared {
            name: "OUT",
            help: "The text of the trace to write; `-` prints it",
            ..REQUIRED
        },
        MAP,
        CSV,
        Declared {
            name: "times",
            help: "Writes the time of each item in front of it, as @1200; `check --recorded` reads that, and names the times",
            ..FLAG
        },
        Declared {
            name: "glitch",
            form: Form::Value("n"),
            help: "Refuses a capture in which WE# or RE# changes again after less than n units of its time, while a chip is enabled; 0 if not given, which refuses none",
            ..REQUIRED
        },
        Declared {
            name: "outputs",
            form: Form::Value("when"),
            help: "When an output is taken: `rise`, as RE# rises, or `+n`, n units of the capture's time behind that, at the latest before RE# falls again, as timing modes 4 and 5 (EDO) want; `rise` if not given",
            ..REQUIRED
        },
        VENDOR,
    ],
};

pub(crate) const CHECK: Declaration = Declaration {
    about: "Says whether a trace keeps the rules of the bus, and if not, at which item and why; prints `legal`",
    example: "Example: onfiseq check die.page 1 bus.trace --all --readies-from-status",
    arguments: &[
        PAGE_OF_EACH,
        TARGETS,
        PROFILE,
        Declared {
            form: Form::Words,
            ..TRACE
        },
        Declared {
            name: "all",
            help: "Goes on after a fault, and prints a line for each",
            ..FLAG
        },
        RECORDED,
        READIES_FROM_STATUS,
        Declared {
            name: "assume-ready",
            help: "With --readies-from-status: status 0, and not 5, where a LUN is assumed ready",
            ..FLAG
        },
        Declared {
            name: "from-middle",
            help: "For a recording that began while the bus was in use: what depends on the time before it is assumed, and said",
            ..FLAG
        },
        Declared {
            name: "bytes",
            help: "Says on standard error which status bytes contradict the trace",
            ..FLAG
        },
        Declared {
            name: "notes",
            help: "Says on standard error what the host surely didn't mean, as `lint` notes it of programs",
            ..FLAG
        },
        Declared {
            name: "write",
            form: Form::Value("OUT"),
            help: "Writes the trace that is judged to this file, with the readies that status outputs show",
            ..REQUIRED
        },
        JSON_ERRORS,
        VENDOR,
        Declared {
            name: "timing",
            form: Form::Value("MODE|FILE"),
            help: "With --unit: judges the times too, by a timing mode, 0 to 5, or by a timing file; the trace is read as --recorded",
            ..REQUIRED
        },
        Declared {
            name: "unit",
            form: Form::Value("UNIT"),
            help: "What 1 of a time is: 1, 10 or 100 of s, ms, us, ns, ps or fs, as in 1ns",
            ..REQUIRED
        },
        Declared {
            name: "slack",
            form: Form::Value("N"),
            help: "With --timing: by how many units a distance may be short",
            ..REQUIRED
        },
        Declared {
            name: "data",
            help: "Judges the data too: each output of a known page is to give what the die holds, as docs/use/DATA.md has it",
            ..FLAG
        },
        Declared {
            name: "on",
            form: Form::Values("CE.LUN=IMAGE"),
            help: "With --data: the image of what a LUN held at the beginning, as in 0.1=old.image; once for each LUN",
            ..REQUIRED
        },
        Declared {
            name: "erased",
            help: "With --data: the LUNs that have no image were erased at the beginning",
            ..FLAG
        },
    ],
};

pub(crate) const TIMING: Declaration = Declaration {
    about: "Judges the edges of a capture by a timing mode or a timing file, and prints `kept`",
    example: "Example: onfiseq timing die.page 1 bus.vcd --timing 4 --all",
    arguments: &[
        PAGE_OF_EACH,
        TARGETS,
        PROFILE,
        Declared {
            name: "IN",
            help: "The capture, a value change dump or a CSV, as docs/use/CAPTURES.md has it",
            ..REQUIRED
        },
        Declared {
            name: "timing",
            form: Form::Value("MODE|FILE"),
            help: "The timing mode, 0 to 5, or a timing file; it has to be given",
            ..REQUIRED
        },
        Declared {
            name: "all",
            help: "Prints a line for each edge that comes too soon, and says how near the capture comes to each time",
            ..FLAG
        },
        Declared {
            name: "unit",
            form: Form::Value("UNIT"),
            help: "What 1 of a time is, where the capture doesn't say it: 1, 10 or 100 of s, ms, us, ns, ps or fs, as in 1ns",
            ..REQUIRED
        },
        Declared {
            name: "slack",
            form: Form::Value("N"),
            help: "By how many units a distance may be short",
            ..REQUIRED
        },
        MAP,
        CSV,
    ],
};

pub(crate) const WRITE_IMAGE: Declaration = Declaration {
    about: "Writes the image of what a die holds after a trace, and prints `ok`",
    example: "Example: onfiseq image die.page 1 bus.trace 0 0 after.image --on before.image",
    arguments: &[
        PAGE_OF_EACH,
        TARGETS,
        PROFILE,
        TRACE,
        Declared {
            name: "CE",
            help: "The chip enable of the die",
            choices: Choices::ZeroToThree,
            ..REQUIRED
        },
        Declared {
            name: "LUN",
            help: "Which LUN of it the die is",
            choices: Choices::ZeroToThree,
            ..REQUIRED
        },
        Declared {
            name: "OUT",
            help: "The image to write, as docs/use/IMAGES.md has it",
            ..REQUIRED
        },
        Declared {
            name: "on",
            form: Form::Value("OLD"),
            help: "The image of what the die held at the beginning; without one it was erased",
            ..REQUIRED
        },
        Declared {
            name: "reads",
            help: "Fills each page that the trace only reads with the first read that gave all its bytes",
            ..FLAG
        },
        RECORDED,
        READIES_FROM_STATUS,
        VENDOR,
    ],
};

pub(crate) const OPS: Declaration = Declaration {
    about: "Lists what happened on a bus: the operations of a trace, with their data, polls, times and faults",
    example: "Example: onfiseq ops die.page 1 bus.trace --bytes",
    arguments: &[
        PAGE_OF_EACH,
        TARGETS,
        PROFILE,
        TRACE,
        Declared {
            name: "from-middle",
            help: "For a trace whose recording began while the bus was in use",
            ..FLAG
        },
        Declared {
            name: "polls",
            help: "Polls have lines of their own",
            ..FLAG
        },
        Declared {
            name: "bytes",
            help: "The data stand beneath each line",
            ..FLAG
        },
        Declared {
            name: "csv",
            help: "Prints a row of names, then a row an operation",
            conflicts: &["json", "polls", "bytes", "no-summary"],
            ..FLAG
        },
        Declared {
            help: "Prints an object a line",
            conflicts: &["polls", "no-summary"],
            ..JSON
        },
        Declared {
            name: "lun",
            form: Form::Value("CE.LUN"),
            help: "Lists those of one LUN, as in 0.1",
            ..REQUIRED
        },
        Declared {
            name: "block",
            form: Form::Value("N"),
            help: "Lists those of one block",
            ..REQUIRED
        },
        Declared {
            name: "kind",
            form: Form::Value("NAME,.."),
            help: "Lists those of these names, as in erase,program",
            ..REQUIRED
        },
        Declared {
            name: "items",
            form: Form::Value("A-B"),
            help: "Lists those whose first item is one of these",
            ..REQUIRED
        },
        Declared {
            name: "from",
            form: Form::Value("T"),
            help: "Lists those from this time on",
            ..REQUIRED
        },
        Declared {
            name: "to",
            form: Form::Value("T"),
            help: "Lists those up to this time",
            ..REQUIRED
        },
        Declared {
            name: "no-summary",
            help: "Leaves out what stands behind the last line",
            ..FLAG
        },
        VENDOR,
    ],
};

pub(crate) const DRAW_WAVE: Declaration = Declaration {
    about: "Draws a trace as a waveform for GTKWave or PulseView, and prints `ok`",
    example: "Example: onfiseq wave die.page 1 bus.trace bus.vcd",
    arguments: &[
        PAGE_OF_EACH,
        TARGETS,
        PROFILE,
        TRACE,
        Declared {
            name: "OUT",
            help: "The value change dump to write",
            ..REQUIRED
        },
        RECORDED,
        VENDOR,
    ],
};

pub(crate) const DRAW_PICTURE: Declaration = Declaration {
    about: "Draws a trace as one picture, and prints `ok`",
    example: "Example: onfiseq draw die.page 1 bus.trace bus.svg",
    arguments: &[
        PAGE_OF_EACH,
        TARGETS,
        PROFILE,
        TRACE,
        Declared {
            name: "OUT",
            help: "The SVG to write; with a name that ends in .html a page, with the trace beside the picture",
            ..REQUIRED
        },
        RECORDED,
        VENDOR,
    ],
};

pub(crate) const DISASSEMBLE: Declaration = Declaration {
    about: "Prints the assembly text of a word file",
    example: "Example: onfiseq dis erase.nmp > erase.asm",
    arguments: &[Declared {
        name: "IN",
        help: "The word file, of either format",
        ..REQUIRED
    }],
};

pub(crate) const MAKE_PAGE: Declaration = Declaration {
    about: "Makes a parameter page of a chip's numbers, and prints `ok`; or shows what one declares",
    example: "Examples: onfiseq page chip.page --data 2048 --spare 64 --pages 64 --blocks 1024; onfiseq page chip.page --from boot.vcd; onfiseq page --show chip.page",
    arguments: &[
        Declared {
            name: "OUT",
            form: Form::MayWord,
            help: "The parameter page to write",
            ..REQUIRED
        },
        Declared {
            name: "show",
            form: Form::Value("PAGE"),
            help: "Prints what this parameter page declares: the geometry, how a row is made, the commands, and each copy with its checksum",
            ..REQUIRED
        },
        Declared {
            name: "from",
            form: Form::Value("IN"),
            help: "Takes the page of a trace in which it is read, or of a capture, whose name ends in .vcd or .csv: the first whole copy that is right of the outputs after ECh and address 00h",
            ..REQUIRED
        },
        MAP,
        CSV,
        Declared {
            name: "data",
            form: Form::Value("n"),
            help: "Data bytes of a page",
            ..REQUIRED
        },
        Declared {
            name: "spare",
            form: Form::Value("n"),
            help: "Spare bytes of a page",
            ..REQUIRED
        },
        Declared {
            name: "pages",
            form: Form::Value("n"),
            help: "Pages of a block",
            ..REQUIRED
        },
        Declared {
            name: "blocks",
            form: Form::Value("n"),
            help: "Blocks of a LUN",
            ..REQUIRED
        },
        Declared {
            name: "luns",
            form: Form::Value("n"),
            help: "LUNs of a chip enable, 1 if none are given",
            ..REQUIRED
        },
        Declared {
            name: "planes",
            form: Form::Value("n"),
            help: "Planes of a LUN, 1 if none are given",
            choices: Choices::OneTwoFour,
            ..REQUIRED
        },
        Declared {
            name: "cache",
            help: "Declares read cache, 31h and 3Fh",
            ..FLAG
        },
        Declared {
            name: "status-enhanced",
            help: "Declares read status enhanced, 78h, which several LUNs need",
            ..FLAG
        },
        Declared {
            name: "declare",
            form: Form::Value("NAMES"),
            help: "Declares besides what --profile onfi takes, with commas between several: program-cache, group-cache, features, copyback, odd-even, unique-id, enhanced-column, lun-reset, synchronous-reset, plane-reads, free-blocks",
            ..REQUIRED
        },
        PROFILE,
        Declared {
            help: "With --from: leaves out the items of the sequences of this vendor file, or of the built-in one, `linux`",
            ..VENDOR
        },
    ],
};

pub(crate) const UPGRADE: Declaration = Declaration {
    about: "Writes a word file of either format as one of format 2, and prints `ok`",
    example: "Example: onfiseq upgrade old.nmp new.nmp",
    arguments: &[
        Declared {
            name: "IN",
            help: "The word file to read",
            ..REQUIRED
        },
        Declared {
            name: "OUT",
            help: "The word file to write, in format 2",
            ..REQUIRED
        },
    ],
};

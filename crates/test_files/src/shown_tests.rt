use shown_text::{Blanks, Escaped, Fields, LineTrouble, Meant, Shown, line_at};
use std::alloc::Global;
use std::process::Abort;
use std::test::Fail;

// A line is shown so.
fn is_shown(alloc: Global, line: &str, want: &str) -> Result<bool, Fail> {
    let shown = format!(in alloc; "{}", Shown::line(line))?;
    Ok(shown.as_str() == want)
}

const STAYS: &str = "readable text stays";

const ESCAPED: &str = "control characters are escaped as in Rust's literals";

// What is tried, a line, and what is shown of it.
const SHOWN: &[(&str, &str, &str)] = &[
    (STAYS, "", ""),
    (
        STAYS,
        "brs 01 L5 ; \\ `quoted` \"too\"",
        "brs 01 L5 ; \\ `quoted` \"too\"",
    ),
    (STAYS, "größer, 物理ページ, ⏱", "größer, 物理ページ, ⏱"),
    (ESCAPED, "a\tb\r", "a\\tb\\r"),
    (ESCAPED, "\u{1b}[2J", "\\u{1b}[2J"),
    (ESCAPED, "\0\u{7f}\u{9b}", "\\u{0}\\u{7f}\\u{9b}"),
    (ESCAPED, "x\u{202e}y\u{2028}z", "x\\u{202e}y\\u{2028}z"),
    (ESCAPED, "\u{2066}\u{200f}", "\\u{2066}\\u{200f}"),
];

#[test]
fn lines_are_shown(rt: HostRuntime) -> Result<(), Fail> {
    for (what, line, want) in SHOWN {
        assert!(rt; is_shown(rt.alloc(), line, want)?, "{what}: {want}");
    }
    Ok(())
}

// So many times the same.
fn repeat(alloc: Global, text: &str, count: usize) -> Result<String, Fail> {
    let mut whole = String::new(alloc);
    for _ in 0..count {
        whole.push_str(text)?;
    }
    Ok(whole)
}

// A character so many times, as what it is written 120 times, and what stands behind that. A control character is one of them, however it
// is written.
const LONG: &[(&str, usize, &str, &str)] = &[
    ("ö", 120, "ö", ""),
    ("ö", 121, "ö", "..."),
    ("\u{7}", 200, "\\u{7}", "..."),
];

// So many times the character is written so, and no more.
fn is_cut(
    alloc: Global,
    character: &str,
    count: usize,
    written: &str,
    end: &str,
) -> Result<bool, Fail> {
    let line = repeat(alloc, character, count)?;
    let mut want = repeat(alloc, written, 120)?;
    want.push_str(end)?;
    is_shown(alloc, line.as_str(), want.as_str())
}

#[test]
fn long_lines_are_cut(rt: HostRuntime) -> Result<(), Fail> {
    for (character, count, written, end) in LONG {
        assert!(rt;
            is_cut(rt.alloc(), character, *count, written, end)?,
            "{count}"
        );
    }
    Ok(())
}

// So many folders are shown whole, or as a text of so many bytes.
fn show_folders(alloc: Global, count: usize) -> Result<(bool, usize), Fail> {
    let path = repeat(alloc, "folder/", count)?;
    let shown = format!(in alloc; "{}", Shown::path(path.as_str()))?;
    Ok((shown.as_str() == path.as_str(), shown.len()))
}

#[test]
fn a_path_is_shown_whole(rt: HostRuntime) -> Result<(), Fail> {
    let (is_whole, _) = show_folders(rt.alloc(), 585)?;
    let (_, len) = show_folders(rt.alloc(), 100_000)?;
    assert!(rt; is_whole && len == 4_099);
    Ok(())
}

#[test]
fn the_text_of_a_value(rt: HostRuntime) -> Result<(), Fail> {
    let text = "error: \u{1b}[2J\n\n  for \tmore";
    let shown = format!(in rt.alloc(); "{}", Escaped(&text))?;
    assert!(rt; shown.as_str() == "error: \\u{1b}[2J\n\n  for \\tmore");
    Ok(())
}

// What is wrong with the characters of a line is told so.
fn is_told(alloc: Global, line: &str, blanks: Blanks, want: &str) -> Result<bool, Fail> {
    let trouble = LineTrouble::find(line, blanks).ok_or("the line is in order")?;
    let told = format!(in alloc; "{trouble}")?;
    Ok(told.as_str() == want)
}

const TABS: Blanks = Blanks::SpacesAndTabs;

// A line, the blanks that it may have, and what is wrong with its characters.
const TROUBLES: &[(&str, Blanks, &str)] = &[
    (
        "\u{feff}rows 1\r",
        TABS,
        "the line begins with a UTF-8 byte order mark; save the file without it",
    ),
    (
        "rows 1\r",
        TABS,
        "the line ends in CR LF; only LF ends a line",
    ),
    (
        "\tpage \u{e4}",
        TABS,
        "column 7 has `\u{e4}` (\\u{e4}), which isn't ASCII",
    ),
    (
        "cmd\u{a0}60",
        TABS,
        "column 4 has a no-break space (\\u{a0}), which isn't ASCII",
    ),
    (
        "end \u{2013}1",
        TABS,
        "column 5 has a typographic dash (\\u{2013}), which isn't ASCII",
    ),
    (
        "end \u{202e}1",
        TABS,
        "column 5 has `\\u{202e}` (\\u{202e}), which isn't ASCII",
    ),
    (
        "0\tC 60",
        Blanks::SingleSpaces,
        "column 2 has a tab; one space stands between two fields",
    ),
    (
        "wait\u{1b}",
        TABS,
        "column 5 has the control character \\u{1b}",
    ),
];

#[test]
fn characters_that_may_not_stand_in_a_line(rt: HostRuntime) -> Result<(), Fail> {
    for (line, blanks, want) in TROUBLES {
        assert!(rt; is_told(rt.alloc(), line, *blanks, want)?, "{want}");
    }
    assert!(rt; LineTrouble::find("\tcmd 60 ~", TABS).is_none());
    Ok(())
}

const WORDS: [&str; 8] = ["cmd", "wait", "stat", "seek", "row", "rowadd", "brs", "jmp"];

// A word, and the one that it was meant to be.
const MEANT: &[(&str, Option<Meant>)] = &[
    ("CMD", Some(Meant::InLowerCase("cmd"))),
    ("wiat", Some(Meant::Near("wait"))),
    ("wat", Some(Meant::Near("wait"))),
    ("waiit", Some(Meant::Near("wait"))),
    ("wayt", Some(Meant::Near("wait"))),
    ("wtai", Some(Meant::Near("wait"))),
    ("rows", Some(Meant::Near("row"))),
    ("rowad", Some(Meant::Near("rowadd"))),
    ("rwadd", Some(Meant::Near("rowadd"))),
    ("sttas", Some(Meant::Near("stat"))),
    ("jm", Some(Meant::Near("jmp"))),
    ("bsr", Some(Meant::Near("brs"))),
    ("", None),
    ("c", None),
    ("dmc", None),
    ("nop", None),
    ("tiaw", None),
    ("stataaa", None),
    ("cm\u{e4}\u{e4}", None),
    ("waitwaitwait", None),
];

#[test]
fn what_a_word_was_meant_to_be(rt: HostRuntime) {
    for (word, want) in MEANT {
        assert!(rt; Meant::find(word, &WORDS) == *want, "{word}");
    }
}

#[test]
fn fields_end_at_a_semicolon(rt: HostRuntime) {
    let fields = Fields::of(" \tcmd  60\t// not ; this");
    let parts = (fields.count(), fields.get(1), fields.get(4));
    assert!(rt; parts == (4, Some("60"), None) && fields.has_foreign_comment());
    assert!(rt; Fields::of("; # nothing").get(0).is_none());
}

#[test]
fn lines_are_counted_from_1(rt: HostRuntime) {
    let lines = [
        line_at("a\nb\n", 2),
        line_at("a\nb\n", 3),
        line_at("a\nb\n", 4),
    ];
    assert!(rt; lines == ["b", "", ""]);
}

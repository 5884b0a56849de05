ghost use Rattle.std.specs.Prelude.{◌<◌, IfSome};
ghost use Rattle.csv_text.specs.Shown.{HasRoom, bytes_left};

use csv_text::{Body, Fields, Rows, read_table};
use std::process::Abort;
use std::test::Fail;
use vcd_text::Event;

// A row and its fields.
const ROWS: &[(&str, &[&str])] = &[
    ("", &[""]),
    ("0,1,x", &["0", "1", "x"]),
    (" 0 ,\t1,, ", &["0", "1", "", ""]),
    (
        "\"CE, first\",\"CLE\" , DQ 0 ",
        &["CE, first", "CLE", "DQ 0"],
    ),
    ("\",a\"", &[",a"]),
    ("\"", &["\""]),
    // A quote that isn't closed.
    ("0,\"1,x", &["0", "\"1,x"]),
];

// What a file tells: the time of a row, or a change of a column to a bit, `-` if its field is empty.
#[derive(Clone, Copy, Debug, PartialEq, Eq)]
enum Told {
    Time(u64),
    Change(u64, char),
}

const FILE: &str =
    "; a file\r\nTime [s],A,\"B\"\r\n0.5,1,0\r\n\r\n0.75,1,1\n; between\n0.75, x ,\n";

const TOLD: &[Told] = &[
    Told::Time(500_000_000_000),
    Told::Change(1, '1'),
    Told::Change(2, '0'),
    Told::Time(750_000_000_000),
    Told::Change(2, '1'),
    Told::Time(750_000_000_000),
    Told::Change(1, 'x'),
    Told::Change(2, '-'),
];

fn try_row(rt: &impl Abort, row: &str, wanted: &[&str]) {
    let mut fields = Fields::of(row.as_bytes());
    for field in wanted {
        assert_eq!(rt; fields.next_field(b','), Some(field.as_bytes()), "{row:?}");
    }
    assert_eq!(rt; fields.next_field(b','), None, "{row:?}");
}

#[test]
fn fields_of_rows(rt: HostRuntime) {
    for (row, wanted) in ROWS {
        try_row(&rt, row, wanted);
    }
    assert_eq!(rt; Fields::none().next_field(b','), None);
}

#[test]
fn rows_and_other_lines(rt: HostRuntime) {
    let mut rows = Rows::of(b"; note\r\na,b\r\n \t\n\n;\n0,1");
    let first = rows.next_values().map(|row| (row.line, row.text));
    let second = rows.next_values().map(|row| (row.line, row.text));
    assert_eq!(rt; first, Some((2, "a,b".as_bytes())));
    assert_eq!(rt; second, Some((6, "0,1".as_bytes())));
    assert!(rt; rows.next_values().is_none());
}

// An event as it is told.
fn told_of(event: Event<'_>) -> Told {
    match event {
        Event::Time(time) => Told::Time(time),
        Event::Change { code, bits } => match bits {
            [bit] => Told::Change(code, char::from(*bit)),
            _ => Told::Change(code, '-'),
        },
    }
}

// The next of what is told, if there is more and no fault.
fn next_told(body: &mut Body<'_>) -> Option<Told>
    requires room { HasRoom body.old }
    ensures room { IfSome result (λ _. HasRoom body.new) }
    ensures shorter { IfSome result (λ _. bytes_left body.new < bytes_left body.old) }
{
    match body.next_event() {
        Ok(Some(event)) => Some(told_of(event)),
        Ok(None) => None,
        Err(_) => None,
    }
}

fn try_file(rt: &impl Abort, whole: Body<'_>)
    requires room { HasRoom whole }
{
    let mut body = whole;
    let mut place: usize = 0;
    'events: while let Some(told) = next_told(&mut body) {
        assert!(rt; place < TOLD.len());
        assert_eq!(rt; told, TOLD[place]);
        place += 1;
    }
    assert_eq!(rt; place, TOLD.len());
}

#[test]
fn what_a_file_tells(rt: HostRuntime) -> Result<(), Fail> {
    let table = read_table(rt.alloc(), FILE.as_bytes())?;
    assert_eq!(rt; table.variables.len(), 2);
    assert_eq!(rt; table.variables[0].name, b"A".as_slice());
    assert_eq!(rt; table.variables[0].code, 1);
    assert_eq!(rt; table.variables[1].name, b"B".as_slice());
    assert_eq!(rt; table.variables[1].width, 1);
    try_file(&rt, table.body);
    Ok(())
}

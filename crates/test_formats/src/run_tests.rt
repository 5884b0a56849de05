use linked_list_allocator::LocalHeap;
use run_file::{Numbered, Polled, RunFault, RunRefusal, Statement, parse_run};
use std::alloc::{AllocError, Global};
use std::test::Fail;

// Two jobs, one for each LUN.
const TWO_JOBS: &str = "page g2\ntargets 1\npolls 1\njob 0 0 0 erase - -\njob 0 1 0 erase - -\n";

// Each statement, among comments and lines of blanks, and no line feed at the end.
const EVERYTHING: &str =
    "; a run of \u{e4}\n\n  page\tdata/page.bin ; of the die\ntargets 0000000004\n \t\n\
    image 3 0 die.img;here\nfail 1 2 1\njob 2 1 4294967295 a.words in.bin out.bin\nfail 1 2 1 before\n\
    polls 1000\nimage 0 3 die.img\njob 0 0 16 a.words - out.bin";

// The first fault and its line, None where there is none.
fn fault_of(alloc: Global, text: &str) -> Result<Option<RunRefusal>, Fail> {
    Ok(parse_run(text, alloc)?.fault)
}

fn at(fault: RunFault, line: usize) -> Option<RunRefusal> {
    Some(RunRefusal { fault, line })
}

// Jobs of the fourth and the fifth line, which erase at row 0 of LUN 0 and of LUN 1.
const ERASE_ON_ZERO: Numbered<'static> = Numbered {
    line: 4,
    statement: Statement::Job {
        target: 0,
        lun: 0,
        base: 0,
        text: "erase",
        input: None,
        output: None,
    },
};

const ERASE_ON_ONE: Numbered<'static> = Numbered {
    line: 5,
    statement: Statement::Job {
        target: 0,
        lun: 1,
        base: 0,
        text: "erase",
        input: None,
        output: None,
    },
};

// Texts, with their statements and their first fault.
type Read = (
    &'static str,
    &'static [Numbered<'static>],
    Option<RunRefusal>,
);

const FILES: &[Read] = &[
    (
        TWO_JOBS,
        &[
            Numbered {
                line: 1,
                statement: Statement::Page { path: "g2" },
            },
            Numbered {
                line: 2,
                statement: Statement::Targets { count: 1 },
            },
            Numbered {
                line: 3,
                statement: Statement::Polls {
                    of: Polled::Each,
                    count: 1,
                },
            },
            ERASE_ON_ZERO,
            ERASE_ON_ONE,
        ],
        None,
    ),
    (
        EVERYTHING,
        &[
            Numbered {
                line: 3,
                statement: Statement::Page {
                    path: "data/page.bin",
                },
            },
            Numbered {
                line: 4,
                statement: Statement::Targets { count: 4 },
            },
            Numbered {
                line: 6,
                statement: Statement::Image {
                    target: 3,
                    lun: 0,
                    path: "die.img",
                },
            },
            Numbered {
                line: 7,
                statement: Statement::Fail {
                    target: 1,
                    lun: 2,
                    ready: 1,
                    before: false,
                },
            },
            Numbered {
                line: 8,
                statement: Statement::Job {
                    target: 2,
                    lun: 1,
                    base: 4_294_967_295,
                    text: "a.words",
                    input: Some("in.bin"),
                    output: Some("out.bin"),
                },
            },
            Numbered {
                line: 9,
                statement: Statement::Fail {
                    target: 1,
                    lun: 2,
                    ready: 1,
                    before: true,
                },
            },
            Numbered {
                line: 10,
                statement: Statement::Polls {
                    of: Polled::Each,
                    count: 1000,
                },
            },
            Numbered {
                line: 11,
                statement: Statement::Image {
                    target: 0,
                    lun: 3,
                    path: "die.img",
                },
            },
            Numbered {
                line: 12,
                statement: Statement::Job {
                    target: 0,
                    lun: 0,
                    base: 16,
                    text: "a.words",
                    input: None,
                    output: Some("out.bin"),
                },
            },
        ],
        None,
    ),
    // The polls of a work stand once.
    (
        "page g2\ntargets 2\npolls read 2\npolls 3\npolls lun 1 0 4\npolls erase 5\npolls program 6\n\
            polls lun 0 0 7\npolls lun 01 0 1\n",
        &[
            Numbered {
                line: 1,
                statement: Statement::Page { path: "g2" },
            },
            Numbered {
                line: 2,
                statement: Statement::Targets { count: 2 },
            },
            Numbered {
                line: 3,
                statement: Statement::Polls {
                    of: Polled::Reads,
                    count: 2,
                },
            },
            Numbered {
                line: 4,
                statement: Statement::Polls {
                    of: Polled::Each,
                    count: 3,
                },
            },
            Numbered {
                line: 5,
                statement: Statement::Polls {
                    of: Polled::Lun { target: 1, lun: 0 },
                    count: 4,
                },
            },
            Numbered {
                line: 6,
                statement: Statement::Polls {
                    of: Polled::Erases,
                    count: 5,
                },
            },
            Numbered {
                line: 7,
                statement: Statement::Polls {
                    of: Polled::Programs,
                    count: 6,
                },
            },
            Numbered {
                line: 8,
                statement: Statement::Polls {
                    of: Polled::Lun { target: 0, lun: 0 },
                    count: 7,
                },
            },
        ],
        Some(RunRefusal {
            fault: RunFault::OutOfOrder,
            line: 9,
        }),
    ),
    // What stands before the first fault is given.
    (
        "page g2\ntargets 1\n\njob 0 0 0 erase - -\njob 0 1\njob 0 1 0 erase - -\n",
        &[
            Numbered {
                line: 1,
                statement: Statement::Page { path: "g2" },
            },
            Numbered {
                line: 2,
                statement: Statement::Targets { count: 1 },
            },
            ERASE_ON_ZERO,
        ],
        Some(RunRefusal {
            fault: RunFault::UnknownLine,
            line: 5,
        }),
    ),
];

#[test]
fn files_are_read(rt: HostRuntime) -> Result<(), Fail> {
    for (text, statements, fault) in FILES {
        let read = parse_run(text, rt.alloc())?;
        assert!(rt; read.statements.as_slice() == *statements, "{text}");
        assert!(rt; read.fault == *fault, "{text}");
    }
    Ok(())
}

// How many statements a text has in front of its first fault, and that fault.
fn read_up_to(alloc: Global, text: &str) -> Result<(usize, Option<RunRefusal>), Fail> {
    let read = parse_run(text, alloc)?;
    Ok((read.statements.len(), read.fault))
}

#[test]
fn more_than_65536_jobs(rt: HostRuntime) -> Result<(), Fail> {
    let mut text = String::from_str(rt.alloc(), "page a\ntargets 1\n")?;
    for _ in 0..65_536 {
        text.push_str("job 0 0 0 a - -\n")?;
    }
    let most = fault_of(rt.alloc(), &text)?;
    text.push_str("polls 1\nfail 0 0 1\njob 0 0 0 a - -\n")?;
    let more = read_up_to(rt.alloc(), &text)?;
    let wanted = (None, (65_540, at(RunFault::BadNumber, 65_541)));
    assert_eq!(rt; (most, more), wanted);
    Ok(())
}

const CODES: &[(RunFault, &str)] = &[
    (RunFault::UnknownLine, "J1"),
    (RunFault::BadNumber, "J2"),
    (RunFault::OutOfOrder, "J3"),
    (RunFault::NoSuchLun, "J4"),
    (RunFault::InputTooLong, "J5"),
];

#[test]
fn codes_and_messages(rt: HostRuntime) -> Result<(), Fail> {
    for (fault, code) in CODES {
        assert_eq!(rt; fault.code(), *code);
    }
    let refusal = RunRefusal {
        fault: RunFault::NoSuchLun,
        line: 4,
    };
    assert_eq!(rt;
        refusal.to_string(rt.alloc())?.as_str(),
        "line 4: no such LUN"
    );
    Ok(())
}

// How many statements the two jobs have on a heap, where they have no fault; None where that has too little memory.
fn statements_on(heap: &LocalHeap) -> Option<Option<usize>> {
    match parse_run(TWO_JOBS, heap) {
        Ok(text) => match text.fault {
            None => Some(Some(text.statements.len())),
            Some(_) => Some(None),
        },
        Err(AllocError) => None,
    }
}

#[test]
fn refused_memory(rt: HostRuntime) -> Result<(), Fail> {
    let mut refused_at: usize = 0;
    for size in 0..120usize {
        let heap = LocalHeap::new(rt.alloc(), 16 * size)?;
        match statements_on(&heap) {
            Some(count) => assert_eq!(rt; count, Some(5)),
            None => refused_at = size + 1,
        }
        // A text whose first line is faulty wants no memory.
        let faulty = parse_run("polls 0\n", &heap)?;
        assert_eq!(rt; faulty.fault, at(RunFault::BadNumber, 1));
    }
    // The call was refused at first, and went on in the end.
    assert!(rt; refused_at > 0 && refused_at < 120);
    Ok(())
}

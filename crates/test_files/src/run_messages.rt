use run_file::{RunFault, RunMessage, RunRefusal, parse_run};
use std::alloc::Global;
use std::test::Fail;

// A file of which `run` tells another fault first; `tools/cases` has the others.
const FILES: &[(&str, &str)] = &[(
    "page a\ntargets 1\nimage 0 1 a\nimage 1 1 a\nimage 01 1 b\n",
    "`image 01 1 b`: a die has one image, and line 4 gives it (J3)",
)];

// What is said of a run file that is refused.
fn told(alloc: Global, text: &str) -> Result<String, Fail> {
    let refusal = parse_run(text, alloc)?.fault.ok_or("the file is read")?;
    Ok(format!(in alloc; "{}", RunMessage::new(refusal, text))?)
}

#[test]
fn files_that_are_refused(rt: HostRuntime) -> Result<(), Fail> {
    for (text, message) in FILES {
        assert_eq!(rt; told(rt.alloc(), text)?.as_str(), *message);
    }
    Ok(())
}

#[test]
fn a_job_too_many(rt: HostRuntime) -> Result<(), Fail> {
    let mut text = String::from_str(rt.alloc(), "page a\ntargets 1\n")?;
    for _ in 0..65_537u32 {
        text.push_str("job 0 0 0 a - -\n")?;
    }
    assert_eq!(rt;
        told(rt.alloc(), text.as_str())?.as_str(),
        "`job 0 0 0 a - -`: a run has 65,536 jobs at most (J2)"
    );
    Ok(())
}

// J4 and J5 are told by those who know the channel and the files.
#[test]
fn faults_that_lines_alone_have_not(rt: HostRuntime) -> Result<(), Fail> {
    let text = "page a\ntargets 1\njob 1 0 0 a - -\n";
    let faults = [
        (RunFault::NoSuchLun, "`job 1 0 0 a - -`: no such LUN (J4)"),
        (
            RunFault::InputTooLong,
            "`job 1 0 0 a - -`: the input is longer than the buffer (J5)",
        ),
    ];
    for (fault, message) in faults {
        let message_told = RunMessage::new(RunRefusal { fault, line: 3 }, text);
        let told = format!(in rt.alloc(); "{message_told}")?;
        assert_eq!(rt; told.as_str(), message);
    }
    Ok(())
}

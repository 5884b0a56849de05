use micro_asm::assemble;
use micro_verify::verify;
use nand_geometry::{Geometry, Parts, SMALL_CHIP};
use std::test::Fail;

// One LUN of 8 blocks of 4 pages of 512 + 16 bytes, in one plane.
const ONE_LUN: Parts = SMALL_CHIP;

// The examples in assembly text, without their comments: an erase and a program that branch where they fail, and a read.
const EXAMPLES: [&str; 3] = [
    "rows 1\nbuffer 0\nbudget 5\ncmd 60\naddr 2 3\ncmd d0\nwait\nbrs 01 failed\nend 0\nfailed:\nend 1\n",
    "rows 1\nbuffer 4\nbudget 11\ncmd 80\naddr 0 5\nput 4\ncmd 10\nwait\nbrs 01 failed\nend 0\nfailed:\nend 1\n",
    "rows 1\nbuffer 528\nbudget 536\ncmd 00\naddr 0 5\ncmd 30\nwait\ncmd 00\nget 528\nend 0\n",
];

#[test]
fn the_examples_are_accepted(rt: HostRuntime) -> Result<(), Fail> {
    for example in EXAMPLES {
        let text = assemble(rt.alloc(), example)?;
        assert!(rt; verify(text, Geometry::of(ONE_LUN)?).is_ok(), "{example}");
    }
    Ok(())
}

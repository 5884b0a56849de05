//! A user of the libraries: it assembles a program and verifies it for a chip, and says what the verifier found. No proof is written for it.
#![tactic(auto)]

use micro_asm::assemble;
use micro_verify::verify;
use nand_geometry::{Geometry, SMALL_CHIP};
use std::io;

const ERASE: &str = "rows 1\nbuffer 0\nbudget 5\ncmd 60\naddr 2 3\ncmd d0\nwait\nend 0\n";

fn main(rt: HostRuntime) -> io::Result<()> {
    let Ok(geometry) = Geometry::of(SMALL_CHIP) else {
        return println!(rt; "the chip is refused");
    };
    match assemble(rt.alloc(), ERASE) {
        Err(refusal) => println!(rt; "not assembled: {refusal}"),
        Ok(text) => match verify(text, geometry) {
            Ok(verified) => println!(rt; "accepted, {} words walked", verified.walked()),
            Err(refused) => println!(rt; "refused: {}", refused.refusal),
        },
    }
}

//! Small targets, and jobs that erase their blocks.
ghost use Rattle.std.specs.Prelude.{◌≡◌, IfSome};

use micro_verify::verify;
use micro_word::{Text, Word};
use nand_geometry::{Geometry, Parts, SMALL_CHIP};
use onfi_cycle::Lun;
use seq_core::Job;
use std::alloc::{AllocError, Global};

/// One LUN of 8 blocks of 4 pages of 512 + 16 bytes, in one plane.
pub const ONE_LUN: Parts = SMALL_CHIP;

/// Two such LUNs, each in two planes.
pub const TWO_LUNS: Parts = Parts {
    luns: 2,
    plane_bits: 1,
    enhanced: true,
    multi_plane: true,
    ..ONE_LUN
};

/// Four such LUNs.
pub const FOUR_LUNS: Parts = Parts {
    luns: 4,
    ..TWO_LUNS
};

// The erase of a block.
const ERASE: [Word; 5] = [
    Word::Command { byte: 0x60 },
    Word::Address { from: 2, count: 3 },
    Word::Command { byte: 0xd0 },
    Word::Wait,
    Word::End { code: 0 },
];

// The erase of a block, which ends with 1 where it fails.
const TELLING_ERASE: [Word; 7] = [
    Word::Command { byte: 0x60 },
    Word::Address { from: 2, count: 3 },
    Word::Command { byte: 0xd0 },
    Word::Wait,
    Word::BranchOnStatus { mask: 1, target: 6 },
    Word::End { code: 0 },
    Word::End { code: 1 },
];

/// The erase of the block of an index on a LUN, and whether it tells by its code that it failed.
#[derive(Clone, Copy)]
pub struct Erase {
    pub parts: Parts,
    pub lun: Lun,
    pub base: u32,
    pub tells: bool,
}

// The words of an erase.
fn list_words(alloc: Global, tells: bool) -> Result<Vec<Word>, AllocError> {
    if tells {
        TELLING_ERASE.to_vec(alloc)
    } else {
        ERASE.to_vec(alloc)
    }
}

/// The job of an erase, for a channel of four targets; None where it isn't made.
pub fn make_erase(alloc: Global, erase: Erase) -> Option<Job>
    ensures { IfSome result (λ job. (job.lun ≡ erase.lun) × (job.base ≡ erase.base)) }
{
    let Erase {
        parts,
        lun,
        base,
        tells,
    } = erase;
    let geometry = Geometry::of(parts).ok()?;
    let text = Text::of(1, 0, 5, list_words(alloc, tells).ok()?).ok()?;
    let verified = verify(text, geometry).ok()?;
    Job::new(geometry, 4, lun, base, verified, Vec::new(alloc)).ok()
}

/// LUN 0 of target 0.
pub const ZERO: Lun = Lun { ce: 0, lun: 0 };

/// LUN 1 of target 0.
pub const ONE: Lun = Lun { ce: 0, lun: 1 };

/// The erase of the first block of LUN 0, on two LUNs.
pub const ON_ZERO: Erase = Erase {
    parts: TWO_LUNS,
    lun: ZERO,
    base: 0,
    tells: false,
};

/// The erase of the first block of LUN 1, on two LUNs.
pub const ON_ONE: Erase = Erase {
    lun: ONE,
    ..ON_ZERO
};

//! What a parameter page may declare beyond the base profile.

use nand_geometry::Optional;

/// A command, or a freedom, beyond the base profile.
#[derive(Clone, Copy)]
pub(crate) struct OptionalPart {
    /// Its name among those that `page --declare` takes.
    name: &'static str,
    pub words: &'static str,
    flag: Optional,
}

impl OptionalPart {
    /// Whether a chip that declares these has it.
    pub(crate) fn is_in(self, declared: Optional) -> bool {
        declared.0 & self.flag.0 != 0
    }
}

/// All of them, in the order in which a page is shown.
pub(crate) const OPTIONAL_PARTS: &[OptionalPart] = &[
    OptionalPart {
        name: "program-cache",
        words: "15h page cache program",
        flag: Optional::PROGRAM_CACHE,
    },
    OptionalPart {
        name: "group-cache",
        words: "15h of several planes",
        flag: Optional::GROUP_CACHE,
    },
    OptionalPart {
        name: "features",
        words: "EEh EFh get and set features",
        flag: Optional::FEATURES,
    },
    OptionalPart {
        name: "copyback",
        words: "35h 85h copyback",
        flag: Optional::COPYBACK,
    },
    OptionalPart {
        name: "odd-even",
        words: "copyback from odd pages to even ones and back",
        flag: Optional::ODD_EVEN,
    },
    OptionalPart {
        name: "unique-id",
        words: "EDh read unique ID",
        flag: Optional::UNIQUE_ID,
    },
    OptionalPart {
        name: "enhanced-column",
        words: "06h E0h change read column enhanced",
        flag: Optional::ENHANCED_COLUMN,
    },
    OptionalPart {
        name: "lun-reset",
        words: "FAh reset LUN",
        flag: Optional::RESET_LUN,
    },
    OptionalPart {
        name: "synchronous-reset",
        words: "FCh synchronous reset",
        flag: Optional::SYNCHRONOUS_RESET,
    },
    OptionalPart {
        name: "plane-reads",
        words: "32h read of several planes",
        flag: Optional::PLANE_READS,
    },
    OptionalPart {
        name: "free-blocks",
        words: "blocks of several planes without restriction",
        flag: Optional::FREE_BLOCKS,
    },
];

// What has this name.
fn find_part(name: &str) -> Option<OptionalPart> {
    OPTIONAL_PARTS
        .iter()
        .find(|part| part.name == name)
        .copied()
}

/// What these names declare, with commas between several; the first that is none.
pub fn declared_by(names: &str) -> Result<Optional, &str> {
    let mut bits = Optional::WIDE.0;
    for name in names.split(',') {
        match find_part(name) {
            Some(part) => bits |= part.flag.0,
            None => return Err(name),
        }
    }
    Ok(Optional(bits))
}

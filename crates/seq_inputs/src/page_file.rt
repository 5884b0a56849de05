//! The file of a parameter page, and what is read out of it.
use nand_geometry::Profile;

/// The file of a parameter page, and the profile for which it is read.
#[derive(Clone, Copy, Debug, PartialEq, Eq)]
pub struct PageFile<'a> {
    /// `-` is standard input, where the command takes it.
    pub path: &'a str,
    pub profile: Profile,
}

//! On which dies the data of a trace are judged.

use onfi_cycle::Lun;

/// The image of what a LUN held at the beginning.
#[derive(Clone, Copy, Debug, PartialEq, Eq)]
pub struct GivenImage<'a> {
    pub lun: Lun,
    pub path: &'a str,
}

/// On which dies the data of a trace are judged.
#[derive(Clone, Copy, Debug, PartialEq, Eq)]
pub struct DataRequest<'a, 'i> {
    /// What LUNs held at the beginning, as far as that is given.
    pub images: &'i [GivenImage<'a>],
    /// Whether the other LUNs were erased at the beginning; else nobody knows what they held.
    pub are_erased: bool,
}

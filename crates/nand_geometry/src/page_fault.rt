//! Why a parameter page is refused.
ghost use Rattle.std.specs.Prelude.{◌≡◌};
ghost use Rattle.nand_geometry.specs.Codes.{page_fault_code, page_fault_number, page_fault_of};

use thiserror::Error;

/// Why a parameter page, or the numbers that it declares, are refused. The lowest that stands is told.
#[derive(Clone, Copy, Debug, PartialEq, Eq, Error)]
pub enum PageFault {
    /// There are fewer than 256 bytes, so no whole copy of a parameter page.
    #[error("fewer than the 256 bytes of a parameter page")]
    TooShort,
    /// No whole copy begins with the signature `ONFI`.
    #[error("no copy of the parameter page has the signature")]
    NoSignature,
    /// Some copy has the signature, and none of those has the right checksum.
    #[error("no copy of the parameter page with the signature has the right checksum")]
    WrongChecksum,
    /// A bus of 16 bits is declared; the channel has 8.
    #[error("a 16-bit bus is declared")]
    WideBus,
    /// Address cycles other than two of the column and three of the row are declared.
    #[error("address cycles other than two for the column and three for the row are declared")]
    AddressCycles,
    /// A size is out of range: data bytes, spare bytes, pages or blocks.
    #[error("a size is out of range: data bytes, spare bytes, pages or blocks")]
    SizeOutOfRange,
    /// There are no LUNs or more than four, or a row needs more than 24 bits.
    #[error("the LUNs aren't 1 to 4, or a row needs more than 24 bits")]
    LunsOutOfRange,
    /// There are more than two plane bits, or fewer blocks than planes.
    #[error("more than two plane bits, or fewer blocks than planes")]
    PlanesOutOfRange,
    /// There are several LUNs, but no Read Status Enhanced or no multiple LUN operations are declared.
    #[error("the target has several LUNs, but the commands they need aren't declared")]
    LunCommandsMissing,
}

impl PageFault {
    /// Its code, `P1` to `P9`.
    pub fn code(self) -> &'static str
        ensures { result.now ≡ page_fault_code self }
    {
        match self {
            PageFault::TooShort => "P1",
            PageFault::NoSignature => "P2",
            PageFault::WrongChecksum => "P3",
            PageFault::WideBus => "P4",
            PageFault::AddressCycles => "P5",
            PageFault::SizeOutOfRange => "P6",
            PageFault::LunsOutOfRange => "P7",
            PageFault::PlanesOutOfRange => "P8",
            PageFault::LunCommandsMissing => "P9",
        }
    }

    /// The number of its code, 1 to 9.
    pub fn number(self) -> u32
        ensures { result ≡ page_fault_number self }
    {
        match self {
            PageFault::TooShort => 1,
            PageFault::NoSignature => 2,
            PageFault::WrongChecksum => 3,
            PageFault::WideBus => 4,
            PageFault::AddressCycles => 5,
            PageFault::SizeOutOfRange => 6,
            PageFault::LunsOutOfRange => 7,
            PageFault::PlanesOutOfRange => 8,
            PageFault::LunCommandsMissing => 9,
        }
    }

    /// The fault whose code has this number, if there is one.
    #[tactic(auto, unfolding(crate::specs::Codes::page_fault_of))]
    pub fn of_number(number: u32) -> Option<PageFault>
        ensures { result ≡ page_fault_of number }
    {
        match number {
            1 => Some(PageFault::TooShort),
            2 => Some(PageFault::NoSignature),
            3 => Some(PageFault::WrongChecksum),
            4 => Some(PageFault::WideBus),
            5 => Some(PageFault::AddressCycles),
            6 => Some(PageFault::SizeOutOfRange),
            7 => Some(PageFault::LunsOutOfRange),
            8 => Some(PageFault::PlanesOutOfRange),
            9 => Some(PageFault::LunCommandsMissing),
            _ => None,
        }
    }
}

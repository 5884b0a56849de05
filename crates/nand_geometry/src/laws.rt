//! What always holds of geometries and rows: each function here does nothing, and its contract is a law.

ghost use Rattle.nand_geometry.specs.Limits.{WidthsAreLeast, FaultlessAreInLimits};
ghost use Rattle.nand_geometry.specs.Row.{RowsReadBack, PartsGiveTheRow, IndicesAreDistinct};

/// A field for n numbers, n up to 65,536, has the least width w with 2^w >= n.
pub fn widths_are_least()
    ensures { WidthsAreLeast }
{}

/// Numbers without a fault are exactly those inside the limits.
pub fn faultless_are_in_limits()
    ensures { FaultlessAreInLimits }
{}

/// The three bytes of an index, read back, give its LUN, block and page, which are inside the geometry.
pub fn rows_read_back()
    ensures { RowsReadBack }
{}

/// The LUN, block and page that a row names have that row as their number, so no two rows name the same.
pub fn parts_give_the_row()
    ensures { PartsGiveTheRow }
{}

/// No two places have the same three bytes, a place being a LUN, an index and a plane.
pub fn indices_are_distinct()
    ensures { IndicesAreDistinct }
{}

ghost use Rattle.nand_geometry.specs.Page.{ParametersHaveTheirLength};

/// The register of the parameter page has 768 bytes.
pub fn parameters_have_their_length()
    ensures { ParametersHaveTheirLength }
{}

ghost use Rattle.nand_geometry.specs.Reading.{FieldsDecide, PagesReadBack, ParametersReadBack};
ghost use Rattle.nand_geometry.specs.Codes.{PageFaultsAreNumbered};

/// What a copy declares, and its fault, depend on bytes 6 to 9, 80 to 85, 92 to 101 and 113 alone.
pub fn fields_decide()
    ensures { FieldsDecide }
{}

/// The page of a geometry is read as that geometry, whatever comes after it, and whatever whole copies stand before it
/// that have no signature or another checksum.
pub fn read_of_page()
    ensures { PagesReadBack }
{}

/// The three copies in the register of the parameter page are read as the geometry.
pub fn read_of_parameters()
    ensures { ParametersReadBack }
{}

/// Each fault of a parameter page is that of its number.
pub fn page_faults_are_numbered()
    ensures { PageFaultsAreNumbered }
{}

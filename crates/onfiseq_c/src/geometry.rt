//! The parameter page that declares a geometry.
ghost use Rattle.std.specs.Prelude.{◌≡◌};
ghost use Rattle.nand_geometry.specs.Reading.{read_of, read_as};
ghost use Rattle.onfiseq_c.specs.Geometry.{page_of, profile_of};

use bus_record::OnfiseqGeometry;
use nand_geometry::{Geometry, Profile};

/// What a parameter page declares. `fault` is 0, or n of the code Pn; then the geometry is all zeros.
#[repr(C)]
#[derive(Clone, Copy)]
pub struct OnfiseqPage {
    pub fault: u32,
    pub geometry: OnfiseqGeometry,
}

fn profile_of(number: u8) -> Profile
    ensures { result ≡ profile_of number }
{
    match number {
        0 => Profile::Base,
        _ => Profile::Onfi,
    }
}

/// Reads the parameter page of a chip, in the base profile.
#[unsafe(no_mangle)]
pub extern "C" fn onfiseq_read_page(page: &[u8]) -> OnfiseqPage
    ensures { page_of (read_of page.now) result }
{
    onfiseq_read_page_as(page, 0)
}

/// Reads it in a profile: 0 for the base profile, anything else for the wider one.
#[unsafe(no_mangle)]
pub extern "C" fn onfiseq_read_page_as(page: &[u8], profile: u8) -> OnfiseqPage
    ensures { page_of (read_as (profile_of profile) page.now) result }
{
    match Geometry::read_as(profile_of(profile), page) {
        Ok(geometry) => OnfiseqPage {
            fault: 0,
            geometry: OnfiseqGeometry::of(geometry.parts()),
        },
        Err(fault) => OnfiseqPage {
            fault: fault.number(),
            geometry: OnfiseqGeometry::none(),
        },
    }
}

//! What a Linux host sends besides a profile.
ghost use Rattle.std.specs.Prelude.{◌≡◌};
ghost use Rattle.vendor_file.specs.Linux.{linux};

use nand_geometry::Profile;

/// A vendor file of the sequences of a Linux host that a profile hasn't. The base profile lacks the identifiers of its manufacturer (00h) and of JEDEC (40h), the
/// parameter page of JEDEC, the unique identifier, and features; the wider one the parameter page of JEDEC alone.
#[tactic(auto, unfolding(crate::specs::Linux::linux))]
pub fn linux(profile: Profile) -> &'static str
    ensures { result.now ≡ linux profile }
{
    match profile {
        Profile::Base => "90 A=00 O*\n90 A=40 O*\nec A=40 O*\ned A O*\nee A O*\nef A I4 R\n",
        Profile::Onfi => "ec A=40 O*\n",
    }
}

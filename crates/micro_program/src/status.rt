//! What a status byte says.
ghost use Rattle.std.specs.Prelude.{◌≡◌};
ghost use Rattle.micro_program.specs.Program.{is_ready_status};

use onfi_cycle::Status;

/// The status byte says that the LUN is ready (RDY).
#[tactic(auto, using(crate::proofs::Statuses::same_test))]
pub fn is_ready_status(status: u8) -> bool
    ensures { result ≡ is_ready_status status }
{
    Status(status).is_ready()
}

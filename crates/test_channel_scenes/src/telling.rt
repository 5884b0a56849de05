//! What came of a run, as tests compare it.
ghost use Rattle.std.specs.Prelude.{◌≡◌, IfOk, slice_get};
ghost use Rattle.std.specs.Option.{option_map};
ghost use Rattle.nand_geometry.specs.declared.optional.Profile.TheVariants.{Base};
ghost use Rattle.trace_text.specs.Trace.{IsTextOf};
ghost use Rattle.test_channel_scenes.specs.Telling.{told_of};

use channel_work::NamedJob;
use onfi_cycle::{Item, Lun};
use std::alloc::Global;
use std::test::Fail;
use trace_text::parse;

/// The items of a text.
pub fn read_trace(alloc: Global, text: &str) -> Result<Vec<Item>, Fail>
    ensures { IfOk result (λ trace. IsTextOf Base text.now trace.items) }
{
    Ok(parse(alloc, text)?)
}

/// A job that is done: its host, its number, its LUN and its code.
pub type Told = (u32, u64, Lun, u8);

/// What is told of the job that was done in this place.
pub fn tell_done(done: &[NamedJob], place: usize) -> Option<Told>
    ensures { result ≡ option_map told_of (slice_get done.now place) }
{
    let one = done.get(place)?;
    Some((
        one.name.host,
        one.name.number,
        one.done.job.lun(),
        one.done.code,
    ))
}

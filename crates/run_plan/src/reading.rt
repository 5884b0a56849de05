//! The files that a run file names beside programs: its page, images of dies, and inputs of jobs.
ghost use Rattle.std.specs.Prelude.{◌≡◌, true, IfOk, IfErr, OnOk, vec_len};
ghost use Rattle.std.specs.Option.{option_copied};
ghost use Rattle.target_bus.specs.Bus.{is_new_of};
ghost use Rattle.run_file.specs.declared.refusal.RunFault.TheVariants.{InputTooLong};
ghost use Rattle.seq_inputs.specs.declared.fault.Fault.TheVariants.{Statement};
ghost use Rattle.seq_inputs.specs.Inputs.{HasPageAs, PageIsRefused};
ghost use Rattle.seq_inputs.specs.Stops.{Says, IsRefusal};
ghost use Rattle.run_plan.specs.Setup.{HasImageOf};
ghost use Rattle.run_plan.specs.Judged.{ImageIsRefused, HasImage, HasInput, InputIsRefused};

use die_model::{ImageRefusal, LunDie};
use nand_geometry::{Geometry, Profile};
use run_file::RunFault;
use seq_files::Files;
use seq_inputs::{Fault, Stop, Words, geometry_in, read_file, words_of};
use shown_text::Shown;
use std::alloc::Global;
use trace_timing::PageTimes;

/// What a parameter page declares.
#[derive(Clone, Copy)]
pub(crate) struct ReadPage {
    pub(crate) geometry: Geometry,
    pub(crate) times: PageTimes,
}

/// What the page at a path declares, read for this profile.
pub(crate) fn read_page<'a, F: Files>(
    alloc: Global,
    files: &mut F,
    profile: Profile,
    path: &'a str,
) -> Result<ReadPage, Stop<'a>>
    ensures ok { IfOk result (λ page. HasPageAs (F.store files.old) profile path.now page.geometry) }
    ensures err { IfErr result (Says (PageIsRefused (F.store files.old) path.now)) }
    ensures stays { F.store files.new ≡ F.store files.old }
{
    let bytes = read_file(alloc, files, path)?;
    let geometry = geometry_in(alloc, profile, path, bytes.as_slice())?;
    let times = PageTimes::read(bytes.as_slice());
    Ok(ReadPage { geometry, times })
}

/// A new die whose content is the image at a path.
#[tactic(auto, using(crate::proofs::DiesFit::loaded_is_new))]
pub(crate) fn read_die<'a, F: Files>(
    alloc: Global,
    files: &mut F,
    geometry: Geometry,
    path: &'a str,
) -> Result<LunDie, Stop<'a>>
    ensures ok { OnOk result (HasImage (F.store files.old) geometry path.now) }
    ensures image { IfOk result (HasImageOf (F.store files.old) geometry path.now) }
    ensures new { IfOk result (λ die. is_new_of geometry die ≡ true) }
    ensures err { IfErr result (Says (ImageIsRefused (F.store files.old) geometry path.now)) }
    ensures stays { F.store files.new ≡ F.store files.old }
{
    let bytes = read_file(alloc, files, path)?;
    let mut die = LunDie::new(alloc, geometry)?;
    match die.load_image(bytes.as_slice()) {
        Ok(()) => Ok(die),
        Err(ImageRefusal::Fault(fault)) => {
            let fault = Fault::Image { fault };
            Err(Stop::refused(fault, words_of(alloc, path, fault)))
        }
        Err(ImageRefusal::OutOfMemory) => Err(Stop::OutOfMemory),
    }
}

// The input of this path has so many bytes, more than the buffer.
fn refuse_input<'a>(alloc: Global, path: &str, bytes: usize, buffer: usize) -> Stop<'a>
    ensures { IsRefusal (Statement InputTooLong) result }
{
    let fault = RunFault::InputTooLong;
    let words = format!(in alloc;
        "{}: {fault}: it has {bytes} bytes, and the buffer has {buffer} ({})",
        Shown::path(path),
        fault.code()
    );
    Stop::refused(Fault::Statement { fault }, Words::of(words))
}

/// A buffer of this length that begins with the bytes of a file, if there is one, and is 00 beyond them.
pub(crate) fn read_buffer<'a, F: Files>(
    alloc: Global,
    files: &mut F,
    input: Option<&'a str>,
    length: usize,
) -> Result<Vec<u8>, Stop<'a>>
    ensures ok { IfOk result (λ buffer. HasInput (F.store files.old) (option_copied input.entry) length buffer.items) }
    ensures length { IfOk result (λ buffer. vec_len buffer ≡ length) }
    ensures err { IfErr result (Says (InputIsRefused (F.store files.old) (option_copied input.entry) length)) }
    ensures stays { F.store files.new ≡ F.store files.old }
{
    let mut buffer = match input {
        Some(path) => read_file(alloc, files, path)?,
        None => Vec::new(alloc),
    };
    if buffer.len() > length {
        let path = input.unwrap_or("-");
        return Err(refuse_input(alloc, path, buffer.len(), length));
    }
    buffer.resize(length, 0)?;
    Ok(buffer)
}

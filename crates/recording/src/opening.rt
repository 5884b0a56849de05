//! The dies of a channel before a trace, by the images that are given.
ghost use Rattle.std.specs.Prelude.{◌≡◌, ◌≤◌, true, IfOk, IfErr, OnOk, set};
ghost use Rattle.die_model.specs.Die.{Die};
ghost use Rattle.target_bus.specs.Bus.{number_of};
ghost use Rattle.seq_inputs.specs.Stops.{IsRefusal, Says};
ghost use Rattle.recording.specs.Targets.{count_of};
ghost use Rattle.recording.specs.Opened.{IsGiven, AreGiven, AreOpened, AreOpenedIf, ImageIsRefused, AreRefused, ImagesAreRefused};

use crate::data_request::{DataRequest, GivenImage};
use crate::targets::Targets;
use die_model::ImageRefusal;
use nand_geometry::Geometry;
use seq_core::JobFault;
use seq_files::Files;
use seq_inputs::{Fault, Stop, read_file, words_of};
use std::alloc::Global;
use trace_data::OpenedDies;

// This file has a fault.
fn refuse<'p>(alloc: Global, path: &'p str, fault: Fault) -> Stop<'p>
    ensures { IsRefusal fault result }
{
    Stop::refused(fault, words_of(alloc, path, fault))
}

// Loads an image into the die of its LUN.
fn load_image<'p, F: Files>(
    alloc: Global,
    files: &mut F,
    dies: &mut OpenedDies,
    image: GivenImage<'p>,
) -> Result<(), Stop<'p>>
    ensures ok { OnOk result ((die : Die) × IsGiven (F.store files.old) dies.old.geometry dies.old.targets image.entry die
        × (dies.new.dies.items ≡ set dies.old.dies.items (number_of dies.old.geometry image.entry.lun) die)
        × (dies.new.known.items ≡ set dies.old.known.items (number_of dies.old.geometry image.entry.lun) true)) }
    ensures err { IfErr result (Says (ImageIsRefused (F.store files.old) dies.old.geometry dies.old.targets image.entry)) }
    ensures channel { (dies.new.geometry ≡ dies.old.geometry) × (dies.new.targets ≡ dies.old.targets) }
    ensures stays { F.store files.new ≡ F.store files.old }
{
    if !dies.has(image.lun) {
        let fault = JobFault::NoSuchLun;
        return Err(refuse(alloc, image.path, Fault::Job { fault }));
    }
    let bytes = read_file(alloc, files, image.path)?;
    match dies.load(alloc, image.lun, bytes.as_slice()) {
        Ok(()) => Ok(()),
        Err(ImageRefusal::Fault(fault)) => Err(refuse(alloc, image.path, Fault::Image { fault })),
        Err(ImageRefusal::OutOfMemory) => Err(Stop::OutOfMemory),
    }
}

// Loads images, each into the die of its LUN.
fn load_images<'p, F: Files>(
    alloc: Global,
    files: &mut F,
    dies: &mut OpenedDies,
    images: &[GivenImage<'p>],
) -> Result<(), Stop<'p>>
    ensures ok { OnOk result (AreGiven (F.store files.old) dies.old.geometry dies.old.targets images.now
        dies.old.dies.items dies.new.dies.items dies.old.known.items dies.new.known.items) }
    ensures err { IfErr result (Says (AreRefused (F.store files.old) dies.old.geometry dies.old.targets images.now)) }
    ensures channel { (dies.new.geometry ≡ dies.old.geometry) × (dies.new.targets ≡ dies.old.targets) }
    ensures stays { F.store files.new ≡ F.store files.old }
{
    for image in images {
        load_image(alloc, files, dies, *image)?;
    }
    Ok(())
}

// The dies before a trace, on a channel of so many targets.
fn open_dies<'p, F: Files>(
    alloc: Global,
    files: &mut F,
    geometry: Geometry,
    targets: Targets,
    images: &[GivenImage<'p>],
    are_erased: bool,
) -> Result<OpenedDies, Stop<'p>>
    ensures ok { IfOk result (λ o. AreOpened (F.store files.old) geometry (count_of targets) images.now are_erased o.dies.items o.known.items) }
    ensures channel { IfOk result (λ o. (o.geometry ≡ geometry) × (o.targets ≡ count_of targets)) }
    ensures err { IfErr result (Says (AreRefused (F.store files.old) geometry (count_of targets) images.now)) }
    ensures stays { F.store files.new ≡ F.store files.old }
{
    let mut dies = OpenedDies::new(alloc, geometry, targets.count(), are_erased)?;
    load_images(alloc, files, &mut dies, images)?;
    Ok(dies)
}

/// The dies before a trace, where its data are judged.
pub(crate) fn open_if<'p, F: Files>(
    alloc: Global,
    files: &mut F,
    geometry: Geometry,
    targets: Targets,
    given: Option<DataRequest<'p, '_>>,
) -> Result<Option<OpenedDies>, Stop<'p>>
    ensures ok { IfOk result (λ o. AreOpenedIf (F.store files.old) geometry (count_of targets) given.entry o) }
    ensures err { IfErr result (Says (ImagesAreRefused (F.store files.old) geometry (count_of targets) given.entry)) }
    ensures stays { F.store files.new ≡ F.store files.old }
{
    let Some(DataRequest { images, are_erased }) = given else {
        return Ok(None);
    };
    match open_dies(alloc, files, geometry, targets, images, are_erased) {
        Ok(dies) => Ok(Some(dies)),
        Err(stop) => Err(stop),
    }
}

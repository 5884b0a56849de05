//! A vendor's sequences, from a file.
ghost use Rattle.std.specs.Prelude.{◌≡◌, true, Ok, IfOk, IfErr};
ghost use Rattle.std.specs.Str.{bytes_eq};
ghost use Rattle.recording.specs.Endings.{SaysOf};
ghost use Rattle.recording.specs.Vendors.{is_linux, HasSequences, VendorIsRefused, RefusesVendor, AreSteps, StepsAreRefused};
ghost use Rattle.vendor_file.specs.Lines.{sequences_in};

use crate::recording_fault::RecordingFault;
use crate::recording_stop::RecordingStop;
use nand_geometry::Profile;
use seq_files::Files;
use seq_inputs::{Stop, Words, read_file, text_of};
use std::alloc::Global;
use vendor_file::{Step, VendorFileFault, VendorMessage, VendorRefusal, linux, read_sequences};

/// The name of the vendor file that is built in.
pub const LINUX: &str = "linux";

// What is wrong with a vendor file, in words.
fn words_of<'p>(
    alloc: Global,
    path: &'p str,
    text: &str,
    fault: VendorFileFault,
) -> Option<Words<'p>> {
    let message = VendorMessage::new(fault, text);
    Words::at(path, Some(fault.line), format!(in alloc; "{message}"))
}

// The sequences of the text of this path, for a profile.
fn sequences_of<'p>(
    alloc: Global,
    profile: Profile,
    path: &'p str,
    text: &str,
) -> Result<Vec<Step>, RecordingStop<'p>>
    ensures ok { IfOk result (λ steps. sequences_in profile text.now ≡ Ok steps.items) }
    ensures err { IfErr result (SaysOf (λ _. ⊥) (RefusesVendor profile text.now)) }
{
    match read_sequences(alloc, profile, text) {
        Ok(steps) => Ok(steps),
        Err(VendorRefusal::Fault(told)) => {
            let words = words_of(alloc, path, text, told);
            let VendorFileFault { fault, line } = told;
            let fault = RecordingFault::Vendor { fault, line };
            Err(RecordingStop::Faulty { fault, words })
        }
        Err(VendorRefusal::OutOfMemory) => Err(RecordingStop::Stop(Stop::OutOfMemory)),
    }
}

fn is_linux(path: &str) -> bool
    ensures { result ≡ is_linux path.now }
{
    path.as_bytes() == LINUX.as_bytes()
}

// The sequences of the vendor file of this path, for a profile; `linux` is the one that is built in.
fn sequences_at<'p, F: Files>(
    alloc: Global,
    files: &mut F,
    profile: Profile,
    path: &'p str,
) -> Result<Vec<Step>, RecordingStop<'p>>
    ensures ok { IfOk result (λ steps. HasSequences (F.store files.old) profile path.now steps.items) }
    ensures err { IfErr result (SaysOf (λ _. ⊥) (VendorIsRefused (F.store files.old) profile path.now)) }
    ensures stays { F.store files.new ≡ F.store files.old }
{
    if is_linux(path) {
        return sequences_of(alloc, profile, path, linux(profile));
    }
    let bytes = read_file(alloc, files, path)?;
    let text = text_of(path, bytes.as_slice())?;
    sequences_of(alloc, profile, path, text)
}

/// The steps of the sequences that are passed over, for a profile: those of the vendor file, or none where none is given.
pub fn steps_at<'p, F: Files>(
    alloc: Global,
    files: &mut F,
    profile: Profile,
    vendor: Option<&'p str>,
) -> Result<Vec<Step>, RecordingStop<'p>>
    ensures ok { IfOk result (λ steps. AreSteps (F.store files.old) profile vendor.entry steps.items) }
    ensures err { IfErr result (SaysOf (λ _. ⊥) (StepsAreRefused (F.store files.old) profile vendor.entry)) }
    ensures stays { F.store files.new ≡ F.store files.old }
{
    match vendor {
        None => Ok(Vec::new(alloc)),
        Some(path) => match sequences_at(alloc, files, profile, path) {
            Ok(steps) => Ok(steps),
            Err(stop) => Err(stop),
        },
    }
}

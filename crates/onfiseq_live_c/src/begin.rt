//! A job begins on a LUN.
ghost use Rattle.std.specs.Prelude.{◌≡◌, ◌<◌, ◌^◌, IfSome};
ghost use Rattle.nand_geometry.specs.declared.parts.Parts.{Parts};
ghost use Rattle.word_file.specs.Words.{continues};
ghost use Rattle.bus_record.specs.Bus.{IsSound, bus_view};
ghost use Rattle.onfiseq_live_c.specs.Begin.{job_fault, Begins};
ghost use Rattle.onfiseq_live_c.specs.Live.{state_of};

use crate::finish::OnfiseqStep;
use crate::job::OnfiseqJob;
use crate::live::OnfiseqLive;
use crate::stop::Stop;
use bus_record::{OnfiseqBus, has_lun};
use micro_word::Header;
use nand_geometry::Geometry;
use onfi_cycle::Lun;
use seq_core::JobFault;
use word_file::{WordMissing, continues_cache_read};

// The first fault of a job with this header and this buffer, whose file continues a cache read or not.
fn job_fault(
    geometry: &Geometry,
    bus: &OnfiseqBus,
    lun: Lun,
    base: u32,
    buffer: usize,
    header: Header,
    continues: bool,
) -> Option<JobFault>
    requires geometry { geometry.now ≡ (bus_view bus.now).geometry }
    requires sound { IsSound bus.now }
    ensures { result ≡ job_fault (bus_view bus.now) lun base buffer header.rows header.buffer continues }
{
    let end = u64::from(base) + u64::from(header.rows);
    if !has_lun(bus, lun) {
        Some(JobFault::NoSuchLun)
    } else if end > u64::from(geometry.indices()) {
        Some(JobFault::RowsOutside)
    } else if buffer != header.buffer as usize {
        Some(JobFault::BufferLength)
    } else if continues && base % geometry.parts().pages != 0 {
        Some(JobFault::NotAtBlock)
    } else {
        None
    }
}

/// Begins the job of a word file on a LUN, with its rows counted from the index `base`, and with a buffer of this length; its record is written then. Else it
/// stays as it was, and the answer says why: D the channel's record is none; M the file can't be read; S2 the LUN isn't there; S3 base and rows pass
/// the indices of a LUN; S4 the buffer hasn't the length that the header names; S6 the file continues a cache read, and the base isn't the first page of a block.
#[unsafe(no_mangle)]
pub extern "C" fn onfiseq_job_begin(
    live: &OnfiseqLive,
    ce: u8,
    lun: u8,
    base: u32,
    file: &[u8],
    buffer: usize,
    job: &mut OnfiseqJob,
) -> OnfiseqStep
    ensures { Begins live.now (record { ce = ce; lun = lun }) base buffer file.now result job.old job.new }
{
    let Some(geometry) = live.geometry() else {
        return OnfiseqStep::stopped(Stop::Damaged);
    };
    let header = match Header::of(file) {
        Err(refusal) => return OnfiseqStep::stopped(Stop::Word(WordMissing::Fault(refusal))),
        Ok(header) => header,
    };
    let on = Lun { ce, lun };
    let continues = continues_cache_read(file, header.words);
    if let Some(fault) = job_fault(&geometry, &live.bus, on, base, buffer, header, continues) {
        return OnfiseqStep::stopped(Stop::Unfit(fault));
    }
    *job = OnfiseqJob::fresh(on, base, header.buffer);
    OnfiseqStep::begun()
}

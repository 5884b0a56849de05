//! A job: a verified text that is to run on a LUN, from a base on, with its buffer.
ghost use Rattle.std.specs.Prelude.{◌≡◌, ◌↔◌, ◌≤◌, IsOk, IfOk, IfErr, Some, None, length, true};
ghost use Rattle.micro_program.specs.Places.{IsShaped};
ghost use Rattle.micro_program.specs.Safe.{IsSafe};
ghost use Rattle.micro_program.specs.Program.{Job as JobValue};
ghost use Rattle.seq_core.specs.Job.{job_fault, job_of};
ghost use Rattle.seq_core.specs.Event.{IsVerified};

use crate::job_fault::JobFault;
use micro_program::{Verified, continues_cache_read};
use micro_word::Text;
use nand_geometry::Geometry;
use onfi_cycle::Lun;
use std::alloc::{Allocator, Global};
use std::marker::Model;

/// A verified text with the LUN that it is to run on, the row index that it begins at, and its buffer.
#[derive(Drop)]
pub struct Job<A: Allocator = Global> {
    pub(crate) lun: Lun,
    pub(crate) base: u32,
    pub(crate) verified: Verified<A>,
    pub(crate) buffer: Vec<u8, A>,
}

/// A job that isn't made: why, with its text and its buffer handed back.
#[derive(Drop)]
pub struct JobRefused<A: Allocator = Global> {
    pub fault: JobFault,
    pub verified: Verified<A>,
    pub buffer: Vec<u8, A>,
}

impl<A: Allocator> Model for Job<A> {
    ghost use Rattle.micro_program.specs.Program.{Job as JobValue};
    ghost use Rattle.micro_program.specs.Places.{IsShaped};
    ghost use Rattle.seq_core.specs.Event.{IsVerified};
    ghost use Rattle.seq_core.specs.Job.{job_of};

    ghost Value = { JobValue };

    ghost view = { λ j. job_of j.lun j.base j.verified j.buffer.items };

    ghost invariant = { λ j. IsVerified (job_of j.lun j.base j.verified j.buffer.items) × IsShaped j.verified.text.words };
}

// The first fault of a job.
fn job_fault<A: Allocator>(
    geometry: &Geometry,
    targets: u8,
    lun: Lun,
    base: u32,
    verified: &Verified<A>,
    buffer: usize,
) -> Option<JobFault>
    ensures { result ≡ job_fault geometry.now targets lun base verified.now buffer }
{
    let text = verified.text();
    let parts = geometry.parts();
    let end = u64::from(base) + u64::from(text.rows());
    if lun.ce >= targets || lun.lun >= parts.luns {
        Some(JobFault::NoSuchLun)
    } else if end > u64::from(geometry.indices()) {
        Some(JobFault::RowsOutside)
    } else if buffer != text.buffer() as usize {
        Some(JobFault::BufferLength)
    } else if parts != verified.geometry().parts() {
        Some(JobFault::OtherGeometry)
    } else if continues_cache_read(text.words()) && base % parts.pages != 0 {
        Some(JobFault::NotAtBlock)
    } else {
        None
    }
}

impl<A: Allocator> Job<A> {
    /// The job of a verified text on a LUN of a channel with this geometry and so many targets. Its rows are counted from
    /// the index `base`; its buffer has the length that the text names.
    ///
    /// Errors, the first that stands, with text and buffer handed back: `S2` the LUN isn't there; `S3` base and rows pass
    /// the indices of a LUN; `S4` the buffer hasn't the length that the text names; `S5` the text was verified for another
    /// geometry; `S6` the text continues a cache read, and the base isn't the first page of a block. Takes no memory.
    pub fn new(
        geometry: Geometry,
        targets: u8,
        lun: Lun,
        base: u32,
        verified: Verified<A>,
        buffer: Vec<u8, A>,
    ) -> Result<Job<A>, JobRefused<A>>
        ensures accepted { IsOk result ↔ (job_fault geometry targets lun base verified (length buffer.items) ≡ None) }
        ensures value { IfOk result (λ j. j ≡ job_of lun base verified buffer.items) }
        ensures refused { IfErr result (λ e. (job_fault geometry targets lun base verified (length buffer.items) ≡ Some e.fault)
            × (e.verified ≡ verified) × (e.buffer ≡ buffer)) }
    {
        match job_fault(&geometry, targets, lun, base, &verified, buffer.len()) {
            Some(fault) => Err(JobRefused {
                fault,
                verified,
                buffer,
            }),
            None => Ok(Job {
                lun,
                base,
                verified,
                buffer,
            }),
        }
    }

    /// The LUN that it is to run on.
    pub fn lun(&self) -> Lun
        ensures value { result ≡ self.now.lun }
        ensures verified { IsVerified self.now }
    {
        self.lun
    }

    /// The geometry that its text was verified for.
    pub fn geometry(&self) -> &Geometry
        ensures { result.now ≡ self.now.geometry }
    {
        self.verified.geometry()
    }

    /// The text. Its loops pair, four deep at most, and its branches lead on inside their loop.
    pub fn text(&self) -> &Text<A>
        ensures value { result.now ≡ self.now.text }
        ensures shaped { IsShaped self.now.text.words }
    {
        self.verified.text()
    }

    /// The buffer: before the job has run as it was handed over, after it as the program left it.
    pub fn buffer(&self) -> &[u8]
        ensures { result.now ≡ self.now.buffer }
    {
        &self.buffer
    }
}

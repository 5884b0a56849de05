//! What the rules see of a LUN.
ghost use Rattle.std.specs.Prelude.{◌≡◌, ◌^◌, ◌<◌, ◌≤◌};
ghost use Rattle.onfi_cycle.specs.Lun.{is_cache_read, is_cache_program, is_plane_program, leaves_array_busy, keeps_array_busy, programs, is_page_read, is_copyback_read, is_target_work, works};
ghost use Rattle.onfi_cycle.specs.Outputs.{has_fewer};
ghost use Rattle.onfi_cycle.specs.Rules.{works_for_target, caching, may_change_column, has_no_byte, is_past_register, continues_cache, ends_cache, has_read_one, holds_plane_of, keeps_copy, may_copy_to, may_copy, is_copying};

use crate::held::{holds_plane, page_in_plane};
use crate::{Command, HeldPages, Latch, PageAddress, ReadColumn, Register, WorkQueue};
use nand_geometry::Geometry;
use std::marker::Model;

/// A cache read goes on: the last closer is Read Cache Sequential.
pub fn is_cache_read(closer: Option<Command>) -> bool
    ensures { result ≡ is_cache_read closer }
{
    closer == Some(Command::ReadCacheSequential)
}

/// A page is programmed while the next one may come: the last closer is Page Cache Program.
pub fn is_cache_program(closer: Option<Command>) -> bool
    ensures { result ≡ is_cache_program closer }
{
    closer == Some(Command::ProgramCache)
}

/// One plane of several is programmed: the last closer is that of a queued program.
pub fn is_plane_program(closer: Option<Command>) -> bool
    ensures { result ≡ is_plane_program closer }
{
    closer == Some(Command::ProgramPlane)
}

/// The array goes on with its work behind the ready of this closer.
pub(crate) fn leaves_array_busy(closer: Option<Command>) -> bool
    ensures { result ≡ leaves_array_busy closer }
{
    is_cache_read(closer) || is_cache_program(closer)
}

/// A queued program leaves the array at the work of a Page Cache Program: the last closer is that, or a queued program behind it.
pub fn keeps_array_busy(closer: Option<Command>) -> bool
    ensures { result ≡ keeps_array_busy closer }
{
    is_cache_program(closer) || is_plane_program(closer)
}

/// The last closer has read a page of the array, so that a cache read may go on from it.
pub fn is_page_read(closer: Option<Command>) -> bool
    ensures { result ≡ is_page_read closer }
{
    matches!(
        closer,
        Some(Command::ReadConfirm | Command::ReadCacheSequential)
    )
}

/// The last closer has read a page for a copyback.
pub fn is_copyback_read(closer: Option<Command>) -> bool
    ensures { result ≡ is_copyback_read closer }
{
    closer == Some(Command::CopybackRead)
}

/// A program may take what is held: the last closer is Copyback Read, or a queued program behind one.
pub fn keeps_copy(closer: Option<Command>) -> bool
    ensures { result ≡ keeps_copy closer }
{
    matches!(closer, Some(Command::CopybackRead | Command::ProgramPlane))
}

/// The last closer reads or sets what stands beside the array, which is work of a whole target.
pub fn is_target_work(closer: Option<Command>) -> bool
    ensures { result ≡ is_target_work closer }
{
    matches!(
        closer,
        Some(
            Command::ReadParameterPage
                | Command::ReadUniqueId
                | Command::GetFeatures
                | Command::SetFeatures
        )
    )
}

/// A page may be copied to another of its plane: both are odd, or both even, where that matters.
fn may_copy_to(geometry: &Geometry, page: PageAddress, held: Option<PageAddress>) -> bool
    ensures { result ≡ may_copy_to geometry.now page held }
{
    match held {
        None => false,
        Some(from) => { geometry.parts().optional.has_odd_even() || page.page % 2 == from.page % 2 }
    }
}

/// What the rules see of a LUN.
#[derive(Drop)]
pub struct LunFacts<Q: WorkQueue> {
    pub latch: Latch,
    /// It is the LUN whose status 70h shows.
    pub selected: bool,
    /// Another LUN of its target was given work while it worked, so that 70h asks for no one LUN.
    pub overlapped: bool,
    pub busy: bool,
    /// The last command that closed something on this LUN.
    pub closer: Option<Command>,
    pub array_busy: bool,
    /// The page that the array was last told to read.
    pub array_page: PageAddress,
    pub register: Register,
    pub column: ReadColumn,
    pub queue: Q,
    /// The pages that its plane registers hold.
    pub held: HeldPages,
}

impl<Q: WorkQueue> Model for LunFacts<Q> {
    ghost use Rattle.onfi_cycle.specs.LunView.{LunView};

    ghost Value = { LunView };

    ghost view = { λ f. record { latch = f.latch; selected = f.selected; overlapped = f.overlapped; busy = f.busy; closer = f.closer; array_busy = f.array_busy; array_page = f.array_page; register = f.register; column = f.column; queue = Q.members f.queue; held = f.held.items } };

    ghost use Rattle.std.specs.Prelude.{◌<◌, ◌^◌};

    ghost invariant = { λ f. f.column.outputs < 2 ^ 63 };
}

impl<Q: WorkQueue> LunFacts<Q> {
    /// It works, or its array does.
    pub(crate) fn works(&self) -> bool
        ensures { result ≡ works self.now }
    {
        self.busy || self.array_busy
    }

    /// It programs behind a Page Cache Program, queued programs left out, and no ready of its array came since.
    pub(crate) fn programs(&self) -> bool
        ensures { result ≡ programs self.now }
    {
        self.busy && is_cache_program(self.closer)
            || self.array_busy && keeps_array_busy(self.closer)
    }

    /// Work of its whole target goes on at it.
    pub(crate) fn works_for_target(&self) -> bool
        ensures { result ≡ works_for_target self.now }
    {
        self.busy && is_target_work(self.closer)
    }

    /// A cache read goes on.
    pub(crate) fn is_caching(&self) -> bool
        ensures { result ≡ caching self.now }
    {
        is_cache_read(self.closer)
    }

    /// A page was read, and no more than one is held, so that a cache read may go on from it.
    pub(crate) fn has_read_one(&self) -> bool
        ensures { result ≡ has_read_one self.now }
    {
        is_page_read(self.closer) && self.held.len() <= 1
    }

    /// It holds a page of the plane in which this one lies, and nothing is queued.
    pub(crate) fn holds_plane_of(&self, geometry: &Geometry, page: PageAddress) -> bool
        ensures { result ≡ holds_plane_of geometry.now page self.now }
    {
        let planes = geometry.planes();
        self.queue.works().is_empty()
            && holds_plane(planes, page.block % planes, self.held.as_slice())
    }

    /// It holds a page that was read for a copyback, and may be copied to this one.
    pub(crate) fn may_copy(&self, geometry: &Geometry, page: PageAddress) -> bool
        ensures { result ≡ may_copy geometry.now page self.now }
    {
        let planes = geometry.planes();
        let held = page_in_plane(planes, page.block % planes, self.held.as_slice());
        keeps_copy(self.closer) && may_copy_to(geometry, page, held)
    }

    /// A group of copybacks has begun.
    pub(crate) fn is_copying(&self) -> bool
        ensures { result ≡ is_copying self.now }
    {
        !self.queue.works().is_empty() && !self.held.is_empty()
    }

    /// Read Cache Sequential may come: a page of the array was read, and the block has a page after it.
    pub(crate) fn continues_cache(&self, geometry: &Geometry) -> bool
        ensures { result ≡ continues_cache geometry.now self.now }
    {
        let pages = geometry.parts().pages;
        !self.busy && self.has_read_one() && self.array_page.page < u64::from(pages) - 1
    }

    /// Read Cache End may come.
    pub(crate) fn ends_cache(&self) -> bool
        ensures { result ≡ ends_cache self.now }
    {
        !self.busy && self.is_caching()
    }

    /// Change Read Column may come.
    pub(crate) fn may_change_column(&self) -> bool
        ensures { result ≡ may_change_column self.now }
    {
        self.latch.is_data() && !self.busy && self.register.has_columns()
    }

    /// It shows data and has no byte to give: it works, its register is empty, or its column was lost.
    pub(crate) fn has_no_byte(&self) -> bool
        ensures { result ≡ has_no_byte self.now }
    {
        self.latch.is_data()
            && (self.busy || self.register.is_empty() || self.column.output_column().is_none())
    }

    /// It shows data, and its column is past its register.
    pub(crate) fn is_past_register(&self, geometry: &Geometry) -> bool
        ensures { result ≡ is_past_register geometry.now self.now }
    {
        let is_outside = match self.column.output_column() {
            None => false,
            Some(column) => u64::from(self.register.len(geometry)) <= column,
        };
        self.latch.is_data() && is_outside
    }

    /// It shows data, and has fewer bytes left than these.
    pub(crate) fn has_fewer(&self, geometry: &Geometry, count: usize) -> bool
        ensures { result ≡ has_fewer geometry.now count self.now }
    {
        let len = u64::from(self.register.len(geometry));
        let is_over = match self.column.output_column() {
            None => false,
            Some(column) => len < column || len - column < count as u64,
        };
        self.latch.is_data() && is_over
    }
}

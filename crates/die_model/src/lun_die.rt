//! One LUN of a die: its pages, its registers, and what its array does.
ghost use Rattle.std.specs.Prelude.{◌≡◌, ℕ, ◌+◌, ◌%◌, ◌<◌, ◌≤◌, true, false, List, [], ◌∷◌, Some, None, IsOk, slice_set, slice_index_or, if◌then◌else◌, IfOk, OnErr, length, take, drop, slice_get, replicate};
ghost use Rattle.nand_geometry.specs.Limits.{page_len, planes};
ghost use Rattle.onfi_cycle.specs.declared.effect.Effect.TheVariants.{BecameReady, ArrayBecameReady, PlaneSelected};
ghost use Rattle.onfi_cycle.specs.declared.filling.Filling.TheVariants.{Leaves};
ghost use Rattle.die_model.specs.Standing.{WorkedBy, CanWork, kept_held};
ghost use Rattle.nand_geometry.specs.Page.{parameter_bytes};
ghost use Rattle.onfi_cycle.specs.declared.page_address.PageAddress.{PageAddress as At};
ghost use Rattle.die_model.specs.Die.{page_to_keep, is_program};
ghost use Rattle.onfi_cycle.specs.declared.register.Register.{Register};
ghost use Rattle.onfi_cycle.specs.Content.{is_some_work};
ghost use Rattle.die_model.specs.Pages.{kept, page_in};
ghost use Rattle.die_model.specs.Image.{image_of};
ghost use Rattle.die_model.specs.Loading.{image_fault, IsJudgedBy, IsLoaded, Restores};
ghost use Rattle.die_model.specs.Die.{CanBegin, IsAfter, effect_of, failures_of, status_of, bytes_shown, is_new, new_die, page_of, filled_with};

use crate::activity::Activity;
use crate::effects::{end_works, plane_of, take_unless};
use crate::loading::{image_fault, keep_image};
use crate::page::Page;
use crate::pages::Pages;
use crate::refusal::ImageRefusal;
use crate::unique_id::{unique_id, unique_id_byte};
use crate::work::Work;
use arrayvec::ArrayVec;
use nand_geometry::Geometry;
use onfi_cycle::{
    Effect, Failures, Filling, PageAddress, Queued, Register, Status, is_cache_program,
    is_plane_program,
};
use std::alloc::{AllocError, Allocator, Global};
use std::marker::Model;

/// One LUN: its pages, its registers, and what its array does.
#[derive(Drop)]
pub struct LunDie<A: Allocator = Global> {
    geometry: Geometry,
    /// The copies of the parameter page.
    parameters: Vec<u8, A>,
    pages: Pages<A>,
    /// The page register of each plane.
    planes: Vec<Page<A>, A>,
    /// The bytes of the programs that the array goes on with, of each plane.
    array_planes: Vec<Page<A>, A>,
    /// The bytes of the page that the register holds, if it holds one.
    output: Page<A>,
    activity: Activity,
}

impl<A: Allocator> Model for LunDie<A> {
    ghost use Rattle.die_model.specs.Die.{Die, KeepsDie, die_with, works_of};

    ghost Value = { Die };

    ghost view = { λ d. die_with d.geometry d.pages d.planes.items d.activity.register d.activity.held.items d.activity.array_page d.activity.busy d.activity.closer d.activity.array_busy d.activity.queue.items d.activity.closed (works_of d.geometry d.array_planes.items d.activity.in_array.items) d.activity.failed d.activity.failed_before };

    ghost invariant = { λ d. KeepsDie d.geometry d.parameters.items d.pages d.planes.items d.array_planes.items d.activity.queue.items d.activity.in_array.items d.activity.closed d.activity.busy d.activity.closer d.activity.register d.output };
}

/// How many copies of the parameter page its register holds.
const PARAMETER_COPIES: usize = 3;

/// What Read ID gives at the address 20h, "ONFI".
const IDENTIFIER: [u8; 4] = [0x4f, 0x4e, 0x46, 0x49];

/// What Read ID gives at the address 00h: the model knows no manufacturer and no device.
const IDENTITY: [u8; 8] = [0; 8];

/// What Read ID gives at the address 40h, "JEDEC" and a zero.
const JEDEC: [u8; 6] = [0x4a, 0x45, 0x44, 0x45, 0x43, 0];

/// What Get Features gives: the model keeps no features.
const FEATURES: [u8; 4] = [0; 4];

// The copies of the parameter page.
fn parameter_copies<A: Allocator>(alloc: A, geometry: &Geometry) -> Result<Vec<u8, A>, AllocError>
    ensures { IfOk result (λ v. v.items ≡ parameter_bytes geometry.now) }
{
    let page = geometry.page();
    let mut copies = Vec::with_capacity(alloc, PARAMETER_COPIES * page.len())?;
    for _ in 0..PARAMETER_COPIES {
        copies.extend_from_slice(&page)?;
    }
    Ok(copies)
}

// So many registers of FF.
fn registers<A: Allocator + Copy>(
    alloc: A,
    count: usize,
    len: usize,
) -> Result<Vec<Page<A>, A>, AllocError>
    ensures { IfOk result (λ v. v.items ≡ replicate count (replicate len 0xff)) }
{
    let mut all = Vec::new(alloc);
    for _ in 0..count {
        all.push(Page::blank(alloc, len)?)?;
    }
    Ok(all)
}

// The bytes of a page.
fn fetch_page<A: Allocator + Copy>(into: &mut Page<A>, pages: &Pages<A>, at: PageAddress)
    requires { (at : At) (bytes : List ℕ) → kept pages.now at ≡ Some bytes → length bytes ≡ length into.old }
    ensures page { into.new ≡ page_in (length into.old) pages.now at }
    ensures width { length into.new ≡ length into.old }
{
    match pages.get(at) {
        Some(page) => into.copy_from(page.bytes()),
        None => into.clear(),
    }
}

// The bytes of the page that a register holds, if it holds one.
fn fetch<A: Allocator + Copy>(output: &mut Page<A>, pages: &Pages<A>, register: Register)
    requires { (at : At) (bytes : List ℕ) → kept pages.now at ≡ Some bytes → length bytes ≡ length output.old }
    ensures page { (at : At) → register ≡ Register.Page at → output.new ≡ page_in (length output.old) pages.now at }
    ensures width { length output.new ≡ length output.old }
{
    if let Register::Page(at) = register {
        fetch_page(output, pages, at);
    }
}

// Takes the bytes of other registers, each of its plane.
fn copy_registers<A: Allocator + Copy>(into: &mut [Page<A>], from: &[Page<A>])
    requires count { length into.old ≡ length from.now }
    requires widths { (k : ℕ) (old new : List ℕ) → slice_get into.old k ≡ Some old → slice_get from.now k ≡ Some new → length old ≡ length new }
    ensures { into.new ≡ from.now }
{
    match from {
        [] => {}
        [page, rest @ ..] => {
            let (first, others) = into.split_at_mut(1);
            first[0].copy_from(page.bytes());
            copy_registers(others, rest);
        }
    }
}

// Takes the bytes of other registers, or keeps its own.
fn take_registers<A: Allocator + Copy>(into: &mut [Page<A>], from: &[Page<A>], takes: bool)
    requires count { length into.old ≡ length from.now }
    requires widths { (k : ℕ) (old new : List ℕ) → slice_get into.old k ≡ Some old → slice_get from.now k ≡ Some new → length old ≡ length new }
    ensures { into.new ≡ (if takes then from.now else into.old) }
{
    if takes {
        copy_registers(into, from);
    }
}

// Copies the bytes from a place on, where there are as many as in the slice.
fn copy_part(bytes: &[u8], from: usize, into: &mut [u8])
    ensures { from + length into.old ≤ length bytes.now → into.new ≡ take (length into.old) (drop from bytes.now) }
{
    if from <= bytes.len() && into.len() <= bytes.len() - from {
        let (_, rest) = bytes.split_at(from);
        let (part, _) = rest.split_at(into.len());
        into.copy_from_slice(part);
    }
}

impl<A: Allocator + Copy> LunDie<A> {
    /// A die fresh from the factory: every byte of every page is FF.
    pub fn new(alloc: A, geometry: Geometry) -> Result<LunDie<A>, AllocError>
        ensures { IfOk result (λ d. d ≡ new_die geometry) }
    {
        // Its contract says that they are in the limits, which a die keeps.
        let _limits = geometry.parts();
        let planes = geometry.planes() as usize;
        let len = geometry.page_len() as usize;
        Ok(LunDie {
            parameters: parameter_copies(alloc, &geometry)?,
            geometry,
            pages: Pages::new(alloc),
            planes: registers(alloc, planes, len)?,
            array_planes: registers(alloc, planes, len)?,
            output: Page::blank(alloc, len)?,
            activity: Activity {
                register: Register::Empty,
                held: ArrayVec::new(),
                array_page: PageAddress { block: 0, page: 0 },
                busy: false,
                closer: None,
                array_busy: false,
                queue: ArrayVec::new(),
                closed: false,
                in_array: ArrayVec::new(),
                failed: false,
                failed_before: false,
            },
        })
    }

    /// A byte of a page, if it has that column.
    pub fn page_byte(&self, at: PageAddress, column: usize) -> Option<u8>
        ensures { result ≡ slice_get (page_of self.now at) column }
    {
        match self.pages.get(at) {
            Some(page) => page.bytes().get(column).copied(),
            None if column < self.geometry.page_len() as usize => Some(0xff),
            None => None,
        }
    }

    /// The byte of its register at a column, if there is one.
    pub fn shown(&self, column: usize) -> Option<u8>
        ensures { result ≡ slice_get (bytes_shown self.now) column }
    {
        match self.activity.register {
            Register::Empty => None,
            Register::Page(_) => self.output.bytes().get(column).copied(),
            Register::ParameterPage => self.parameters.get(column).copied(),
            Register::Identifier => IDENTIFIER.get(column).copied(),
            Register::Identity => IDENTITY.get(column).copied(),
            Register::JedecIdentity => JEDEC.get(column).copied(),
            Register::UniqueId => unique_id_byte(column),
            Register::Features(_) => FEATURES.get(column).copied(),
        }
    }

    /// Copies the bytes of its register from a column on, where it has as many as the slice.
    pub fn copy_shown(&self, column: usize, into: &mut [u8])
        ensures { column + length into.old ≤ length (bytes_shown self.now)
            → into.new ≡ take (length into.old) (drop column (bytes_shown self.now)) }
    {
        match self.activity.register {
            Register::Empty => copy_part(&[], column, into),
            Register::Page(_) => copy_part(self.output.bytes(), column, into),
            Register::ParameterPage => copy_part(self.parameters.as_slice(), column, into),
            Register::Identifier => copy_part(&IDENTIFIER, column, into),
            Register::Identity => copy_part(&IDENTITY, column, into),
            Register::JedecIdentity => copy_part(&JEDEC, column, into),
            Register::UniqueId => copy_part(&unique_id(), column, into),
            Register::Features(_) => copy_part(&FEATURES, column, into),
        }
    }

    /// Its array works, or is told to.
    pub fn is_busy(&self) -> bool
        ensures { result ≡ self.now.busy }
    {
        self.activity.busy
    }

    /// What it tells of failures.
    pub fn failures(&self) -> Failures
        ensures { result ≡ failures_of self.now }
    {
        Failures {
            last: self.activity.failed && !is_plane_program(self.activity.closer),
            before: self.activity.failed_before,
        }
    }

    /// A copy of its pages.
    pub fn pages(&self) -> Result<Pages<A>, AllocError>
        ensures value { IfOk result (λ pages. pages ≡ self.now.pages) }
        ensures lengths { (p : At) → length (page_of self.now p) ≡ page_len self.now.geometry }
        ensures registers { length self.now.planes ≡ planes self.now.geometry }
    {
        self.pages.copy()
    }

    /// Forgets which page its array read last, for a bus that has seen none.
    pub fn forget_array_page(&mut self)
        ensures { self.new ≡ record self.old { array_page = record { block = 0; page = 0 } } }
    {
        self.activity.array_page = PageAddress { block: 0, page: 0 };
    }

    /// Its array becomes ready, with failure or without. Without failure the programs of a cache program have taken effect. It takes no memory.
    pub fn finish_array(&mut self, fail: bool)
        ensures { IsAfter (ArrayBecameReady fail) self.old self.new }
    {
        take_unless(
            &mut self.pages,
            self.geometry.parts(),
            self.array_planes.as_slice(),
            self.activity.in_array.as_slice(),
            fail,
        );
        self.activity.finish_array(fail);
        fetch(&mut self.output, &self.pages, self.activity.register);
    }

    /// The geometry of its target.
    pub fn geometry(&self) -> Geometry
        ensures { result ≡ self.now.geometry }
    {
        self.geometry
    }

    /// The status byte that it shows.
    pub fn status(&self) -> Status
        ensures { result.0 ≡ status_of self.now }
    {
        Status::of(
            self.activity.busy,
            self.activity.array_busy,
            self.failures(),
        )
    }

    // Its array goes on with programs behind the ready of a cache program.
    fn has_array_work(&self) -> bool
        ensures { result ≡ is_some_work self.now.in_array }
    {
        !self.activity.in_array.is_empty()
    }

    /// Nothing is going on, waits, is held or has failed.
    pub fn is_new(&self) -> bool
        ensures { result ≡ is_new self.now }
    {
        !self.activity.busy
            && !self.activity.array_busy
            && self.activity.closer.is_none()
            && self.activity.register == Register::Empty
            && self.activity.held.is_empty()
            && self.activity.queue.is_empty()
            && !self.has_array_work()
            && !self.activity.failed
            && !self.activity.failed_before
    }

    /// Becomes ready, with failures or without. Without failure the works have taken effect. It takes no memory.
    pub fn finish(&mut self, fail: Failures)
        ensures { IsAfter (BecameReady fail) self.old self.new }
    {
        end_works(
            &mut self.pages,
            self.geometry.parts(),
            self.planes.as_slice(),
            self.array_planes.as_slice(),
            &self.activity,
            fail,
        );
        take_registers(
            self.array_planes.as_mut_slice(),
            self.planes.as_slice(),
            is_cache_program(self.activity.closer),
        );
        self.activity.finish(fail);
        fetch(&mut self.output, &self.pages, self.activity.register);
    }

    /// Begins a work. Without memory for its end all stays as it was.
    pub fn begin(&mut self, work: Work) -> Result<(), AllocError>
        requires { CanBegin work self.old }
        ensures ok { IfOk result (λ _. IsAfter (effect_of work) self.old self.new) }
        ensures err { OnErr result (self.new ≡ self.old) }
        ensures memory { page_to_keep work ≡ None → IsOk result }
    {
        let len = self.geometry.page_len() as usize;
        self.pages.keep_some(work.page_to_keep(), len)?;
        self.activity.begin(work);
        fetch(&mut self.output, &self.pages, self.activity.register);
        Ok(())
    }

    // Its register becomes the page that it holds in this plane, of so many.
    fn select_plane(&mut self, plane: u32, planes: u32, column: u32)
        requires { 0 < planes }
        ensures { IsAfter (PlaneSelected plane planes column) self.old self.new }
    {
        let effect = Effect::PlaneSelected {
            plane,
            planes,
            column,
        };
        self.activity.register = effect.register_after(
            self.activity.array_page,
            self.activity.queue.as_slice(),
            self.activity.held.as_slice(),
            self.activity.register,
        );
        fetch(&mut self.output, &self.pages, self.activity.register);
    }

    /// The rows that are queued for the next read, program or erase.
    pub fn queued(&self) -> &[Queued]
        ensures { result.now ≡ self.now.queued }
    {
        if self.activity.closed {
            &[]
        } else {
            self.activity.queue.as_slice()
        }
    }

    /// Its image: `NDI1`; data bytes and spare bytes of a page, pages of a block, blocks of a LUN, and the count of
    /// entries, 4 bytes each; and for each page that holds a byte other than FF, in rising rows, an entry of the row
    /// in 4 bytes and then the bytes of the page. Numbers have their least significant byte first, and a row is that
    /// of LUN 0.
    pub fn image(&self) -> Result<Vec<u8, A>, AllocError>
        ensures value { IfOk result (λ v. v.items ≡ image_of self.now) }
        ensures restores { IfOk result (λ v. Restores v.items self.now) }
    {
        self.pages.image(&self.geometry)
    }

    /// Makes an image the whole content of a new die; a page without an entry is FF. What is refused leaves the die
    /// as it was: the image has a fault, which is the first that is met, or it has none and memory runs out.
    pub fn load_image(&mut self, bytes: &[u8]) -> Result<(), ImageRefusal>
        requires { is_new self.old ≡ true }
        ensures judged { IsJudgedBy (image_fault self.old.geometry bytes.now) result }
        ensures ok { IfOk result (λ _. IsLoaded bytes.now self.old self.new) }
        ensures err { OnErr result (self.new ≡ self.old) }
    {
        if let Some(fault) = image_fault(&self.geometry, bytes) {
            return Err(ImageRefusal::Fault(fault));
        }
        self.take_image(bytes)?;
        Ok(())
    }

    // Loads an image without a fault.
    fn take_image(&mut self, bytes: &[u8]) -> Result<(), AllocError>
        requires new { is_new self.old ≡ true }
        requires faultless { image_fault self.old.geometry bytes.now ≡ None }
        ensures ok { IfOk result (λ _. IsLoaded bytes.now self.old self.new) }
        ensures err { OnErr result (self.new ≡ self.old) }
    {
        let mut pages = self.pages.emptied();
        keep_image(&self.geometry, bytes, &mut pages)?;
        self.pages = pages;
        Ok(())
    }

    /// Fills the register of a plane with FF.
    pub fn clear(&mut self, plane: usize)
        requires { plane < planes self.old.geometry }
        ensures { self.new ≡ record self.old { planes = slice_set self.old.planes plane (replicate (page_len self.old.geometry) 0xff) } }
    {
        let register = &mut self.planes[plane];
        register.clear();
    }

    // Fills the register of a plane with the bytes of a page.
    fn copy_page(&mut self, plane: usize, from: PageAddress)
        requires { plane < planes self.old.geometry }
        ensures { self.new ≡ record self.old { planes = slice_set self.old.planes plane (page_of self.old from) } }
    {
        fetch_page(&mut self.planes[plane], &self.pages, from);
    }

    // The last row cycle of a Page Program has come: its plane registers hold no page.
    fn release(&mut self, effect: Effect)
        ensures { self.new ≡ record self.old { held = kept_held effect self.old.held } }
    {
        if matches!(effect, Effect::ProgramAddressed) {
            self.activity.held.clear();
        }
    }

    /// Sets one byte of the register of a plane.
    pub fn fill(&mut self, plane: usize, column: usize, byte: u8)
        requires plane { plane < planes self.old.geometry }
        requires column { column < page_len self.old.geometry }
        ensures { self.new ≡ record self.old {
          planes = slice_set self.old.planes plane
              (slice_set (slice_index_or self.old.planes plane []) column byte);
        } }
    {
        let register = &mut self.planes[plane];
        register.set(column, byte);
    }

    /// Sets the bytes of the register of a page's plane from a column on.
    pub fn fill_from(&mut self, at: PageAddress, column: usize, bytes: &[u8])
        requires { column + length bytes.now ≤ page_len self.old.geometry }
        ensures { self.new ≡ filled_with (at.block % planes self.old.geometry) column bytes.now self.old }
    {
        let plane = plane_of(self.geometry().parts(), at);
        let register = &mut self.planes[plane];
        register.set_all(column, bytes);
    }

    // Goes on by an effect, if that is no ready.
    fn take(&mut self, effect: Effect) -> Result<(), AllocError>
        requires { CanWork Leaves effect self.old }
        ensures ok { IfOk result (λ _. IsAfter effect self.old self.new) }
        ensures err { OnErr result (self.new ≡ self.old) }
        ensures memory { is_program effect ≡ false → IsOk result }
    {
        if let Effect::PlaneSelected {
            plane,
            planes,
            column,
        } = effect
        {
            self.select_plane(plane, planes, column);
            return Ok(());
        }
        match Work::begun_by(effect) {
            None => {
                self.release(effect);
                Ok(())
            }
            Some(work) => self.begin(work),
        }
    }

    /// Works what an item does, if that is no ready. Without memory for it all stays as it was.
    pub fn work(&mut self, filling: Filling, effect: Effect) -> Result<(), AllocError>
        requires { CanWork filling effect self.old }
        ensures ok { IfOk result (λ _. WorkedBy self.old.geometry filling effect self.old self.new) }
        ensures err { OnErr result (self.new ≡ self.old) }
        ensures memory { is_program effect ≡ false → IsOk result }
    {
        match filling {
            Filling::Leaves => self.take(effect),
            Filling::Clears(at) => {
                self.clear(plane_of(self.geometry().parts(), at));
                self.release(effect);
                Ok(())
            }
            Filling::Copies(at, from) => {
                self.copy_page(plane_of(self.geometry().parts(), at), from);
                self.release(effect);
                Ok(())
            }
            Filling::Fills(at, column, byte) => {
                self.fill(plane_of(self.geometry().parts(), at), column, byte);
                Ok(())
            }
        }
    }
}

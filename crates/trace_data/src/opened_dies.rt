//! The dies of a channel before a trace.
ghost use Rattle.std.specs.Prelude.{◌≡◌, ◌≤◌, ◌*◌, ◌&&◌, nat_lt, [], true, None, IfOk, IfErr, OnOk, OnErr, length, map, replicate, set};
ghost use Rattle.die_model.specs.Die.{Die, new_die};
ghost use Rattle.die_model.specs.Loading.{image_fault, IsLoaded};
ghost use Rattle.target_bus.specs.Bus.{are_new, is_new_of, number_of, channel_of, channel_on};
ghost use Rattle.trace_data.specs.Data.{pages_in, IsJudged, RefusesImage};

use crate::data_judged::DataJudged;
use crate::replaying::judge_data;
use die_model::{ImageRefusal, LunDie};
use nand_geometry::Geometry;
use onfi_cycle::{Item, Lun};
use std::alloc::{AllocError, Global};
use target_bus::{Bus, BusFault};

/// The dies of a channel before a trace, those of target 0 first: what each holds, and whether that is what the LUN held.
#[derive(Drop)]
pub struct OpenedDies {
    pub(crate) geometry: Geometry,
    pub(crate) targets: u8,
    pub(crate) dies: Vec<LunDie>,
    pub(crate) known: Vec<bool>,
    ghost few: { (1 ≤ targets) × (targets ≤ 4) },
    ghost count: { length dies.items ≡ targets * geometry.luns },
    ghost fit: { are_new geometry dies.items ≡ true },
}

// So many dies that are erased.
#[tactic(auto, using(crate::proofs::DiesFit::are_new_push, crate::proofs::DiesFit::erased_is_new, crate::proofs::DiesFit::one_erased_more))]
fn make_dies(alloc: Global, geometry: Geometry, count: usize) -> Result<Vec<LunDie>, AllocError>
    ensures erased { IfOk result (λ dies. dies.items ≡ replicate count (new_die geometry)) }
    ensures count { IfOk result (λ dies. length dies.items ≡ count) }
    ensures new { IfOk result (λ dies. are_new geometry dies.items ≡ true) }
{
    let mut dies = Vec::new(alloc);
    for _ in 0..count {
        dies.push(LunDie::new(alloc, geometry)?)?;
    }
    Ok(dies)
}

// Puts another new die in the place of this number, if there is one; the others stay.
#[tactic(auto, using(crate::proofs::DiesFit::are_new_set))]
fn put_die(geometry: &Geometry, dies: &mut Vec<LunDie>, number: usize, die: LunDie)
    requires new { are_new geometry.now dies.old.items ≡ true }
    requires die { is_new_of geometry.now die ≡ true }
    ensures put { dies.new.items ≡ set dies.old.items number die }
    ensures count { length dies.new.items ≡ length dies.old.items }
    ensures new { are_new geometry.now dies.new.items ≡ true }
{
    if number < dies.len() {
        dies[number] = die;
    }
}

// What is held is known of the LUN of this number, if there is one.
fn make_known(known: &mut Vec<bool>, number: usize)
    ensures { known.new.items ≡ set known.old.items number true }
{
    if number < known.len() {
        known[number] = true;
    }
}

// A new die whose content is this image.
#[tactic(auto, using(crate::proofs::DiesFit::loaded_is_new, crate::proofs::Images::taken, crate::proofs::Images::refused))]
fn load_die(alloc: Global, geometry: Geometry, image: &[u8]) -> Result<LunDie, ImageRefusal>
    ensures faultless { OnOk result (image_fault geometry image.now ≡ None) }
    ensures err { IfErr result (RefusesImage (image_fault geometry image.now)) }
    ensures ok { IfOk result (λ die. IsLoaded image.now (new_die geometry) die) }
    ensures new { IfOk result (λ die. is_new_of geometry die ≡ true) }
{
    let mut die = LunDie::new(alloc, geometry)?;
    match die.load_image(image) {
        Ok(()) => Ok(die),
        Err(refusal) => Err(refusal),
    }
}

impl OpenedDies {
    /// Erased dies for so many targets. Either the LUNs held nothing else at the beginning, or nobody knows what they held.
    pub fn new(
        alloc: Global,
        geometry: Geometry,
        targets: u8,
        are_erased: bool,
    ) -> Result<OpenedDies, AllocError>
        requires { (1 ≤ targets) × (targets ≤ 4) }
        ensures channel { IfOk result (λ o. (o.geometry ≡ geometry) × (o.targets ≡ targets)) }
        ensures erased { IfOk result (λ o. o.dies.items ≡ replicate (targets * geometry.luns) (new_die geometry)) }
        ensures known { IfOk result (λ o. o.known.items ≡ replicate (targets * geometry.luns) are_erased) }
    {
        let count = usize::from(targets) * usize::from(geometry.parts().luns);
        Ok(OpenedDies {
            geometry,
            targets,
            dies: make_dies(alloc, geometry, count)?,
            known: vec![in alloc; are_erased; count]?,
        })
    }

    /// The LUN is there.
    pub fn has(&self, lun: Lun) -> bool
        ensures { result ≡ (nat_lt lun.ce self.now.targets && nat_lt lun.lun self.now.geometry.luns) }
    {
        lun.ce < self.targets && lun.lun < self.geometry.parts().luns
    }

    /// The number of a LUN's die.
    pub fn number(&self, lun: Lun) -> usize
        ensures { result ≡ number_of self.now.geometry lun }
    {
        lun.place(self.geometry.parts().luns)
    }

    /// The LUN held the content of this image at the beginning, if it is there. What is refused changes nothing: the image has a fault, the first that is met, or memory runs out.
    pub fn load(&mut self, alloc: Global, lun: Lun, image: &[u8]) -> Result<(), ImageRefusal>
        ensures faultless { OnOk result (image_fault self.old.geometry image.now ≡ None) }
        ensures refused { IfErr result (RefusesImage (image_fault self.old.geometry image.now)) }
        ensures channel { (self.new.geometry ≡ self.old.geometry) × (self.new.targets ≡ self.old.targets) }
        ensures ok { OnOk result ((die : Die) × IsLoaded image.now (new_die self.old.geometry) die
            × (self.new.dies.items ≡ set self.old.dies.items (number_of self.old.geometry lun) die)
            × (self.new.known.items ≡ set self.old.known.items (number_of self.old.geometry lun) true)) }
        ensures err { OnErr result (self.new ≡ self.old) }
    {
        let geometry = self.geometry;
        let number = lun.place(geometry.parts().luns);
        match load_die(alloc, geometry, image) {
            Ok(die) => {
                put_die(&geometry, &mut self.dies, number, die);
                make_known(&mut self.known, number);
                Ok(())
            }
            Err(refusal) => Err(refusal),
        }
    }

    // The bus of these dies, and which are known.
    #[tactic(auto, using(crate::proofs::DiesFit::dies_fit))]
    fn into_bus(self, alloc: Global) -> Result<(Bus, Vec<bool>), AllocError>
        ensures fresh { IfOk result (λ r. r.0.past ≡ []) }
        ensures channel { IfOk result (λ r. channel_of r.0 ≡ channel_on self.geometry self.targets (map pages_in self.dies.items)) }
        ensures known { IfOk result (λ r. r.1.items ≡ self.known.items) }
    {
        let OpenedDies {
            geometry,
            targets: _,
            dies,
            known,
        } = self;
        match Bus::new(alloc, geometry, dies) {
            Ok(bus) => Ok((bus, known)),
            Err(refused) => match refused.fault {
                BusFault::OutOfMemory => Err(AllocError),
                BusFault::DiesMissing => unreachable!(),
                BusFault::DieUnfit => unreachable!(),
            },
        }
    }

    /// Puts the items of a trace on a bus of these dies, up to the first that isn't permitted, and tells each output of a page that differs from what its die
    /// gives. A page of a LUN of which nobody knows what it held is known once its block was erased. A page is no longer known after a program or an erase of it
    /// that failed or that a reset broke off. Status, identifiers and parameter pages aren't judged.
    pub fn judge(self, alloc: Global, items: &[Item]) -> Result<DataJudged, AllocError>
        ensures { IfOk result (λ judged. IsJudged (channel_on self.geometry self.targets (map pages_in self.dies.items)) self.known.items items.now
            judged.differences.items judged.stopped judged.dies.items) }
    {
        let (bus, known) = self.into_bus(alloc)?;
        judge_data(alloc, bus, known.as_slice(), items)
    }
}

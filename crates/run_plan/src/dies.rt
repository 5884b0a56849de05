//! The dies of a channel before a run.
ghost use Rattle.std.specs.Prelude.{◌≡◌, ◌≤◌, ◌<◌, ◌+◌, ◌*◌, IfOk, true, length, replicate, set};
ghost use Rattle.die_model.specs.Die.{new_die};
ghost use Rattle.target_bus.specs.Bus.{are_new, is_new_of};
ghost use Rattle.seq_core.specs.World.{fresh};
ghost use Rattle.seq_core.specs.Shows.{IsAt, channel_in};
ghost use Rattle.run_plan.specs.Setup.{pages_of};

use die_model::LunDie;
use nand_geometry::Geometry;
use onfi_cycle::Lun;
use seq_core::Core;
use std::alloc::{AllocError, Global};
use target_bus::{Bus, BusFault};

/// New dies, one for each LUN of a channel, those of target 0 first.
#[derive(Drop)]
pub struct ChannelDies {
    pub(crate) geometry: Geometry,
    pub(crate) targets: u8,
    dies: Vec<LunDie>,
    ghost few: { (1 ≤ targets) × (targets ≤ 4) },
    ghost count: { length dies.items ≡ targets * geometry.luns },
    ghost fit: { are_new geometry dies.items ≡ true },
}

// So many dies that are erased.
#[tactic(auto, using(crate::proofs::DiesFit::are_new_push, crate::proofs::DiesFit::erased_is_new, crate::proofs::DiesFit::one_erased_more))]
fn make_dies(alloc: Global, geometry: Geometry, count: usize) -> Result<Vec<LunDie>, AllocError>
    ensures erased { IfOk result (λ dies. dies.items ≡ replicate count (new_die geometry)) }
    ensures count { IfOk result (λ dies. length dies.items ≡ count) }
    ensures new { IfOk result (λ dies. are_new geometry dies.items ≡ true) }
{
    let mut dies = Vec::new(alloc);
    for _ in 0..count {
        dies.push(LunDie::new(alloc, geometry)?)?;
    }
    Ok(dies)
}

// Puts another new die in the place of this number, if there is one; the others stay.
#[tactic(auto, using(crate::proofs::DiesFit::are_new_set))]
fn put_die(geometry: &Geometry, dies: &mut Vec<LunDie>, number: usize, die: LunDie)
    requires new { are_new geometry.now dies.old.items ≡ true }
    requires die { is_new_of geometry.now die ≡ true }
    ensures put { dies.new.items ≡ set dies.old.items number die }
    ensures count { length dies.new.items ≡ length dies.old.items }
    ensures new { are_new geometry.now dies.new.items ≡ true }
{
    if number < dies.len() {
        dies[number] = die;
    }
}

impl ChannelDies {
    /// Erased dies for so many targets.
    pub(crate) fn new(
        alloc: Global,
        geometry: Geometry,
        targets: u8,
    ) -> Result<ChannelDies, AllocError>
        requires { (1 ≤ targets) × (targets ≤ 4) }
        ensures channel { IfOk result (λ dies. (dies.geometry ≡ geometry) × (dies.targets ≡ targets)) }
        ensures erased { IfOk result (λ dies. dies.dies.items ≡ replicate (targets * geometry.luns) (new_die geometry)) }
    {
        let count = usize::from(targets) * usize::from(geometry.parts().luns);
        let dies = make_dies(alloc, geometry, count)?;
        Ok(ChannelDies {
            geometry,
            targets,
            dies,
        })
    }

    /// That of each die.
    pub fn geometry(&self) -> Geometry
        ensures { result ≡ self.now.geometry }
    {
        self.geometry
    }

    /// How many targets the channel has, 1 to 4.
    pub fn targets(&self) -> u8
        ensures { result ≡ self.now.targets }
    {
        self.targets
    }

    /// The number of a LUN's die.
    pub(crate) fn number(&self, lun: Lun) -> usize
        ensures { result ≡ lun.ce * self.now.geometry.luns + lun.lun }
    {
        lun.place(self.geometry.parts().luns)
    }

    /// Puts another new die in the place of this number, if there is one; the others stay.
    pub(crate) fn put(&mut self, number: usize, die: LunDie)
        requires { is_new_of self.old.geometry die ≡ true }
        ensures put { self.new.dies.items ≡ set self.old.dies.items number die }
        ensures channel { (self.new.geometry ≡ self.old.geometry) × (self.new.targets ≡ self.old.targets) }
    {
        let geometry = self.geometry;
        put_die(&geometry, &mut self.dies, number, die);
    }

    /// A sequencer on the channel of these dies.
    #[tactic(auto, using(crate::proofs::DiesFit::dies_fit))]
    pub fn into_core(self, alloc: Global) -> Result<Core, AllocError>
        ensures fresh { IfOk result (λ core. IsAt core (fresh (channel_in core))) }
        ensures opened { IfOk result (λ core. core.opened ≡ pages_of self.dies.items) }
    {
        let ChannelDies {
            geometry,
            targets: _,
            dies,
        } = self;
        match Bus::new(alloc, geometry, dies) {
            Ok(bus) => Ok(Core::new(bus)),
            Err(refused) => match refused.fault {
                BusFault::OutOfMemory => Err(AllocError),
                BusFault::DiesMissing => unreachable!(),
                BusFault::DieUnfit => unreachable!(),
            },
        }
    }
}

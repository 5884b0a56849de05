//! What the lines of the model are told from: the running state of the channel, and its newest item.
ghost use Rattle.std.specs.Prelude.{◌≡◌, ℕ, ◌<◌, ◌≤◌, List, [], ◌∷◌, None, false, ◌||◌, not, IsTrue};
ghost use Rattle.nand_geometry.specs.declared.parts.Parts.{Parts};
ghost use Rattle.onfi_cycle.specs.declared.item.Item.{Item as ItemValue};
ghost use Rattle.onfi_cycle.specs.Command.{reads_identity};
ghost use Rattle.onfi_cycle.specs.Permitted.{broken};
ghost use Rattle.onfi_cycle.specs.State.{judged};
ghost use Rattle.onfi_cycle.specs.Sequence.{target_of, facts_of, tail, takes_features};
ghost use Rattle.trace_wave.specs.Keeping.{Stands, is_reset_lun, address_keeps_work, keeps_work};
ghost use Rattle.trace_wave.specs.Levels.{is_busy, has_busy_array, tells_failure, model_levels};

use nand_geometry::Geometry;
use onfi_cycle::{BusState, Command, Forbidden, Item, Kind, Lun, starts_work};

// An address behind this opener may start work, or end some.
fn may_start_by_address(opener: Command) -> bool
    ensures { result ≡ (reads_identity opener || is_reset_lun opener) }
{
    opener.reads_identity() || matches!(opener, Command::ResetLun)
}

/// A channel after a legal past: its running state, and the newest item.
#[derive(Drop)]
pub struct Channel {
    pub state: BusState,
    pub newest: Option<Item>,
}

impl Channel {
    /// Nothing has happened yet.
    pub(crate) fn new(geometry: &Geometry, targets: u8) -> Channel
        requires { targets ≤ 4 }
        ensures { Stands geometry.now targets [] result }
    {
        Channel {
            state: BusState::new(*geometry, targets),
            newest: None,
        }
    }

    /// How many targets it has.
    pub(crate) fn targets(&self) -> u8
        ensures value { (g : Parts) (targets : ℕ) (past : List ItemValue) → Stands g targets past self.now → result ≡ targets }
        ensures most { result ≤ 4 }
    {
        self.state.targets()
    }

    /// How many LUNs a target has.
    pub(crate) fn luns(&self) -> u8
        ensures value { (g : Parts) (targets : ℕ) (past : List ItemValue) → Stands g targets past self.now → result ≡ g.luns }
        ensures most { result ≤ 4 }
    {
        self.state.geometry().parts().luns
    }

    /// The LUN is busy.
    pub(crate) fn is_busy(&self, ce: u8, lun: u8) -> bool
        ensures { (g : Parts) (targets : ℕ) (past : List ItemValue) → Stands g targets past self.now → ce < targets → lun < g.luns
            → result ≡ is_busy g past ce lun }
    {
        match self.state.lun_state(Lun { ce, lun }) {
            None => false,
            Some(lun) => lun.busy,
        }
    }

    /// Its array is busy.
    pub(crate) fn has_busy_array(&self, ce: u8, lun: u8) -> bool
        ensures { (g : Parts) (targets : ℕ) (past : List ItemValue) → Stands g targets past self.now → ce < targets → lun < g.luns
            → result ≡ has_busy_array g past ce lun }
    {
        match self.state.lun_state(Lun { ce, lun }) {
            None => false,
            Some(lun) => lun.array_busy,
        }
    }

    /// The newest item is its ready, or that of its array, and tells a failure of the work that it ends.
    pub(crate) fn tells_failure(&self, ce: u8, lun: u8) -> bool
        ensures { (g : Parts) (targets : ℕ) (past : List ItemValue) → Stands g targets past self.now
            → result ≡ tells_failure past ce lun }
    {
        match self.newest {
            Some(
                Item::Rdy {
                    ce: of_ce,
                    lun: of_lun,
                    fail,
                },
            ) => of_ce == ce && of_lun == lun && fail.last,
            Some(
                Item::Ard {
                    ce: of_ce,
                    lun: of_lun,
                    fail,
                },
            ) => of_ce == ce && of_lun == lun && fail,
            Some(Item::Cyc(_)) | None => false,
        }
    }

    /// The first rule that an item breaks.
    #[inline(always)]
    pub(crate) fn judge(&self, item: Item) -> Option<Forbidden>
        ensures state { result ≡ judged self.now.state item }
        ensures past { (g : Parts) (targets : ℕ) (past : List ItemValue) → Stands g targets past self.now → result ≡ broken g targets past item }
    {
        self.state.judge(item)
    }

    /// Goes on by an item that breaks none.
    #[inline(always)]
    pub(crate) fn go_on(&mut self, item: Item)
        requires { judged self.old.state item ≡ None }
        ensures { (g : Parts) (targets : ℕ) (past : List ItemValue) → Stands g targets past self.old → Stands g targets (item ∷ past) self.new }
    {
        self.state.apply(item);
        self.newest = Some(item);
    }

    // The newest item tells no failure.
    #[inline(always)]
    fn tells_none(&self) -> bool
        ensures { (g : Parts) (targets : ℕ) (past : List ItemValue) → Stands g targets past self.now → IsTrue result
            → (ce lun : ℕ) → tells_failure past ce lun ≡ false }
    {
        match self.newest {
            Some(Item::Rdy { fail, .. }) => !fail.last,
            Some(Item::Ard { fail, .. }) => !fail,
            Some(Item::Cyc(_)) | None => true,
        }
    }

    // An address on this target starts no work and ends none.
    #[inline(always)]
    fn address_keeps_work(&self, ce: u8) -> bool
        ensures { (g : Parts) (targets : ℕ) (past : List ItemValue) → Stands g targets past self.now → ce < targets → result ≡ address_keeps_work (facts_of (tail past ce)) }
    {
        match self.state.tail(ce) {
            None => false,
            Some(tail) => match tail.opening {
                None => true,
                Some(opening) => !may_start_by_address(opening.opener),
            },
        }
    }

    // An input of a target starts no work, as it is none of a Set Features.
    #[inline(always)]
    fn input_keeps_work(&self, ce: u8) -> bool
        ensures { (g : Parts) (targets : ℕ) (past : List ItemValue) → Stands g targets past self.now → ce < targets → result ≡ not (takes_features (facts_of (tail past ce)).phase) }
    {
        match self.state.tail(ce) {
            None => false,
            Some(tail) => !tail.phase.takes_features(),
        }
    }

    // The item starts no work and ends none.
    #[inline(always)]
    fn keeps_work(&self, item: Item) -> bool
        ensures { (g : Parts) (targets : ℕ) (past : List ItemValue) → Stands g targets past self.now → target_of item < targets → result ≡ keeps_work past item }
    {
        match item {
            Item::Cyc(cycle) => match cycle.kind {
                Kind::Cmd => !starts_work(item),
                Kind::Adr => self.address_keeps_work(cycle.ce),
                Kind::Din => self.input_keeps_work(cycle.ce),
                Kind::Dout => true,
            },
            Item::Rdy { .. } | Item::Ard { .. } => false,
        }
    }

    /// An item that breaks no rule leaves all lines of the model as they are. Some items do so of which this isn't told.
    #[inline(always)]
    pub(crate) fn keeps_levels(&self, item: Item) -> bool
        requires { judged self.now.state item ≡ None }
        ensures { (g : Parts) (targets : ℕ) (past : List ItemValue) → Stands g targets past self.now → IsTrue result
            → model_levels g targets (item ∷ past) 0 ≡ model_levels g targets past 0 }
    {
        self.tells_none() && self.keeps_work(item)
    }
}

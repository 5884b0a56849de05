//! How work of one of several LUNs ended that R/B# shows to be done.
ghost use Rattle.std.specs.Prelude.{◌≡◌, false, List, [], ◌++◌, IfSome, IfNone};
ghost use Rattle.nand_geometry.specs.Row.{row_of};
ghost use Rattle.onfi_cycle.specs.Effect.{names_lun};
ghost use Rattle.bus_capture.specs.Telling.{no_failures};
ghost use Rattle.bus_capture.specs.Asking.{first_asking, answered, asking_address, asking_command, asking_by, asking_in, asking_of, lun_fails_within};

use crate::ahead::{MOST_AHEAD, told_of};
use crate::sampler::{Observation, Observed};
use nand_geometry::Geometry;
use onfi_cycle::{Cycle, Failures, Item, Kind, Lun, RowBytes};

/// Whether the status of a LUN is asked for.
#[derive(Clone, Copy)]
pub(crate) struct Asking {
    /// 70h asks for it.
    pub(crate) selected: bool,
    /// It is asked for now.
    pub(crate) asked: bool,
    /// How many addresses of a 78h are to come, and the last three of those that have.
    pub(crate) left: u8,
    pub(crate) row: RowBytes,
}

// What is known of the status that a LUN is asked for next, after something that is seen.
#[derive(Clone, Copy)]
enum LunAhead {
    // Nothing yet.
    Going(Asking),
    // What failures it tells.
    Known(Failures),
}

impl Asking {
    /// Nothing is asked for; 70h would ask for the status of the LUN, or of another.
    pub(crate) fn first(selected: bool) -> Asking
        ensures { result ≡ first_asking selected }
    {
        Asking {
            selected,
            asked: false,
            left: 0,
            row: RowBytes {
                r1: 0,
                r2: 0,
                r3: 0,
            },
        }
    }

    // A 78h has named the LUN, or another.
    fn answered(self, named: bool) -> Asking
        ensures { result ≡ answered named self }
    {
        Asking {
            selected: named,
            asked: named,
            left: 0,
            ..self
        }
    }

    // An address more.
    fn with_address(self, geometry: &Geometry, lun: Lun, byte: u8) -> Asking
        ensures { result ≡ asking_address geometry.now lun self byte }
    {
        if self.left == 0 {
            self
        } else if self.left == 1 {
            let row = row_of(self.row.r2, self.row.r3, byte);
            self.answered(names_lun(geometry, row, lun.lun))
        } else {
            Asking {
                left: self.left - 1,
                row: RowBytes {
                    r1: self.row.r2,
                    r2: self.row.r3,
                    r3: byte,
                },
                ..self
            }
        }
    }

    // After a command: 70h, 78h, or one that asks for no status.
    fn with_command(self, byte: u8) -> LunAhead
        ensures { result ≡ asking_command self byte }
    {
        match byte {
            0x70 => LunAhead::Going(Asking {
                asked: self.selected,
                left: 0,
                ..self
            }),
            0x78 => LunAhead::Going(Asking {
                asked: false,
                left: 3,
                ..self
            }),
            _ => LunAhead::Known(Failures::default()),
        }
    }

    fn after(self, geometry: &Geometry, lun: Lun, kind: Kind, byte: u8) -> LunAhead
        ensures { result ≡ asking_by geometry.now lun self kind byte }
    {
        match kind {
            Kind::Cmd => self.with_command(byte),
            Kind::Adr => LunAhead::Going(self.with_address(geometry, lun, byte)),
            Kind::Din => LunAhead::Going(self),
            Kind::Dout => {
                if self.asked {
                    LunAhead::Known(told_of(byte))
                } else {
                    LunAhead::Going(self)
                }
            }
        }
    }

    fn after_cycle(self, geometry: &Geometry, lun: Lun, cycle: Cycle) -> LunAhead
        ensures { result ≡ asking_in geometry.now lun self cycle }
    {
        if cycle.ce == lun.ce {
            self.after(geometry, lun, cycle.kind, cycle.byte)
        } else {
            LunAhead::Going(self)
        }
    }

    fn after_seen(self, geometry: &Geometry, lun: Lun, observation: Observation) -> LunAhead
        ensures { result ≡ asking_of geometry.now lun self observation }
    {
        match observation {
            Observation::Item(item) => match item {
                Item::Cyc(cycle) => self.after_cycle(geometry, lun, cycle),
                Item::Rdy { .. } | Item::Ard { .. } => LunAhead::Going(self),
            },
            Observation::Released(_) => LunAhead::Going(self),
        }
    }
}

// The number of a row of these bytes, the lowest first.
fn row_of(r1: u8, r2: u8, r3: u8) -> u32
    ensures { result ≡ row_of r1 r2 r3 }
{
    u32::from(r1) + 256 * u32::from(r2) + 65_536 * u32::from(r3)
}

// The row names the LUN of this number.
fn names_lun(geometry: &Geometry, row: u32, lun: u8) -> bool
    ensures { result ≡ names_lun geometry.now row lun }
{
    geometry.parts_of(row).lun == u32::from(lun)
}

/// What failures the status tells that this LUN is asked for next, of what is seen later; None where that hangs on what is seen after that. If it isn't
/// asked for before the host goes on, it tells none.
pub(crate) fn lun_fails_ahead(
    geometry: &Geometry,
    lun: Lun,
    first: Asking,
    later: &[Observed],
) -> Option<Failures>
    ensures some { IfSome result (λ fail. (more : List Observed) → lun_fails_within geometry.now lun 65536 first (later.now ++ more) ≡ fail) }
    ensures none { IfNone result (lun_fails_within geometry.now lun 65536 first (later.now ++ []) ≡ no_failures) }
{
    let mut asking = first;
    let mut most = MOST_AHEAD;
    let mut rest = later;
    'rest: while let Some((seen, others)) = rest.split_first() {
        if most == 0 {
            return Some(Failures::default());
        }
        match asking.after_seen(geometry, lun, seen.observation) {
            LunAhead::Known(fail) => return Some(fail),
            LunAhead::Going(next) => asking = next,
        }
        most -= 1;
        rest = others;
    }
    None
}

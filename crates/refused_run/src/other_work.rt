//! What another LUN does while the bus is free.
ghost use Rattle.std.specs.Prelude.{◌≡◌, IfOk};
ghost use Rattle.refused_run.specs.Course.{HasPlayed, work_items};

use crate::bench::{Bench, Stop};
use crate::cycles::cycle_on;
use onfi_cycle::Kind;
use std::alloc::{AllocError, Allocator};

/// What a verified program of another LUN puts on the bus.
#[derive(Clone, Copy, Debug, PartialEq, Eq)]
pub enum OtherWork {
    /// It begins to erase a block.
    Erase,
    /// It asks for its status, and is busy.
    Poll,
    /// It begins to read a page.
    Read,
}

impl OtherWork {
    /// Each of them.
    pub(crate) const ALL: [OtherWork; 3] = [OtherWork::Erase, OtherWork::Poll, OtherWork::Read];

    /// Its cycles come, for the row with these bytes, up to one that isn't permitted.
    pub(crate) fn perform<A: Allocator>(
        self,
        bench: &mut Bench<A>,
        row: [u8; 3],
    ) -> Result<Option<Stop>, AllocError>
        ensures same { bench.new.geometry ≡ bench.old.geometry }
        ensures value { IfOk result (λ stop. HasPlayed bench.old bench.new (work_items self row) stop) }
    {
        let [first, second, third] = row.map(|byte| cycle_on(Kind::Adr, byte));
        match self {
            OtherWork::Erase => bench.play(&[
                cycle_on(Kind::Cmd, 0x60),
                first,
                second,
                third,
                cycle_on(Kind::Cmd, 0xd0),
            ]),
            OtherWork::Poll => bench.play(&[
                cycle_on(Kind::Cmd, 0x78),
                first,
                second,
                third,
                cycle_on(Kind::Dout, 0x80),
            ]),
            OtherWork::Read => bench.play(&[
                cycle_on(Kind::Cmd, 0x00),
                cycle_on(Kind::Adr, 0x00),
                cycle_on(Kind::Adr, 0x00),
                first,
                second,
                third,
                cycle_on(Kind::Cmd, 0x30),
            ]),
        }
    }
}

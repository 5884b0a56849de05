//! A burst: what is to be done on the pins in one go.
ghost use Rattle.std.specs.Prelude.{◌≡◌, ◌+◌, ◌<◌, ◌≤◌, false, [], ◌∷◌, Some, None, IfSome, IfNone, slice_get};
ghost use Rattle.seq_core.specs.Playing.{EndsWithFive};
ghost use Rattle.nand_geometry.specs.declared.parts.Parts.{Parts as PartsValue};
ghost use Rattle.seq_live.specs.Burst.{bursts_at, names_row, poll_bursts, taken_by};

use arrayvec::ArrayVec;
use micro_word::Word;
use nand_geometry::Geometry;
use onfi_cycle::Lun;
use seq_core::Registers;

/// How many bursts a word has at most: a poll's command, its row and its output.
pub const MAX_BURSTS: usize = 3;

/// The bursts of a word, in order.
pub type Bursts = ArrayVec<Burst, MAX_BURSTS>;

// The command that asks the one LUN of a target for its status.
const READ_STATUS: u8 = 0x70;

// The command that asks a LUN for its status by a row of it.
const READ_STATUS_ENHANCED: u8 = 0x78;

/// What is to be done on the pins in one go, with the chip enable `ce` low and the others high.
#[derive(Clone, Copy, Debug, PartialEq, Eq)]
pub enum Burst {
    /// A command cycle: this byte with CLE high.
    Command {
        ce: u8,
        byte: u8,
    },
    /// Address cycles: `count` of these five bytes, from number `from` on, with ALE high.
    Address {
        ce: u8,
        five: [u8; 5],
        from: u8,
        count: u8,
    },
    /// Data input cycles: `len` bytes of the job's buffer, from `place` on.
    Input {
        ce: u8,
        place: usize,
        len: usize,
    },
    /// Data output cycles: so many bytes that the chip gives.
    Output {
        ce: u8,
        len: usize,
    },
}

impl Default for Burst {
    /// No output.
    fn default() -> Burst {
        Burst::Output { ce: 0, len: 0 }
    }
}

// One burst in a list.
#[inline(always)]
fn one(burst: Burst) -> Bursts
    ensures { result.items ≡ burst ∷ [] }
{
    let mut bursts: Bursts = ArrayVec::new();
    bursts.push(burst);
    bursts
}

// The bursts of a status poll of the one LUN of a target.
#[inline(always)]
fn poll_one(ce: u8) -> Bursts
    ensures { result.items ≡ Burst.Command ce READ_STATUS ∷ (Burst.Output ce 1 ∷ []) }
{
    let mut bursts: Bursts = ArrayVec::new();
    bursts.push(Burst::Command {
        ce,
        byte: READ_STATUS,
    });
    bursts.push(Burst::Output { ce, len: 1 });
    bursts
}

// The bursts of a status poll of a LUN by a row of it.
fn poll_row(ce: u8, row: [u8; 3]) -> Bursts
    ensures { result.items ≡ Burst.Command ce READ_STATUS_ENHANCED ∷ (Burst.Address ce (0 ∷ (0 ∷ row)) 2 3 ∷ (Burst.Output ce 1 ∷ [])) }
{
    let mut bursts: Bursts = ArrayVec::new();
    bursts.push(Burst::Command {
        ce,
        byte: READ_STATUS_ENHANCED,
    });
    bursts.push(Burst::Address {
        ce,
        five: [0, 0, row[0], row[1], row[2]],
        from: 2,
        count: 3,
    });
    bursts.push(Burst::Output { ce, len: 1 });
    bursts
}

// The bursts of a status poll of a LUN, None where its row isn't there.
fn poll(geometry: &Geometry, lun: Lun) -> Option<Bursts>
    ensures some { IfSome result (λ bursts. poll_bursts geometry.now lun ≡ Some bursts.items) }
    ensures none { IfNone result (poll_bursts geometry.now lun ≡ None) }
{
    if geometry.parts().luns > 1 {
        let row = geometry.row_bytes(lun.lun, 0, 0)?;
        Some(poll_row(lun.ce, row))
    } else {
        Some(poll_one(lun.ce))
    }
}

// The burst of a part of the address that the registers hold, None where its row isn't there.
fn address(
    geometry: &Geometry,
    lun: Lun,
    registers: Registers,
    from: u8,
    count: u8,
) -> Option<Bursts>
    requires { from + count ≤ 5 }
    ensures some { IfSome result (λ bursts. bursts_at geometry.now lun registers (Word.Address from count) ≡ Some bursts.items) }
    ensures none { IfNone result (bursts_at geometry.now lun registers (Word.Address from count) ≡ None) }
{
    let five = registers.five_bytes(geometry, lun.lun, from + count)?;
    Some(one(Burst::Address {
        ce: lun.ce,
        five,
        from,
        count,
    }))
}

// The bursts of a word that names no row.
#[inline(always)]
fn plain_bursts(lun: Lun, registers: Registers, word: Word) -> Bursts
    requires { names_row word ≡ false }
    ensures { (g : PartsValue) → bursts_at g lun registers word ≡ Some result.items }
{
    let ce = lun.ce;
    match word {
        Word::Command { byte } => one(Burst::Command { ce, byte }),
        Word::Get { len } => {
            let len = len as usize;
            one(Burst::Output { ce, len })
        }
        Word::Put { len } => {
            let (place, len) = (registers.place as usize, len as usize);
            one(Burst::Input { ce, place, len })
        }
        _ => ArrayVec::new(),
    }
}

/// The bursts of a word on a LUN, whose program has these registers; None where the row of its address isn't there.
#[inline(always)]
pub fn bursts_of(geometry: &Geometry, lun: Lun, registers: Registers, word: Word) -> Option<Bursts>
    requires { EndsWithFive word }
    ensures some { IfSome result (λ bursts. bursts_at geometry.now lun registers word ≡ Some bursts.items) }
    ensures none { IfNone result (bursts_at geometry.now lun registers word ≡ None) }
{
    match word {
        Word::Address { from, count } => address(geometry, lun, registers, from, count),
        Word::Wait | Word::ReadStatus => poll(geometry, lun),
        _ => Some(plain_bursts(lun, registers, word)),
    }
}

/// The bursts of a word on a LUN of a target that has so many, as far as they name no row; None for those that do.
#[inline(always)]
pub fn bursts_without_row(luns: u8, lun: Lun, registers: Registers, word: Word) -> Option<Bursts>
    ensures { IfSome result (λ bursts. (g : PartsValue) → g.luns ≡ luns → bursts_at g lun registers word ≡ Some bursts.items) }
{
    match word {
        Word::Address { .. } => None,
        Word::Wait | Word::ReadStatus if luns > 1 => None,
        Word::Wait | Word::ReadStatus => Some(poll_one(lun.ce)),
        _ => Some(plain_bursts(lun, registers, word)),
    }
}

/// How many bytes the outputs of a word give.
pub fn taken_by(word: Word) -> usize
    ensures { result ≡ taken_by word }
{
    match word {
        Word::Get { len } => len as usize,
        Word::Wait | Word::ReadStatus => 1,
        _ => 0,
    }
}

/// The burst of this number of a word.
pub(crate) fn burst_of(bursts: &Bursts, number: usize) -> Option<Burst>
    ensures value { result ≡ slice_get bursts.now.items number }
    ensures few { IfSome result (λ burst. number < 3) }
{
    bursts.as_slice().get(number).copied()
}

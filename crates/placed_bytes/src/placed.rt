//! What is written into a buffer of the caller.
ghost use Rattle.std.specs.Prelude.{◌≡◌, ◌<◌, ◌≤◌, length};
ghost use Rattle.placed_bytes.specs.Placed.{placed, placed_in, refusal, ended_at, cut_in};

/// What came of writing. `letter` is 0 where all stands at the front of the buffer, `length` bytes long; behind it the buffer is as it was. Else the whole
/// buffer is as it was, and `letter` and `number` are those of the code, as A and 3 of A3, with `at` its line or word. B says that the buffer is too short, and
/// `length` how long it must be. U says that the text isn't UTF-8, and O that memory was refused.
#[repr(C)]
#[derive(Clone, Copy)]
pub struct OnfiseqPlaced {
    pub letter: u8,
    pub number: u32,
    pub at: usize,
    pub length: usize,
}

/// What is told of a code.
pub fn refused(letter: u8, number: u32, at: usize) -> OnfiseqPlaced
    ensures { result ≡ refusal letter number at }
{
    OnfiseqPlaced {
        letter,
        number,
        at,
        length: 0,
    }
}

/// Writes bytes at the front of a buffer, if that is long enough.
pub fn place(bytes: &[u8], buffer: &mut [u8]) -> OnfiseqPlaced
    ensures told { result ≡ placed bytes.now buffer.old }
    ensures written { buffer.new ≡ placed_in bytes.now buffer.old }
{
    let length = bytes.len();
    if buffer.len() < length {
        return OnfiseqPlaced {
            letter: b'B',
            number: 0,
            at: 0,
            length,
        };
    }
    buffer[..length].copy_from_slice(bytes);
    OnfiseqPlaced {
        letter: 0,
        number: 0,
        at: 0,
        length,
    }
}

// Writes so many bytes at the front of a text, and a 0 behind them.
fn place_ended(bytes: &[u8], kept: usize, text: &mut [u8])
    requires there { kept ≤ length bytes.now }
    requires room { kept < length text.old }
    ensures { text.new ≡ ended_at kept bytes.now text.old }
{
    text[..kept].copy_from_slice(&bytes[..kept]);
    text[kept] = 0;
}

/// Writes bytes at the front of a text, as many as fit with a 0 behind them.
pub fn place_text(bytes: &[u8], text: &mut [u8])
    ensures { text.new ≡ cut_in bytes.now text.old }
{
    if !text.is_empty() {
        let kept = bytes.len().min(text.len() - 1);
        place_ended(bytes, kept, text);
    }
}

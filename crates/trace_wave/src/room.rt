//! A piece of a dump that is put together before it goes to its `Vec`. All functions here write at a place, and answer the place behind what they wrote;
//! what stands in front stays, and nothing is said of what stands behind.
ghost use Rattle.std.specs.Prelude.{◌≡◌, ◌+◌, ◌*◌, ◌≤◌, [], ◌∷◌, ◌++◌, length, take};
ghost use Rattle.trace_wave.specs.Changes.{change, changes};

/// How many bytes there are.
pub(crate) const ROOM: usize = 1024;

/// How many bytes there are for a text that is copied.
pub(crate) const LONGEST_TEXT: usize = 24;

pub(crate) type Room = [u8; ROOM];

/// Writes the level of a line.
#[inline(always)]
pub(crate) fn write_level(room: &mut Room, place: usize, code: u8, level: u8) -> usize
    requires { place + 3 ≤ 1024 }
    ensures value { take result room.new ≡ take place room.old ++ level ∷ code ∷ 10 ∷ [] }
    ensures len { result ≡ place + 3 }
{
    room[place] = level;
    room[place + 1] = code;
    room[place + 2] = b'\n';
    place + 3
}

/// Writes two bytes.
#[inline(always)]
pub(crate) fn write_pair(room: &mut Room, place: usize, first: u8, second: u8) -> usize
    requires { place + 2 ≤ 1024 }
    ensures value { take result room.new ≡ take place room.old ++ first ∷ second ∷ [] }
    ensures len { result ≡ place + 2 }
{
    room[place] = first;
    room[place + 1] = second;
    place + 2
}

/// Writes the first bytes of a text. All of it is copied, as that takes fewer steps.
#[inline(always)]
pub(crate) fn write_text(
    room: &mut Room,
    place: usize,
    text: &[u8; LONGEST_TEXT],
    len: usize,
) -> usize
    requires text { len ≤ 24 }
    requires places { place + 24 ≤ 1024 }
    ensures value { take result room.new ≡ take place room.old ++ take len text.now }
    ensures len { result ≡ place + len }
{
    room[place..place + LONGEST_TEXT].copy_from_slice(text);
    place + len
}

/// Writes the change of a line, if its level changes.
#[inline(always)]
pub(crate) fn write_change(room: &mut Room, place: usize, code: u8, before: u8, after: u8) -> usize
    requires { place + 3 ≤ 1024 }
    ensures value { take result room.new ≡ take place room.old ++ change code before after }
    ensures len { (place ≤ result) × (result ≤ place + 3) }
{
    if before == after {
        return place;
    }
    write_level(room, place, code, after)
}

/// Writes the changes of the lines from a code on.
pub(crate) fn write_changes(
    room: &mut Room,
    place: usize,
    code: u8,
    before: &[u8],
    after: &[u8],
) -> usize
    requires codes { code + length before.now ≤ 255 }
    requires places { place + 3 * length before.now ≤ 1024 }
    ensures value { take result room.new ≡ take place room.old ++ changes code before.now after.now }
    ensures len { (place ≤ result) × (result ≤ place + 3 * length before.now) }
{
    let (Some((first, before)), Some((then, after))) = (before.split_first(), after.split_first())
    else {
        return place;
    };
    let place = write_change(room, place, code, *first, *then);
    write_changes(room, place, code + 1, before, after)
}

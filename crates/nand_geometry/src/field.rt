//! The fields of a row: how wide each is, and three of them beside one another.

ghost use Rattle.std.specs.Prelude.{◌≡◌, ◌+◌, ◌*◌, ◌^◌, ◌<◌, ◌≤◌};
ghost use Rattle.nand_geometry.specs.Limits.{width};

/// The width in bits of a field for this many numbers, none for one number.
pub fn width(count: u32) -> u32
    requires { count ≤ 65536 }
    ensures value { result ≡ width count }
    ensures small { result ≤ 17 }
{
    if count <= 1 {
        return 0;
    }
    32 - (count - 1).leading_zeros()
}

/// Three numbers in fields beside one another, the page in the lowest bits.
pub fn three_fields(lun: u32, block: u32, page: u32, block_bits: u32, page_bits: u32) -> u32
    requires bits { block_bits + page_bits < 32 }
    requires fits { lun * 2 ^ (block_bits + page_bits) + block * 2 ^ page_bits + page < 2 ^ 24 }
    ensures value { result ≡ lun * 2 ^ (block_bits + page_bits) + block * 2 ^ page_bits + page }
    ensures small { result < 2 ^ 24 }
{
    (lun << (block_bits + page_bits)) + (block << page_bits) + page
}

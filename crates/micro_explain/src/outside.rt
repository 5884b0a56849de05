//! Commands of ONFI that the profile leaves out.

/// What ONFI calls the command with a byte that the profile leaves out, if it has one.
pub(crate) fn name_outside(byte: u8) -> Option<&'static str> {
    match byte {
        0x06 => Some("change read column enhanced"),
        0x15 => Some("page cache program"),
        0x32 => Some("multi-plane read"),
        0x35 => Some("copyback read"),
        0x81 => Some("second opener of a multi-plane program"),
        0xd4 => Some("get features of a LUN"),
        0xd5 => Some("set features of a LUN"),
        0xed => Some("read unique ID"),
        0xee => Some("get features"),
        0xef => Some("set features"),
        0xfa => Some("reset LUN"),
        _ => None,
    }
}

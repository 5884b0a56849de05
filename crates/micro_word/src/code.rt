//! The code of each word, which is the first of its four bytes in a file.

pub(crate) const END: u8 = 0x00;

pub(crate) const COMMAND: u8 = 0x01;

pub(crate) const ADDRESS: u8 = 0x02;

pub(crate) const GET: u8 = 0x03;

pub(crate) const PUT: u8 = 0x04;

pub(crate) const SEEK: u8 = 0x05;

pub(crate) const COLUMN: u8 = 0x06;

pub(crate) const ROW_ADD: u8 = 0x07;

pub(crate) const ROW: u8 = 0x08;

pub(crate) const PLANE: u8 = 0x09;

pub(crate) const WAIT: u8 = 0x0a;

pub(crate) const YIELD: u8 = 0x0b;

pub(crate) const READ_STATUS: u8 = 0x0c;

pub(crate) const BRANCH_ON_STATUS: u8 = 0x0d;

pub(crate) const LOOP: u8 = 0x0e;

pub(crate) const NEXT: u8 = 0x0f;

pub(crate) const JUMP: u8 = 0x10;

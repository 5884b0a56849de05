//! A number field that hasn't its form.

use crate::item_fields::ItemFields;
use crate::line::{Letter, array_fail_of, byte_of, fail_of, is_wide, letter_of, place_of};
use crate::slip::Slip;
use nand_geometry::Profile;
use shown_text::Shown;
use std::fmt;

// What a number field tells.
#[derive(Clone, Copy)]
enum Number {
    ChipEnable,
    Lun,
    Fail,
    Failures,
    ArrayFail,
    Byte,
}

impl Number {
    // Whether the field has the form of this number.
    fn is_well_formed(self, field: &str) -> bool {
        match self {
            Number::ChipEnable | Number::Lun => place_of(field.as_bytes()).is_some(),
            Number::Fail => fail_of(Profile::Base, field.as_bytes()).is_some(),
            Number::Failures => fail_of(Profile::Onfi, field.as_bytes()).is_some(),
            Number::ArrayFail => array_fail_of(field.as_bytes()).is_some(),
            Number::Byte => byte_of(field.as_bytes()).is_some(),
        }
    }

    // What is wrong with the form of a field.
    fn slip(self, field: &str) -> Slip {
        match self {
            Number::ChipEnable
            | Number::Lun
            | Number::Fail
            | Number::Failures
            | Number::ArrayFail => Slip::in_digit(field),
            Number::Byte => Slip::in_byte(field),
        }
    }
}

impl fmt::Display for Number {
    fn fmt<W: fmt::Write>(&self, f: &mut fmt::Formatter<W>) -> fmt::Result {
        f.write_str(match self {
            Number::ChipEnable => "CE is one digit from 0 to 3",
            Number::Lun => "LUN is one digit from 0 to 3",
            Number::Fail => "FAIL is 0 or 1",
            Number::Failures => "FAIL is one digit from 0 to 3",
            Number::ArrayFail => "FAIL of an array is 1, and left out without failure",
            Number::Byte => "XX is two hexadecimal digits in lower case",
        })
    }
}

// The number field of a line that hasn't its form.
#[derive(Clone, Copy)]
pub(crate) struct BadNumber<'a> {
    field: &'a str,
    number: Number,
}

impl<'a> BadNumber<'a> {
    // The first number field of a line that hasn't its form.
    pub(crate) fn of(fields: ItemFields<'a>, profile: Profile) -> BadNumber<'a> {
        let ce = fields.get(0);
        if !Number::ChipEnable.is_well_formed(ce) {
            return BadNumber {
                field: ce,
                number: Number::ChipEnable,
            };
        }
        let third = fields.get(2);
        match letter_of(fields.get(1).as_bytes()) {
            Some(Letter::Ready) if Number::Lun.is_well_formed(third) => BadNumber {
                field: fields.get(3),
                number: if is_wide(profile) {
                    Number::Failures
                } else {
                    Number::Fail
                },
            },
            Some(Letter::ArrayReady) if Number::Lun.is_well_formed(third) => BadNumber {
                field: fields.get(3),
                number: Number::ArrayFail,
            },
            Some(Letter::Ready | Letter::ArrayReady) => BadNumber {
                field: third,
                number: Number::Lun,
            },
            Some(Letter::CycleOf(_)) | None => BadNumber {
                field: third,
                number: Number::Byte,
            },
        }
    }
}

impl fmt::Display for BadNumber<'_> {
    fn fmt<W: fmt::Write>(&self, f: &mut fmt::Formatter<W>) -> fmt::Result {
        let BadNumber { field, number } = *self;
        write!(
            f,
            "`{}` {}: {number}",
            Shown::line(field),
            number.slip(field)
        )
    }
}

//! Which values an argument takes.

use clap::Arg;

/// Which values an argument takes.
#[derive(Clone, Copy)]
pub(crate) enum Choices {
    Any,
    ZeroToThree,
    ZeroToFive,
    OneToFour,
    OneToEight,
    OneTwoFour,
    Profiles,
}

impl Choices {
    /// An argument that takes these alone.
    pub(crate) fn give<'a>(self, arg: Arg<'a>) -> Arg<'a> {
        match self {
            Choices::Any => arg,
            Choices::ZeroToThree => arg.value_parser(["0", "1", "2", "3"].as_slice()),
            Choices::ZeroToFive => { arg.value_parser(["0", "1", "2", "3", "4", "5"].as_slice()) }
            Choices::OneToFour => arg.value_parser(["1", "2", "3", "4"].as_slice()),
            Choices::OneToEight => {
                arg.value_parser(["1", "2", "3", "4", "5", "6", "7", "8"].as_slice())
            }
            Choices::OneTwoFour => arg.value_parser(["1", "2", "4"].as_slice()),
            Choices::Profiles => arg.value_parser(["base", "onfi"].as_slice()),
        }
    }
}

//! By what an argument is given.

use clap::{Arg, ArgAction};

/// By what an argument is given.
#[derive(Clone, Copy)]
pub(crate) enum Form {
    /// A word in its place, which has to be there.
    Word,
    /// One word in its place or more.
    Words,
    /// A word in its place, which may be missing.
    MayWord,
    /// An option alone.
    Flag,
    /// An option with a value of this name.
    Value(&'static str),
    /// The same, which may be given several times.
    Values(&'static str),
}

impl Form {
    /// An argument of this name that is given so.
    pub(crate) fn give<'a>(self, arg: Arg<'a>, name: &'static str) -> Arg<'a> {
        match self {
            Form::Word => arg.required(true),
            Form::Words => arg.required(true).num_args(1..),
            Form::MayWord => arg,
            Form::Flag => arg.long(name).action(ArgAction::SetTrue),
            Form::Value(value) => arg.long(name).value_name(value),
            Form::Values(value) => arg.long(name).value_name(value).action(ArgAction::Append),
        }
    }
}

//! What the parser is told of a command and of its arguments.

use crate::choices::Choices;
use crate::form::Form;
use clap::{Arg, Error};
use std::alloc::Global;

/// An argument of a command.
#[derive(Clone, Copy)]
pub(crate) struct Declared {
    pub(crate) name: &'static str,
    pub(crate) form: Form,
    pub(crate) help: &'static str,
    /// What counts where it isn't given.
    pub(crate) default: Option<&'static str>,
    pub(crate) choices: Choices,
    /// The arguments beside which it isn't given.
    pub(crate) conflicts: &'static [&'static str],
}

/// A word that has to be given, without a name yet.
pub(crate) const REQUIRED: Declared = Declared {
    name: "",
    form: Form::Word,
    help: "",
    default: None,
    choices: Choices::Any,
    conflicts: &[],
};

/// An option alone, without a name yet.
pub(crate) const FLAG: Declared = Declared {
    form: Form::Flag,
    ..REQUIRED
};

/// A command: what it does, an example, and its arguments in the order in which help lists them.
#[derive(Clone, Copy)]
pub(crate) struct Declaration {
    pub(crate) about: &'static str,
    pub(crate) example: &'static str,
    pub(crate) arguments: &'static [Declared],
}

// An argument with what counts where it isn't given.
fn give_default<'a>(arg: Arg<'a>, default: Option<&'static str>) -> Arg<'a> {
    match default {
        Some(default) => arg.default_value(default),
        None => arg,
    }
}

// An argument that isn't given beside these.
fn give_conflicts<'a>(arg: Arg<'a>, conflicts: &'static [&'static str]) -> Result<Arg<'a>, Error> {
    let mut arg = arg;
    for other in conflicts {
        arg = arg.conflicts_with(other)?;
    }
    Ok(arg)
}

impl Declared {
    fn make<'a>(self, alloc: Global) -> Result<Arg<'a>, Error> {
        let arg = Arg::new(alloc, self.name).help(self.help);
        let arg = self.form.give(arg, self.name);
        let arg = give_default(arg, self.default);
        let arg = self.choices.give(arg);
        give_conflicts(arg, self.conflicts)
    }
}

/// A command with all of these arguments.
pub(crate) fn with_all<'a>(
    alloc: Global,
    command: clap::Command<'a>,
    arguments: &[Declared],
) -> Result<clap::Command<'a>, Error> {
    let mut command = command;
    for declared in arguments {
        command = command.arg(declared.make(alloc)?)?;
    }
    Ok(command)
}

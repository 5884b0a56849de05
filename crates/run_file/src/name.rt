//! The names of statements.

ghost use Rattle.std.specs.Prelude.{◌≡◌};
ghost use Rattle.run_file.specs.Line.{is_named, name_of};

// What the first field of a line calls for.
#[derive(Clone, Copy)]
pub(crate) enum Name {
    Page,
    Targets,
    Image,
    Job,
    Polls,
    Fail,
}

pub(crate) fn is_named(field: &[u8], text: &str) -> bool
    ensures { result ≡ is_named field.now text.now }
{
    field == text.as_bytes()
}

// The name that a field is.
#[tactic(auto, unfolding(crate::specs::Line::name_of))]
pub(crate) fn name_of(field: &[u8]) -> Option<Name>
    ensures { result ≡ name_of field.now }
{
    if is_named(field, "page") {
        return Some(Name::Page);
    }
    if is_named(field, "targets") {
        return Some(Name::Targets);
    }
    if is_named(field, "image") {
        return Some(Name::Image);
    }
    if is_named(field, "job") {
        return Some(Name::Job);
    }
    if is_named(field, "polls") {
        return Some(Name::Polls);
    }
    if is_named(field, "fail") {
        return Some(Name::Fail);
    }
    None
}

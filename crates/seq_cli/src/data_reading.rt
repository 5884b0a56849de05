//! The options of a check that say whether its data are judged, and what its dies held.

use clap::ArgMatches;
use onfi_cycle::Lun;
use recording::{DataRequest, GivenImage};
use shown_text::Shown;
use std::fmt;

/// What is wrong with the options about data.
#[derive(Clone, Copy, Debug, PartialEq, Eq)]
pub enum DataMistake<'a> {
    /// This doesn't say what a LUN held.
    Image(&'a str),
    /// This says what a LUN held that has an image before it.
    Twice(&'a str),
    /// `--on` and `--erased` are for `--data`.
    NoData,
}

impl fmt::Display for DataMistake<'_> {
    fn fmt<W: fmt::Write>(&self, f: &mut fmt::Formatter<W>) -> fmt::Result {
        match self {
            DataMistake::Image(word) => write!(
                f,
                "--on takes CE.LUN=IMAGE, a chip enable and a LUN of 0 to 3 and a file, as in 0.1=old.image, and not `{}`",
                Shown::line(word)
            ),
            DataMistake::Twice(word) => write!(
                f,
                "a LUN has one image: `{}` is the second of its LUN",
                Shown::line(word)
            ),
            DataMistake::NoData => f.write_str("--on and --erased go with --data"),
        }
    }
}

/// The number of a chip enable or of a LUN.
pub(crate) fn number_of(word: &str) -> Option<u8> {
    match word {
        "0" => Some(0),
        "1" => Some(1),
        "2" => Some(2),
        "3" => Some(3),
        _ => None,
    }
}

// The image of a LUN, which is a file.
fn image_of(word: &str) -> Option<GivenImage<'_>> {
    let (place, path) = word.split_once('=')?;
    // With a comma it was written before.
    let (ce, lun) = place.split_once('.').or(place.split_once(','))?;
    let lun = Lun {
        ce: number_of(ce)?,
        lun: number_of(lun)?,
    };
    match path {
        "" | "-" => None,
        _ => Some(GivenImage { lun, path }),
    }
}

/// The image that a word gives, beside these.
pub(crate) fn read_image<'a>(
    images: &[GivenImage<'a>],
    word: &'a str,
) -> Result<GivenImage<'a>, DataMistake<'a>> {
    let Some(image) = image_of(word) else {
        return Err(DataMistake::Image(word));
    };
    if images.iter().any(|other| other.lun == image.lun) {
        return Err(DataMistake::Twice(word));
    }
    Ok(image)
}

/// How the data of a trace are judged, if they are, where these images are given.
pub(crate) fn read_data<'a>(
    matches: &ArgMatches<'a>,
    images: &'a [GivenImage<'a>],
) -> Result<Option<DataRequest<'a, 'a>>, DataMistake<'a>> {
    let are_erased = matches.get_flag("erased");
    if matches.get_flag("data") {
        return Ok(Some(DataRequest { images, are_erased }));
    }
    if are_erased || !images.is_empty() {
        return Err(DataMistake::NoData);
    }
    Ok(None)
}

use nand_geometry::{Geometry, SMALL_CHIP};
use std::test::Fail;
use trace_picture::draw;
use trace_text::parse;

// The opener of an erase, its row, and a command that breaks F6.
const BROKEN: &str = "0 C 60\n0 A 04\n0 A 00\n0 A 00\n0 C 10\n";

// An SVG of its own, with the words of its boxes and of what is wrong.
#[test]
fn a_picture(rt: HostRuntime) -> Result<(), Fail> {
    let geometry = Geometry::of(SMALL_CHIP)?;
    let items = parse(rt.alloc(), BROKEN)?;
    let picture = draw(rt.alloc(), &geometry, 1, &items)?;
    assert!(rt;
        picture
            .as_str()
            .starts_with("<svg xmlns=\"http://www.w3.org/2000/svg\"")
    );
    assert!(rt; picture.as_str().ends_with("</svg>\n"));
    for words in ["erase b1", "F6 at item 4: ", "items 4 to 4"] {
        assert!(rt; picture.as_str().contains(words));
    }
    Ok(())
}

#[test]
fn no_item(rt: HostRuntime) -> Result<(), Fail> {
    let geometry = Geometry::of(SMALL_CHIP)?;
    let picture = draw(rt.alloc(), &geometry, 0, &[])?;
    assert!(rt; picture.as_str().contains("0 items, legal"));
    Ok(())
}

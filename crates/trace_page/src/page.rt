//! The page.
ghost use Rattle.std.specs.Prelude.{◌≤◌};

use nand_geometry::Geometry;
use onfi_cycle::Item;
use std::alloc::{AllocError, Allocator};
use trace_picture::draw_timed;

// What stands before the picture.
const HEAD: &str = "<!DOCTYPE html>
<html lang=\"en\">
<head>
<meta charset=\"utf-8\">
<title>A trace</title>
<style>
body{margin:0;display:flex;flex-direction:column;height:100vh;font-family:sans-serif}
#picture{max-height:66vh;flex:none;overflow:auto;border-bottom:1px solid #999}
#items{flex:1;overflow:auto;padding:8px;font:13px/1.4 monospace}
#items span{display:block}
#items b{display:inline-block;width:5em;color:#888;font-weight:normal;user-select:none}
#items .on{background:#fde68a}
</style>
</head>
<body>
<div id=\"picture\">
";

// What stands between the picture and the items.
const BETWEEN: &str = "</div>
<div id=\"items\">
";

// What stands after the items: a click on a box shows its items, a click on an item its box.
const TAIL: &str = "</div>
<script>
const lines = document.querySelectorAll('#items span');
const boxes = [];
for (const title of document.querySelectorAll('svg rect title')) {
  const found = title.textContent.match(/items (\\d+) to (\\d+)/);
  if (found) boxes.push({box: title.parentNode, from: +found[1], to: +found[2]});
}
function show({box, from, to}) {
  for (const other of boxes) other.box.style.stroke = other.box === box ? '#000' : '';
  lines.forEach((line, item) => line.classList.toggle('on', from <= item && item <= to));
}
for (const it of boxes) {
  it.box.style.cursor = 'pointer';
  it.box.addEventListener('click', () => { show(it); lines[it.from].scrollIntoView({block: 'center'}); });
}
lines.forEach((line, item) => line.addEventListener('click', () => {
  const it = boxes.find(({from, to}) => from <= item && item <= to);
  if (it) { show(it); it.box.scrollIntoView({block: 'center', inline: 'center'}); }
}));
</script>
</body>
</html>
";

// The items, a line each, by their numbers.
fn push_items<A: Allocator>(page: &mut String<A>, text: &str) -> Result<(), AllocError> {
    for (item, line) in text.lines().enumerate() {
        writeln!(page, "<span><b>{item}</b>{line}</span>")?;
    }
    Ok(())
}

/// The page of a trace on a channel of so many targets, 4 at most, of this geometry: these items, which have these times ([`draw_timed`]) and this text, a line
/// for each. `AllocError` is answered only where memory was refused.
pub fn write_page<A: Allocator + Clone>(
    alloc: A,
    geometry: &Geometry,
    targets: u8,
    items: &[Item],
    times: &[Option<u64>],
    text: &str,
) -> Result<String<A>, AllocError>
    requires { targets ≤ 4 }
{
    let picture = draw_timed(alloc.clone()?, geometry, targets, items, times)?;
    let mut page = String::new(alloc);
    page.push_str(HEAD)?;
    page.push_str(picture.as_str())?;
    page.push_str(BETWEEN)?;
    push_items(&mut page, text)?;
    page.push_str(TAIL)?;
    Ok(page)
}

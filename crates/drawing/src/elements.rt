//! Shapes as elements of a document.
ghost use Rattle.std.specs.Prelude.{◌≡◌, ◌+◌, ◌*◌, ◌++◌, ◌∷◌, [], codes, decimal};
ghost use Rattle.std.specs.List.{flat_map};
ghost use Rattle.byte_streams.specs.Output.{Prints};
ghost use Rattle.tree_picture.specs.Colours.{colour_text};
ghost use Rattle.tree_picture.specs.Document.{attribute_text, element_text, escape, escaped_byte};
ghost use Rattle.tree_picture.specs.Elements.{attribute, dark_style, dashes, document_attributes, document_text, elements_of, head_elements, line_element, mark_in, name_in, number};
ghost use Rattle.tree_picture.specs.Elements.{range_in, record_element, weight, rectangle_attributes, rectangle_element, slot_element, stand_elements};
ghost use Rattle.tree_picture.specs.Elements.{stand_in, text_element, thickness, view_attribute, words_element};
ghost use Rattle.tree_picture.specs.declared.shape.TheConstants.{STAND_DROP, STAND_ROW};

use byte_streams::Output;
use itoa::Buffer;
use tree_picture::{
    CellBox, Colour, INSET, Line, MARK_INSET, NAME_DROP, PageBox, Picture, RANGE_DROP, RecordLine,
    Rectangle, SLOT_DROP, SLOT_INSET, STAND_DROP, STAND_ROW, Shape, SlotBox, Stand, Text, Words,
};

/// How a text looks.
#[derive(Clone, Copy)]
struct TextStyle {
    size: u8,
    bold: bool,
    colour: Colour,
}

/// What stands for a byte.
fn show_byte<O: Output>(out: &mut O, byte: &u8)
    ensures { Prints (O.state out.old) (O.state out.new) (escaped_byte byte.now) }
{
    let byte = *byte;
    if byte == 60 {
        out.show(b"&lt;");
    } else if byte == 62 {
        out.show(b"&gt;");
    } else if byte == 38 {
        out.show(b"&amp;");
    } else if byte == 34 {
        out.show(b"&quot;");
    } else if 32 <= byte && byte <= 126 {
        out.show(&[byte]);
    } else {
        out.show(b"?");
    }
}

/// What stands for bytes.
pub fn show_escaped<O: Output>(out: &mut O, bytes: &[u8])
    ensures { Prints (O.state out.old) (O.state out.new) (escape bytes.now) }
{
    for byte in bytes {
        show_byte(out, byte);
    }
}

/// An attribute.
fn show_attribute<O: Output>(out: &mut O, name: &[u8], value: &[u8])
    ensures { Prints (O.state out.old) (O.state out.new) (attribute_text (attribute name.now value.now)) }
{
    out.show(b" ");
    out.show(name);
    out.show(b"=\"");
    show_escaped(out, value);
    out.show(b"\"");
}

/// An attribute with a number.
fn show_number_attribute<O: Output>(out: &mut O, name: &[u8], n: u64)
    ensures { Prints (O.state out.old) (O.state out.new) (attribute_text (number name.now n)) }
{
    let mut buffer = Buffer::new();
    show_attribute(out, name, buffer.format(n).as_bytes());
}

/// An attribute with a colour.
fn show_colour<O: Output>(out: &mut O, name: &[u8], colour: Colour)
    ensures { Prints (O.state out.old) (O.state out.new) (attribute_text (attribute name.now (colour_text colour))) }
{
    show_attribute(out, name, colour.text().as_bytes());
}

/// The attributes of a rectangle.
fn show_rectangle<O: Output>(out: &mut O, rectangle: &Rectangle)
    ensures { Prints (O.state out.old) (O.state out.new) (flat_map attribute_text (rectangle_attributes rectangle.now)) }
{
    show_number_attribute(out, b"x", rectangle.x);
    show_number_attribute(out, b"y", rectangle.y);
    show_number_attribute(out, b"width", rectangle.width);
    show_number_attribute(out, b"height", rectangle.height);
    show_attribute(out, b"rx", b"4");
    show_colour(out, b"fill", rectangle.fill);
    show_colour(out, b"stroke", rectangle.edge);
    show_attribute(out, b"stroke-width", thickness_of(rectangle.thick));
}

fn thickness_of(thick: bool) -> &'static [u8]
    ensures { result.now ≡ thickness thick }
{
    if thick { b"3" } else { b"1" }
}

/// The digits of a PID.
fn show_digits<O: Output>(out: &mut O, pid: u32)
    ensures { Prints (O.state out.old) (O.state out.new) (escape (decimal pid)) }
{
    let mut buffer = Buffer::new();
    show_escaped(out, buffer.format(pid).as_bytes());
}

/// The class of a page's box.
fn show_page_name<O: Output>(out: &mut O, pid: u32)
    ensures { Prints (O.state out.old) (O.state out.new) (attribute_text (attribute (codes "class") (codes "page-" ++ decimal pid))) }
{
    out.show(b" class=\"page-");
    show_digits(out, pid);
    out.show(b"\"");
}

fn show_page_box<O: Output>(out: &mut O, pid: &u32, rectangle: &Rectangle)
    ensures { Prints (O.state out.old) (O.state out.new) (element_text (rectangle_element (attribute (codes "class") (codes "page-" ++ decimal pid.now) ∷ []) rectangle.now)) }
{
    out.show(b"<rect");
    show_page_name(out, *pid);
    show_rectangle(out, rectangle);
    out.show(b">");
    out.show(b"</rect>\n");
}

fn show_box<O: Output>(out: &mut O, rectangle: &Rectangle)
    ensures { Prints (O.state out.old) (O.state out.new) (element_text (rectangle_element [] rectangle.now)) }
{
    out.show(b"<rect");
    show_rectangle(out, rectangle);
    out.show(b">");
    out.show(b"</rect>\n");
}

/// The attributes of a line.
fn show_line_attributes<O: Output>(out: &mut O, line: &Line)
    ensures { Prints (O.state out.old) (O.state out.new) (flat_map attribute_text (line_element line.now).attributes) }
{
    show_number_attribute(out, b"x1", line.x1);
    show_number_attribute(out, b"y1", line.y1);
    show_number_attribute(out, b"x2", line.x2);
    show_number_attribute(out, b"y2", line.y2);
    show_colour(out, b"stroke", line.colour);
    show_attribute(out, b"stroke-width", b"2");
    show_attribute(out, b"stroke-dasharray", dashes_of(line.dashed));
}

fn dashes_of(dashed: bool) -> &'static [u8]
    ensures { result.now ≡ dashes dashed }
{
    if dashed { b"6 4" } else { b"none" }
}

fn show_line<O: Output>(out: &mut O, line: &Line)
    ensures { Prints (O.state out.old) (O.state out.new) (element_text (line_element line.now)) }
{
    out.show(b"<line");
    show_line_attributes(out, line);
    out.show(b">");
    out.show(b"</line>\n");
}

/// How a text looks, as attributes.
fn show_style<O: Output>(out: &mut O, style: TextStyle)
    ensures { Prints (O.state out.old) (O.state out.new) (flat_map attribute_text (number (codes "font-size") style.size
        ∷ attribute (codes "font-weight") (weight style.bold) ∷ attribute (codes "fill") (colour_text style.colour) ∷ [])) }
{
    show_number_attribute(out, b"font-size", u64::from(style.size));
    show_attribute(out, b"font-weight", weight_of(style.bold));
    show_colour(out, b"fill", style.colour);
}

/// The attributes of a text.
fn show_text_attributes<O: Output>(out: &mut O, text: &Text)
    ensures { Prints (O.state out.old) (O.state out.new) (flat_map attribute_text (text_element text.now).attributes) }
{
    show_number_attribute(out, b"x", text.x);
    show_number_attribute(out, b"y", text.y);
    let style = TextStyle {
        size: text.size,
        bold: text.bold,
        colour: text.colour,
    };
    show_style(out, style);
}

fn weight_of(bold: bool) -> &'static [u8]
    ensures { result.now ≡ weight bold }
{
    if bold { b"bold" } else { b"normal" }
}

fn show_text<O: Output>(out: &mut O, text: &Text)
    ensures { Prints (O.state out.old) (O.state out.new) (element_text (text_element text.now)) }
{
    out.show(b"<text");
    show_text_attributes(out, text);
    out.show(b">");
    show_escaped(out, text.words.as_slice());
    out.show(b"</text>\n");
}

/// The attributes of a line of a record.
fn show_record_attributes<O: Output>(out: &mut O, line: &RecordLine)
    ensures { Prints (O.state out.old) (O.state out.new) (flat_map attribute_text (record_element line.now).attributes) }
{
    show_number_attribute(out, b"x", line.x);
    show_number_attribute(out, b"y", line.y);
    show_attribute(out, b"font-size", b"11");
    show_colour(out, b"fill", line.colour());
    show_attribute(out, b"text-decoration", line.decoration());
}

/// A line of a record; one that doesn't count is struck through.
fn show_record<O: Output>(out: &mut O, line: &RecordLine)
    ensures { Prints (O.state out.old) (O.state out.new) (element_text (record_element line.now)) }
{
    out.show(b"<text");
    show_record_attributes(out, line);
    out.show(b">");
    show_escaped(out, line.words.as_slice());
    out.show(b"</text>\n");
}

/// An attribute with a place: so far from a corner.
fn show_place<O: Output>(out: &mut O, name: &[u8], corner: u64, inset: u64)
    ensures { Prints (O.state out.old) (O.state out.new) (attribute_text (number name.now (corner + inset))) }
{
    let mut buffer = Buffer::new();
    let place = u128::from(corner) + u128::from(inset);
    show_attribute(out, name, buffer.format(place).as_bytes());
}

/// A text so far to the right of a corner, and so far under it.
fn show_label<O: Output>(
    out: &mut O,
    corner: &Rectangle,
    inset: u64,
    drop: u64,
    style: TextStyle,
    words: &[u8],
)
    ensures { Prints (O.state out.old) (O.state out.new) (element_text (text_element (record {
      x = corner.now.x + inset;
      y = corner.now.y + drop;
      size = style.size;
      bold = style.bold;
      colour = style.colour;
      words = words.now;
    }))) }
{
    out.show(b"<text");
    show_place(out, b"x", corner.x, inset);
    show_place(out, b"y", corner.y, drop);
    show_style(out, style);
    out.show(b">");
    show_escaped(out, words);
    out.show(b"</text>\n");
}

/// The name of a page.
fn page_name(pid: u32) -> Words
    ensures { result ≡ codes "PID " ++ decimal pid }
{
    let mut words = Words::new();
    words.add(b"PID ");
    let mut buffer = Buffer::new();
    words.add(buffer.format(pid).as_bytes());
    words
}

/// How a text of this size, weight and colour looks.
fn style(size: u8, bold: bool, colour: Colour) -> TextStyle
    ensures { result ≡ record { size = size; bold = bold; colour = colour } }
{
    TextStyle { size, bold, colour }
}

/// The texts in a page's box.
fn show_page_texts<O: Output>(out: &mut O, page: &PageBox)
    ensures { Prints (O.state out.old) (O.state out.new) (flat_map element_text (text_element (name_in page.now) ∷ text_element (mark_in page.now) ∷ text_element (range_in page.now) ∷ [])) }
{
    let corner = &page.rectangle;
    let name = page_name(page.pid);
    let bold = style(14, true, Colour::Ink);
    show_label(out, corner, INSET, NAME_DROP, bold, name.as_slice());
    let warning = style(13, true, Colour::Missing);
    let word = page.mark.word();
    show_label(out, corner, MARK_INSET, NAME_DROP, warning, word);
    let plain = style(11, false, Colour::Ink);
    show_label(out, corner, INSET, RANGE_DROP, plain, page.range.as_slice());
}

/// The place at which an actor stands under a page's box, as an attribute: how far down.
fn show_stand_height<O: Output>(out: &mut O, corner: &Rectangle, place: u64)
    ensures { Prints (O.state out.old) (O.state out.new) (attribute_text (number (codes "y") (corner.now.y + (corner.now.height + (place * STAND_ROW + STAND_DROP))))) }
{
    let mut buffer = Buffer::new();
    let under = u128::from(place) * u128::from(STAND_ROW) + u128::from(STAND_DROP);
    let height = u128::from(corner.y) + (u128::from(corner.height) + under);
    show_attribute(out, b"y", buffer.format(height).as_bytes());
}

/// An actor under a page's box, at a place from the top.
fn show_stand<O: Output>(out: &mut O, corner: &Rectangle, place: u64, stand: &Stand)
    ensures { Prints (O.state out.old) (O.state out.new) (element_text (text_element (stand_in corner.now place stand.now))) }
{
    out.show(b"<text");
    show_place(out, b"x", corner.x, INSET);
    show_stand_height(out, corner, place);
    show_style(out, style(12, true, Colour::Actor));
    out.show(b">");
    show_escaped(out, stand.words().as_slice());
    out.show(b"</text>\n");
}

/// The actors under a page's box, one under another.
fn show_stands<O: Output>(out: &mut O, corner: &Rectangle, stands: &[Stand])
    ensures { Prints (O.state out.old) (O.state out.new) (flat_map element_text (stand_elements corner.now 0 stands.now)) }
{
    let mut place = 0;
    for stand in stands {
        show_stand(out, corner, place, stand);
        place += 1;
    }
}

/// A page's box, the texts in it, and the actors under it.
fn show_page<O: Output>(out: &mut O, page: &PageBox)
    ensures { Prints (O.state out.old) (O.state out.new) (flat_map element_text (elements_of (Shape.Page page.now))) }
{
    show_page_box(out, &page.pid, &page.rectangle);
    show_page_texts(out, page);
    show_stands(out, &page.rectangle, page.stands.as_slice());
}

/// The class of a slot's box.
fn show_slot_name<O: Output>(out: &mut O, number: u32)
    ensures { Prints (O.state out.old) (O.state out.new) (attribute_text (attribute (codes "class") (codes "slot-" ++ decimal number))) }
{
    out.show(b" class=\"slot-");
    show_digits(out, number);
    out.show(b"\"");
}

fn show_slot_box<O: Output>(out: &mut O, slot: &SlotBox)
    ensures { Prints (O.state out.old) (O.state out.new) (element_text (slot_element slot.now)) }
{
    out.show(b"<rect");
    show_slot_name(out, slot.slot.number);
    show_rectangle(out, &slot.rectangle);
    out.show(b">");
    out.show(b"</rect>\n");
}

/// A slot's box, and the words in it.
fn show_slot<O: Output>(out: &mut O, slot: &SlotBox)
    ensures { Prints (O.state out.old) (O.state out.new) (flat_map element_text (elements_of (Shape.Slot slot.now))) }
{
    show_slot_box(out, slot);
    let plain = style(11, false, Colour::Ink);
    let words = slot.words.as_slice();
    show_label(out, &slot.rectangle, SLOT_INSET, SLOT_DROP, plain, words);
}

/// The box of a cell, and the words in it.
fn show_cell<O: Output>(out: &mut O, cell: &CellBox)
    ensures { Prints (O.state out.old) (O.state out.new) (flat_map element_text (elements_of (Shape.Cell cell.now))) }
{
    show_box(out, &cell.rectangle);
    let plain = style(11, false, Colour::Ink);
    let words = cell.words.as_slice();
    show_label(out, &cell.rectangle, SLOT_INSET, SLOT_DROP, plain, words);
}

fn show_shape<O: Output>(out: &mut O, shape: &Shape)
    ensures { Prints (O.state out.old) (O.state out.new) (flat_map element_text (elements_of shape.now)) }
{
    match shape {
        Shape::Page(page) => show_page(out, page),
        Shape::Box(rectangle) => show_box(out, rectangle),
        Shape::Line(line) => show_line(out, line),
        Shape::Record(line) => show_record(out, line),
        Shape::Slot(slot) => show_slot(out, slot),
        Shape::Cell(cell) => show_cell(out, cell),
        Shape::Text(text) => show_text(out, text),
    }
}

fn show_shapes<O: Output>(out: &mut O, shapes: &[Shape])
    ensures { Prints (O.state out.old) (O.state out.new) (flat_map element_text (flat_map elements_of shapes.now)) }
{
    for shape in shapes {
        show_shape(out, shape);
    }
}

/// A number in digits.
fn show_decimal<O: Output>(out: &mut O, n: u64)
    ensures { Prints (O.state out.old) (O.state out.new) (escape (decimal n)) }
{
    let mut buffer = Buffer::new();
    show_escaped(out, buffer.format(n).as_bytes());
}

/// The attribute by which all of a document is seen, however large it is shown.
fn show_view<O: Output>(out: &mut O, width: u64, height: u64)
    ensures { Prints (O.state out.old) (O.state out.new) (attribute_text (view_attribute width height)) }
{
    out.show(b" viewBox=\"0 0 ");
    show_decimal(out, width);
    out.show(b" ");
    show_decimal(out, height);
    out.show(b"\"");
}

/// The attributes of a document.
fn show_document_attributes<O: Output>(out: &mut O, width: u64, height: u64)
    ensures { Prints (O.state out.old) (O.state out.new) (flat_map attribute_text (document_attributes width height)) }
{
    show_attribute(out, b"xmlns", b"http://www.w3.org/2000/svg");
    show_number_attribute(out, b"width", width);
    show_number_attribute(out, b"height", height);
    show_view(out, width, height);
    show_attribute(
        out,
        b"font-family",
        b"DejaVu Sans, Verdana, Helvetica, Arial, sans-serif",
    );
    show_attribute(out, b"role", b"img");
}

/// The style of a document: its colours on a dark ground. Nothing in it is escaped.
fn show_dark_style<O: Output>(out: &mut O)
    ensures { Prints (O.state out.old) (O.state out.new) (element_text (words_element (codes "style") dark_style)) }
{
    out.show(b"<style>");
    out.show(
        b"@media (prefers-color-scheme: dark) {[fill='#ffffff']{fill:#0d1117}[fill='#1b1f24']{fill:#e6edf3}[stroke='#1b1f24']{stroke:#e6edf3}",
    );
    out.show(
        b"[fill='#57606a']{fill:#9ba4ae}[stroke='#57606a']{stroke:#9ba4ae}[fill='#ddf4e4']{fill:#12361f}[fill='#dbe9ff']{fill:#16304f}",
    );
    out.show(
        b"[fill='#ffe08a']{fill:#5a4500}[fill='#ffc9c4']{fill:#5e1f1b}[fill='#e4d4fa']{fill:#3d2a5c}",
    );
    out.show(
        b"[stroke='#0a5ec2']{stroke:#58a6ff}[stroke='#1a7f37']{stroke:#3fb950}[stroke='#bc4c00']{stroke:#f0883e}[fill='#bc4c00']{fill:#f0883e}",
    );
    out.show(
        b"[fill='#8250df']{fill:#d2a8ff}[stroke='#8250df']{stroke:#d2a8ff}[stroke='#cf222e']{stroke:#ff7b72}[fill='#cf222e']{fill:#ff7b72}}",
    );
    out.show(b"</style>\n");
}

/// What stands in a document before its shapes.
fn show_head<O: Output>(out: &mut O, title: &[u8], description: &[u8])
    ensures { Prints (O.state out.old) (O.state out.new) (flat_map element_text (head_elements title.now description.now)) }
{
    out.show(b"<title>");
    show_escaped(out, title);
    out.show(b"</title>\n");
    out.show(b"<desc>");
    show_escaped(out, description);
    out.show(b"</desc>\n");
    show_dark_style(out);
    out.show(b"<rect width=\"100%\" height=\"100%\" fill=\"#ffffff\"></rect>\n");
}

/// A document of this picture.
pub fn show_document<O: Output>(out: &mut O, picture: &Picture)
    ensures { Prints (O.state out.old) (O.state out.new) (document_text picture.now.width picture.now.height picture.now.title picture.now.description picture.now.shapes.items) }
{
    out.show(b"<svg");
    show_document_attributes(out, picture.width, picture.height);
    out.show(b">");
    out.show(b"\n");
    show_head(
        out,
        picture.title.as_slice(),
        picture.description.as_slice(),
    );
    show_shapes(out, picture.shapes.as_slice());
    out.show(b"</svg>\n");
}

//! A picture as a text: SVG, with no script and nothing that is fetched.
ghost use Rattle.std.specs.Prelude.{◌≡◌, ◌++◌, IfOk, OnOk, codes, flat_map, string_bytes};
ghost use Rattle.bayou_picture.specs.Spelling.{attributes, bend_text, class_text, content, drawn_text, guarantee_word, head_text, hint_text, hue_text, kind_word, missing_text, opening, pair_text, places_text, shape_text, shapes_text, spelled, tag_of, whose_text};

use crate::drawing::{Drawing, Drawn};
use crate::escape::push_escaped;
use crate::shape::{DrawnShape, Point, ShapeForm, ShapeKind, Style};
use bayou_judge::{Breach, Guarantee};
use std::alloc::{AllocError, Global};

/// How each kind of shape looks, and the colours: h0 to h15 are the servers', h16 to h21 the breaches'.
const STYLES: &str = r#"<style>
text{font-family:system-ui,sans-serif;font-size:12px;fill:#222}
.ground{fill:#fff}
.rail{stroke:#bbb;stroke-width:2}
.heading{font-size:15px;font-weight:600}
.name{font-size:13px;font-weight:600}
.note{fill:#555;font-size:11px}
.mark{fill:#777;font-size:10px}
.write{stroke:#222;stroke-width:0.5}
.inside{fill:#fff;font-size:11px;text-anchor:middle}
.read{fill:#fff;stroke-width:2}
.inside-read{font-size:11px;text-anchor:middle}
.refused{fill:#eee;stroke:#777;stroke-dasharray:3 2}
.wrong{fill:none;stroke:#c1121f;stroke-width:3}
.arc{fill:none;stroke-width:2.5}
.reach{stroke-width:1.4;stroke-dasharray:1 4;stroke-linecap:round;opacity:.75}
.ring{fill:none;stroke-width:3}
.late-ring{fill:none;stroke-width:2;stroke-dasharray:4 3}
.gap{stroke-width:4}
.number{fill:#fff;font-size:11px;font-weight:700;text-anchor:middle}
.told{font-size:12px}
.breach:hover .reach{stroke-width:3;opacity:1}
svg:has(.breach:hover) .breach:not(:hover){opacity:.12}
.write.h0{fill:#1f6fb2}.read.h0{stroke:#1f6fb2}.write.h1{fill:#2e7d4f}.read.h1{stroke:#2e7d4f}
.write.h2{fill:#7d4f9e}.read.h2{stroke:#7d4f9e}.write.h3{fill:#96650f}.read.h3{stroke:#96650f}
.write.h4{fill:#4a6572}.read.h4{stroke:#4a6572}.write.h5{fill:#a0527a}.read.h5{stroke:#a0527a}
.write.h6{fill:#2b7a78}.read.h6{stroke:#2b7a78}.write.h7{fill:#6f6a2a}.read.h7{stroke:#6f6a2a}
.write.h8{fill:#4f5fa8}.read.h8{stroke:#4f5fa8}.write.h9{fill:#567d1f}.read.h9{stroke:#567d1f}
.write.h10{fill:#8a5a2b}.read.h10{stroke:#8a5a2b}.write.h11{fill:#3f729b}.read.h11{stroke:#3f729b}
.write.h12{fill:#5d6b78}.read.h12{stroke:#5d6b78}.write.h13{fill:#8b5a5a}.read.h13{stroke:#8b5a5a}
.write.h14{fill:#2f6a5f}.read.h14{stroke:#2f6a5f}.write.h15{fill:#6257b0}.read.h15{stroke:#6257b0}
.h16{stroke:#c1121f}.h17{stroke:#d9480f}.h18{stroke:#a61e8c}.h19{stroke:#5b21b6}.h20{stroke:#8a3b00}.h21{stroke:#0b6e4f}
circle.h16,.told.h16{fill:#c1121f}circle.h17,.told.h17{fill:#d9480f}circle.h18,.told.h18{fill:#a61e8c}
circle.h19,.told.h19{fill:#5b21b6}circle.h20,.told.h20{fill:#8a3b00}circle.h21,.told.h21{fill:#0b6e4f}
text.told{stroke:none;font-weight:600}
</style>
"#;

/// The word of a kind.
fn word_of(kind: ShapeKind) -> &'static str
    ensures { result.now ≡ kind_word kind }
{
    match kind {
        ShapeKind::Ground => "ground",
        ShapeKind::Rail => "rail",
        ShapeKind::Heading => "heading",
        ShapeKind::Name => "name",
        ShapeKind::Note => "note",
        ShapeKind::Mark => "mark",
        ShapeKind::Write => "write",
        ShapeKind::Inside => "inside",
        ShapeKind::Read => "read",
        ShapeKind::InsideRead => "inside-read",
        ShapeKind::Refused => "refused",
        ShapeKind::Wrong => "wrong",
        ShapeKind::Arc => "arc",
        ShapeKind::Reach => "reach",
        ShapeKind::Ring => "ring",
        ShapeKind::LateRing => "late-ring",
        ShapeKind::Gap => "gap",
        ShapeKind::Number => "number",
        ShapeKind::Told => "told",
    }
}

// The colour of a shape, as its class says.
fn hue(alloc: Global, hue: Option<u8>) -> Result<String, AllocError>
    ensures { IfOk result (λ text. string_bytes text ≡ hue_text hue) }
{
    match hue {
        Some(hue) => format!(in alloc; " h{hue}"),
        None => Ok(String::new(alloc)),
    }
}

// How a shape looks, as its class says.
fn class(alloc: Global, style: Style) -> Result<String, AllocError>
    ensures { IfOk result (λ text. string_bytes text ≡ class_text style) }
{
    let word = word_of(style.kind);
    let hue = hue(alloc, style.hue)?;
    format!(in alloc; " class=\"{word}{hue}\"")
}

// What the form is called.
fn tag(form: &ShapeForm) -> &'static str
    ensures { result.now ≡ tag_of form.now }
{
    match form {
        ShapeForm::Line(_, _) => "line",
        ShapeForm::Box(_, _, _) => "rect",
        ShapeForm::Disc(_, _) => "circle",
        ShapeForm::Bend(_, _, _) => "path",
        ShapeForm::Label(_, _) => "text",
    }
}

// A place.
fn pair(alloc: Global, at: Point) -> Result<String, AllocError>
    ensures { IfOk result (λ text. string_bytes text ≡ pair_text at) }
{
    let (x, y) = (at.x, at.y);
    format!(in alloc; "{x} {y}")
}

// The way of a bend.
fn bend(alloc: Global, from: Point, towards: Point, to: Point) -> Result<String, AllocError>
    ensures { IfOk result (λ text. string_bytes text ≡ bend_text from towards to) }
{
    let from = pair(alloc, from)?;
    let towards = pair(alloc, towards)?;
    let to = pair(alloc, to)?;
    format!(in alloc; " d=\"M{from} Q{towards} {to}\"")
}

// Where the form is.
fn place(alloc: Global, form: &ShapeForm) -> Result<String, AllocError>
    ensures { IfOk result (λ text. string_bytes text ≡ attributes form.now) }
{
    match form {
        ShapeForm::Line(from, to) => {
            let (x1, y1, x2, y2) = (from.x, from.y, to.x, to.y);
            format!(in alloc; " x1=\"{x1}\" y1=\"{y1}\" x2=\"{x2}\" y2=\"{y2}\"")
        }
        ShapeForm::Box(corner, width, height) => {
            let (x, y) = (corner.x, corner.y);
            format!(in alloc; " x=\"{x}\" y=\"{y}\" width=\"{width}\" height=\"{height}\" rx=\"4\"")
        }
        ShapeForm::Disc(center, radius) => {
            let (x, y) = (center.x, center.y);
            format!(in alloc; " cx=\"{x}\" cy=\"{y}\" r=\"{radius}\"")
        }
        ShapeForm::Bend(from, towards, to) => bend(alloc, *from, *towards, *to),
        ShapeForm::Label(at, _) => {
            let (x, y) = (at.x, at.y);
            format!(in alloc; " x=\"{x}\" y=\"{y}\"")
        }
    }
}

// The beginning of a shape.
fn front(alloc: Global, shape: &DrawnShape) -> Result<String, AllocError>
    ensures { IfOk result (λ text. string_bytes text ≡ codes "<" ++ (tag_of shape.now.form ++ (class_text shape.now.style ++ (attributes shape.now.form ++ codes ">")))) }
{
    let tag = tag(&shape.form);
    let class = class(alloc, shape.style)?;
    let place = place(alloc, &shape.form)?;
    format!(in alloc; "<{tag}{class}{place}>")
}

// Adds what is shown where a reader points at the shape.
fn push_hint(text: &mut Vec<u8>, hint: &str) -> Result<(), AllocError>
    ensures { OnOk result (text.new.items ≡ text.old.items ++ hint_text hint.now) }
{
    if hint.is_empty() {
        return Ok(());
    }
    text.extend_from_slice(b"<title>")?;
    push_escaped(text, hint.as_bytes())?;
    text.extend_from_slice(b"</title>")
}

// Adds the text of a label.
fn push_content(text: &mut Vec<u8>, form: &ShapeForm) -> Result<(), AllocError>
    ensures { OnOk result (text.new.items ≡ text.old.items ++ content form.now) }
{
    match form {
        ShapeForm::Label(_, label) => push_escaped(text, label.as_bytes()),
        ShapeForm::Line(_, _)
        | ShapeForm::Box(_, _, _)
        | ShapeForm::Disc(_, _)
        | ShapeForm::Bend(_, _, _) => Ok(()),
    }
}

// Adds a shape.
fn push_shape(alloc: Global, text: &mut Vec<u8>, shape: &DrawnShape) -> Result<(), AllocError>
    ensures { OnOk result (text.new.items ≡ text.old.items ++ shape_text shape.now) }
{
    let front = front(alloc, shape)?;
    let tag = tag(&shape.form);
    let back = format!(in alloc; "</{tag}>\n")?;
    text.extend_from_slice(front.as_bytes())?;
    push_hint(text, shape.hint.as_str())?;
    push_content(text, &shape.form)?;
    text.extend_from_slice(back.as_bytes())
}

// Adds shapes, one after another.
fn push_shapes(alloc: Global, text: &mut Vec<u8>, shapes: &[DrawnShape]) -> Result<(), AllocError>
    ensures { OnOk result (text.new.items ≡ text.old.items ++ shapes_text shapes.now) }
{
    for shape in shapes {
        push_shape(alloc, text, shape)?;
    }
    Ok(())
}

/// The word of a guarantee, as a survey has it.
fn word_in_survey(guarantee: Guarantee) -> &'static str
    ensures { result.now ≡ guarantee_word guarantee }
{
    match guarantee {
        Guarantee::ReadYourWrites => "ryw",
        Guarantee::MonotonicReads => "mr",
        Guarantee::WritesFollowReads => "wfr",
        Guarantee::MonotonicWrites => "mw",
    }
}

// Adds whose breach it is, and of which guarantee.
fn push_whose(alloc: Global, text: &mut Vec<u8>, breach: &Breach) -> Result<(), AllocError>
    ensures { OnOk result (text.new.items ≡ text.old.items ++ whose_text breach.now) }
{
    let word = word_in_survey(breach.guarantee);
    let session = breach.session.index;
    let whose = format!(in alloc; " data-guarantee=\"{word}\" data-session=\"{session}\"")?;
    text.extend_from_slice(whose.as_bytes())
}

// Adds its two places.
fn push_places(alloc: Global, text: &mut Vec<u8>, breach: &Breach) -> Result<(), AllocError>
    ensures { OnOk result (text.new.items ≡ text.old.items ++ places_text breach.now) }
{
    let (first, second) = (breach.first, breach.second);
    let places = format!(in alloc; " data-first=\"{first}\" data-second=\"{second}\"")?;
    text.extend_from_slice(places.as_bytes())
}

// Adds what is missing, and where.
fn push_missing(alloc: Global, text: &mut Vec<u8>, breach: &Breach) -> Result<(), AllocError>
    ensures { OnOk result (text.new.items ≡ text.old.items ++ missing_text breach.now) }
{
    let server = breach.server.index;
    let (origin, seq) = (breach.wid.origin.index, breach.wid.seq);
    let missing = format!(in alloc; " data-server=\"{server}\" data-wid=\"{origin}:{seq}\"")?;
    text.extend_from_slice(missing.as_bytes())
}

// Adds what the group of a breach begins with: which breach it is.
fn push_opening(alloc: Global, text: &mut Vec<u8>, breach: &Breach) -> Result<(), AllocError>
    ensures { OnOk result (text.new.items ≡ text.old.items ++ opening breach.now) }
{
    text.extend_from_slice(b"<g class=\"breach\"")?;
    push_whose(alloc, text, breach)?;
    push_places(alloc, text, breach)?;
    push_missing(alloc, text, breach)?;
    text.extend_from_slice(b">\n")?;
    Ok(())
}

// Adds a breach.
fn push_drawn(alloc: Global, text: &mut Vec<u8>, drawn: &Drawn) -> Result<(), AllocError>
    ensures { OnOk result (text.new.items ≡ text.old.items ++ drawn_text drawn.now) }
{
    push_opening(alloc, text, &drawn.breach)?;
    push_shapes(alloc, text, drawn.shapes.as_slice())?;
    text.extend_from_slice(b"</g>\n")
}

// Adds breaches, one after another.
fn push_breaches(alloc: Global, text: &mut Vec<u8>, breaches: &[Drawn]) -> Result<(), AllocError>
    ensures { OnOk result (text.new.items ≡ text.old.items ++ flat_map drawn_text breaches.now) }
{
    for drawn in breaches {
        push_drawn(alloc, text, drawn)?;
    }
    Ok(())
}

// What the text begins with.
fn head(alloc: Global, width: u32, height: u32) -> Result<String, AllocError>
    ensures { IfOk result (λ text. string_bytes text ≡ head_text width height) }
{
    format!(in alloc;
        "<svg xmlns=\"http://www.w3.org/2000/svg\" width=\"{width}\" height=\"{height}\" viewBox=\"0 0 {width} {height}\">\n{STYLES}"
    )
}

/// The picture as a text.
pub fn spell(alloc: Global, drawing: &Drawing) -> Result<Vec<u8>, AllocError>
    ensures { IfOk result (λ text. text.items ≡ spelled drawing.now) }
{
    let head = head(alloc, drawing.width, drawing.height)?;
    let mut text = Vec::new(alloc);
    text.extend_from_slice(head.as_bytes())?;
    push_shapes(alloc, &mut text, drawing.ground.as_slice())?;
    push_breaches(alloc, &mut text, drawing.breaches.as_slice())?;
    text.extend_from_slice(b"</svg>\n")?;
    Ok(text)
}

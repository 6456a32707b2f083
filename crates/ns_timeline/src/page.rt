//! The elements of a document, one mark a line.
//!
//! Elements are written from classes and numbers, and texts and titles as [`Escaped`] alone: nothing else can
//! write into a page.

ghost use Rattle.std.specs.Prelude.{◌≡◌, ◌++◌, OnOk, IfOk, codes, string_bytes};
ghost use Rattle.ns_timeline.specs.Elements.{text_element, title_element};
ghost use Rattle.ns_timeline.specs.Escapes.{escaped};

use crate::escaped::Escaped;
use crate::style::{NAMES, STYLE};
use std::alloc::{AllocError, Global};

/// A shape, in pixels.
#[derive(Clone, Copy)]
pub enum Shape {
    /// A rectangle by its corner and size.
    Rect {
        x: usize,
        y: usize,
        width: usize,
        height: usize,
    },
    /// A line down.
    Down {
        x: usize,
        from: usize,
        to: usize,
    },
    /// An arrow from a dot, that goes across below the dot's line.
    Across {
        from: usize,
        to: usize,
        y: usize,
    },
    /// A dot.
    Dot {
        x: usize,
        y: usize,
    },
    /// A triangle on a point.
    Triangle {
        x: usize,
        y: usize,
    },
    /// A square on its corner.
    Diamond {
        x: usize,
        y: usize,
    },
}

/// How far below its change's line an arrow goes across.
const BELOW: usize = 9;

/// The elements that are written so far.
#[derive(Drop)]
pub struct Page {
    alloc: Global,
    /// What is written.
    body: Vec<u8>,
    /// Where a text is put together.
    pub words: String,
    /// Where a tag is put together.
    tag: String,
}

/// The head of an arrow that goes across from here to there.
fn head(from: usize, to: usize) -> &'static str {
    if from < to {
        "m-6 -4l6 4l-6 4"
    } else {
        "m6 -4l-6 4l6 4"
    }
}

/// Adds the element of a shape.
fn push_shape(out: &mut String, class: &str, shape: Shape) -> Result<(), AllocError> {
    match shape {
        Shape::Rect {
            x,
            y,
            width,
            height,
        } => write!(
            out,
            "<rect class=\"{class}\" x=\"{x}\" y=\"{y}\" width=\"{width}\" height=\"{height}\" rx=\"2\"/>"
        ),
        Shape::Down { x, from, to } => {
            write!(out, "<path class=\"{class}\" d=\"M{x} {from}V{to}\"/>")
        }
        Shape::Across { from, to, y } => {
            let head = head(from, to);
            write!(
                out,
                "<path class=\"{class}\" d=\"M{from} {y}v{BELOW}H{to}{head}\"/>"
            )
        }
        Shape::Dot { x, y } => {
            write!(
                out,
                "<circle class=\"{class}\" cx=\"{x}\" cy=\"{y}\" r=\"3\"/>"
            )
        }
        Shape::Triangle { x, y } => {
            write!(
                out,
                "<path class=\"{class}\" d=\"M{x} {y}m-5 -4h10l-5 9z\"/>"
            )
        }
        Shape::Diamond { x, y } => {
            write!(
                out,
                "<path class=\"{class}\" d=\"M{x} {y}m-5 0l5 -5l5 5l-5 5z\"/>"
            )
        }
    }
}

impl Page {
    /// No element.
    pub fn new(alloc: Global) -> Page {
        Page {
            alloc,
            body: Vec::new(alloc),
            words: String::new(alloc),
            tag: String::new(alloc),
        }
    }

    /// What is written.
    pub fn into_body(self) -> Vec<u8> {
        self.body
    }

    /// The text that was put together.
    pub fn said(&self) -> Result<Escaped, AllocError>
        ensures { IfOk result (λ it. it.text.items ≡ escaped (string_bytes self.now.words)) }
    {
        Escaped::of(self.alloc, self.words.as_str())
    }

    /// A text of the document's own.
    pub fn own(&self, text: &str) -> Result<Escaped, AllocError>
        ensures { IfOk result (λ it. it.text.items ≡ escaped text.now) }
    {
        Escaped::of(self.alloc, text)
    }

    /// Adds the rest of the first tag, by its size, what the document is, its style and its ground.
    pub fn begin(&mut self, width: usize, height: usize) -> Result<(), AllocError> {
        self.tag.clear();
        writeln!(
            self.tag,
            " viewBox=\"0 0 {width} {height}\" width=\"{width}\" height=\"{height}\">"
        )?;
        self.body.extend_from_slice(self.tag.as_bytes())?;
        self.body.extend_from_slice(NAMES)?;
        self.body.extend_from_slice(STYLE)?;
        let ground = Shape::Rect {
            x: 0,
            y: 0,
            width,
            height,
        };
        self.shape("page", ground)?;
        self.end_line()
    }

    /// Begins a mark, with what a browser shows where a pointer rests on it.
    pub fn open(&mut self, title: &Escaped) -> Result<(), AllocError>
        ensures { OnOk result (self.new.body.items ≡ self.old.body.items ++ title_element title.now.text.items) }
    {
        self.body.extend_from_slice(b"<g><title>")?;
        self.body.extend_from_slice(title.bytes())?;
        self.body.extend_from_slice(b"</title>")
    }

    /// Ends a mark.
    pub fn close(&mut self) -> Result<(), AllocError> {
        self.body.extend_from_slice(b"</g>\n")
    }

    /// Adds a shape.
    pub fn shape(&mut self, class: &str, shape: Shape) -> Result<(), AllocError> {
        self.tag.clear();
        push_shape(&mut self.tag, class, shape)?;
        self.body.extend_from_slice(self.tag.as_bytes())
    }

    /// Adds a mark of one shape.
    pub fn mark(&mut self, class: &str, shape: Shape, title: &Escaped) -> Result<(), AllocError> {
        self.open(title)?;
        self.shape(class, shape)?;
        self.close()
    }

    /// Adds a text that begins, ends or has its middle here, by its class.
    pub fn text(
        &mut self,
        class: &str,
        x: usize,
        y: usize,
        text: &Escaped,
    ) -> Result<(), AllocError>
        ensures { OnOk result (self.new.body.items ≡ self.old.body.items ++ text_element class.now x y text.now.text.items) }
    {
        self.tag.clear();
        write!(self.tag, "<text class=\"{class}\" x=\"{x}\" y=\"{y}\">")?;
        self.body.extend_from_slice(self.tag.as_bytes())?;
        self.body.extend_from_slice(text.bytes())?;
        self.body.extend_from_slice(b"</text>")
    }

    /// Ends a line of the document.
    pub fn end_line(&mut self) -> Result<(), AllocError> {
        self.body.extend_from_slice(b"\n")
    }
}

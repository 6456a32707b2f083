//! Text as it may stand in a document of marks, whatever it says.

ghost use Rattle.std.specs.Prelude.{◌≡◌, ◌++◌, OnOk, IfOk, true};
ghost use Rattle.ns_timeline.specs.Escapes.{entity, escaped, is_inert};

use std::alloc::{AllocError, Global};

/// Adds what stands for a byte.
fn push_byte(out: &mut Vec<u8>, byte: u8) -> Result<(), AllocError>
    ensures { OnOk result (out.new.items ≡ out.old.items ++ entity byte) }
{
    match byte {
        b'<' => out.extend_from_slice(b"&lt;"),
        b'>' => out.extend_from_slice(b"&gt;"),
        b'&' => out.extend_from_slice(b"&amp;"),
        b'"' => out.extend_from_slice(b"&quot;"),
        b'\'' => out.extend_from_slice(b"&apos;"),
        _ => Ok(out.push(byte)?),
    }
}

/// Adds a text with its entities. In what it adds no `<`, `>` or quote stands, and each `&` begins an entity.
#[tactic(auto, using(crate::proofs::Inert::escaped_inert))]
fn push_escaped(out: &mut Vec<u8>, text: &str) -> Result<(), AllocError>
    ensures escaped { OnOk result (out.new.items ≡ out.old.items ++ escaped text.now) }
    ensures inert { is_inert (escaped text.now) ≡ true }
{
    for byte in text.as_bytes() {
        push_byte(out, *byte)?;
    }
    Ok(())
}

/// A text that can end no element and no attribute, and begin none.
///
/// Whatever writes a text or a title into a document takes this and no other: so no text gets there but
/// by [`Escaped::of`].
#[derive(Drop)]
pub struct Escaped {
    text: Vec<u8>,
    ghost inert: { is_inert text.items ≡ true },
}

impl Escaped {
    /// The text with its entities.
    pub fn of(alloc: Global, text: &str) -> Result<Escaped, AllocError>
        ensures { IfOk result (λ it. it.text.items ≡ escaped text.now) }
    {
        let mut out = Vec::new(alloc);
        push_escaped(&mut out, text)?;
        Ok(Escaped { text: out })
    }

    /// Its bytes.
    pub fn bytes(&self) -> &[u8]
        ensures { result.now ≡ self.now.text.items }
    {
        self.text.as_slice()
    }
}

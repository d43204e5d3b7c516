//! What became of a line, as a text of JSON.
ghost use Rattle.std.specs.Prelude.{◌≡◌, ◌++◌, ◌∷◌, [], IfOk, OnOk, decimal, map};
ghost use Rattle.std.specs.Str.Lines.{lines};
ghost use Rattle.json.specs.Token.{number, string};
ghost use Rattle.bayou_web_state.specs.Done.{IsDone, done_tokens, lines_tokens, said_tokens, text_of};

use json::Writer;
use std::alloc::{AllocError, Global};
use std::str;

/// What became of a line.
#[derive(Drop)]
pub struct LineDone<'a> {
    /// What is printed of it.
    pub printed: &'a [u8],
    /// What is reported beside that.
    pub told: &'a [u8],
    /// The exit status that a call of `bayou connect` would have that does this line alone.
    pub status: u8,
}

// The bytes as the text that they are; none where they are no text.
fn text_in(bytes: &[u8]) -> &str
    ensures { result.now ≡ text_of bytes.now }
{
    match str::from_utf8(bytes) {
        Ok(text) => text,
        Err(_) => "",
    }
}

// The lines of a text.
fn lines_in(alloc: Global, text: &str) -> Result<Vec<&str>, AllocError>
    ensures { IfOk result (λ all. map (λ line. line.now) all.items ≡ lines text.now) }
{
    text.lines().collect(alloc)
}

// Each text, in order.
fn put_each(out: &mut Writer, texts: &[&str]) -> Result<(), AllocError>
    ensures put { OnOk result (out.new.tokens ≡ out.old.tokens ++ map string (map (λ text. text.now) texts.now)) }
    ensures before { out.new.before ≡ out.old.before }
{
    for text in texts {
        out.string(text)?;
    }
    Ok(())
}

// The lines of a text, as an array.
#[tactic(auto, unfolding(crate::specs::Done::lines_tokens))]
fn put_lines(out: &mut Writer, alloc: Global, bytes: &[u8]) -> Result<(), AllocError>
    ensures put { OnOk result (out.new.tokens ≡ out.old.tokens ++ lines_tokens bytes.now) }
    ensures before { out.new.before ≡ out.old.before }
{
    let all = lines_in(alloc, text_in(bytes))?;
    out.begin_array()?;
    put_each(out, &all)?;
    out.end_array()
}

// What is printed, and what is reported beside that.
fn put_said(out: &mut Writer, alloc: Global, printed: &[u8], told: &[u8]) -> Result<(), AllocError>
    ensures put { OnOk result (out.new.tokens ≡ out.old.tokens ++ said_tokens printed.now told.now) }
    ensures before { out.new.before ≡ out.old.before }
{
    out.key("lines")?;
    put_lines(out, alloc, printed)?;
    out.key("told")?;
    put_lines(out, alloc, told)
}

// A status, as a number.
fn put_status(out: &mut Writer, status: u8) -> Result<(), AllocError>
    ensures put { OnOk result (out.new.tokens ≡ out.old.tokens ++ number (decimal status) ∷ []) }
    ensures before { out.new.before ≡ out.old.before }
{
    out.u64(u64::from(status))
}

// What became of the line.
fn put_done(out: &mut Writer, alloc: Global, done: &LineDone<'_>) -> Result<(), AllocError>
    ensures put { OnOk result (out.new.tokens ≡ out.old.tokens ++ done_tokens done.now.printed.now done.now.told.now done.now.status) }
    ensures before { out.new.before ≡ out.old.before }
{
    out.begin_object()?;
    put_said(out, alloc, done.printed, done.told)?;
    out.key("status")?;
    put_status(out, done.status)?;
    out.end_object()
}

/// `{"lines":["0 wrote 0:1 clock 1 deps 0,0"],"told":[],"status":0}`. Bytes that are no text have no lines.
pub fn done_text(alloc: Global, done: &LineDone<'_>) -> Result<Vec<u8>, AllocError>
    ensures { IfOk result (λ text. IsDone done.now.printed.now done.now.told.now done.now.status text.items) }
{
    let mut out = Writer::new(Vec::new(alloc));
    put_done(&mut out, alloc, done)?;
    Ok(out.into_inner())
}

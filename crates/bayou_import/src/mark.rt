//! What is kept of an import: of which text it is, at which server, and under which run.
ghost use Rattle.std.specs.Prelude.{◌≡◌, ◌<◌, IfOk, IfSome, OnOk, string_bytes, true};
ghost use Rattle.std.specs.List.{list_all};
ghost use Rattle.hex.specs.Hex.{encode_lower};
ghost use Rattle.sha2.specs.Sha256.{sha256};
ghost use Rattle.bayou_import.specs.Marks.{IsBegun, IsMarkOf, IsTorn, is_digit, mark_start, mark_text};

use bayou_base::ServerId;
use bayou_device::{Device, ReadFault};
use sha2::{Digest, Sha256};
use std::alloc::{AllocError, Global};
use std::str;
use thiserror::Error;

/// Of which text an import is, and at which server: what its mark begins with.
#[derive(Drop)]
pub struct ImportMark {
    start: String,
}

/// Why an import isn't begun, and doesn't go on.
#[derive(Clone, Copy, Debug, PartialEq, Eq, Error)]
pub enum MarkFault {
    #[error("it is of another file, of one that was changed, or at another server; nothing was sent")]
    OtherImport,
    #[error("a call of the file failed")]
    Device,
    #[error("memory")]
    OutOfMemory,
}

impl From<AllocError> for MarkFault {
    ghost use Rattle.std.specs.Prelude.{◌≡◌};
    ghost use Rattle.bayou_import.specs.declared.mark.MarkFault.TheVariants.{OutOfMemory};

    ghost from_gives = { λ _ fault. fault ≡ OutOfMemory };

    fn from(_error: AllocError) -> MarkFault {
        MarkFault::OutOfMemory
    }
}

// The digits of the digest of the text.
fn digits_of(alloc: Global, text: &[u8]) -> Result<String, AllocError>
    ensures { IfOk result (λ digits. string_bytes digits ≡ encode_lower (sha256 text.now)) }
{
    let digest = Sha256::digest(text);
    hex::encode(alloc, &digest)
}

/// The mark of an import of this text at this server.
pub fn mark_of(alloc: Global, text: &[u8], server: ServerId) -> Result<ImportMark, AllocError>
    ensures { IfOk result (λ mark. string_bytes mark.start ≡ mark_start text.now server.index) }
{
    let (digits, index) = (digits_of(alloc, text)?, server.index);
    let start = format!(in alloc; "bayou-import-1 {digits} server {index} run ")?;
    Ok(ImportMark { start })
}

// The mark with its run.
fn text_of(alloc: Global, mark: &ImportMark, run: u32) -> Result<String, AllocError>
    ensures { IfOk result (λ text. string_bytes text ≡ mark_text (string_bytes mark.now.start) run) }
{
    let start = mark.start.as_str();
    format!(in alloc; "{start}{run}\n")
}

// The run that is said after this start, if one is.
fn run_behind(start: &str, text: &str) -> Option<u32>
    ensures { IfSome result (λ run. 0 < run) }
{
    let digits = text.strip_prefix(start)?.strip_suffix('\n')?;
    match digits.parse::<u32>() {
        Ok(run) if run > 0 => Some(run),
        _ => None,
    }
}

// The run that these bytes keep of the import, if they keep one of it.
fn run_in(alloc: Global, mark: &ImportMark, bytes: &[u8]) -> Result<Option<u32>, AllocError>
    ensures { IfOk result (λ run. IfSome run (IsMarkOf (string_bytes mark.now.start) bytes.now)) }
{
    let Ok(text) = str::from_utf8(bytes) else {
        return Ok(None);
    };
    let Some(run) = run_behind(mark.start.as_str(), text) else {
        return Ok(None);
    };
    let wanted = text_of(alloc, mark, run)?;
    if wanted.as_bytes() == bytes {
        Ok(Some(run))
    } else {
        Ok(None)
    }
}

// Has the device keep the mark and nothing else.
fn begin<D: Device>(device: &mut D, text: &str) -> Result<(), MarkFault>
    ensures kept { D.is_modelled → OnOk result (D.kept device.new ≡ text.now) }
{
    if device.cut(0).is_err() || device.append(text.as_bytes()).is_err() || device.sync().is_err() {
        return Err(MarkFault::Device);
    }
    Ok(())
}

fn is_digit(byte: u8) -> bool
    ensures { result ≡ is_digit byte }
{
    matches!(byte, b'0'..=b'9')
}

fn are_digits(bytes: &[u8]) -> bool
    ensures { result ≡ list_all is_digit bytes.now }
{
    bytes.iter().all(|byte| is_digit(*byte))
}

// Whether these bytes are a front of the mark that begins so, which was begun and not kept.
fn is_torn(start: &str, bytes: &[u8]) -> bool
    ensures { result ≡ true → IsTorn start.now bytes.now }
{
    let start = start.as_bytes();
    if bytes.starts_with(start) {
        return are_digits(&bytes[start.len()..]);
    }
    start.starts_with(bytes)
}

/// The run under which the import was begun that the device keeps, or this one, which it keeps from then on. A mark that lacks its end was begun and not
/// kept, so that nothing was sent. A device that has anything else isn't touched.
pub fn kept_run<D: Device>(
    alloc: Global,
    device: &mut D,
    mark: &ImportMark,
    drawn: u32,
) -> Result<u32, MarkFault>
    requires { 0 < drawn }
    ensures run { IfOk result (λ run. 0 < run) }
    ensures goes_on { D.is_modelled → IfOk result (IsBegun (string_bytes mark.now.start) (D.content device.old) (D.content device.new) (D.kept device.new) drawn) }
{
    let bytes = match device.read_all(alloc) {
        Ok(bytes) => bytes,
        Err(ReadFault::Failed) => return Err(MarkFault::Device),
        Err(ReadFault::OutOfMemory) => return Err(MarkFault::OutOfMemory),
    };
    if is_torn(mark.start.as_str(), bytes.as_slice()) {
        let text = text_of(alloc, mark, drawn)?;
        begin(device, text.as_str())?;
        return Ok(drawn);
    }
    match run_in(alloc, mark, bytes.as_slice())? {
        Some(run) => Ok(run),
        None => Err(MarkFault::OtherImport),
    }
}

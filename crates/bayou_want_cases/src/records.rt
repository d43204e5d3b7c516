//! Records where memory is refused.
use crate::fixtures::must_be_so;
use bayou_base::Tag;
use bayou_fakes::values;
use bayou_wire::{Form, decode_record, encode_record};
use std::alloc::Global;

/// Whether the record is read, has this tag and is spelled so in the wide form, or `None` where memory was lacking.
fn is_kept(alloc: Global, form: Form, bytes: &[u8], wide: &[u8], tag: Option<Tag>) -> Option<bool> {
    let Some(record) = decode_record(alloc, form, bytes).ok()? else {
        return Some(false);
    };
    let again = encode_record(alloc, record.tag, &record.write).ok()?;
    Some(record.tag == tag && again.as_slice() == wide)
}

/// For runs in which any one allocation is refused: a record that was refused for it can be read and spelled again.
#[test]
fn one_want_of_memory_costs_no_record(rt: HostRuntime) {
    let mut wide = [0; 102];
    wide[..19].copy_from_slice(FRONT);
    wide[83..].copy_from_slice(PROGRAM);
    let mut old = [0; 70];
    old[..19].copy_from_slice(FRONT);
    old[51..].copy_from_slice(PROGRAM);
    let tag = values::tag(1);
    let forms: [(Form, &[u8]); 2] = [
        (Form::Tagged, old.as_slice()),
        (Form::Wide, wide.as_slice()),
    ];
    for (form, bytes) in forms.iter() {
        let first = is_kept(rt.alloc(), *form, bytes, &wide, tag);
        let is_so = first == Some(true)
            || (first.is_none() && is_kept(rt.alloc(), *form, bytes, &wide, tag) == Some(true));
        must_be_so(&rt, is_so, bytes.len());
    }
}

/// What stands before the counts, all of which are 0: that there is a tag, the tag, and name and clock of the Write.
const FRONT: &[u8] = b"\x01\x00\0\0\0\x01\0\0\0\x01\x00\0\0\0\x01\0\0\0\x01";

/// What stands after them: a program that puts 1 at `room`.
const PROGRAM: &[u8] = b"\x00\x01\x01\x04room\x01\x01\0\0\0\0\0\0\0\x01\x00";

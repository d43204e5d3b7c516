//! The tags that a server keeps beside its Writes, where memory is refused.
use crate::fixtures::session_id;
use bayou_base::Tag;
use bayou_tags::Tags;
use std::alloc::{AllocError, Global};
use std::process::Abort;

/// A tag by its session, its run and its number.
type Row = (u8, u32, u32);

fn tag(rt: &impl Abort, (session, run, number): Row) -> Tag {
    Tag::new(session_id(rt, session), run, number).expect(rt, "no tag")
}

/// Adds a place with this tag, where nothing comes and no place has it. Whether it is added, and while it came was at no place.
fn add(tags: &mut Tags, tag: Tag) -> Result<bool, AllocError> {
    if tags.coming().is_some() || tags.find(tag).is_some() {
        return Ok(false);
    }
    tags.reserve(Some(tag))?;
    let has_come = tags.coming() == Some(tag) && tags.find(tag).is_none();
    tags.settle();
    Ok(has_come && tags.coming().is_none())
}

/// Adds a place without a tag, where nothing comes.
fn add_none(tags: &mut Tags) -> Result<bool, AllocError> {
    if tags.coming().is_some() {
        return Ok(false);
    }
    tags.reserve(None)?;
    tags.settle();
    Ok(tags.coming().is_none())
}

/// Adds a place with the row's tag, or with none where its run is 0.
fn add_row(rt: &impl Abort, tags: &mut Tags, row: Row) -> Result<bool, AllocError> {
    if row.1 == 0 {
        return add_none(tags);
    }
    add(tags, tag(rt, row))
}

/// Adds the row's place. Where memory is refused, nothing has changed, and the place is added then.
fn grows(rt: &impl Abort, tags: &mut Tags, row: Row) -> bool {
    let before = tags.len();
    match add_row(rt, tags, row) {
        Ok(is_added) => is_added,
        Err(_) => {
            let is_as_before = tags.len() == before && tags.coming().is_none();
            is_as_before && add_row(rt, tags, row) == Ok(true)
        }
    }
}

/// The places of a list in order of receipt; those of the run 0 have no tag.
static ROWS: [Row; 8] = [
    (3, 1, 2),
    (0, 0, 0),
    (3, 1, 1),
    (3, 4, 1),
    (0, 0, 0),
    (0, 1, 2),
    (31, u32::MAX, 7),
    (3, 1, 3),
];

/// Tags that none of these places has.
static OTHERS: [Row; 6] = [
    (3, 1, 4),
    (3, 2, 1),
    (0, 1, 1),
    (1, 1, 2),
    (31, 1, 7),
    (31, 7, u32::MAX),
];

/// The greatest run of the first so many places.
static LAST_RUNS: [u32; 9] = [0, 1, 1, 1, 4, 4, 4, u32::MAX, u32::MAX];

/// Adds the places one by one. Whether each is added, and the greatest run is then as said.
fn takes_all(rt: &impl Abort, tags: &mut Tags) -> bool {
    let mut is_so = tags.last_run() == LAST_RUNS[0];
    for (at, row) in ROWS.iter().enumerate() {
        is_so &= grows(rt, tags, *row);
        is_so &= tags.last_run() == LAST_RUNS[at + 1];
    }
    is_so
}

/// Whether the place has the row's tag, or none where its run is 0, and the tag is found there.
fn has_at(rt: &impl Abort, tags: &Tags, at: usize, row: Row) -> bool {
    if at >= tags.len() {
        return false;
    }
    if row.1 == 0 {
        return tags.tag_at(at) == None;
    }
    let tag = tag(rt, row);
    tags.tag_at(at) == Some(tag) && tags.find(tag) == Some(at)
}

/// Whether the places are just those, each tag is found at its own, and no other tag is found.
fn tells_all(rt: &impl Abort, tags: &Tags) -> bool {
    let mut is_so = tags.len() == ROWS.len() && tags.as_slice().len() == ROWS.len();
    for (at, row) in ROWS.iter().enumerate() {
        is_so &= has_at(rt, tags, at, *row);
    }
    for row in OTHERS.iter() {
        is_so &= tags.find(tag(rt, *row)).is_none();
    }
    is_so
}

/// For runs in which any one allocation is refused: nothing has changed then, and each place is added with ample memory.
#[test]
fn one_want_of_memory_costs_no_tag(rt: HostRuntime) {
    let mut tags = Tags::new(rt.alloc());
    let are_taken = takes_all(&rt, &mut tags);
    assert!(rt; are_taken && tells_all(&rt, &tags));
}

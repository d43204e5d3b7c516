ghost use Rattle.std.specs.Prelude.{◌≡◌, ◌+◌, ◌-◌, ◌<◌, ◌≤◌, List, [], ◌∷◌, ◌++◌, Option, Some, None, Contains, IfSome, MatchOption, OnOk, OnErr, length, slice_get};
ghost use Rattle.bayou_base.specs.declared.tag.Tag.{Tag as Tagged};
ghost use Rattle.bayou_tags.specs.Tags.{AreDistinct, IsGreatestRun};

use bayou_base::Tag;
use std::alloc::{AllocError, Global};
use std::collections::BTreeMap;
use std::marker::Model;

/// The tags of the Writes that a server holds, in order of receipt, and the tag that comes.
#[derive(Drop)]
pub struct Tags {
    tags: Vec<Option<Tag>>,
    coming: Option<Tag>,
    // The place of each tag, and the one that the tag that comes will have.
    places: BTreeMap<Tag, usize>,
}

impl Model for Tags {
    ghost use Rattle.std.specs.Prelude.{◌-◌, [], ◌∷◌, ◌++◌, vec_capacity, vec_len};
    ghost use Rattle.bayou_tags.specs.Tags.{TagList};
    ghost use Rattle.bayou_tags.specs.Inner.Places.{ArePlaced};

    ghost Value = { TagList };

    ghost view = { λ t. record { tags = t.tags.items; coming = t.coming; room = vec_capacity t.tags - vec_len t.tags } };

    ghost invariant = { λ t. ArePlaced t.places.entries (t.tags.items ++ t.coming ∷ []) };
}

impl Tags {
    /// There is no place yet, and nothing comes.
    pub fn new(alloc: Global) -> Self
        ensures empty { result.tags ≡ [] }
        ensures coming { result.coming ≡ None }
    {
        Tags {
            tags: Vec::new(alloc),
            coming: None,
            places: BTreeMap::new(alloc),
        }
    }

    /// The tag of each Write, or none, in order of receipt.
    pub fn as_slice(&self) -> &[Option<Tag>]
        ensures value { result.now ≡ self.now.tags }
        ensures distinct { AreDistinct result.now }
    {
        self.tags.as_slice()
    }

    /// How many places there are.
    pub fn len(&self) -> usize
        ensures { result ≡ length self.now.tags }
    {
        self.tags.len()
    }

    /// The tag at the place, if it has one.
    pub fn tag_at(&self, at: usize) -> Option<Tag>
        requires { at < length self.now.tags }
        ensures { slice_get self.now.tags at ≡ Some result }
    {
        self.tags[at]
    }

    /// The tag that comes, if there is one.
    pub fn coming(&self) -> Option<Tag>
        ensures value { result ≡ self.now.coming }
        ensures new { IfSome result (λ tag. ¬ Contains self.now.tags (Some tag)) }
    {
        self.coming
    }

    /// The place of the tag, if it has one; the tag that comes has none yet. Of all tags it looks at few: their number grows as
    /// the logarithm of how many there are.
    pub fn find(&self, tag: Tag) -> Option<usize>
        ensures { MatchOption result (¬ Contains self.now.tags (Some tag)) (λ at. slice_get self.now.tags at ≡ Some (Some tag)) }
    {
        let at = *self.places.get(&tag)?;
        if at < self.tags.len() { Some(at) } else { None }
    }

    /// The greatest run of a tag, 0 where no place has one. It looks at each tag.
    pub fn last_run(&self) -> u32
        ensures { IsGreatestRun self.now.tags result }
    {
        greatest_run(&self.tags)
    }

    /// Takes room for one more place and for its tag, which comes from now on; a place without a tag needs room alike. Where memory is
    /// refused, nothing comes, and the room that there was stays.
    pub fn reserve(&mut self, tag: Option<Tag>) -> Result<(), AllocError>
        requires nothing_comes { self.old.coming ≡ None }
        requires new { IfSome tag (λ tag. ¬ Contains self.old.tags (Some tag)) }
        ensures ok { OnOk result (self.new ≡ record self.old { coming = tag; room = self.new.room }) }
        ensures room { OnOk result (0 < self.new.room) }
        ensures err { OnErr result (self.new ≡ record self.old { room = self.new.room }) }
        ensures kept { self.old.room ≤ self.new.room }
    {
        self.tags.try_reserve(1)?;
        if let Some(tag) = tag {
            self.places.insert(tag, self.tags.len())?;
        }
        self.coming = tag;
        Ok(())
    }

    /// Adds the place that was reserved, with the tag that comes, or with none. It takes no memory.
    pub fn settle(&mut self)
        requires { 0 < self.old.room }
        ensures value { self.new ≡ record self.old { tags = self.old.tags ++ self.old.coming ∷ []; coming = None; room = self.old.room - 1 } }
        ensures distinct { AreDistinct self.new.tags }
    {
        let tag = self.coming.take();
        self.tags.push_reserved(tag);
    }

    /// Takes the last place back, which has no tag, while nothing comes. It takes no memory, and the place's room is free again.
    pub fn take_back(&mut self)
        requires last { (front : List (Option Tagged)) × (self.old.tags ≡ front ++ None ∷ []) }
        requires nothing_comes { self.old.coming ≡ None }
        ensures value { self.old.tags ≡ self.new.tags ++ None ∷ [] }
        ensures same { self.new ≡ record self.old { tags = self.new.tags; room = self.old.room + 1 } }
    {
        self.tags.pop();
    }

    /// Nothing comes any more. It takes no memory, and the room that was taken stays.
    pub fn forget(&mut self)
        ensures { self.new ≡ record self.old { coming = None } }
    {
        if let Some(tag) = self.coming.take() {
            self.places.remove(&tag);
        }
    }

    /// The tag of each Write, or none, in order of receipt. The one that comes is lost.
    pub fn into_tags(self) -> Vec<Option<Tag>>
        ensures value { result.items ≡ self.tags }
        ensures distinct { AreDistinct result.items }
    {
        self.tags
    }
}

/// The greatest run of a tag, or 0.
fn greatest_run(tags: &[Option<Tag>]) -> u32
    ensures { IsGreatestRun tags.now result }
{
    let mut run: u32 = 0;
    for tag in tags {
        if let Some(tag) = tag {
            run = run.max(tag.run);
        }
    }
    run
}

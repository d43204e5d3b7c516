//! What a server holds.
use bayou_lang::RestingWrite;
use bayou_log::WriteLog;
use bayou_tags::Tags;
use std::collections::VecDeque;

// The Writes held, the tag beside each, or none, and the Write in doubt, if one is. While one is, its tag comes. Where it was being stored together
// with others, which may be none, those are in doubt after it.
#[derive(Drop)]
pub struct Holding {
    pub log: WriteLog,
    pub tags: Tags,
    pub doubt: Option<RestingWrite>,
    pub taking: VecDeque<RestingWrite>,
    pub together: bool,
}

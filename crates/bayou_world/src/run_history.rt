use crate::reply::Reply;
use bayou_audit::Totals;
use bayou_base::Entry;
use bayou_lang::RestingWrite;

/// What a run leaves.
#[derive(Drop)]
pub struct RunHistory {
    /// One for each event.
    pub replies: Vec<Reply>,
    /// What was served, in order of delivery.
    pub served: Vec<Entry>,
    /// What each server holds, in order of receipt.
    pub dumps: Vec<Vec<RestingWrite>>,
    /// Of what was entered in the book. No slip is out.
    pub totals: Totals,
}

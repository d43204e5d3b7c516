//! A picture before it is a text.
use crate::shape::DrawnShape;
use bayou_judge::Breach;

/// A breach as it is drawn.
#[derive(Debug, Drop)]
pub struct Drawn {
    pub breach: Breach,
    pub shapes: Vec<DrawnShape>,
}

/// A picture: what is drawn below the breaches, and each breach.
#[derive(Debug, Drop)]
pub struct Drawing {
    pub width: u32,
    pub height: u32,
    pub ground: Vec<DrawnShape>,
    pub breaches: Vec<Drawn>,
}

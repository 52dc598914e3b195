//! What the checker accepts.

ghost use Rattle.std.specs.Prelude.{◌≡◌};

use orienteering::{Box2, Listed};
use std::marker::Model;

/// The points of an accepted certificate with their plans, by rising profit and time, and the boxes that are left open: no
/// plan has its point outside of them unless a listed point weakly dominates it.
#[derive(Drop)]
pub struct Accepted {
    points: Vec<Listed>,
    boxes: Vec<Box2>,
}

impl Model for Accepted {
    ghost use Rattle.orienteering.specs.Certificate.{Acceptance};

    ghost Value = { Acceptance };

    ghost view = { λ a. record { points = a.points.items; boxes = a.boxes.items } };
}

impl Accepted {
    pub fn from_lists(points: Vec<Listed>, boxes: Vec<Box2>) -> Accepted
        ensures { result ≡ record { points = points.items; boxes = boxes.items } }
    {
        Accepted { points, boxes }
    }

    pub fn points(&self) -> &[Listed]
        ensures { result.now ≡ self.now.points }
    {
        self.points.as_slice()
    }

    pub fn boxes(&self) -> &[Box2]
        ensures { result.now ≡ self.now.boxes }
    {
        self.boxes.as_slice()
    }
}

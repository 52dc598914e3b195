//! The parts of an instance.

ghost use Rattle.std.specs.Prelude.{◌≡◌, List};
ghost use Rattle.orienteering.specs.declared.Place.{Place as PlaceRecord};

use fixed_num::Scale;
use orienteering::Place;
use std::marker::Model;
use thiserror::Error;

/// Why parts make no instance: the first part that is outside its limit. Places are numbered from 0, the start's number.
#[derive(Clone, Copy, Debug, PartialEq, Eq, Error)]
pub enum PartsRefusal {
    #[error("fewer than two places")]
    TooFew,
    #[error("more than 302 places")]
    TooMany,
    #[error("the number of members is not 1 to 32")]
    Team,
    #[error("place {0}: a field is outside its limit, or a start or end has a score or a service")]
    Range(u32),
    #[error("place {0}: it closes before it opens, or before the start opens")]
    Window(u32),
    #[error("out of memory")]
    Memory,
}

/// The places of an instance: the start, the calls, the end.
#[derive(Drop)]
pub struct Places {
    list: Vec<Place>,
}

impl Model for Places {
    ghost Value = { List PlaceRecord };

    ghost view = { λ places. places.list.items };
}

impl Places {
    pub fn from_list(places: Vec<Place>) -> Places
        ensures { result ≡ places.items }
    {
        Places { list: places }
    }

    pub fn list(&self) -> &[Place]
        ensures { result.now ≡ self.now }
    {
        self.list.as_slice()
    }
}

/// What an instance is made of: the scale of its lengths, the number of members, and its places, whose coordinates are in
/// ten-thousandths and whose times are in scaled units.
#[derive(Drop)]
pub struct Parts {
    pub scale: Scale,
    pub team: u32,
    pub places: Places,
}

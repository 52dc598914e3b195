//! The table of the lengths between all places.

ghost use Rattle.std.specs.Prelude.{◌≡◌, ◌≤◌, ◌<◌, IfOk, length};
ghost use Rattle.std.specs.List.{All};
ghost use Rattle.orienteering.specs.Instance.{distance};
ghost use Rattle.orienteering.specs.Limits.{IsPlaceWithinLimits};
ghost use Rattle.fixed_num.specs.Length.{scale_number};
ghost use Rattle.site_model.specs.Table.{length_table};

use fixed_num::{Scale, scaled_length};
use orienteering::Place;
use std::alloc::{AllocError, Global};

/// The length between two places in scaled units.
#[tactic(auto, unfolding(orienteering::specs::Instance::distance))]
fn length_between(a: Place, b: Place, scale: Scale) -> u32
    requires from { IsPlaceWithinLimits a }
    requires to { IsPlaceWithinLimits b }
    ensures { result ≡ distance (scale_number scale) a b }
{
    scaled_length(a.x - b.x, a.y - b.y, scale) as u32
}

/// The lengths from each place in turn to all places.
#[tactic(auto, unfolding(crate::specs::Table::length_table))]
pub(crate) fn length_table(
    alloc: Global,
    places: &[Place],
    scale: Scale,
) -> Result<Vec<u32>, AllocError>
    requires { All IsPlaceWithinLimits places.now }
    ensures { IfOk result (λ lengths. lengths.items ≡ length_table (scale_number scale) places.now) }
{
    let mut lengths = Vec::new(alloc);
    for a in places {
        for b in places {
            lengths.push(length_between(*a, *b, scale))?;
        }
    }
    Ok(lengths)
}

//! The landings that a test should try.

ghost use Rattle.std.specs.Prelude.{◌≡◌, ◌<◌, ◌≤◌, ◌++◌, ◌∷◌, [], length, map, IfOk, OnOk};
ghost use Rattle.disk.specs.Landing.{choices_to, extended, every_landing};
ghost use Rattle.disk.specs.Trial.{lists_of, lands, edge_landing_of, edge_landings_of};

use crate::{Landed, Unsynced};
use std::alloc::{AllocError, Global};

/// Up to this number of sectors every combination is tried.
pub const ALL_COMBINATIONS: usize = 6;

// Which sectors of a list land, with their newest content; of the others the fixed one stays.
#[derive(Clone, Copy)]
enum Edge {
    Nothing,
    Everything,
    Only(usize),
    AllBut(usize),
}

impl Edge {
    fn lands(self, place: usize) -> bool
        ensures { result ≡ lands self place }
    {
        match self {
            Edge::Nothing => false,
            Edge::Everything => true,
            Edge::Only(one) => place == one,
            Edge::AllBut(one) => place != one,
        }
    }
}

/// The landings to try if these sectors have unsynced contents.
///
/// Up to [`ALL_COMBINATIONS`] sectors: each combination of their contents, the fixed ones among
/// them. Of more sectors: none landed, all, and for each sector only it and all but it, those that
/// landed with their newest content.
pub fn landings(alloc: Global, unsynced: &[Unsynced]) -> Result<Vec<Vec<Landed>>, AllocError>
    ensures few { length unsynced.now ≤ ALL_COMBINATIONS
        → IfOk result (λ landings. lists_of landings.items ≡ every_landing unsynced.now) }
    ensures many { ALL_COMBINATIONS < length unsynced.now
        → IfOk result (λ landings. lists_of landings.items ≡ edge_landings_of unsynced.now) }
{
    if unsynced.len() <= ALL_COMBINATIONS {
        combinations(alloc, unsynced)
    } else {
        edge_landings(alloc, unsynced)
    }
}

fn combinations(alloc: Global, unsynced: &[Unsynced]) -> Result<Vec<Vec<Landed>>, AllocError>
    ensures { IfOk result (λ landings. lists_of landings.items ≡ every_landing unsynced.now) }
{
    let mut landings = Vec::new(alloc);
    landings.push(Vec::new(alloc))?;
    for sector in unsynced {
        landings = with_choices(alloc, &landings, *sector)?;
    }
    Ok(landings)
}

fn with_choices(
    alloc: Global,
    landings: &[Vec<Landed>],
    sector: Unsynced,
) -> Result<Vec<Vec<Landed>>, AllocError>
    ensures { IfOk result (λ longer. lists_of longer.items
        ≡ extended (lists_of landings.now) sector) }
{
    let mut longer = Vec::new(alloc);
    for landing in landings {
        push_choices(alloc, &mut longer, landing, sector)?;
    }
    Ok(longer)
}

fn push_choices(
    alloc: Global,
    longer: &mut Vec<Vec<Landed>>,
    landing: &[Landed],
    unsynced: Unsynced,
) -> Result<(), AllocError>
    ensures { OnOk result (lists_of longer.new.items
        ≡ lists_of longer.old.items ++ map
        (λ choice. landing.now ++ choice ∷ []) (choices_to unsynced.sector unsynced.contents)) }
{
    let sector = unsynced.sector;
    longer.push(with_choice(alloc, landing, Landed { sector, content: 0 })?)?;
    for earlier in 0..unsynced.contents {
        let content = earlier + 1;
        longer.push(with_choice(alloc, landing, Landed { sector, content })?)?;
    }
    Ok(())
}

fn with_choice(alloc: Global, landing: &[Landed], choice: Landed) -> Result<Vec<Landed>, AllocError>
    ensures { IfOk result (λ longer. longer.items ≡ landing.now ++ choice ∷ []) }
{
    let mut longer = Vec::from_slice(alloc, landing)?;
    longer.push(choice)?;
    Ok(longer)
}

fn edge_landings(alloc: Global, unsynced: &[Unsynced]) -> Result<Vec<Vec<Landed>>, AllocError>
    ensures { IfOk result (λ landings. lists_of landings.items ≡ edge_landings_of unsynced.now) }
{
    let mut landings = Vec::new(alloc);
    push_edge(alloc, &mut landings, unsynced, Edge::Nothing)?;
    push_edge(alloc, &mut landings, unsynced, Edge::Everything)?;
    for place in 0..unsynced.len() {
        push_edge(alloc, &mut landings, unsynced, Edge::Only(place))?;
        push_edge(alloc, &mut landings, unsynced, Edge::AllBut(place))?;
    }
    Ok(landings)
}

fn push_edge(
    alloc: Global,
    landings: &mut Vec<Vec<Landed>>,
    unsynced: &[Unsynced],
    edge: Edge,
) -> Result<(), AllocError>
    ensures { OnOk result (lists_of landings.new.items
        ≡ lists_of landings.old.items ++ edge_landing_of edge 0 unsynced.now ∷ []) }
{
    landings.push(edge_landing(alloc, unsynced, edge)?)?;
    Ok(())
}

fn edge_landing(alloc: Global, unsynced: &[Unsynced], edge: Edge) -> Result<Vec<Landed>, AllocError>
    ensures { IfOk result (λ landing. landing.items ≡ edge_landing_of edge 0 unsynced.now) }
{
    let mut landing = Vec::new(alloc);
    for (place, sector) in unsynced.iter().enumerate() {
        let content = if edge.lands(place) {
            sector.contents
        } else {
            0
        };
        landing.push(Landed {
            sector: sector.sector,
            content,
        })?;
    }
    Ok(landing)
}

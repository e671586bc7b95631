//! The journals that a match leaves.

ghost use Rattle.std.specs.Prelude.{◌≡◌, IfOk};
ghost use Rattle.c8_world.specs.Disks.{image_in};
ghost use Rattle.c8_world.specs.Table.{node_of};
ghost use Rattle.c8_script.specs.Journals.{AreImages};

use c8_game::Player;
use c8_world::World;
use std::alloc::{AllocError, Global};
use std::fs;
use std::rt::Files;

/// What a read of each player's disk gives; empty for a player that the game does not have.
#[derive(Debug, Drop)]
pub struct Journals {
    pub one: Vec<u8>,
    pub two: Vec<u8>,
    pub three: Vec<u8>,
    pub four: Vec<u8>,
}

impl Journals {
    /// Reads the disks of a world.
    pub(crate) fn of(alloc: Global, world: &World<'_>) -> Result<Journals, AllocError>
        ensures { IfOk result (AreImages world.now.table) }
    {
        Ok(Journals {
            one: image_of(alloc, world, Player { number: 1 })?,
            two: image_of(alloc, world, Player { number: 2 })?,
            three: image_of(alloc, world, Player { number: 3 })?,
            four: image_of(alloc, world, Player { number: 4 })?,
        })
    }
}

/// What a read of a player's disk gives.
fn image_of(alloc: Global, world: &World<'_>, player: Player) -> Result<Vec<u8>, AllocError>
    ensures { IfOk result (λ image. image.items ≡ image_in (node_of world.now.table player.number)) }
{
    let bytes = world.image(player);
    let mut image = Vec::with_capacity(alloc, bytes.len())?;
    image.extend_from_slice(bytes)?;
    Ok(image)
}

/// Writes the journals of the first `players` players to files of a folder, `journal1` and so on. Returns whether each was
/// written.
pub(crate) fn are_written<R: Files + AllocGlobal>(
    rt: &R,
    folder: &str,
    players: usize,
    journals: &Journals,
) -> bool {
    let images = [
        journals.one.as_slice(),
        journals.two.as_slice(),
        journals.three.as_slice(),
        journals.four.as_slice(),
    ];
    for (place, image) in images.iter().enumerate().take(players) {
        let number = place + 1;
        let Ok(path) = format!(in rt.alloc(); "{folder}/journal{number}") else {
            return false;
        };
        if fs::write(rt, path.as_str(), *image).is_err() {
            return false;
        }
    }
    true
}

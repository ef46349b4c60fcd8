//! Where entries go after so much of the long log: worked by hand.
ghost use Rattle.std.specs.Prelude.{IsTrue};
ghost use Rattle.channel_table.specs.Changes.{IsRoutable};

use crate::entries::{Row, Says, made};
use bus_msg::entry::{By, Dests, Post, What};
use channel_table::placement::Placement;
use std::alloc::Global;
use std::test::Fail;
use t32_base::letter::To;
use t32_base::process::Pid;
use t32_base::streams::NoMemory;
use test_asserts::same;

// A cluster that returns is one of the three.
fn is_routable(places: &Placement, what: &What) -> bool
    ensures { IsTrue result → IsRoutable places.now what.now }
{
    match what {
        What::Return { k } => k.0 < places.clusters(),
        _ => true,
    }
}

fn routed(alloc: Global, places: &Placement, row: &Row) -> Result<Option<Dests>, NoMemory> {
    let post = Post {
        by: By::Bus,
        what: made(alloc, row)?,
    };
    if is_routable(places, &post.what) {
        Ok(Some(places.route(&post)))
    } else {
        Ok(None)
    }
}

/// An entry, the clusters to which it goes, and the terminal.
pub type Route = (Row, u16, Option<u8>);

pub fn assert_routes(alloc: Global, places: &Placement, routes: &[Route]) -> Result<(), Fail> {
    for (row, clusters, tty) in routes {
        let wanted = Dests {
            clusters: *clusters,
            tty: *tty,
        };
        same("the route", &routed(alloc, places, row)?, &Some(wanted))?;
    }
    Ok(())
}

const NEAR: To = To::Proc(Pid(16), 0);

/// Letters go to homes and backups, after three entries.
pub const LETTERS: &[Route] = &[
    (Row::Mail(17, NEAR, Says::Bytes), 0b111, None),
    (Row::Mail(16, NEAR, Says::Bytes), 0b011, None),
    (Row::Mail(32, NEAR, Says::Bytes), 0b011, None),
    (
        Row::Mail(17, To::Proc(Pid(32), 0), Says::Bytes),
        0b100,
        None,
    ),
    (Row::Mail(16, To::Tty(5), Says::Bytes), 0b010, Some(5)),
];

/// Pages and synchronisations go to the servers, at the start,
pub const PAGES: &[Route] = &[
    (Row::Page(16), 0b110, None),
    (Row::Fetch(16), 0b110, None),
    (Row::PageIs(16), 0b111, None),
    (Row::Sync(16, None), 0b110, None),
    (Row::Page(17), 0b110, None),
    (Row::Fetch(17), 0b110, None),
    (Row::PageIs(17), 0b110, None),
    (Row::Sync(17, None), 0b110, None),
];

/// after a new backup,
pub const PAGES_MOVED: &[Route] = &[
    (Row::Page(16), 0b110, None),
    (Row::Fetch(16), 0b110, None),
    (Row::PageIs(16), 0b110, None),
    (Row::Sync(16, None), 0b111, None),
];

/// and where one server is left.
pub const PAGES_OF_ONE: &[Route] = &[
    (Row::Page(16), 0b010, None),
    (Row::Fetch(16), 0b010, None),
    (Row::PageIs(16), 0b010, None),
    (Row::Sync(16, None), 0b011, None),
];

/// A lost cluster gets nothing but its return.
pub const RETURN: &[Route] = &[(Row::Stop, 0b110, None), (Row::Return(0), 0b111, None)];

//! A book that begins in an image.

ghost use Rattle.std.specs.Prelude.{◌≡◌, [], None, IfOk, IfErr, IsOk};
ghost use Rattle.lrc_images.specs.Images.{image_world};
ghost use Rattle.lrc_images.specs.Causes.{first_cause};
ghost use Rattle.lrc_restore.specs.Refused.{IsRefusedFor};

use crate::{Book, HISTORY_LIMIT};
use lrc_images::Image;
use lrc_restore::{BeginError, restore};
use lrc_store::RepairCursor;
use lrc_topology::Topology;
use std::alloc::Global;

impl Book {
    /// A book that begins in an image over the nodes of a store, with an empty history of at most 1,000,000 entries.
    ///
    /// # Errors
    ///
    /// `Refused` with the first row that is wrong and why, else only `OutOfMemory`.
    pub fn begin(alloc: Global, topology: Topology, image: Image) -> Result<Book, BeginError>
        ensures value { IfOk result (λ b. (b.nodes ≡ topology) × (b.limit ≡ 1000000) × (b.history ≡ []) × (b.base ≡ image_world image) × (b.before ≡ image.before)) }
        ensures lawful { IsOk result → first_cause topology image ≡ None }
        ensures refused { IfErr result (IsRefusedFor (first_cause topology image)) }
    {
        let image = Box::new(alloc, image)?;
        let (store, grants) = restore(alloc, topology, &image)?;
        Ok(Book {
            store,
            grants,
            repair_cursor: RepairCursor::First,
            history: Vec::new(alloc),
            seats: None,
            limit: HISTORY_LIMIT as usize,
            base: Some(image),
        })
    }

    /// Like `begin`, in a box.
    ///
    /// # Errors
    ///
    /// As `begin`.
    pub fn begin_boxed(
        alloc: Global,
        topology: Topology,
        image: Image,
    ) -> Result<Box<Book>, BeginError>
        ensures value { IfOk result (λ b. (b.value.nodes ≡ topology) × (b.value.limit ≡ 1000000)
            × (b.value.history ≡ []) × (b.value.base ≡ image_world image) × (b.value.before ≡ image.before)) }
        ensures lawful { IsOk result → first_cause topology image ≡ None }
        ensures refused { IfErr result (IsRefusedFor (first_cause topology image)) }
    {
        let book = Book::begin(alloc, topology, image)?;
        Ok(Box::new(alloc, book)?)
    }
}

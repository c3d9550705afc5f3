//! The handles that C has of a published book and of a viewer: a book, and an end of the feed between them.

ghost use Rattle.std.specs.Prelude.{◌≡◌, Some, None, is_some, IfSome};

use crate::handle::LrcHandle;
use crate::owned_feed::OwnedFeed;
use lrc_feed::FeedEnd;
use std::alloc::Global;
use std::mem::replace;

/// An end of a feed, or none if it is closed. A struct of zeros is a closed one.
#[repr(C)]
#[derive(Drop)]
pub struct LrcFeed {
    is_open: bool,
    pub owned: OwnedFeed,
    ghost fits: { is_open ≡ is_some owned.end },
}

impl LrcFeed {
    pub(crate) fn is_open(&self) -> bool
        ensures { result ≡ is_some self.now.owned.end }
    {
        self.is_open
    }

    /// Takes the end, which closes it; `None` if it was closed.
    pub(crate) fn take(&mut self, alloc: Global) -> Option<Box<FeedEnd>>
        ensures end { IfSome result (λ e. self.old.owned.end ≡ Some e.value) }
        ensures none { (result ≡ None) → self.old.owned.end ≡ None }
        ensures closed { self.new.owned.end ≡ None }
    {
        let closed = LrcFeed {
            is_open: false,
            owned: OwnedFeed::none(alloc),
        };
        let LrcFeed { is_open, owned } = replace(self, closed);
        if is_open {
            Some(owned.into_box())
        } else {
            None
        }
    }

    /// Opens it with this end.
    pub(crate) fn put(&mut self, end: Box<FeedEnd>)
        requires { self.old.owned.end ≡ None }
        ensures { self.new.owned.end ≡ Some end.value }
    {
        *self = LrcFeed {
            is_open: true,
            owned: OwnedFeed::of(end),
        };
    }
}

/// A published book: its calls are written to the feed.
#[repr(C)]
#[derive(Drop)]
pub struct LrcPublished {
    pub book: LrcHandle,
    pub feed: LrcFeed,
}

/// A viewer of a published book: a book of its own that makes the calls of the feed.
#[repr(C)]
#[derive(Drop)]
pub struct LrcViewer {
    pub book: LrcHandle,
    pub feed: LrcFeed,
}

/// These handles may move to another thread.
fn cross(published: LrcPublished, viewer: LrcViewer) -> (LrcPublished, LrcViewer) {
    (sent(published), sent(viewer))
}

fn sent<T: Send>(x: T) -> T {
    x
}

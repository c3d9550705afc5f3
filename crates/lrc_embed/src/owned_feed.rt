//! A pointer to an end of a feed that C may store, or none.

ghost use Rattle.std.specs.Prelude.{◌≡◌, Option, Some, None, is_some, true};
ghost use Rattle.lrc_feed.specs.Feeds.{FeedAt};
ghost use Rattle.lrc_embed.specs.Handles.{owned_feed};

use crate::loose::Loose;
use lrc_feed::FeedEnd;
use std::alloc::Global;
use std::marker::Model;
use std::ptr::null_mut;

/// The pointer of a box, without its type: C sees a `void *`.
#[repr(C)]
#[derive(Drop)]
pub struct OwnedFeed {
    at: *mut (),
    alloc: Global,
    pub ghost end: { Option FeedAt },
}

impl Model for OwnedFeed {
    ghost also_owns = { λ o. owned_feed o.alloc o.at o.end };
}

unsafe impl Send for OwnedFeed {}

impl OwnedFeed {
    pub(crate) fn none(alloc: Global) -> OwnedFeed
        ensures { result.end ≡ None }
    {
        OwnedFeed {
            at: null_mut(),
            alloc,
        }
    }

    pub(crate) fn of(end: Box<FeedEnd>) -> OwnedFeed
        ensures { result.end ≡ Some end.value }
    {
        OwnedFeed::seal(Loose::of(end))
    }

    pub(crate) fn into_box(self) -> Box<FeedEnd>
        requires { is_some self.end ≡ true }
        ensures { self.end ≡ Some result.value }
    {
        self.unseal().into_box()
    }

    fn seal(loose: Loose<FeedEnd, Global>) -> OwnedFeed
        ensures { result.end ≡ Some loose.value }
    {
        let Loose { at, alloc } = loose;
        OwnedFeed {
            at: at as *mut (),
            alloc,
        }
    }

    fn unseal(self) -> Loose<FeedEnd, Global>
        requires { is_some self.end ≡ true }
        ensures { self.end ≡ Some result.value }
    {
        let OwnedFeed { at, alloc } = self;
        Loose {
            at: at as *mut FeedEnd,
            alloc,
        }
    }
}

//! The handle that C has of a book.

ghost use Rattle.std.specs.Prelude.{◌≡◌, Some, None, is_some, IfSome};

use crate::owned::OwnedBook;
use lrc_book::Book;
use std::alloc::Global;
use std::mem::replace;

/// A book, or none if the handle is closed. A struct of zeros is a closed handle.
#[repr(C)]
#[derive(Drop)]
pub struct LrcHandle {
    is_open: bool,
    pub owned: OwnedBook,
    ghost fits: { is_open ≡ is_some owned.book },
}

impl LrcHandle {
    pub(crate) fn is_open(&self) -> bool
        ensures { result ≡ is_some self.now.owned.book }
    {
        self.is_open
    }

    /// Takes the book, which closes the handle; `None` if it was closed.
    pub(crate) fn take(&mut self, alloc: Global) -> Option<Box<Book>>
        ensures book { IfSome result (λ b. self.old.owned.book ≡ Some b.value) }
        ensures none { (result ≡ None) → self.old.owned.book ≡ None }
        ensures closed { self.new.owned.book ≡ None }
    {
        let closed = LrcHandle {
            is_open: false,
            owned: OwnedBook::none(alloc),
        };
        let LrcHandle { is_open, owned } = replace(self, closed);
        if is_open {
            Some(owned.into_box())
        } else {
            None
        }
    }

    /// Opens the handle with this book.
    pub(crate) fn put(&mut self, book: Box<Book>)
        requires { self.old.owned.book ≡ None }
        ensures { self.new.owned.book ≡ Some book.value }
    {
        *self = LrcHandle {
            is_open: true,
            owned: OwnedBook::of(book),
        };
    }

    /// Frees the book, if there is one, which closes the handle.
    pub(crate) fn close(&mut self, alloc: Global)
        ensures { self.new.owned.book ≡ None }
    {
        if let Some(book) = self.take(alloc) {
            Box::into_inner(book).close();
        }
    }
}

/// A handle may move to another thread.
fn crosses(handle: LrcHandle) -> LrcHandle {
    sent(handle)
}

fn sent<T: Send>(x: T) -> T {
    x
}

//! Buffers: shared lists of values.

ghost use Rattle.std.specs.Prelude.{◌≡◌, ◌+◌, ◌≤◌, ◌↔◌, [], length, IsTrue, IfOk, IsOkUnless};
ghost use Rattle.std.specs.Cmp.Lexicographic.{pointwise, lists_per, lists_equiv};
ghost use Rattle.arrow_memory.specs.Sliced.{sliced};
ghost use Rattle.arrow_types.specs.declared.error.Error.{Error};

use arrow_types::error::Error;
use std::alloc::{AllocError, Global};
use std::marker::Model;
use std::rc::Rc;

/// A list of values that is shared by its clones and slices: a buffer of Arrow's columnar format.
pub struct Buffer<T> {
    values: Rc<Vec<T>>,
    offset: usize,
    len: usize,
}

// by hand, so that a drop is a call, and is not written out wherever a value is dropped
impl<T: Drop> Drop for Buffer<T> {
    fn drop(self) {
        let Buffer {
            values: _,
            offset: _,
            len: _,
        } = self;
    }
}

impl<T> Model for Buffer<T> {
    ghost use Rattle.std.specs.Prelude.{List, length, ◌+◌, ◌≤◌};
    ghost use Rattle.std.specs.Coded.{coded_list};
    ghost use Rattle.arrow_memory.specs.Sliced.{sliced};

    ghost Value = { List T };

    ghost coded = { coded_list T.code };

    ghost view = { λ a. sliced a.values.value.items a.offset a.len };

    ghost invariant = { λ a. a.offset + a.len ≤ length a.values.value.items };
}

impl<T> Buffer<T> {
    /// The values of a `Vec`, which is moved and not copied. It takes the memory of one shared owner.
    ///
    /// # Errors
    /// `OutOfMemory` where that is refused; the values are then dropped.
    pub fn from_vec(alloc: Global, values: Vec<T>) -> Result<Buffer<T>, Error>
    where
        T: Drop,
        ensures ok { IfOk result (λ buffer. buffer ≡ values.items) }
        ensures err { IsOkUnless result Error.OutOfMemory }
    {
        let len = values.len();
        Ok(Buffer {
            values: Rc::new(alloc, values)?,
            offset: 0,
            len,
        })
    }

    /// How many values there are.
    pub fn len(&self) -> usize
        ensures { result ≡ length self.now }
    {
        self.len
    }

    /// Whether there is no value.
    pub fn is_empty(&self) -> bool
        ensures { IsTrue result ↔ (self.now ≡ []) }
    {
        self.len == 0
    }

    /// The values.
    pub fn as_slice(&self) -> &[T]
        ensures { result.now ≡ self.now }
    {
        &self.values[self.offset..self.offset + self.len]
    }

    /// Keeps `len` values from place `offset` on. Nothing is copied.
    ///
    /// # Requires
    /// `offset + len` is at most the count of values.
    pub fn slice(&mut self, offset: usize, len: usize)
        requires { offset + len ≤ length self.old }
        ensures { self.new ≡ sliced self.old offset len }
    {
        self.offset += offset;
        self.len = len;
    }

    /// The `len` values from place `offset` on. Nothing is copied.
    ///
    /// # Requires
    /// `offset + len` is at most the count of values.
    pub fn sliced(self, offset: usize, len: usize) -> Buffer<T>
        requires { offset + len ≤ length self }
        ensures { result ≡ sliced self offset len }
    {
        let mut part = self;
        part.slice(offset, len);
        part
    }
}

/// A clone shares the values and copies none. It is refused only where the count of owners is full.
impl<T: Drop> Clone for Buffer<T> {
    ghost is_clone = { λ buffer copy. copy ≡ buffer };

    fn clone(&self) -> Result<Buffer<T>, AllocError> {
        Ok(Buffer {
            values: self.values.clone()?,
            offset: self.offset,
            len: self.len,
        })
    }
}

/// Two buffers are equal where their values are, one by one.
impl<T: PartialEq> PartialEq for Buffer<T> {
    ghost eq = { pointwise T.eq };

    ghost laws = { lists_per T.laws };

    fn eq(&self, other: &Buffer<T>) -> bool {
        self.as_slice() == other.as_slice()
    }
}

impl<T: Eq> Eq for Buffer<T> {
    ghost laws = { lists_equiv T.Eq.laws };
}

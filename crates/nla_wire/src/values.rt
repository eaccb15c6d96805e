//! Bytes, texts and lists whose contracts see them as lists.

ghost use Rattle.std.specs.Prelude.{◌≡◌, ℕ, ◌==◌, List, [], ◌∷◌, ◌++◌, length, is_ok, IfOk, IfErr};
ghost use Rattle.std.specs.Prelude.{if◌then◌else◌, refl};
ghost use Rattle.std.specs.Borrow.{sem, Lends, Array};
ghost use Rattle.std.specs.Slice.Iter.{iter_rest};
ghost use Rattle.nla_wire.specs.Lending.{overwritten};
ghost use Rattle.std.specs.Iterator.Adapters.{IterYieldsInOrder, IterYieldsInReverse};
ghost use Rattle.std.specs.String.{string_bytes};
ghost use Rattle.nla_wire.specs.declared.error.Cause.TheVariants.{OutOfMemory};
ghost use Rattle.std.specs.Cmp.Rules.{comparing};
ghost use Rattle.std.proofs.Common.{rules};
ghost use Rattle.std.proofs.lemmas.Slice.Eq.{slice_eq-Decides, bytes_eq-Decides};
ghost use lib.Pointwise.{pointwise};

use crate::error::DecodeError;
use crate::exact::Exact;
use std::alloc::{AllocFailed, Global};
use std::marker::Model;
use std::slice::Iter;

/// A value that is copied with memory taken from the allocator that is passed.
pub trait CloneIn: Sized {
    /// An equal value, or `OutOfMemory`.
    fn clone_in(&self, alloc: Global) -> Result<Self, DecodeError>
        ensures copy { IfOk result (λ copy. copy ≡ self.now) }
        ensures memory { IfErr result (λ e. e.cause ≡ OutOfMemory) };
}

/// Bytes that are kept as they are.
#[derive(Debug, Drop)]
pub struct Bytes {
    vec: Vec<u8>,
}

impl Model for Bytes {
    ghost Value = { List ℕ };

    ghost view = { λ s. s.vec.items };
}

impl Bytes {
    /// The bytes of a vector, which is moved.
    pub fn new(vec: Vec<u8>) -> Bytes
        ensures { result ≡ vec.items }
    {
        Bytes { vec }
    }

    /// A copy of these bytes, or `OutOfMemory`.
    pub fn from_slice(alloc: Global, bytes: &[u8]) -> Result<Bytes, DecodeError>
        ensures ok { IfOk result (λ b. b ≡ bytes.now) }
        ensures err { IfErr result (λ e. e.cause ≡ OutOfMemory) }
    {
        let vec = Vec::from_slice(alloc, bytes)?;
        Ok(Bytes { vec })
    }

    /// The vector, which is moved out.
    pub fn into_vec(self) -> Vec<u8>
        ensures { result.items ≡ self }
    {
        let Bytes { vec } = self;
        vec
    }

    /// The bytes in order, which are borrowed.
    pub fn as_slice(&self) -> &[u8]
        ensures { result.now ≡ self.now }
    {
        self.vec.as_slice()
    }

    /// The number of bytes.
    pub fn len(&self) -> usize
        ensures { result ≡ length self.now }
    {
        self.vec.len()
    }

    /// Whether there are no bytes.
    pub fn is_empty(&self) -> bool
        ensures { result ≡ (length self.now == 0) }
    {
        self.vec.is_empty()
    }
}

impl CloneIn for Bytes {
    fn clone_in(&self, alloc: Global) -> Result<Bytes, DecodeError> {
        Bytes::from_slice(alloc, self.as_slice())
    }
}

impl PartialEq for Bytes {
    ghost eq = { pointwise ◌==◌ };

    ghost laws = { Prim.search (comparing, rules) };

    fn eq(&self, other: &Bytes) -> bool {
        self.as_slice() == other.as_slice()
    }
}

impl Eq for Bytes {
    ghost laws = { Prim.search (comparing, rules) };
}

impl Exact for Bytes {
    ghost decides = { bytes_eq-Decides };
}

/// A text, which contracts see as its UTF-8.
#[derive(Debug, Drop)]
pub struct Text {
    string: String,
}

impl Model for Text {
    ghost Value = { List ℕ };

    ghost view = { λ s. string_bytes s.string };
}

impl Text {
    /// The text of a string, which is moved.
    pub fn new(string: String) -> Text
        ensures { result ≡ string_bytes string }
    {
        Text { string }
    }

    /// A copy of this text, or `OutOfMemory`.
    pub fn from_str(alloc: Global, text: &str) -> Result<Text, DecodeError>
        ensures ok { IfOk result (λ t. t ≡ text.now) }
        ensures err { IfErr result (λ e. e.cause ≡ OutOfMemory) }
    {
        let string = String::from_str(alloc, text)?;
        Ok(Text { string })
    }

    /// The string, which is moved out.
    pub fn into_string(self) -> String
        ensures { string_bytes result ≡ self }
    {
        let Text { string } = self;
        string
    }

    /// The text, which is borrowed.
    pub fn as_str(&self) -> &str
        ensures { result.now ≡ self.now }
    {
        self.string.as_str()
    }

    /// The number of bytes.
    pub fn len(&self) -> usize
        ensures { result ≡ length self.now }
    {
        self.as_str().len()
    }

    /// Whether the text has no bytes.
    pub fn is_empty(&self) -> bool
        ensures { result ≡ (length self.now == 0) }
    {
        self.as_str().is_empty()
    }
}

impl CloneIn for Text {
    fn clone_in(&self, alloc: Global) -> Result<Text, DecodeError> {
        Text::from_str(alloc, self.as_str())
    }
}

impl PartialEq for Text {
    ghost eq = { pointwise ◌==◌ };

    ghost laws = { Prim.search (comparing, rules) };

    fn eq(&self, other: &Text) -> bool {
        self.as_str() == other.as_str()
    }
}

impl Eq for Text {
    ghost laws = { Prim.search (comparing, rules) };
}

impl Exact for Text {
    ghost decides = { bytes_eq-Decides };
}

/// Values in order.
#[derive(Debug, Drop)]
pub struct List<T> {
    vec: Vec<T>,
}

impl<T> Model for List<T> {
    ghost Value = { List T };

    ghost view = { λ s. s.vec.items };
}

impl<T> List<T> {
    ghost use Rattle.nla_wire.specs.contracts.values.List.{the_row};

    /// The values of a vector, which is moved.
    pub fn new(vec: Vec<T>) -> List<T>
        ensures { result ≡ vec.items }
    {
        List { vec }
    }

    /// The vector, which is moved out.
    pub fn into_vec(self) -> Vec<T>
        ensures { result.items ≡ self }
    {
        let List { vec } = self;
        vec
    }

    /// The values in order, which are borrowed.
    pub fn as_slice(&self) -> &[T]
        ensures { result.now ≡ self.now }
    {
        self.vec.as_slice()
    }

    /// The values, to be changed in place.
    pub fn as_mut_slice(&mut self) -> &mut [T]
        ensures* writes_back { sem 𝓛
            (Lends (the_row T.row) (Array T.row 0) self.entry result (overwritten self.old)) }
        ensures value { result.now ≡ self.old }
    {
        self.vec.as_mut_slice()
    }

    /// The values in order, or from the back.
    pub fn iter(&self) -> Iter<'_, T>
        ensures rest { iter_rest result ≡ self.now }
        ensures runs { IterYieldsInOrder T }
        ensures runs_back { IterYieldsInReverse T }
    {
        self.vec.as_slice().iter()
    }

    /// Adds a value at the end. Where memory ran out the list is unchanged, and the value is returned.
    pub fn push(&mut self, value: T) -> Result<(), AllocFailed<T>>
        ensures items { self.new ≡ (if is_ok result then self.old ++ value ∷ [] else self.old) }
        ensures value_returned { IfErr result (λ failed. failed.value ≡ value) }
    {
        self.vec.push(value)
    }

    /// The number of values.
    pub fn len(&self) -> usize
        ensures { result ≡ length self.now }
    {
        self.as_slice().len()
    }

    /// Whether there are no values.
    pub fn is_empty(&self) -> bool
        ensures { result ≡ (length self.now == 0) }
    {
        self.as_slice().is_empty()
    }
}

impl<T: CloneIn + Drop> CloneIn for List<T> {
    fn clone_in(&self, alloc: Global) -> Result<List<T>, DecodeError> {
        let mut vec = Vec::with_capacity(alloc, self.len())?;
        for value in self.as_slice() {
            vec.push(value.clone_in(alloc)?)?;
        }
        Ok(List { vec })
    }
}

impl<T: PartialEq> PartialEq for List<T> {
    ghost eq = { pointwise T.eq };

    ghost laws = { Prim.search (comparing, rules) };

    fn eq(&self, other: &List<T>) -> bool {
        self.as_slice() == other.as_slice()
    }
}

impl<T: Eq> Eq for List<T> {
    ghost laws = { Prim.search (comparing, rules) };
}

impl<T: Exact> Exact for List<T> {
    ghost decides = { λ xs ys. slice_eq-Decides T.decides xs ys _ refl };
}

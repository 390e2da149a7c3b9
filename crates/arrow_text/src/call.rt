//! A line: a call's name and arguments, parted by spaces.

use crate::bits::{read_bits, read_validity};
use crate::fault::Fault;
use crate::given::{Array, Arrays, Pair, Scalar};
use crate::number::Integer;
use crate::piece::Piece;
use crate::read::read_array;
use crate::scalar::read_scalar;
use crate::types::{boxed_type, find, read_type};
use arrow_memory::bitmap::Bitmap;
use arrow_types::datatypes::DataType;
use std::alloc::Global;

/// What answers the calls of one name: it reads the arguments, tests each condition of the call, and appends what the call
/// answers.
pub type Answer = fn(Global, &Call<'_>, &mut String) -> Result<(), Fault>;

/// Appends the answer that stands beside the call's name in a table; `false` where none does.
///
/// # Requires
/// Each function of the table may be called on all arguments.
///
/// # Errors
/// The fault of the arguments, a condition of the call that does not hold, or its refusal. `out` may then have part of
/// an answer.
pub fn answer_by(
    alloc: Global,
    table: &[(&str, Answer)],
    call: &Call<'_>,
    out: &mut String,
) -> Result<bool, Fault>
    requires { (answer : _) (alloc : _) (call : _) (out : _) → pre answer alloc call out }
{
    match find(table, call.name) {
        Some(answer) => {
            answer(alloc, call, out)?;
            Ok(true)
        }
        None => Ok(false),
    }
}

/// The arrays that pieces of a line say.
pub fn read_arrays(alloc: Global, pieces: &[Piece<'_>]) -> Result<Arrays, Fault> {
    let mut arrays = Vec::new(alloc);
    for piece in pieces {
        let array = read_array(alloc, *piece)?;
        arrays.push(Box::into_inner(array))?;
    }
    Ok(Arrays { arrays })
}

/// A call's name, and its arguments.
#[derive(Drop)]
pub struct Call<'a> {
    pub name: &'a str,
    pub arguments: Vec<Piece<'a>>,
}

impl<'a> Piece<'a> {
    /// A call of the form `extend(0,1,2)`, as a step of another.
    pub fn step(self, alloc: Global) -> Result<Call<'a>, Fault> {
        match self.headed('(', ")") {
            Some((head, arguments)) => Ok(Call {
                name: head.text(),
                arguments: arguments.items(alloc, ',')?,
            }),
            None => Err(self.fault()),
        }
    }
}

impl<'a> Call<'a> {
    /// Reads a line. No word stands between two spaces.
    pub fn read(alloc: Global, line: &'a str) -> Result<Call<'a>, Fault> {
        let words = Piece::new(0, line).split(alloc, ' ')?;
        let mut name = None;
        let mut arguments = Vec::new(alloc);
        for word in &words {
            match name {
                _ if word.is_empty() => (),
                None => name = Some(word.text()),
                Some(_) => arguments.push(*word)?,
            }
        }
        match name {
            Some(name) => Ok(Call { name, arguments }),
            None => Err(Fault::Syntax(0)),
        }
    }

    /// That there are so many arguments.
    pub fn takes(&self, count: usize) -> Result<(), Fault> {
        if self.arguments.len() == count {
            Ok(())
        } else {
            Err(Fault::Usage)
        }
    }

    /// Argument `i`.
    pub fn argument(&self, i: usize) -> Result<Piece<'a>, Fault> {
        self.arguments.get(i).copied().ok_or(Fault::Usage)
    }

    /// Argument `i`, an integer.
    pub fn integer<T: Integer>(&self, i: usize) -> Result<T, Fault> {
        self.argument(i)?.integer()
    }

    /// Argument `i` of so many, an integer.
    pub fn integer_of<T: Integer>(&self, count: usize, i: usize) -> Result<T, Fault> {
        self.takes(count)?;
        self.integer(i)
    }

    /// Of so many arguments, argument `i` and the one behind it, where a part begins and how long it is.
    pub fn range_of(&self, count: usize, i: usize) -> Result<(usize, usize), Fault> {
        self.takes(count)?;
        self.range(i)
    }

    /// Arguments `i` and the one behind it, where a part begins and how long it is.
    pub fn range(&self, i: usize) -> Result<(usize, usize), Fault> {
        let start = self.integer(i)?;
        Ok((start, self.integer(i.saturating_add(1))?))
    }

    /// Argument `i`, an array.
    pub fn array(&self, alloc: Global, i: usize) -> Result<Array, Fault> {
        let array = read_array(alloc, self.argument(i)?)?;
        Ok(Array { array })
    }

    /// The only argument, an array.
    pub fn only_array(&self, alloc: Global) -> Result<Array, Fault> {
        self.takes(1)?;
        self.array(alloc, 0)
    }

    /// The last two arguments, arrays, before which so many others stand.
    pub fn pair(&self, alloc: Global, first: usize) -> Result<Pair, Fault> {
        self.takes(first.saturating_add(2))?;
        let left = read_array(alloc, self.argument(first)?)?;
        let right = read_array(alloc, self.argument(first.saturating_add(1))?)?;
        Ok(Pair { left, right })
    }

    /// The last two arguments, an array and a scalar, before which so many others stand.
    pub fn array_and_scalar(&self, alloc: Global, first: usize) -> Result<(Array, Scalar), Fault> {
        self.takes(first.saturating_add(2))?;
        let array = self.array(alloc, first)?;
        Ok((array, self.scalar(alloc, first.saturating_add(1))?))
    }

    /// The arguments from one on, all of them arrays.
    pub fn arrays(&self, alloc: Global, from: usize) -> Result<Arrays, Fault> {
        match self.arguments.get(from..) {
            Some(pieces) => read_arrays(alloc, pieces),
            None => read_arrays(alloc, &[]),
        }
    }

    /// Argument `i`, a data type.
    pub fn data_type(&self, alloc: Global, i: usize) -> Result<DataType, Fault> {
        read_type(alloc, self.argument(i)?)
    }

    /// Argument `i`, a data type in a box of its own.
    pub fn boxed_type(&self, alloc: Global, i: usize) -> Result<Box<DataType>, Fault> {
        boxed_type(alloc, self.argument(i)?)
    }

    /// Argument `i`, a bitmap.
    pub fn bits(&self, alloc: Global, i: usize) -> Result<Bitmap, Fault> {
        read_bits(alloc, self.argument(i)?)
    }

    /// Argument `i`, a validity or `none`.
    pub fn validity(&self, alloc: Global, i: usize) -> Result<Option<Bitmap>, Fault> {
        read_validity(alloc, self.argument(i)?)
    }

    /// Argument `i`, a scalar.
    pub fn scalar(&self, alloc: Global, i: usize) -> Result<Scalar, Fault> {
        let scalar = read_scalar(alloc, self.argument(i)?)?;
        Ok(Scalar { scalar })
    }

    /// The only argument, a bitmap.
    pub fn only_bits(&self, alloc: Global) -> Result<Bitmap, Fault> {
        self.takes(1)?;
        self.bits(alloc, 0)
    }
}

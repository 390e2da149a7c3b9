//! The commands, and the kernel that each calls.

mod logic;
mod pairs;
mod selection;
mod text;

use crate::answer::Answer;
use crate::literals::Literal;
use arrow_arrays::array::AnyArray;
use arrow_flat::array::BooleanArray;
use logic::{Connective, Quantifier};
use pairs::Relation;
use std::alloc::{AllocError, Global};

/// A command that a line may name.
#[derive(Clone, Copy)]
pub(crate) enum Command {
    BuildFilter,
    Concatenate,
    Connect(Connective),
    Filter,
    IfThenElse,
    IfThenElseRanges,
    IsNull(bool),
    Length,
    Not,
    Nullif,
    Quantify(Quantifier),
    Ranges,
    Relate(Relation),
    Shift,
    Substring,
    Take,
}

impl Command {
    pub(crate) fn from_name(name: &str) -> Option<Command> {
        match name {
            "all" => Some(Command::Quantify(Quantifier::All)),
            "and" => Some(Command::Connect(Connective::And)),
            "any" => Some(Command::Quantify(Quantifier::Any)),
            "build_filter" => Some(Command::BuildFilter),
            "concatenate" => Some(Command::Concatenate),
            "eq" => Some(Command::Relate(Relation::Eq)),
            "eq_and_validity" => Some(Command::Relate(Relation::EqAndValidity)),
            "filter" => Some(Command::Filter),
            "gt" => Some(Command::Relate(Relation::Gt)),
            "gt_eq" => Some(Command::Relate(Relation::GtEq)),
            "if_then_else" => Some(Command::IfThenElse),
            "if_then_else_ranges" => Some(Command::IfThenElseRanges),
            "is_not_null" => Some(Command::IsNull(false)),
            "is_null" => Some(Command::IsNull(true)),
            "kleene_and" => Some(Command::Connect(Connective::KleeneAnd)),
            "kleene_or" => Some(Command::Connect(Connective::KleeneOr)),
            "length" => Some(Command::Length),
            "lt" => Some(Command::Relate(Relation::Lt)),
            "lt_eq" => Some(Command::Relate(Relation::LtEq)),
            "neq" => Some(Command::Relate(Relation::Neq)),
            "neq_and_validity" => Some(Command::Relate(Relation::NeqAndValidity)),
            "not" => Some(Command::Not),
            "nullif" => Some(Command::Nullif),
            "or" => Some(Command::Connect(Connective::Or)),
            "ranges" => Some(Command::Ranges),
            "shift" => Some(Command::Shift),
            "substring" => Some(Command::Substring),
            "take" => Some(Command::Take),
            _ => None,
        }
    }

    /// Calls the kernel. A refusal is an answer too.
    pub(crate) fn call(
        self,
        alloc: Global,
        arguments: &[Literal<'_>],
    ) -> Result<Answer, AllocError> {
        match self {
            Command::BuildFilter => Ok(selection::build_filter(alloc, arguments)),
            Command::Concatenate => selection::concatenate(alloc, arguments),
            Command::Connect(connective) => Ok(logic::connect(alloc, connective, arguments)),
            Command::Filter => Ok(selection::filter(alloc, arguments)),
            Command::IfThenElse => Ok(selection::if_then_else(alloc, arguments)),
            Command::IfThenElseRanges => Ok(selection::if_then_else_ranges(alloc, arguments)),
            Command::IsNull(is_null) => Ok(logic::is_null(alloc, is_null, arguments)),
            Command::Length => Ok(text::length(alloc, arguments)),
            Command::Not => Ok(logic::not(alloc, arguments)),
            Command::Nullif => Ok(pairs::nullif(alloc, arguments)),
            Command::Quantify(quantifier) => Ok(logic::quantify(quantifier, arguments)),
            Command::Ranges => Ok(selection::ranges(alloc, arguments)),
            Command::Relate(relation) => Ok(pairs::relate(alloc, relation, arguments)),
            Command::Shift => Ok(selection::shift(alloc, arguments)),
            Command::Substring => Ok(text::substring(alloc, arguments)),
            Command::Take => Ok(selection::take(alloc, arguments)),
        }
    }
}

// The array of truth values that is the only argument, if it is one.
fn only_boolean<'a>(arguments: &'a [Literal<'_>]) -> Option<&'a BooleanArray> {
    let [argument] = arguments else {
        return None;
    };
    as_boolean(argument)
}

// The array of truth values that an argument is, if it is one.
fn as_boolean<'a>(argument: &'a Literal<'_>) -> Option<&'a BooleanArray> {
    let Literal::Array(array) = argument else {
        return None;
    };
    let AnyArray::Boolean(array) = array.as_array() else {
        return None;
    };
    Some(array)
}
